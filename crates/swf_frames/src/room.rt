// What a split takes of memory, before it changes anything.
ghost use Rattle.std.specs.Prelude.{◌≡◌, ◌+◌, ◌<◌, ◌≤◌, ◌^◌, ◌++◌, All, IfOk, OnOk, length, vec_len, vec_capacity};
ghost use Rattle.swf_frames.specs.Tree.{numbers, fresh};
ghost use Rattle.swf_frames.specs.Stacks.{rows, fresh_rows};
ghost use Rattle.swf_frames.specs.Room.{IsSpare};

use crate::stack::{Children, Stack};
use crate::strand_id::StrandId;
use std::alloc::{AllocError, Global};

/// The names of new strands, and a list for the frames of each.
#[derive(Drop)]
pub(crate) struct Room<F> {
    pub(crate) names: Vec<StrandId>,
    pub(crate) lists: Vec<Vec<F>>,
}

// The names of as many new strands as there are frames.
fn name_all<F>(alloc: Global, first: u64, frames: &[F]) -> Result<Vec<StrandId>, AllocError>
    requires { first + length frames.now < 2 ^ 64 }
    ensures { IfOk result (λ names. names.items ≡ numbers (fresh first frames.now)) }
{
    let mut names = Vec::new(alloc);
    for place in 0..frames.len() {
        names.push(StrandId::new(first + place as u64))?;
    }
    Ok(names)
}

// Lists with room for a frame each.
fn spare_lists<F: Drop>(alloc: Global, count: usize) -> Result<Vec<Vec<F>>, AllocError>
    ensures len { IfOk result (λ lists. vec_len lists ≡ count) }
    ensures spare { IfOk result (λ lists. All IsSpare lists.items) }
{
    let mut lists = Vec::new(alloc);
    for _place in 0..count {
        lists.push(Vec::with_capacity(alloc, 1)?)?;
    }
    Ok(lists)
}

// Room for a new stack of each of these frames.
pub(crate) fn make_room<F: Drop>(
    alloc: Global,
    stacks: &mut Vec<Stack<F>>,
    next: u64,
    frames: &[F],
) -> Result<Room<F>, AllocError>
    ensures stacks { stacks.new.items ≡ stacks.old.items }
    ensures room { OnOk result (vec_len stacks.new + length frames.now ≤ vec_capacity stacks.new) }
    ensures fits { OnOk result (next + length frames.now < 2 ^ 64) }
    ensures names { IfOk result (λ room. room.names.items ≡ numbers (fresh next frames.now)) }
    ensures len { IfOk result (λ room. vec_len room.lists ≡ length frames.now) }
    ensures spare { IfOk result (λ room. All IsSpare room.lists.items) }
{
    if u64::MAX - next < frames.len() as u64 {
        return Err(AllocError);
    }
    let names = name_all(alloc, next, frames)?;
    let lists = spare_lists(alloc, frames.len())?;
    stacks.reserve(frames.len())?;
    Ok(Room { names, lists })
}

// Adds a stack for each of the frames, in the lists that there are for them.
pub(crate) fn add_stacks<F: Drop>(
    stacks: &mut Vec<Stack<F>>,
    mut lists: Vec<Vec<F>>,
    parent: StrandId,
    first: u64,
    mut frames: Vec<F>,
)
    requires room { vec_len stacks.old + vec_len frames ≤ vec_capacity stacks.old }
    requires fits { first + vec_len frames < 2 ^ 64 }
    requires len { vec_len lists ≡ vec_len frames }
    requires spare { All IsSpare lists.items }
    ensures { rows stacks.new.items ≡ rows stacks.old.items ++ fresh_rows parent first frames.items }
{
    frames.reverse();
    let mut next = first;
    while let Some(frame) = frames.pop() {
        let Some(mut list) = lists.pop() else {
            unreachable!();
        };
        list.push_reserved(frame);
        stacks.push_reserved(Stack {
            strand: StrandId::new(next),
            parent: Some(parent),
            children: Children::none(),
            frames: list,
        });
        next += 1;
    }
}
