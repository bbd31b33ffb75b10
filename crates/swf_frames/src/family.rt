// Which strands stand below which.
ghost use Rattle.std.specs.Prelude.{◌≡◌, ◌<◌, ◌++◌, ℕ, [], vec_len, vec_capacity, OnOk};
ghost use Rattle.swf_frames.specs.Tree.{leaves};
ghost use Rattle.swf_frames.specs.Kin.{with_children};
ghost use Rattle.swf_frames.specs.Stacks.{rows, links, under, is_below, kept, Rises};

use crate::stack::{Children, Stack, place_of};
use crate::strand_id::StrandId;
use std::alloc::AllocError;

// Sets which children the strand at a place has.
pub(crate) fn set_children<F>(stacks: &mut Vec<Stack<F>>, place: usize, children: Children)
    requires { place < vec_len stacks.old }
    ensures rows { rows stacks.new.items ≡ with_children (rows stacks.old.items) place children }
    ensures len { vec_len stacks.new ≡ vec_len stacks.old }
    ensures capacity { vec_capacity stacks.new ≡ vec_capacity stacks.old }
{
    stacks[place].children = children;
}

// Lists the leaves below a strand.
pub(crate) fn list_leaves<F>(
    stacks: &[Stack<F>],
    parent: StrandId,
    list: &mut Vec<StrandId>,
) -> Result<(), AllocError>
    ensures { OnOk result (list.new.items ≡ list.old.items ++ leaves (under parent (rows stacks.now))) }
{
    let mut place = 0;
    while place < stacks.len() {
        let stack = &stacks[place];
        place += 1;
        if stack.is_child_of(parent) {
            let before = list.len();
            list_leaves(&stacks[place..], stack.strand, list)?;
            if list.len() == before {
                list.push(stack.strand)?;
            }
        }
    }
    Ok(())
}

// Whether what has this parent is below a strand, where these are all that are not.
fn is_below<F>(done: &[Stack<F>], parent: Option<StrandId>, strand: StrandId) -> bool
    requires { (next : ℕ) × Rises 0 (links (rows done.now)) next }
    ensures { result ≡ is_below strand (rows done.now) parent }
{
    match parent {
        None => false,
        Some(above) => above.number() == strand.number() || place_of(done, above).is_none(),
    }
}

// Drops all that is below a strand.
pub(crate) fn drop_below<F: Drop>(stacks: &mut Vec<Stack<F>>, strand: StrandId)
    requires { (next : ℕ) × Rises 0 (links (rows stacks.old.items)) next }
    ensures { rows stacks.new.items ≡ kept strand [] (rows stacks.old.items) }
{
    let mut done = 0;
    for place in 0..stacks.len() {
        let parent = stacks[place].parent;
        if !is_below(&stacks[..done], parent, strand) {
            stacks.swap(done, place);
            done += 1;
        }
    }
    stacks.truncate(done);
}
