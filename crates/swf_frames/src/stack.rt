// The stack of one strand, and how it is found among others.
ghost use Rattle.std.specs.Prelude.{◌≡◌, ◌<◌, ◌-◌, ℕ, Some, None, is_some, slice_get, IfOk, IfSome, IfNone, vec_len};
ghost use Rattle.std.specs.Borrow.{Lends, sem};
ghost use Rattle.std.specs.Vec.{with_item};
ghost use Rattle.swf_frames.specs.Tree.{find};
ghost use Rattle.swf_frames.specs.Stacks.{links, number_at, rows, strands_of, has_number, is_child_of, no_children, Rises};

use crate::frame::CopyFrame;
use crate::strand_id::StrandId;
use std::alloc::{AllocError, Global};

/// How many children a strand has, and the number of the first of them. Those of the others follow it.
#[derive(Clone, Copy)]
pub(crate) struct Children {
    pub(crate) first: u64,
    pub(crate) count: usize,
}

impl Children {
    pub(crate) fn none() -> Children
        ensures { result ≡ no_children }
    {
        Children { first: 0, count: 0 }
    }
}

/// The frames of one strand from the bottom to the top, the strand that it was split from, and those
/// that it was split into.
#[derive(Drop)]
pub(crate) struct Stack<F> {
    pub(crate) strand: StrandId,
    pub(crate) parent: Option<StrandId>,
    pub(crate) children: Children,
    pub(crate) frames: Vec<F>,
}

impl<F> Stack<F> {
    ghost use Rattle.swf_frames.specs.contracts.stack.Stack.{the_row};

    // Whether it was split from a strand.
    pub(crate) fn is_child_of(&self, parent: StrandId) -> bool
        ensures { result ≡ is_child_of parent self.now.parent }
    {
        match self.parent {
            Some(above) => above.number() == parent.number(),
            None => false,
        }
    }

    // The frame at the top, for writing.
    pub(crate) fn top_mut(&mut self) -> &mut F
        requires { 0 < vec_len self.old.frames }
        ensures* lends { sem 𝓛 (Lends (the_row F.row) F.row self.entry result (λ w. record self.old { frames = with_item self.old.frames (vec_len self.old.frames - 1) w })) }
        ensures value { slice_get self.old.frames.items (vec_len self.old.frames - 1) ≡ Some result.now }
    {
        let last = self.frames.len() - 1;
        &mut self.frames[last]
    }
}

// Where the stack of a strand may stand: there, where the numbers from the second stack on follow each other, as those of the
// branches of one `fork` do.
fn guess<F>(stacks: &[Stack<F>], strand: StrandId) -> usize {
    if stacks.len() < 2 {
        return 0;
    }
    let second = stacks[1].strand.number();
    if strand.number() < second {
        return 0;
    }
    ((strand.number() - second) as usize).saturating_add(1)
}

// Where the stack of a strand stands, if there is one.
pub(crate) fn place_of<F>(stacks: &[Stack<F>], strand: StrandId) -> Option<usize>
    requires { (next : ℕ) × Rises 0 (links (rows stacks.now)) next }
    ensures found { IfSome result (λ place. number_at (rows stacks.now) place ≡ Some strand) }
    ensures told { is_some result ≡ has_number (rows stacks.now) strand }
    ensures none { IfNone result (find (strands_of (rows stacks.now)) strand ≡ None) }
{
    let place = guess(stacks, strand);
    if place < stacks.len() && stacks[place].strand.number() == strand.number() {
        return Some(place);
    }
    searched(stacks, strand)
}

// The same, by halves.
fn searched<F>(stacks: &[Stack<F>], strand: StrandId) -> Option<usize>
    requires { (next : ℕ) × Rises 0 (links (rows stacks.now)) next }
    ensures found { IfSome result (λ place. number_at (rows stacks.now) place ≡ Some strand) }
    ensures told { is_some result ≡ has_number (rows stacks.now) strand }
    ensures none { IfNone result (find (strands_of (rows stacks.now)) strand ≡ None) }
{
    let mut low = 0;
    let mut high = stacks.len();
    while low < high {
        let middle = low + (high - low) / 2;
        let number = stacks[middle].strand.number();
        if number == strand.number() {
            return Some(middle);
        }
        if number < strand.number() {
            low = middle + 1;
        } else {
            high = middle;
        }
    }
    None
}

// The same frames once more.
fn copy_frames<F: CopyFrame>(alloc: Global, frames: &[F]) -> Result<Vec<F>, AllocError>
    ensures { IfOk result (λ copies. copies.items ≡ frames.now) }
{
    let mut copies = Vec::with_capacity(alloc, frames.len())?;
    for frame in frames {
        copies.push(frame.copy(alloc)?)?;
    }
    Ok(copies)
}

// The same stacks once more.
pub(crate) fn copy_stacks<F: CopyFrame>(
    alloc: Global,
    stacks: &[Stack<F>],
) -> Result<Vec<Stack<F>>, AllocError>
    ensures { IfOk result (λ copies. rows copies.items ≡ rows stacks.now) }
{
    let mut copies = Vec::with_capacity(alloc, stacks.len())?;
    for stack in stacks {
        copies.push(Stack {
            strand: stack.strand,
            parent: stack.parent,
            children: stack.children,
            frames: copy_frames(alloc, &stack.frames)?,
        })?;
    }
    Ok(copies)
}
