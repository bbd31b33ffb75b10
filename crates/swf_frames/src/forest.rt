// A forest: the stacks of an instance.
ghost use Rattle.std.specs.Prelude.{◌≡◌, ◌↔◌, ◌≤◌, ℕ, ◌∷◌, [], None, Some, Err, IfOk, IfErr, OnOk, OnErr, IsSome, is_some, option_copied};
ghost use Rattle.swf_frames.specs.Tree.{planted, numbers, top, frames as frames_of, pushed, popped, replaced, with_top, child, parent, leaves, fresh, split, closed, count};
ghost use Rattle.swf_frames.specs.Paths.{AreDistinct};
ghost use Rattle.swf_frames.specs.Faults.{frame_in, frames_in};
ghost use Rattle.std.specs.Option.{option_copied_mut};
ghost use Rattle.std.specs.Borrow.{sem};

use crate::family::{drop_below, list_leaves, set_children};
use crate::faults::{PushFault, SplitFault};
use crate::frame::CopyFrame;
use crate::room::{Room, add_stacks, make_room};
use crate::stack::{Children, Stack, copy_stacks, place_of};
use crate::strand_id::StrandId;
use std::alloc::{AllocError, Global};
use std::marker::Model;
use std::mem;

/// The stacks of frames of one instance, whose strands form a tree. Contracts see it as the tree.
#[derive(Drop)]
pub struct Forest<F> {
    /// By rising number.
    stacks: Vec<Stack<F>>,
    /// The number of the next strand.
    next: u64,
}

impl<F> Model for Forest<F> {
    ghost use Rattle.swf_frames.specs.Tree.{Tree};
    ghost use Rattle.swf_frames.specs.TreeCode.{tree_code};

    ghost Value = { Tree F };

    ghost coded = { tree_code F.code };

    ghost use Rattle.swf_frames.specs.Stacks.{rows, strands_of};
    ghost use Rattle.swf_frames.specs.Kin.{IsForest};

    ghost view = { λ f. record { next = f.next; strands = strands_of (rows f.stacks.items) } };

    ghost invariant = { λ f. IsForest (rows f.stacks.items) f.next };
}

impl<F: Drop> Forest<F> {
    ghost use Rattle.swf_frames.specs.Lends.{LendsTop};

    /// A forest of one strand with one frame.
    pub fn new(alloc: Global, root: F) -> Result<Forest<F>, AllocError>
        ensures { IfOk result (λ forest. forest ≡ planted root) }
    {
        let mut frames = Vec::with_capacity(alloc, 1)?;
        frames.push(root)?;
        let mut stacks = Vec::with_capacity(alloc, 1)?;
        stacks.push(Stack {
            strand: StrandId::new(0),
            parent: None,
            children: Children::none(),
            frames,
        })?;
        Ok(Forest { stacks, next: 1 })
    }

    /// The strand that every other one comes from. No two strands have one number.
    pub fn root(&self) -> StrandId
        ensures root { numbers self.now.strands ≡ result ∷ [] }
        ensures distinct { AreDistinct self.now.strands }
    {
        self.stacks[0].strand
    }

    /// Puts a frame on top of a strand's.
    pub fn push(&mut self, strand: StrandId, frame: F) -> Result<(), PushFault<F>>
        ensures ok { OnOk result (self.new ≡ pushed self.old strand frame) }
        ensures err { OnErr result (self.new ≡ self.old) }
        ensures stale { (result ≡ Err (PushFault.Stale frame)) ↔ (frames_of self.old strand ≡ None) }
        ensures handed_back { IfErr result (λ fault. frame_in fault ≡ frame) }
    {
        let Some(place) = place_of(&self.stacks, strand) else {
            return Err(PushFault::Stale(frame));
        };
        if let Err(failed) = self.stacks[place].frames.push(frame) {
            return Err(PushFault::OutOfMemory(failed.value));
        }
        Ok(())
    }

    /// Takes the frame at the top of a strand.
    pub fn pop(&mut self, strand: StrandId) -> Option<F>
        ensures top { result ≡ top self.old strand }
        ensures left { self.new ≡ popped self.old strand }
    {
        let place = place_of(&self.stacks, strand)?;
        self.stacks[place].frames.pop()
    }

    /// The frame at the top of a strand.
    pub fn top(&self, strand: StrandId) -> Option<&F>
        ensures { option_copied result ≡ top self.now strand }
    {
        let place = place_of(&self.stacks, strand)?;
        self.stacks[place].frames.last()
    }

    /// The frame at the top of a strand, for writing.
    pub fn top_mut(&mut self, strand: StrandId) -> Option<&mut F>
        ensures* writes_back { sem 𝓛 (LendsTop F.row self.entry strand result) }
        ensures value { option_copied_mut result ≡ top self.old strand }
    {
        let place = place_of(&self.stacks, strand)?;
        if self.stacks[place].frames.is_empty() {
            None
        } else {
            Some(self.stacks[place].top_mut())
        }
    }

    /// Puts a frame in place of the top one of a strand and answers that, or hands it back where there is none.
    pub fn set_top(&mut self, strand: StrandId, frame: F) -> Result<F, F>
        ensures former { IfOk result (λ former. top self.old strand ≡ Some former) }
        ensures set { OnOk result (self.new ≡ with_top self.old strand frame) }
        ensures err { OnErr result (self.new ≡ self.old) }
        ensures handed_back { IfErr result (λ given. (given ≡ frame) × (top self.old strand ≡ None)) }
    {
        match self.top_mut(strand) {
            Some(top) => Ok(mem::replace(top, frame)),
            None => Err(frame),
        }
    }

    /// The frames of a strand, from the bottom to the top.
    pub fn frames(&self, strand: StrandId) -> Option<&[F]>
        ensures { option_copied result ≡ frames_of self.now strand }
    {
        let place = place_of(&self.stacks, strand)?;
        Some(self.stacks[place].frames.as_slice())
    }

    /// The child of a strand of this number, from 0.
    pub fn child(&self, strand: StrandId, number: usize) -> Option<StrandId>
        ensures { result ≡ child self.now strand number }
    {
        let place = place_of(&self.stacks, strand)?;
        let children = self.stacks[place].children;
        if number < children.count {
            // Each number is below the next one, so that the sum fits.
            prove!(children.first < self.next);
            Some(StrandId::new(children.first + number as u64))
        } else {
            None
        }
    }

    /// How many strands there are.
    pub fn count(&self) -> usize
        ensures { result ≡ count self.now.strands }
    {
        self.stacks.len()
    }

    /// The strand that a strand was split from.
    pub fn parent(&self, strand: StrandId) -> Option<StrandId>
        ensures { result ≡ parent self.now strand }
    {
        let place = place_of(&self.stacks, strand)?;
        self.stacks[place].parent
    }

    /// The strands with none below them, in order.
    pub fn strands(&self, alloc: Global) -> Result<Vec<StrandId>, AllocError>
        ensures { IfOk result (λ list. list.items ≡ leaves self.now.strands) }
    {
        let mut list = Vec::new(alloc);
        let root = self.root();
        list_leaves(&self.stacks[1..], root, &mut list)?;
        if list.is_empty() {
            list.push(root)?;
        }
        Ok(list)
    }

    /// Gives a strand one child for each frame.
    pub fn split(
        &mut self,
        alloc: Global,
        strand: StrandId,
        frames: Vec<F>,
    ) -> Result<Vec<StrandId>, SplitFault<F>>
        ensures ok { OnOk result (self.new ≡ split self.old strand frames.items) }
        ensures names { IfOk result (λ names. names.items ≡ numbers (fresh self.old.next frames.items)) }
        ensures unused { OnOk result ((n : ℕ) → self.old.next ≤ n → frames_of self.old n ≡ None) }
        ensures err { OnErr result (self.new ≡ self.old) }
        ensures stale { (result ≡ Err (SplitFault.Stale frames)) ↔ (frames_of self.old strand ≡ None) }
        ensures has_children { (result ≡ Err (SplitFault.HasChildren frames)) ↔ IsSome (child self.old strand 0) }
        ensures handed_back { IfErr result (λ fault. frames_in fault ≡ frames) }
    {
        let Some(place) = place_of(&self.stacks, strand) else {
            return Err(SplitFault::Stale(frames));
        };
        if self.stacks[place].children.count > 0 {
            return Err(SplitFault::HasChildren(frames));
        }
        let Ok(Room { names, lists }) = make_room(alloc, &mut self.stacks, self.next, &frames)
        else {
            return Err(SplitFault::OutOfMemory(frames));
        };
        let children = Children {
            first: self.next,
            count: frames.len(),
        };
        set_children(&mut self.stacks, place, children);
        let next = self.next + frames.len() as u64;
        add_stacks(&mut self.stacks, lists, strand, self.next, frames);
        self.next = next;
        Ok(names)
    }

    /// Drops all strands below a strand. Answers whether there is such a strand.
    pub fn close_children(&mut self, strand: StrandId) -> bool
        ensures told { result ≡ is_some (frames_of self.old strand) }
        ensures closed { self.new ≡ closed self.old strand }
    {
        let Some(place) = place_of(&self.stacks, strand) else {
            return false;
        };
        set_children(&mut self.stacks, place, Children::none());
        drop_below(&mut self.stacks, strand);
        true
    }

    /// Puts frames in place of a strand's and answers those, or hands them back where there is no
    /// such strand.
    pub fn replace(&mut self, strand: StrandId, frames: Vec<F>) -> Result<Vec<F>, Vec<F>>
        ensures former { IfOk result (λ former. frames_of self.old strand ≡ Some former.items) }
        ensures replaced { self.new ≡ replaced self.old strand frames.items }
        ensures distinct { AreDistinct self.new.strands }
        ensures stale { IfErr result (λ given. (given ≡ frames) × (frames_of self.old strand ≡ None)) }
    {
        match place_of(&self.stacks, strand) {
            Some(place) => Ok(mem::replace(&mut self.stacks[place].frames, frames)),
            None => Err(frames),
        }
    }
}

impl<F: CopyFrame> Forest<F> {
    /// The same tree once more.
    pub fn copy(&self, alloc: Global) -> Result<Forest<F>, AllocError>
        ensures { IfOk result (λ forest. forest ≡ self.now) }
    {
        let stacks = copy_stacks(alloc, &self.stacks)?;
        Ok(Forest {
            stacks,
            next: self.next,
        })
    }
}
