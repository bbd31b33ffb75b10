// The rule of the channel: each number below the next one is in the queue, or was taken under one pass.
ghost use Rattle.std.specs.Prelude.{◌≡◌, ◌+◌, ◌-◌, ◌<◌, ◌++◌, [], ◌∷◌, true, false, length};
ghost use Rattle.swf_scheduler.specs.Rule.{all_parts, hand, Kept, Queued, Totals};

use crossbeam_channel::protocol::{Join, Lesson, Outcome, Protocol, Split};
use std::collections::LinkedList;

/// A job, with the number under which it was given.
#[derive(Drop)]
pub struct Job<W> {
    pub number: u64,
    pub work: W,
}

/// What a pass knows: its parts of the right to know the whole, whether it gives, what it gave and what it took. No value of it
/// is made.
pub struct Hand<W> {
    pub parts: u64,
    pub gives: bool,
    pub given: LinkedList<W>,
    pub taken: LinkedList<Job<W>>,
}

/// The rule.
pub struct Numbered;

impl<W> Protocol<Job<W>, Hand<W>> for Numbered {
    ghost use Rattle.std.specs.Prelude.{true, []};
    ghost use Rattle.swf_scheduler.specs.Rule.{all_parts, hand, Kept};

    ghost holds = { Kept };

    ghost first = { hand all_parts true [] [] };
}

/// A job is put into the queue.
pub struct Put;

impl<W> Outcome<Job<W>, Hand<W>> for Put {
    ghost then = { λ v x w. w ≡ hand v.parts v.gives (v.given ++ x.work ∷ []) v.taken };
}

impl<W> Lesson<Job<W>, Hand<W>> for Put {
    ghost fact = { λ v items. Queued v.given items };
}

/// A job is taken out of it.
pub struct Take;

impl<W> Outcome<Job<W>, Hand<W>> for Take {
    ghost then = { λ v x w. (w ≡ hand v.parts v.gives v.given (v.taken ++ x ∷ [])) × (v.parts ≡ all_parts → v.gives ≡ true → length v.taken < length v.given) };
}

impl<W> Lesson<Job<W>, Hand<W>> for Take {
    ghost fact = { λ v items. v.parts ≡ all_parts → v.gives ≡ true → Totals v items };
}

/// A worker's pass is split off.
pub struct Hire;

impl<W> Split<Hand<W>> for Hire {
    ghost left = { λ v. hand (v.parts - 1) v.gives v.given v.taken };

    ghost right = { λ v. hand 1 false [] [] };
}

/// A worker's pass is joined again.
pub struct Dismiss;

impl<W> Join<Hand<W>> for Dismiss {
    ghost both = { λ v w. hand (v.parts + w.parts) v.gives v.given (v.taken ++ w.taken) };

    ghost spent = { hand 0 false [] [] };
}
