// The last moment that a clock told.
ghost use Rattle.std.specs.Prelude.{◌≡◌, None};
ghost use Rattle.swf_clock.specs.Clocks.{after_telling, ahead, at_once, moment_of};

use std::marker::Model;
use swf_duration::Moment;

/// What a clock told last. Contracts see it as that moment in milliseconds, or none.
#[derive(Drop)]
pub struct Clock {
    last: Option<Moment>,
}

impl Model for Clock {
    ghost use Rattle.std.specs.Prelude.{ℕ, Option};

    ghost Value = { Option ℕ };

    ghost view = { λ c. c.last };
}

impl Clock {
    /// Of a clock that told nothing yet.
    pub fn new() -> Clock
        ensures nothing { result ≡ None }
    {
        Clock { last: None }
    }

    /// The clock tells so many milliseconds. More than the last moment has are passed over.
    pub fn tell(&mut self, milliseconds: u64)
        ensures last { self.new ≡ after_telling self.old milliseconds }
    {
        if let Some(moment) = moment_of(milliseconds) {
            self.last = Some(moment);
        }
    }

    /// The moment that is journalled as soon as a clock tells so many milliseconds: it, where some wait is over at it, which `due` says.
    pub fn at_once(milliseconds: u64, due: bool) -> Option<Moment>
        ensures moment { result ≡ at_once milliseconds due }
    {
        if due { moment_of(milliseconds) } else { None }
    }

    /// The moment that is journalled before an outcome, accepted or refused, where the present one is `now`: the last that was told, where
    /// it is later.
    pub fn ahead(&self, now: Moment) -> Option<Moment>
        ensures moment { result ≡ ahead self.now now }
    {
        let last = self.last?;
        if last.milliseconds() > now.milliseconds() {
            Some(last)
        } else {
            None
        }
    }
}

// The moment of so many milliseconds, if there is one.
fn moment_of(milliseconds: u64) -> Option<Moment>
    ensures moment { result ≡ moment_of milliseconds }
{
    if milliseconds <= Moment::LAST {
        Some(Moment::new(milliseconds))
    } else {
        None
    }
}
