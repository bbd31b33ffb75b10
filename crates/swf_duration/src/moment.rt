// Moments of time.
ghost use Rattle.std.specs.Prelude.{◌≡◌, ◌≤◌};

use std::marker::Model;

/// A number of milliseconds since the start of 1970, of at most 52 bits. Contracts see it as the number.
#[derive(Clone, Copy, Debug, PartialEq, Eq, PartialOrd, Ord)]
pub struct Moment {
    milliseconds: u64,
}

impl Model for Moment {
    ghost use Rattle.std.specs.Prelude.{ℕ, ◌≤◌};

    ghost Value = { ℕ };

    ghost view = { λ m. m.milliseconds };

    ghost invariant = { λ m. m.milliseconds ≤ 4503599627370495 };

    ghost inverse = { λ n. record { milliseconds = n } };
}

impl Moment {
    /// The last moment.
    pub const LAST: u64 = 4_503_599_627_370_495;

    pub fn new(milliseconds: u64) -> Moment
        requires { milliseconds ≤ 4503599627370495 }
        ensures { result ≡ milliseconds }
    {
        Moment { milliseconds }
    }

    pub fn milliseconds(self) -> u64
        ensures value { result ≡ self }
        ensures within { result ≤ 4503599627370495 }
    {
        self.milliseconds
    }
}
