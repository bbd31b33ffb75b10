// Names of strands.
ghost use Rattle.std.specs.Prelude.{◌≡◌};

use std::marker::Model;

/// The number of a strand, which no other strand of its forest ever has. Contracts see it as the number.
#[derive(Clone, Copy, Debug, PartialEq, Eq, PartialOrd, Ord, Hash)]
pub struct StrandId {
    number: u64,
}

impl Model for StrandId {
    ghost use Rattle.std.specs.Prelude.{ℕ};

    ghost Value = { ℕ };

    ghost view = { λ s. s.number };

    ghost inverse = { λ n. record { number = n } };
}

impl StrandId {
    pub(crate) fn new(number: u64) -> StrandId
        ensures { result ≡ number }
    {
        StrandId { number }
    }

    /// The number.
    pub fn number(self) -> u64
        ensures { result ≡ self }
    {
        self.number
    }
}
