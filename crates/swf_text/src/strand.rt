// The name of a single line of control in an instance.
ghost use Rattle.std.specs.Prelude.{◌≡◌, []};

use std::alloc::Global;
use std::marker::Model;

/// A strand, named by the numbers of its branches from the outside in. Contracts see it as that list.
#[derive(Drop)]
pub struct Strand {
    branches: Vec<u16>,
}

impl Model for Strand {
    ghost use Rattle.std.specs.Prelude.{ℕ, List};

    ghost Value = { List ℕ };

    ghost view = { λ s. s.branches.items };
}

impl Strand {
    /// The strand outside every branch. It takes no memory.
    pub fn root(alloc: Global) -> Strand
        ensures { result ≡ [] }
    {
        Strand {
            branches: Vec::new(alloc),
        }
    }

    /// The strand of these branches. It takes no memory.
    pub fn of(branches: Vec<u16>) -> Strand
        ensures { result ≡ branches.items }
    {
        Strand { branches }
    }

    /// The numbers of the branches.
    pub fn as_slice(&self) -> &[u16]
        ensures { result.now ≡ self.now }
    {
        self.branches.as_slice()
    }
}
