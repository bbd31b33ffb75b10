// What an instance listens for.
ghost use Rattle.std.specs.Prelude.{◌≡◌, ◌↔◌, IsTrue, IfOk, OnOk, true};
ghost use Rattle.swf_listeners.specs.Wanted.{nothing, wanted_of, with_listen};

use std::alloc::{AllocError, Global};
use std::collections::BTreeSet;
use std::marker::Model;
use swf_text::Text;

/// What an instance listens for now: events of some types, each once and in ascending order, and maybe events whose type is not told.
#[derive(Drop)]
pub struct Wanted {
    pub(crate) types: BTreeSet<Text>,
    pub(crate) any: bool,
}

impl Model for Wanted {
    ghost use Rattle.swf_listeners.specs.Wanted.{Wanted, wanted_code};

    ghost Value = { Wanted };

    ghost coded = { wanted_code };

    ghost view = { λ w. record { types = w.types.keys; any = w.any } };
}

impl Wanted {
    /// Nothing. It takes no memory.
    pub(crate) fn new(alloc: Global) -> Wanted
        ensures { result ≡ nothing }
    {
        Wanted {
            types: BTreeSet::new(alloc),
            any: false,
        }
    }

    /// What all these listens want: each is for events of a type, or for events whose type is not told.
    pub fn of(alloc: Global, listens: &[Option<Text>]) -> Result<Wanted, AllocError>
        ensures { IfOk result (λ w. w ≡ wanted_of listens.now) }
    {
        let mut wanted = Wanted::new(alloc);
        for listen in listens {
            wanted.want(listen)?;
        }
        Ok(wanted)
    }

    /// Whether it is nothing.
    pub(crate) fn is_nothing(&self) -> bool
        ensures { IsTrue result ↔ (self.now ≡ nothing) }
    {
        !self.any && self.types.is_empty()
    }

    // One listen more.
    fn want(&mut self, listen: &Option<Text>) -> Result<(), AllocError>
        ensures { OnOk result (self.new ≡ with_listen self.old listen.now) }
    {
        match listen {
            Some(event_type) => {
                self.types.insert(event_type.copy()?)?;
            }
            None => self.any = true,
        }
        Ok(())
    }
}
