// Every used key, with the place at which it was used.
ghost use Rattle.std.specs.Prelude.{◌≡◌, ◌<◌, ◌++◌, ◌∷◌, [], None, OnOk};
ghost use Rattle.swf_registry.specs.UsedKey.{used_at, sought_key};

use crate::sought::Sought;
use indexmap::IndexMap;
use std::alloc::{AllocError, Global};
use std::marker::Model;
use swf_meaning::Key;

/// The used keys. Contracts see each with its place, in the order of use, and how many more fit without memory.
#[derive(Drop)]
pub struct UsedKeys {
    places: IndexMap<Key, u64>,
}

impl Model for UsedKeys {
    ghost use Rattle.indexmap.specs.IndexMap.{spare};
    ghost use Rattle.swf_registry.specs.Held.{HeldKeys, held_keys_code};

    ghost Value = { HeldKeys };

    ghost coded = { held_keys_code };

    ghost view = { λ k. record { keys = k.places.entries; room = spare k.places } };
}

impl UsedKeys {
    /// No key was used. It takes no memory.
    pub fn new(alloc: Global) -> UsedKeys
        ensures { result.keys ≡ [] }
    {
        UsedKeys {
            places: IndexMap::new(alloc),
        }
    }

    /// Makes room for one key more.
    pub fn reserve(&mut self) -> Result<(), AllocError>
        ensures keys { self.new.keys ≡ self.old.keys }
        ensures room { OnOk result (0 < self.new.room) }
    {
        self.places.reserve(1)
    }

    /// The place at which a key was used. It takes no memory.
    pub fn place(&self, sought: Sought<'_>) -> Option<u64>
        ensures { result ≡ used_at (sought_key sought.entry) self.now.keys }
    {
        self.places.get(sought).copied()
    }

    /// A key that was not used is used at a place. It takes no memory.
    pub fn add(&mut self, key: Key, place: u64)
        requires new { used_at key self.old.keys ≡ None }
        requires room { 0 < self.old.room }
        ensures { self.new.keys ≡ self.old.keys ++ (key, place) ∷ [] }
    {
        self.places.insert(key, place).unwrap();
    }
}
