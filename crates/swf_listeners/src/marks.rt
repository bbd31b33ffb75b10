// Which instances want events of a type.
ghost use Rattle.std.specs.Prelude.{◌≡◌, ◌≤◌, ℕ, List, [], false, if◌then◌else◌, length, slice_index_or, slice_set, OnOk, option_map};
ghost use Rattle.std.specs.List.{list_any};
ghost use Rattle.swf_text.specs.Same.{same};
ghost use Rattle.swf_listeners.specs.Marks.{flags_of};

use indexmap::IndexMap;
use std::alloc::{AllocError, Global};
use std::collections::BTreeSet;
use swf_text::Text;

/// For each type that was ever wanted, whether the instance of a number wants it. Past the last flag none does.
#[derive(Drop)]
pub(crate) struct Marks {
    pub(crate) flags: IndexMap<Text, Vec<bool>>,
}

impl Marks {
    pub(crate) fn new(alloc: Global) -> Marks
        ensures { (t : List ℕ) → flags_of result t ≡ [] }
    {
        Marks {
            flags: IndexMap::new(alloc),
        }
    }

    /// Makes flags for so many instances at a type, where it has fewer.
    pub(crate) fn make_room(
        &mut self,
        alloc: Global,
        event_type: &Text,
        places: usize,
    ) -> Result<(), AllocError>
        ensures same { (t : List ℕ) (n : ℕ) → slice_index_or (flags_of self.new t) n false ≡ slice_index_or (flags_of self.old t) n false }
        ensures more { (t : List ℕ) → length (flags_of self.old t) ≤ length (flags_of self.new t) }
        ensures room { OnOk result (places ≤ length (flags_of self.new event_type.now)) }
    {
        if let Some(flags) = self.flags.get_mut(event_type) {
            return lengthen(flags, places);
        }
        let mut flags = Vec::new(alloc);
        flags.resize(places, false)?;
        self.flags.insert(event_type.copy()?, flags)?;
        Ok(())
    }

    /// Writes the flag of an instance at a type, where there is one.
    pub(crate) fn mark(&mut self, event_type: &Text, number: usize, wanted: bool)
        ensures { (t : List ℕ) → flags_of self.new t ≡ (if same event_type.now t then slice_set (flags_of self.old t) number wanted else flags_of self.old t) }
    {
        if let Some(flags) = self.flags.get_mut(event_type) {
            write(flags, number, wanted);
        }
    }

    /// Writes the flags of an instance at these types, where there are some.
    pub(crate) fn mark_all(&mut self, types: &BTreeSet<Text>, number: usize, wanted: bool)
        ensures { (t : List ℕ) → flags_of self.new t ≡ (if list_any (same t) types.now.keys then slice_set (flags_of self.old t) number wanted else flags_of self.old t) }
    {
        for event_type in types.iter() {
            self.mark(event_type, number, wanted);
        }
    }
}

// At least so many flags.
fn lengthen(flags: &mut Vec<bool>, places: usize) -> Result<(), AllocError>
    ensures same { (n : ℕ) → slice_index_or flags.new.items n false ≡ slice_index_or flags.old.items n false }
    ensures more { length flags.old.items ≤ length flags.new.items }
    ensures room { OnOk result (places ≤ length flags.new.items) }
{
    if flags.len() < places {
        flags.resize(places, false)?;
    }
    Ok(())
}

// Writes the flag of a number, where there is one.
fn write(flags: &mut Vec<bool>, number: usize, wanted: bool)
    ensures { flags.new.items ≡ slice_set flags.old.items number wanted }
{
    if number < flags.len() {
        flags[number] = wanted;
    }
}
