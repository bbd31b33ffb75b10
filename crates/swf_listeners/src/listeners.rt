// Who may take an event.
ghost use Rattle.std.specs.Prelude.{◌≡◌, ◌↔◌, IsTrue, ◌≤◌, ◌<◌, ◌+◌, ◌++◌, ◌∷◌, ◌||◌, ℕ, List, [], true, false, length, slice_index_or, slice_set, OnOk, IfOk};
ghost use Rattle.std.specs.Option.{option_map_or};
ghost use Rattle.swf_listeners.specs.Wanted.{nothing};
ghost use Rattle.swf_listeners.specs.Listeners.{Fits, numbers_where, places_of, wanted_by, who};

use crate::marks::Marks;
use crate::wanted::Wanted;
use std::alloc::{AllocError, Global};
use std::marker::Model;
use swf_text::Text;

/// What each instance listens for, by its number, so that an event is offered to those alone that may take it. Contracts see what
/// each wants, for how many numbers there is a place at a type, and how many instances more fit.
#[derive(Drop)]
pub struct Listeners {
    wanted: Vec<Wanted>,
    marks: Marks,
    /// Whether the instance of a number listens for events whose type is not told.
    any: Vec<bool>,
}

impl Model for Listeners {
    ghost use Rattle.std.specs.Prelude.{◌-◌, min};
    ghost use Rattle.std.specs.Vec.{vec_len, vec_capacity};
    ghost use Rattle.swf_listeners.specs.Listeners.{Listeners, listeners_code};

    ghost Value = { Listeners };

    ghost coded = { listeners_code };

    ghost use Rattle.swf_listeners.specs.Marks.{AreMarked, places_in};

    ghost view = { λ l. record { wanted = l.wanted.items; places = places_in l.marks; room = min (vec_capacity l.wanted - vec_len l.wanted) (vec_capacity l.any - vec_len l.any) } };

    ghost invariant = { λ l. AreMarked l.wanted.items l.marks l.any.items };
}

impl Listeners {
    /// Of no instance. It takes no memory.
    pub fn new(alloc: Global) -> Listeners
        ensures { result.wanted ≡ [] }
    {
        Listeners {
            wanted: Vec::new(alloc),
            marks: Marks::new(alloc),
            any: Vec::new(alloc),
        }
    }

    /// Makes room for so many new instances.
    pub fn reserve(&mut self, additional: usize) -> Result<(), AllocError>
        ensures wanted { self.new.wanted ≡ self.old.wanted }
        ensures places { self.new.places ≡ self.old.places }
        ensures room { OnOk result (additional ≤ self.new.room) }
    {
        self.wanted.reserve(additional)?;
        self.any.reserve(additional)
    }

    /// A new instance wants nothing. It takes no memory.
    pub fn add(&mut self, alloc: Global)
        requires { 0 < self.old.room }
        ensures wanted { self.new.wanted ≡ self.old.wanted ++ nothing ∷ [] }
        ensures places { self.new.places ≡ self.old.places }
        ensures room { self.old.room ≤ self.new.room + 1 }
    {
        self.wanted.push(Wanted::new(alloc)).unwrap();
        self.any.push(false).unwrap();
    }

    /// Makes places for the number of an instance at each type that is wanted. A type keeps its places, so each takes memory but once.
    pub fn make_room(
        &mut self,
        alloc: Global,
        number: usize,
        wanted: &Wanted,
    ) -> Result<(), AllocError>
        requires { number < length self.old.wanted }
        ensures wanted { self.new.wanted ≡ self.old.wanted }
        ensures more { (t : List ℕ) → places_of self.old.places t ≤ places_of self.new.places t }
        ensures fits { OnOk result (Fits self.new.places number wanted.now) }
        ensures room { self.new.room ≡ self.old.room }
    {
        for event_type in wanted.types.iter() {
            self.marks.make_room(alloc, event_type, number + 1)?;
        }
        Ok(())
    }

    /// Sets what an instance wants in place of what it wanted. It takes no memory.
    pub fn set(&mut self, number: usize, wanted: Wanted)
        requires known { number < length self.old.wanted }
        requires fits { Fits self.old.places number wanted }
        ensures wanted { self.new.wanted ≡ slice_set self.old.wanted number wanted }
        ensures places { (t : List ℕ) → places_of self.new.places t ≡ places_of self.old.places t }
        ensures room { self.new.room ≡ self.old.room }
    {
        let before = &self.wanted[number];
        self.marks.mark_all(&before.types, number, false);
        self.marks.mark_all(&wanted.types, number, true);
        self.any[number] = wanted.any;
        self.wanted[number] = wanted;
    }

    /// Whether the instance of a number wants nothing.
    pub fn wants_nothing(&self, number: usize) -> bool
        requires { number < length self.now.wanted }
        ensures { IsTrue result ↔ (wanted_by self.now.wanted number ≡ nothing) }
    {
        self.wanted[number].is_nothing()
    }

    /// The numbers of those that may take an event of a type, in ascending order.
    pub fn who(&self, alloc: Global, event_type: &Text) -> Result<Vec<usize>, AllocError>
        ensures { IfOk result (λ numbers. numbers.items ≡ who event_type.now self.now.wanted) }
    {
        numbers(alloc, &self.any, self.marks.flags.get(event_type))
    }
}

// The numbers whose flag is set among the first or among the others.
fn numbers(alloc: Global, any: &[bool], flags: Option<&Vec<bool>>) -> Result<Vec<usize>, AllocError>
    ensures { IfOk result (λ numbers. numbers.items ≡ numbers_where (λ n. slice_index_or any.now n false || slice_index_or (option_map_or (λ v. v.now.items) flags.entry []) n false) (length any.now)) }
{
    let mut numbers = Vec::new(alloc);
    for (number, any) in any.iter().enumerate() {
        if *any || is_set(flags, number) {
            numbers.push(number)?;
        }
    }
    Ok(numbers)
}

// Whether the flag of a number is there and set.
fn is_set(flags: Option<&Vec<bool>>, number: usize) -> bool
    ensures { result ≡ slice_index_or (option_map_or (λ v. v.now.items) flags.entry []) number false }
{
    match flags {
        Some(flags) => number < flags.len() && flags[number],
        None => false,
    }
}
