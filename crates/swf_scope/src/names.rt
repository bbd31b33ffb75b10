// The names of a list.
ghost use Rattle.std.specs.Prelude.{◌≡◌, OnOk, IfOk, not, is_some};
ghost use Rattle.swf_scope.specs.Names.{nowhere, added, places_of, task_names, error_names, retry_names};
ghost use Rattle.swf_scope.specs.NamesView.{places_in};
ghost use Rattle.swf_document.specs.TaskNode.{tasks_of};

use indexmap::IndexMap;
use std::alloc::{AllocError, Global};
use swf_document::{Named, NamedError, NamedRetry};
use swf_text::Text;

/// Names, each with the place in a list at which it stands first.
#[derive(Drop)]
pub struct Names {
    places: IndexMap<Text, usize>,
}

impl Names {
    /// No names. It takes no memory.
    pub fn new(alloc: Global) -> Names
        ensures { places_in result ≡ nowhere }
    {
        Names {
            places: IndexMap::new(alloc),
        }
    }

    // No names, with room for so many.
    fn with_room(alloc: Global, count: usize) -> Result<Names, AllocError>
        ensures { IfOk result (λ names. places_in names ≡ nowhere) }
    {
        let places = IndexMap::with_capacity(alloc, count)?;
        Ok(Names { places })
    }

    /// The place of a name.
    pub fn find(&self, name: &Text) -> Option<usize>
        ensures { result ≡ places_in self.now name.now }
    {
        self.places.get(name).copied()
    }

    /// Whether a name stands among these.
    pub fn has(&self, name: &Text) -> bool
        ensures { result ≡ is_some (places_in self.now name.now) }
    {
        self.find(name).is_some()
    }

    /// One more name, if it is a new one; says whether it is.
    pub fn add(&mut self, name: &Text, place: usize) -> Result<bool, AllocError>
        ensures names { OnOk result (places_in self.new ≡ added (places_in self.old) name.now place) }
        ensures fresh { IfOk result (λ fresh. fresh ≡ not (is_some (places_in self.old name.now))) }
    {
        if self.has(name) {
            return Ok(false);
        }
        self.places.insert(name.copy()?, place)?;
        Ok(true)
    }
}

/// The names of some tasks.
pub fn names_of_tasks(alloc: Global, tasks: &[Named]) -> Result<Names, AllocError>
    ensures { IfOk result (λ names. places_in names ≡ places_of (task_names (tasks_of tasks.now))) }
{
    let mut names = Names::with_room(alloc, tasks.len())?;
    for (place, task) in tasks.iter().enumerate() {
        names.add(&task.name, place)?;
    }
    Ok(names)
}

/// The names of some errors.
pub fn names_of_errors(alloc: Global, errors: &[NamedError]) -> Result<Names, AllocError>
    ensures { IfOk result (λ names. places_in names ≡ places_of (error_names errors.now)) }
{
    let mut names = Names::with_room(alloc, errors.len())?;
    for (place, error) in errors.iter().enumerate() {
        names.add(&error.name, place)?;
    }
    Ok(names)
}

/// The names of some retry policies.
pub fn names_of_retries(alloc: Global, retries: &[NamedRetry]) -> Result<Names, AllocError>
    ensures { IfOk result (λ names. places_in names ≡ places_of (retry_names retries.now)) }
{
    let mut names = Names::with_room(alloc, retries.len())?;
    for (place, retry) in retries.iter().enumerate() {
        names.add(&retry.name, place)?;
    }
    Ok(names)
}
