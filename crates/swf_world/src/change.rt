// Changes of the world.
ghost use Rattle.std.specs.Prelude.{◌≡◌};
ghost use Rattle.swf_world.specs.Prepares.{untold, or_memory};

use crate::refusal::PrepareFault;
use std::alloc::AllocError;
use swf_calls::CallReply;
use swf_catalog::Loaded;
use swf_document::DocKey;
use swf_instances::Hearing;
use swf_meaning::Key;
use swf_tasks::{BoxedMachine, Prepared};
use swf_text::Text;

/// What was installed.
#[derive(Clone, Copy)]
pub struct Installed {
    /// The number of labels before.
    pub place: u64,
    /// How many listens took the event that was told.
    pub taken: u32,
}

/// What a change adds with the key that it uses, or what an instance is after its step.
#[derive(Drop)]
pub enum ChangeKind {
    Load {
        key: DocKey,
        used: Key,
        loaded: Loaded,
    },
    Start {
        id: Text,
        used: Key,
        instance: BoxedMachine,
    },
    /// Those that took the event.
    Event {
        used: Key,
        heard: Vec<Hearing>,
    },
    /// The answer of a call of the instance of that number.
    Reply {
        number: usize,
        activity: Text,
        reply: CallReply,
    },
    /// The moment that is reached, in milliseconds.
    Moment(u64),
    /// The step of the instance of that number, and the others that took the event which goes out.
    Step {
        number: usize,
        prepared: Prepared,
        heard: Vec<Hearing>,
    },
}

/// A change that was prepared, for which the world has room.
#[derive(Drop)]
pub struct Change {
    pub(crate) kind: ChangeKind,
    /// How many listens take the event that is told.
    pub(crate) taken: u32,
}

/// A change of which no listen takes an event that is told.
pub fn untold(kind: ChangeKind) -> Change
    ensures { result ≡ untold kind }
{
    Change { kind, taken: 0 }
}

/// A change that was made, where memory was found.
pub fn ready(made: Result<Change, AllocError>) -> Result<Change, PrepareFault>
    ensures { result ≡ or_memory made }
{
    made.map_err(|_| PrepareFault::OutOfMemory)
}
