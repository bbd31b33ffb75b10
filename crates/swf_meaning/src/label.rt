// What happens to the world, one label after another.
use swf_calls::CallReply;
use swf_cloudevents::Event;
use swf_document::DocKey;
use swf_duration::Moment;
use swf_text::{Strand, Text};
use swf_value::Json;

/// One event of a run: what was handed in, or one step of an instance.
#[derive(Drop)]
pub enum Label {
    /// A document was loaded.
    Load(Json),
    /// An instance of a loaded document was started.
    Start { id: Text, key: DocKey, input: Json },
    /// An event was told.
    Event(Event),
    /// A call was answered.
    Reply { activity: Text, reply: CallReply },
    /// A moment was reached.
    Moment(Moment),
    /// An instance took one step on one of its strands.
    Step { id: Text, strand: Strand },
}

/// What can be handed in.
#[derive(Drop)]
pub enum Outcome {
    Load(Json),
    Start { id: Text, key: DocKey, input: Json },
    Event(Event),
    Reply { activity: Text, reply: CallReply },
    Moment(Moment),
}

/// What can be asked without changing anything.
#[derive(Drop)]
pub enum Query {
    /// The status of the instance of this id.
    Status(Text),
    /// What all instances wait for.
    Pending,
    /// The events that went out, from this number on.
    Outbox(u64),
    /// The labels from this place on.
    History(u64),
}

/// What a query is answered.
#[derive(Drop)]
pub enum Answer {
    /// The report of an instance.
    Status(Json),
    /// Calls, listens and timers.
    Pending(Json),
    /// Events that went out.
    Outbox(Json),
    /// Labels as they print.
    History(Json),
}
