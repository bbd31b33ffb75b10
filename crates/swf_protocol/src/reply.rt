// The replies of a session.
use crate::command::LineFault;
use swf_cloudevents::FaultKind;
use swf_document::Faults;
use swf_duration::Moment;
use swf_text::Text;
use swf_value::Json;

/// What an input is answered.
#[derive(Drop)]
pub enum Reply {
    /// A document was loaded; so many labels came before.
    Loaded(u64),
    /// An instance was started; so many labels came before.
    Started(u64),
    /// An event was told, and so many strands took it; so many labels came before.
    Accepted { place: u64, taken: u32 },
    /// A call was answered; so many labels came before.
    Replied(u64),
    /// A moment was reached; so many labels came before.
    Reached(u64),
    /// So many steps were taken, and no more can be.
    Quiet(u64),
    /// So many steps were taken, and more can be.
    Budget(u64),
    /// The report of an instance.
    Report(Json),
    /// What all instances wait for.
    Pending(Json),
    /// Events that went out.
    Outbox(Json),
    /// Labels of the history as they print.
    History(Json),
    /// The session ends.
    Quit,
    /// The line spells no command.
    BadLine(LineFault),
    /// The value is no event: the attribute, and what is wrong with it.
    BadEvent { attribute: Text, kind: FaultKind },
    /// The line is longer than a line may be.
    TooLong,
    /// The value is no document, for these faults.
    Refused(Faults),
    /// The same was taken before, when so many labels came before it.
    Duplicate(u64),
    /// No document of that key was loaded.
    UnknownDocument,
    /// There is no instance of that id.
    UnknownInstance,
    /// No call of that activity is open.
    Stale,
    /// The moment is not above the present one, which is this.
    Past(Moment),
    /// No more of its kind are taken.
    Full,
    /// No memory was found for the command.
    Memory,
}
