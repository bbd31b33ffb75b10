// Why a label is not taken.
use swf_document::Faults;
use swf_duration::Moment;

/// Why a label is not taken, by the first cause.
#[derive(Drop)]
pub enum Refusal {
    /// The value is no document, for these faults.
    Refused(Faults),
    /// Its key was used at this place.
    Duplicate { place: u64 },
    /// The call is not open.
    Stale,
    /// The document of the key is not loaded.
    UnknownDocument,
    /// No instance has the id.
    UnknownInstance,
    /// There are as many documents, or instances, as there may be.
    Full,
    /// The moment is not above the one that was reached.
    Past { now: Moment },
    /// The strand cannot take a step.
    NotEnabled,
}

/// Why a change was not prepared.
#[derive(Drop)]
pub enum PrepareFault {
    Refused(Refusal),
    OutOfMemory,
}
