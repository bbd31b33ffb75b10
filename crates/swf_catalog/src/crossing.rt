// What crosses threads: every part of a loaded document may go to another, and be lent to several.
use crate::round::Round;
use crate::shared::SharedDocument;
use crate::task::TaskRef;

// Takes only what crosses threads.
fn crosses<T: Send + Sync>(_: &T) {}

/// A loaded document crosses threads, and so do a task of it and for what a task runs its list. A call does nothing: that it stands here is
/// what is checked.
pub fn task_crosses(document: &SharedDocument, task: &TaskRef, round: &Round) {
    crosses(document);
    crosses(task);
    crosses(round);
}
