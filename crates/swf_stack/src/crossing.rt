// What crosses threads: every part of a strand may go to another, and be lent to several.
use crate::made::{Frame, Made, Stand, Top};
use crate::running::Running;

// Takes only what crosses threads.
fn crosses<T: Send + Sync>(_: &T) {}

/// What a strand holds crosses threads, and so does what a step makes. A call does nothing: that it stands here is what is checked.
pub fn stand_crosses(running: &Running, frame: &Frame, top: &Top, stand: &Stand, made: &Made) {
    crosses(running);
    crosses(frame);
    crosses(top);
    crosses(stand);
    crosses(made);
}
