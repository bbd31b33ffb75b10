// What crosses threads: a whole instance may go to another, and be lent to several.
use crate::machine::Machine;

// Takes only what crosses threads.
fn crosses<T: Send + Sync>(_: &T) {}

/// An instance crosses threads. A call does nothing: that it stands here is what is checked.
pub fn machine_crosses(machine: &Machine) {
    crosses(machine);
}
