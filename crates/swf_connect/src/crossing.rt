// What crosses threads: connectors may go to another.
use crate::{HttpConnector, MemoryConnector, MemoryDial};

// Takes only what may go to another thread.
fn crosses<T: Send>(_: &T) {}

/// Connectors in memory may go to another thread. A call does nothing: that it stands here is what is checked.
pub fn connectors_cross(memory: &MemoryConnector, http: &HttpConnector<MemoryDial>) {
    crosses(memory);
    crosses(http);
}
