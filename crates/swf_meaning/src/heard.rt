// What a `listen` heard.
ghost use Rattle.std.specs.Prelude.{◌≡◌, IfOk};

use std::alloc::{AllocError, Global};
use swf_cloudevents::Event;

/// An event that a `listen` took.
#[derive(Drop)]
pub struct Heard {
    /// The place of the filter that took it.
    pub filter: usize,
    pub event: Event,
}

impl Heard {
    /// The same once more. It copies no values.
    pub fn copy(&self) -> Result<Heard, AllocError>
        ensures { IfOk result (λ h. h ≡ self.now) }
    {
        let event = self.event.copy()?;
        Ok(Heard {
            filter: self.filter,
            event,
        })
    }
}
