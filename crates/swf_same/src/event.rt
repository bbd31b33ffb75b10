// Events.
use crate::same::{Same, same_items};
use swf_cloudevents::{Event, NamedValues, Payload};

impl Same for NamedValues {
    fn is_same(&self, other: &NamedValues) -> bool {
        same_items(self.as_slice(), other.as_slice())
    }
}

impl Same for Payload {
    fn is_same(&self, other: &Payload) -> bool {
        match (self, other) {
            (Payload::Absent, Payload::Absent) => true,
            (Payload::Value(a), Payload::Value(b)) => a.is_same(b),
            (Payload::Base64(a), Payload::Base64(b)) => a.is_same(b),
            _ => false,
        }
    }
}

impl Same for Event {
    fn is_same(&self, other: &Event) -> bool {
        self.id.is_same(&other.id)
            && self.source.is_same(&other.source)
            && self.kind.is_same(&other.kind)
            && self.attributes.is_same(&other.attributes)
            && self.payload.is_same(&other.payload)
    }
}
