// An event (CloudEvents 1.0.2, "Context Attributes" and "Event Data").
use crate::named::NamedValues;
use swf_text::Text;
use swf_value::Json;

/// Something that happened, as it is told.
#[derive(Drop)]
pub struct Event {
    pub id: Text,
    pub source: Text,
    /// The attribute `type`.
    pub kind: Text,
    /// The optional attributes and the extensions.
    pub attributes: NamedValues,
    pub payload: Payload,
}

/// What an event carries.
#[derive(Drop)]
pub enum Payload {
    Absent,
    Value(Json),
    /// Bytes, in base64 (RFC 4648, section 4).
    Base64(Text),
}
