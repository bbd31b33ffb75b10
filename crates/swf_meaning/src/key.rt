// By what an outcome is known, so that none acts twice.
use swf_document::DocKey;
use swf_text::Text;

/// The key of a document, the id of an instance, the source and the id of an event, an activity, or a moment in milliseconds.
#[derive(PartialEq, Eq, Hash, Drop)]
pub enum Key {
    Document(DocKey),
    Instance(Text),
    Event(Text, Text),
    Activity(Text),
    Moment(u64),
}
