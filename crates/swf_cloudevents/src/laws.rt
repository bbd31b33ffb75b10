// The laws of events.
ghost use Rattle.swf_cloudevents.specs.EventLaws.{EventLaws};

/// What an event is written as is read as the same event and nests no deeper than what it was read from, and no two events
/// are written as one value.
pub fn event_laws()
    ensures { EventLaws }
{}
