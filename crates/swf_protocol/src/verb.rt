// The first word of a line.
ghost use Rattle.std.specs.Prelude.{◌≡◌};
ghost use Rattle.swf_protocol.specs.Verbs.{verb_of};

/// Which command a line is to spell.
#[derive(Clone, Copy, Debug, PartialEq, Eq)]
pub(crate) enum Verb {
    Load,
    Start,
    Event,
    Reply,
    Moment,
    Settle,
    Status,
    Pending,
    Outbox,
    History,
    Quit,
}

/// The command of a first word.
pub(crate) fn verb_of(word: &str) -> Option<Verb>
    ensures { result ≡ verb_of word.now }
{
    match word {
        "load" => Some(Verb::Load),
        "start" => Some(Verb::Start),
        "event" => Some(Verb::Event),
        "reply" => Some(Verb::Reply),
        "moment" => Some(Verb::Moment),
        "settle" => Some(Verb::Settle),
        "status" => Some(Verb::Status),
        "pending" => Some(Verb::Pending),
        "outbox" => Some(Verb::Outbox),
        "history" => Some(Verb::History),
        "quit" => Some(Verb::Quit),
        _ => None,
    }
}
