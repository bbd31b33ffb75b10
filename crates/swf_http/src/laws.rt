// What holds of all bytes that messages are read from.
ghost use Rattle.swf_http.specs.Requests.{SaysRequest};
ghost use Rattle.swf_http.specs.Responses.{SaysResponse};
ghost use Rattle.swf_http.specs.Verdicts.{OneVerdict};

/// All bytes have one verdict on a request at most, so it doesn't matter how a source cuts them.
pub fn requests_are_one()
    ensures { OneVerdict SaysRequest }
{}

/// The same for a response, whether a body follows it or not.
pub fn responses_are_one(head: bool)
    ensures { OneVerdict (SaysResponse head) }
{}
