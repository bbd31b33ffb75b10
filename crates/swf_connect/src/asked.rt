// A request that a connector performed.
use swf_calls::{CallReply, CallRequest};

/// A request that was performed, with the reply that was answered, if one was.
#[derive(Drop)]
pub struct Asked {
    pub request: CallRequest,
    pub reply: Option<CallReply>,
}
