// A connector that greets.
ghost use Rattle.std.specs.Prelude.{◌≡◌, IfOk, option_map};
ghost use Rattle.swf_connect.specs.Asked.{IsTellableReply};
ghost use Rattle.swf_example_greeter.specs.Greeting.{greeting, is_short, name_in, reply_to};

use std::alloc::{AllocError, Global};
use swf_calls::{CallReply, CallRequest, Headers, reply_json};
use swf_connect::{Asked, Connector};
use swf_text::Text;
use swf_value::{Json, member, write_json};

/// So many bytes are too many for a reply in a journal.
const TOO_MANY: usize = 4_294_967_296;

/// Answers the URIs `greet:NAME`, and keeps what was asked.
#[derive(Drop)]
pub struct Greeter {
    alloc: Global,
    asked: Vec<Asked>,
}

/// The name that a URI asks to greet, if it does.
fn name_in(uri: &str) -> Option<&str>
    ensures { option_map (λ name. name.now) result ≡ name_in uri.now }
{
    uri.strip_prefix("greet:")
}

/// The greeting of a name.
fn greeting(alloc: Global, name: &str) -> Result<Json, AllocError>
    ensures { IfOk result (λ v. v ≡ greeting name.now) }
{
    let mut hello = String::from_str(alloc, "hello ")?;
    hello.push_str(name)?;
    let hello = Text::from_string(alloc, hello)?;
    let mut members = Vec::new(alloc);
    members.push(member(alloc, "greeting", Json::text(hello))?)?;
    Json::object(alloc, members)
}

/// Whether a journal can hold a reply.
fn is_short(alloc: Global, reply: &CallReply) -> Result<bool, AllocError>
    ensures { IfOk result (λ short. short ≡ is_short reply.now) }
{
    let value = reply_json(alloc, reply)?;
    let mut bytes = Vec::new(alloc);
    write_json(&value, &mut bytes)?;
    Ok(bytes.len() < TOO_MANY)
}

/// What is answered to a request.
fn reply_to(alloc: Global, request: &CallRequest) -> Result<CallReply, AllocError>
    ensures value { IfOk result (λ reply. reply ≡ reply_to request.now) }
    ensures tellable { IfOk result IsTellableReply }
{
    let Some(name) = name_in(request.uri().as_str()) else {
        return Ok(CallReply::Unreached);
    };
    let reply = CallReply::Answer {
        status: 200,
        headers: Headers::none(alloc),
        content: greeting(alloc, name)?,
    };
    if is_short(alloc, &reply)? {
        Ok(reply)
    } else {
        Ok(CallReply::Unreached)
    }
}

impl Greeter {
    ghost use Rattle.std.specs.Prelude.{◌≡◌, []};

    /// A connector that was asked nothing yet.
    pub fn new(alloc: Global) -> Greeter
        ensures { result.asked.items ≡ [] }
    {
        Greeter {
            alloc,
            asked: Vec::new(alloc),
        }
    }
}

impl Connector for Greeter {
    ghost use Rattle.std.specs.Prelude.{◌≡◌, ◌++◌, ◌∷◌, [], Some, IfOk, OnErr, is_some};
    ghost use Rattle.swf_connect.specs.Asked.{AfterAsked, IsTellableReply, UnreachedBy};
    ghost use Rattle.swf_connect.specs.Memory.{unreached_in};
    ghost use Rattle.swf_example_greeter.specs.Greeting.{name_of, reply_to};

    ghost is_for = { λ _ request. is_some (name_of request) };

    ghost asked = { λ greeter. Some greeter.asked.items };

    ghost unreached = { λ greeter. unreached_in greeter.asked.items };

    fn takes(&self, request: &CallRequest) -> bool {
        name_in(request.uri().as_str()).is_some()
    }

    fn perform(&mut self, request: &CallRequest) -> Result<CallReply, AllocError>
        ensures asked { AfterAsked request.now result (Some self.old.asked.items) (Some self.new.asked.items) }
        ensures cause { UnreachedBy result (unreached_in self.old.asked.items) (unreached_in self.new.asked.items) }
        ensures tellable { IfOk result IsTellableReply }
        ensures reply { IfOk result (λ reply. reply ≡ reply_to request.now) }
        ensures err { OnErr result (self.new.asked.items ≡ self.old.asked.items) }
    {
        let reply = reply_to(self.alloc, request)?;
        let asked = Asked {
            request: request.copy(self.alloc)?,
            reply: Some(reply.copy(self.alloc)?),
        };
        self.asked.push(asked)?;
        Ok(reply)
    }

    fn told(&self) -> Option<u64> {
        Some(self.asked.len() as u64)
    }
}
