// A connector in memory, which answers what it was given.
ghost use Rattle.std.specs.Prelude.{◌≡◌, ◌+◌, ◌≤◌, length, drop, All, IfOk, if◌then◌else◌};
ghost use Rattle.swf_calls.specs.declared.reply.CallReply.TheVariants.{Unreached as NoAnswer};
ghost use Rattle.swf_connect.specs.Asked.{IsTellableAnswer, IsTellableReply};
ghost use Rattle.swf_connect.specs.Memory.{answer_count, first_of};

use crate::fails::is_failing;
use crate::uri::has_scheme;
use crate::{Asked, Connector};
use std::alloc::{AllocError, Global};
use std::marker::Model;
use swf_calls::{CallReply, CallRequest};
use swf_text::Text;

/// Answers its replies in order, and keeps what was asked. The requests with the given numbers, from 0, reach nobody, and use up no
/// reply; nor do those for which none is left.
#[derive(Drop)]
pub struct MemoryConnector {
    alloc: Global,
    scheme: Text,
    replies: Vec<CallReply>,
    answered: usize,
    failing: Vec<u64>,
    asked: Vec<Asked>,
}

impl Model for MemoryConnector {
    ghost use Rattle.swf_connect.specs.Memory.{Memory};

    ghost Value = { Memory };

    ghost use Rattle.swf_connect.specs.MemoryCode.{memory_code};

    ghost coded = { memory_code };

    ghost use Rattle.std.specs.Prelude.{◌≤◌, length, drop, All};
    ghost use Rattle.swf_connect.specs.Asked.{IsTellableAnswer};

    ghost view = { λ m. record { scheme = m.scheme; left = drop m.answered m.replies.items; failing = m.failing.items; asked = m.asked.items } };

    ghost invariant = { λ m. (m.answered ≤ length m.replies.items) × All IsTellableAnswer m.replies.items };
}

/// How many replies a reply uses up.
fn answer_count(reply: &CallReply) -> usize
    ensures { result ≡ answer_count reply.now }
{
    match reply {
        CallReply::Answer { .. } => 1,
        CallReply::Unreached => 0,
    }
}

/// The reply at a place, or `Unreached` where there is none or it is to fail.
#[tactic(auto, using(crate::proofs::MemoryLemmas::at_place, crate::proofs::MemoryLemmas::past_all, crate::proofs::MemoryLemmas::place_fits, crate::proofs::MemoryLemmas::tellable_at))]
fn reply_at(
    alloc: Global,
    replies: &[CallReply],
    at: usize,
    fails: bool,
) -> Result<CallReply, AllocError>
    requires within { at ≤ length replies.now }
    requires tellable { All IsTellableAnswer replies.now }
    ensures value { IfOk result (λ reply. reply ≡ (if fails then NoAnswer else first_of (drop at replies.now))) }
    ensures tellable { IfOk result IsTellableReply }
    ensures within { IfOk result (λ reply. at + answer_count reply ≤ length replies.now) }
{
    if fails || at == replies.len() {
        return Ok(CallReply::Unreached);
    }
    replies[at].copy(alloc)
}

impl MemoryConnector {
    ghost use Rattle.std.specs.Prelude.{◌≡◌, [], All};
    ghost use Rattle.swf_connect.specs.Asked.{IsTellableAnswer};

    /// A connector for the URIs of a scheme.
    pub fn new(
        alloc: Global,
        scheme: Text,
        replies: Vec<CallReply>,
        failing: Vec<u64>,
    ) -> MemoryConnector
        requires { All IsTellableAnswer replies.items }
        ensures { result ≡ record { scheme = scheme; left = replies.items; failing = failing.items; asked = [] } }
    {
        MemoryConnector {
            alloc,
            scheme,
            replies,
            answered: 0,
            failing,
            asked: Vec::new(alloc),
        }
    }

    /// The requests that were asked, in order.
    pub fn asked(&self) -> &[Asked]
        ensures { result.now ≡ self.now.asked }
    {
        self.asked.as_slice()
    }
}

impl Connector for MemoryConnector {
    ghost use Rattle.std.specs.Prelude.{◌≡◌, Some, IfOk, IfErr, OnErr};
    ghost use Rattle.std.specs.Str.{encode_utf8_all};
    ghost use Rattle.swf_connect.specs.Asked.{AfterAsked, IsTellableReply, UnreachedBy};
    ghost use Rattle.swf_connect.specs.Memory.{after_reply, next_reply, unreached_in};
    ghost use Rattle.swf_connect.specs.Uris.{has_scheme, uri_of};

    ghost is_for = { λ memory request. has_scheme (encode_utf8_all memory.scheme) (uri_of request) };

    ghost asked = { λ memory. Some memory.asked };

    ghost unreached = { λ memory. unreached_in memory.asked };

    fn takes(&self, request: &CallRequest) -> bool {
        has_scheme(request.uri(), self.scheme.as_str().as_bytes())
    }

    fn perform(&mut self, request: &CallRequest) -> Result<CallReply, AllocError>
        ensures asked { AfterAsked request.now result (Some self.old.asked) (Some self.new.asked) }
        ensures cause { UnreachedBy result (unreached_in self.old.asked) (unreached_in self.new.asked) }
        ensures tellable { IfOk result IsTellableReply }
        ensures reply { IfOk result (λ reply. reply ≡ next_reply self.old) }
        ensures after { IfOk result (λ reply. self.new ≡ after_reply request.now reply self.old) }
        ensures err { OnErr result (self.new ≡ self.old) }
    {
        let fails = is_failing(&self.failing, self.asked.len() as u64);
        let reply = reply_at(self.alloc, &self.replies, self.answered, fails)?;
        let asked = Asked {
            request: request.copy(self.alloc)?,
            reply: Some(reply.copy(self.alloc)?),
        };
        self.asked.push(asked)?;
        self.answered += answer_count(&reply);
        Ok(reply)
    }

    fn told(&self) -> Option<u64> {
        Some(self.asked.len() as u64)
    }
}
