// What answers calls.
ghost use Rattle.std.specs.Prelude.{◌≡◌, ℕ, List, Bool, Option, length, option_map, IfOk};
ghost use Rattle.swf_calls.specs.Request.{Request};
ghost use Rattle.swf_connect.specs.declared.asked.Asked.{Asked as WasAsked};
ghost use Rattle.swf_connect.specs.Asked.{AfterAsked, IsTellableReply, UnreachedBy};

use std::alloc::AllocError;
use swf_calls::{CallReply, CallRequest};

/// Answers calls.
pub trait Connector: Send + Drop {
    /// Whether it takes a request.
    ghost is_for: { Self → Request → Bool };

    /// The requests that it performed, each with the reply that was answered if one was, where it tells them.
    ghost asked: { Self → Option (List WasAsked) };

    /// How many requests reached nobody. It never falls.
    ghost unreached: { Self → ℕ };

    /// Whether it takes a request.
    fn takes(&self, request: &CallRequest) -> bool
        ensures { result ≡ is_for self.now request.now };

    /// Performs a request. It may wait for an answer, whose status is from 100 to 599. After want of memory the request may or may
    /// not be among those that were asked.
    fn perform(&mut self, request: &CallRequest) -> Result<CallReply, AllocError>
        ensures asked { AfterAsked request.now result (asked self.old) (asked self.new) }
        ensures cause { UnreachedBy result (unreached self.old) (unreached self.new) }
        ensures tellable { IfOk result IsTellableReply };

    /// How many requests were asked, where it tells them. It takes no memory.
    fn told(&self) -> Option<u64>
        ensures { result ≡ option_map length (asked self.now) };
}
