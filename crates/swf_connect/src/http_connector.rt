// A connector over HTTP.
ghost use Rattle.std.specs.Prelude.{◌≡◌};

use crate::answer::answer;
use crate::uri::has_scheme;
use crate::{Connector, Dial};
use std::alloc::{AllocError, Global};
use swf_calls::{CallReply, CallRequest};

/// Performs requests over links that it dials, one link for each.
#[derive(Drop)]
pub struct HttpConnector<D> {
    alloc: Global,
    dial: D,
    unreached: u64,
}

impl<D: Dial> HttpConnector<D> {
    ghost use Rattle.std.specs.Prelude.{◌≡◌};

    /// A connector over this dial.
    pub fn new(alloc: Global, dial: D) -> HttpConnector<D>
        ensures dial { result.dial ≡ dial }
        ensures unreached { result.unreached ≡ 0 }
    {
        HttpConnector {
            alloc,
            dial,
            unreached: 0,
        }
    }

    /// The dial.
    pub fn dial(&self) -> &D
        ensures { result.now ≡ self.now.dial }
    {
        &self.dial
    }
}

impl<D: Dial + Send + Drop> Connector for HttpConnector<D> {
    ghost use Rattle.std.specs.Prelude.{◌≡◌, None, codes, option_map, length, IfOk};
    ghost use Rattle.swf_connect.specs.Answers.{Counts, Performs};
    ghost use Rattle.swf_connect.specs.Asked.{AfterAsked, IsTellableReply, UnreachedBy};
    ghost use Rattle.swf_connect.specs.Http.{unreached_of};
    ghost use Rattle.swf_connect.specs.Uris.{has_scheme, uri_of};

    ghost is_for = { λ _ request. has_scheme (codes "http") (uri_of request) };

    ghost asked = { λ _. None };

    ghost unreached = { unreached_of };

    fn takes(&self, request: &CallRequest) -> bool {
        has_scheme(request.uri(), b"http")
    }

    fn perform(&mut self, request: &CallRequest) -> Result<CallReply, AllocError>
        ensures asked { AfterAsked request.now result None None }
        ensures cause { UnreachedBy result (unreached_of self.old) (unreached_of self.new) }
        ensures tellable { IfOk result IsTellableReply }
        ensures performs { Performs request.now result (D.dial_faults self.old.dial) (D.dial_faults self.new.dial) (D.talks self.old.dial) (D.talks self.new.dial) }
        ensures counts { Counts result self.old.unreached self.new.unreached }
    {
        let reply = answer(self.alloc, &mut self.dial, request)?;
        if matches!(reply, CallReply::Unreached) {
            self.unreached = self.unreached.saturating_add(1);
        }
        Ok(reply)
    }

    fn told(&self) -> Option<u64> {
        None
    }
}
