// Connectors, of which the first that takes a request is asked.
ghost use Rattle.std.specs.Prelude.{◌≡◌, IfOk};
ghost use Rattle.swf_connect.specs.Asked.{AfterAsked, IsTellableReply, UnreachedBy};
ghost use Rattle.swf_connect.specs.Parties.{Performs};

use crate::Connector;
use std::alloc::AllocError;
use swf_calls::{CallReply, CallRequest};

/// What contracts see of connectors.
pub trait Parties {
    ghost use Rattle.std.specs.Prelude.{List};
    ghost use Rattle.swf_connect.specs.Parties.{Party};

    /// Each of them, in order.
    ghost parties: { Self → List Party };
}

/// Connectors in order.
#[derive(Drop)]
pub struct Switchboard {
    connectors: Vec<Box<dyn Connector + Send>>,
}

impl Parties for Switchboard {
    ghost use Rattle.std.specs.Prelude.{map};

    ghost parties = { λ board. map (λ b. record { takes = (Connector-box b).is_for b.value; asked = (Connector-box b).asked b.value; unreached = (Connector-box b).unreached b.value }) board.connectors.items };
}

fn takes(connector: &Box<dyn Connector + Send>, request: &CallRequest) -> bool
    ensures { result ≡ is_for connector.now request.now }
{
    connector.takes(request)
}

fn ask(
    connector: &mut Box<dyn Connector + Send>,
    request: &CallRequest,
) -> Result<CallReply, AllocError>
    ensures asked { AfterAsked request.now result (asked connector.old) (asked connector.new) }
    ensures cause { UnreachedBy result (unreached connector.old) (unreached connector.new) }
    ensures tellable { IfOk result IsTellableReply }
{
    connector.perform(request)
}

impl Switchboard {
    /// These connectors, of which the first goes before the others.
    pub fn new(connectors: Vec<Box<dyn Connector + Send>>) -> Switchboard
        ensures { result.connectors ≡ connectors }
    {
        Switchboard { connectors }
    }

    /// Asks the first connector that takes the request, once. `Unreached` where none does.
    pub fn perform(&mut self, request: &CallRequest) -> Result<CallReply, AllocError>
        ensures performs { Performs request.now result (⟦<Switchboard as Parties>⟧.parties self.old) (⟦<Switchboard as Parties>⟧.parties self.new) }
        ensures tellable { IfOk result IsTellableReply }
    {
        let mut place = 0;
        'connectors: while place < self.connectors.len() {
            if takes(&self.connectors[place], request) {
                return ask(&mut self.connectors[place], request);
            }
            place += 1;
        }
        Ok(CallReply::Unreached)
    }

    /// The connectors again, in order. It takes no memory.
    pub fn close(self) -> Vec<Box<dyn Connector + Send>>
        ensures { result ≡ self.connectors }
    {
        let Switchboard { connectors } = self;
        connectors
    }
}
