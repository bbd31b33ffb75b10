// What the world alone answers of queries, and the calls that await an answer.
ghost use Rattle.std.specs.Prelude.{◌≡◌, ◌⊎◌, List, Err, IfOk, flat_map};
ghost use Rattle.swf_world.specs.Answers.{answer, found, IsOfWorld};
ghost use Rattle.swf_meaning.specs.declared.label.Label.{Label};
ghost use Rattle.swf_meaning.specs.Answer.{status};
ghost use Rattle.swf_meaning.specs.Pending.{open_calls};

use std::alloc::{AllocError, Global};
use swf_calls::CallRequest;
use swf_meaning::{Answer, Query};
use swf_reports::{outbox, pending, report};
use swf_text::Text;
use swf_world::{QueryFault, World};

// The report of an instance.
fn status(alloc: Global, world: &World, id: &Text) -> Result<Answer, QueryFault>
    ensures { (result ≡ Err QueryFault.OutOfMemory) ⊎ (result ≡ found (status world.now.world id.now)) }
{
    let Some(instance) = world.instances().of_id(id) else {
        return Err(QueryFault::UnknownInstance);
    };
    match report(alloc, instance, world.now()) {
        Ok(value) => Ok(Answer::Status(value)),
        Err(_) => Err(QueryFault::OutOfMemory),
    }
}

/// Answers a query that asks for no history, which the world does not keep.
pub(crate) fn answer(alloc: Global, world: &World, query: &Query) -> Result<Answer, QueryFault>
    requires { IsOfWorld query.now }
    ensures { (labels : List Label) → (result ≡ Err QueryFault.OutOfMemory) ⊎ (result ≡ answer labels world.now.world query.now) }
{
    match query {
        Query::Status(id) => status(alloc, world, id),
        Query::Pending => match pending(alloc, world.instances()) {
            Ok(value) => Ok(Answer::Pending(value)),
            Err(_) => Err(QueryFault::OutOfMemory),
        },
        Query::Outbox(from) => match outbox(alloc, world.outbox(), *from) {
            Ok(value) => Ok(Answer::Outbox(value)),
            Err(_) => Err(QueryFault::OutOfMemory),
        },
        Query::History(_) => unreachable!(),
    }
}

/// The calls that await an answer, each with its activity: in start order, then by strand.
pub(crate) fn open_calls(
    alloc: Global,
    world: &World,
) -> Result<Vec<(Text, CallRequest)>, AllocError>
    ensures { IfOk result (λ calls. calls.items ≡ flat_map (λ i. open_calls i.node) world.now.world.instances) }
{
    swf_reports::open_calls(alloc, world.instances())
}
