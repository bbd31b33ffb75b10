// The mode `show`: the status of each instance is said, in start order.
ghost use Rattle.std.specs.Prelude.{◌≡◌, ◌⊎◌, ℕ, IfOk, List, slice_get, option_map};
ghost use Rattle.swf_meaning.specs.declared.label.Label.{Label};
ghost use Rattle.swf_engine.specs.Core.{IsEngineOf};
ghost use Rattle.swf_protocol.specs.Sayable.{IsSayable};
ghost use Rattle.swf_protocol.specs.Spoken.{spoken};
ghost use Rattle.swf_world.specs.Answers.{answer};
ghost use Rattle.swf_cli.specs.Running.{ShowRun};
ghost use Rattle.swf_cli.specs.Shown.{ShowsOn};
ghost use Rattle.swf_cli.specs.Statuses.{IsStatus};
ghost use Rattle.swf_turns.specs.Blame.{IsBlamed};
ghost use Rattle.swf_turns.specs.Steps.{Says, status_of};
ghost use Rattle.swf_turns.specs.Turns.{query_reply};

use std::alloc::{AllocError, Global};
use swf_engine::Engine;
use swf_host::{Host, NoWork};
use swf_meaning::Query;
use swf_protocol::Reply;
use swf_text::Text;
use swf_turns::{After, Answered, NO_MEMORY, not_opened, queried, say};
use swf_words::Mode;

// The id of the instance of that number, from 0, in start order.
fn id_of(engine: &Engine, number: u64) -> Result<Option<Text>, AllocError>
    ensures { IfOk result (λ id. id ≡ option_map (λ i. i.id) (slice_get engine.now.world.instances number)) }
{
    match engine.instance(number) {
        Some(id) => Ok(Some(id.copy()?)),
        None => Ok(None),
    }
}

// Says a reply to connection 0, unless it is that no memory was found.
fn say_status<H: Host<NoWork, NoWork>>(alloc: Global, host: &mut H, reply: Reply) -> After
    requires { IsSayable reply }
    ensures says { (line : List ℕ) → (reply ≡ Reply.Memory) ⊎ (line ≡ spoken reply) → Says H.moment H.left_since H.said H.may_leave H.seen H.taken host.old host.new 0 line After.GoesOn result }
    ensures blamed { IsBlamed (status_of result) (H.host_faults host.old) (H.host_faults host.new) (H.store_faults host.old) (H.store_faults host.new) }
{
    match reply {
        Reply::Memory => After::Stops(NO_MEMORY),
        reply => say(alloc, host, 0, Answered { reply, ends: false }),
    }
}

// Says the status of the instance of this id.
fn show_one<H: Host<NoWork, NoWork>>(
    alloc: Global,
    host: &mut H,
    engine: &mut Engine,
    id: Text,
) -> After
    requires place { IsEngineOf (H.seen host.old) engine.old }
    ensures engine { engine.new ≡ engine.old }
    ensures says { (labels : List Label) → Says H.moment H.left_since H.said H.may_leave H.seen H.taken host.old host.new 0 (spoken (query_reply (answer labels engine.old.world (Query.Status id)))) After.GoesOn result }
    ensures blamed { IsBlamed (status_of result) (H.host_faults host.old) (H.host_faults host.new) (H.store_faults host.old) (H.store_faults host.new) }
{
    match engine.query(host, &Query::Status(id)) {
        Ok(answer) => say_status(alloc, host, queried(answer)),
        Err(_) => unreachable!(),
    }
}

// Says the status of each instance.
fn show_all<H: Host<NoWork, NoWork>>(alloc: Global, host: &mut H, engine: &mut Engine) -> u8
    requires place { IsEngineOf (H.seen host.old) engine.old }
    ensures shows { ShowsOn H.moment H.left_since H.said H.may_leave H.seen H.taken host.old host.new engine.old result }
    ensures blamed { IsBlamed result (H.host_faults host.old) (H.host_faults host.new) (H.store_faults host.old) (H.store_faults host.new) }
    ensures which { (result ≡ 0) ⊎ (result ≡ 4) ⊎ (result ≡ 6) }
{
    for number in 0..u64::MAX {
        let id = match id_of(engine, number) {
            Ok(Some(id)) => id,
            Ok(None) => return 0,
            Err(_) => return NO_MEMORY,
        };
        match show_one(alloc, host, engine, id) {
            After::GoesOn => {}
            After::Ends => unreachable!(),
            After::Stops(status) => return status,
        }
    }
    NO_MEMORY
}

/// Opens the engine of the store and says the status of each instance to connection 0, and answers the status of the program. It
/// takes no input.
pub fn run_show<H: Host<NoWork, NoWork>>(alloc: Global, host: &mut H) -> u8
    ensures runs { ShowRun H.moment H.left_since H.said H.may_leave H.seen H.taken host.old host.new result }
    ensures blamed { IsBlamed result (H.host_faults host.old) (H.host_faults host.new) (H.store_faults host.old) (H.store_faults host.new) }
    ensures which { IsStatus Mode.Show result }
{
    match Engine::open_on(alloc, host) {
        Ok(engine) => {
            let mut engine = engine;
            show_all(alloc, host, &mut engine)
        }
        Err(fault) => not_opened(alloc, host, fault),
    }
}
