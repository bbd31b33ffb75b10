// Waiting until a moment (DSL 1.0.0, reference, "Wait" and "Retry").
ghost use Rattle.std.specs.Prelude.{◌+◌, Ok};
ghost use Rattle.swf_document.specs.Task.{wait};
ghost use Rattle.swf_meaning.specs.Complete.{becomes};
ghost use Rattle.swf_meaning.specs.Enter.{begun};
ghost use Rattle.swf_meaning.specs.Node.{Live, Later};
ghost use Rattle.swf_rule.specs.Rules.{line_in, site_in};
ghost use Rattle.swf_rules.specs.Woken.{woken_to};
ghost use Rattle.swf_scene.specs.Halts.{Makes};
ghost use Rattle.swf_stack.specs.Stack.{waiting};

use crate::lists::comes_to;
use swf_catalog::Round;
use swf_rule::{Rule, becoming};
use swf_scene::Halt;
use swf_stack::{Made, Top};

// The task waits for so long from now, a `try` for the retry of this number.
fn waiting_for(rule: &Rule, retries: Option<u64>, duration: u64) -> Result<Made, Halt>
    ensures { Makes (line_in rule.now) (Ok (becomes (line_in rule.now) (Live rule.now.running.now (waiting retries ((site_in rule.now).now + duration))))) result }
{
    let Some(until) = rule.scene.site.now.milliseconds().checked_add(duration) else {
        return Err(Halt::OutOfMemory);
    };
    let top = Top::Waiting {
        running: rule.running.copy()?,
        retries,
        until,
    };
    Ok(becoming(rule.alloc, top)?)
}

// One more try after a delay.
pub(crate) fn later(rule: &Rule, retries: u64, delay: u64) -> Result<Made, Halt>
    ensures { Makes (line_in rule.now) (Ok (becomes (line_in rule.now) (Live rule.now.running.now (Later (retries + 1) ((site_in rule.now).now + delay))))) result }
{
    let Some(retry) = retries.checked_add(1) else {
        return Err(Halt::OutOfMemory);
    };
    waiting_for(rule, Some(retry), delay)
}

/// A `wait` begins.
pub fn waiting(rule: &Rule, duration: u64) -> Result<Made, Halt>
    ensures { Makes (line_in rule.now) (begun (site_in rule.now) (line_in rule.now) rule.now.running.now (wait duration)) result }
{
    waiting_for(rule, None, duration)
}

/// The moment has come: a `wait` is complete, and a `try` is made again.
pub fn woken(rule: &Rule, retries: Option<u64>) -> Result<Made, Halt>
    ensures { Makes (line_in rule.now) (woken_to (line_in rule.now) rule.now.running.now retries) result }
{
    let input = rule.running.input().copy()?;
    match retries {
        None => rule.complete(input),
        Some(retries) => comes_to(rule, Round::Try { retries }, 0, input),
    }
}
