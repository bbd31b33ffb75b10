// A task that listens (DSL 1.0.0, reference, "Listen").
ghost use Rattle.std.specs.Prelude.{◌≡◌, true};
ghost use Rattle.swf_meaning.specs.Listen.{is_heard};
ghost use Rattle.swf_rule.specs.Rules.{line_in};
ghost use Rattle.swf_tasks.specs.Taken.{IsListened};

use swf_catalog::Work;
use swf_meaning::Heard;
use swf_rule::Rule;
use swf_rules::heard;
use swf_scene::Halt;
use swf_stack::Made;

/// A task that heard all is complete.
pub fn listened(rule: &Rule, events: &[Heard]) -> Result<Made, Halt>
    requires { is_heard rule.now.running.now.task events.now ≡ true }
    ensures { IsListened (line_in rule.now) rule.now.running.now events.now result }
{
    match rule.running.task().work() {
        Work::Listen(spec) => heard(rule, spec, events),
        _ => Err(Halt::OutOfMemory),
    }
}
