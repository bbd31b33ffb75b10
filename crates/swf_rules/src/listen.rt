// A `listen` (DSL 1.0.0, reference, "Listen", "Event Consumption Strategy" and "Correlation").
ghost use Rattle.std.specs.Prelude.{◌≡◌, codes, Ok, if◌then◌else◌};
ghost use Rattle.swf_document.specs.declared.error.ErrorKind.TheVariants as kinds;
ghost use Rattle.swf_evaluation.specs.Operations.{is_same};
ghost use Rattle.swf_meaning.specs.Complete.{complete};
ghost use Rattle.swf_meaning.specs.Listen.{bound_with, expecting, bound_by, correlations, listening, events_of};
ghost use Rattle.swf_meaning.specs.Rule.{fails};
ghost use Rattle.swf_rule.specs.Rules.{line_in};
ghost use Rattle.swf_scene.specs.Halts.{Gives, Makes};
ghost use Rattle.swf_value.specs.Members.{at, put};
ghost use Rattle.swf_value.specs.Value.{no_members};

use swf_cloudevents::NamedValues;
use swf_document::{Correlation, ErrorKind, Filter, ListenSpec, Listing};
use swf_jq_eval::Vars;
use swf_meaning::Heard;
use swf_rule::{Rule, becoming};
use swf_scene::Halt;
use swf_stack::{Made, Top, events_of};
use swf_text::Text;
use swf_transform::fill;
use swf_value::Json;

// Whether two values are equal.
fn is_same(left: &Json, right: &Json) -> bool
    ensures { result ≡ is_same left.now right.now }
{
    left.is(right)
}

// Whether a name may be bound to a value: it has none, or the same.
fn agrees(rule: &Rule, bound: &NamedValues, name: &Text, value: &Json) -> bool
    ensures { bound_with rule.now.running.now.task name.now value.now (at name.now bound.now) bound.now ≡ (if result then Ok (put name.now value.now bound.now) else fails rule.now.running.now.task kinds.Expression (codes "cannot correlate")) }
{
    match bound.find(name.as_str()) {
        Some(other) => is_same(other, value),
        None => true,
    }
}

// With what an `expect` binds its name to.
fn expecting(
    rule: &Rule,
    vars: &Vars,
    correlation: &Correlation,
    mut bound: NamedValues,
) -> Result<NamedValues, Halt>
    ensures { Gives (expecting rule.now.running.now.task vars.now rule.now.running.now.input correlation.now.name correlation.now.expect bound) result }
{
    let Some(template) = &correlation.expect else {
        return Ok(bound);
    };
    let value = rule.value_of(fill(rule.alloc, template, vars, rule.running.input())?)?;
    if !agrees(rule, &bound, &correlation.name, &value) {
        return Err(rule.fails(ErrorKind::Expression, "cannot correlate"));
    }
    bound.put(correlation.name.copy()?, value)?;
    Ok(bound)
}

// The same for several correlations in order.
fn bound_by(
    rule: &Rule,
    vars: &Vars,
    correlations: &[Correlation],
    mut bound: NamedValues,
) -> Result<NamedValues, Halt>
    ensures { Gives (bound_by rule.now.running.now.task vars.now rule.now.running.now.input correlations.now bound) result }
{
    for correlation in correlations {
        bound = expecting(rule, vars, correlation, bound)?;
    }
    Ok(bound)
}

// The names that the filters bind before any event.
fn bound_of(rule: &Rule, vars: &Vars, filters: &[Filter]) -> Result<NamedValues, Halt>
    ensures { Gives (bound_by rule.now.running.now.task vars.now rule.now.running.now.input (correlations filters.now) no_members) result }
{
    let mut bound = NamedValues::none(rule.alloc)?;
    for filter in filters {
        bound = bound_by(rule, vars, filter.correlate.as_slice(), bound)?;
    }
    Ok(bound)
}

/// A `listen` begins.
pub fn listening(rule: &Rule, spec: &ListenSpec) -> Result<Made, Halt>
    ensures { Makes (line_in rule.now) (listening (line_in rule.now) rule.now.running.now spec.now) result }
{
    let sight = rule.within()?;
    let bound = bound_of(rule, sight.vars(), spec.filters.as_slice())?;
    let top = Top::Hearing {
        running: rule.running.copy()?,
        bound,
        heard: Listing::of(rule.alloc, Vec::new(rule.alloc))?,
    };
    Ok(becoming(rule.alloc, top)?)
}

/// A `listen` that heard all is complete.
pub fn heard(rule: &Rule, spec: &ListenSpec, heard: &[Heard]) -> Result<Made, Halt>
    ensures { Makes (line_in rule.now) (complete (line_in rule.now) rule.now.running.now (events_of spec.now heard.now)) result }
{
    rule.complete(events_of(rule.alloc, spec, heard)?)
}
