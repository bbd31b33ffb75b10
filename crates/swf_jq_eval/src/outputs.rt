// The outputs and the turns of an evaluation.
ghost use Rattle.std.specs.Prelude.{◌≡◌, ◌+◌, ◌-◌, ◌<◌, ◌≤◌, IfOk, IsTrue, MatchResult};
ghost use Rattle.std.specs.Bool.{MatchBool};
ghost use Rattle.swf_value.specs.Value.{Value, boolean, text};
ghost use Rattle.swf_text.specs.Same.{is_ascii};
ghost use Rattle.swf_value.specs.Size.{size};
ghost use Rattle.swf_evaluation.specs.Operations.{Answer};
ghost use Rattle.swf_jq_builtins.specs.Outcome.{outcome_of, several_of};
ghost use Rattle.swf_jq_eval.specs.declared.outputs.Stop.TheVariants.{OutOfMemory, Limit};
ghost use Rattle.swf_jq_eval.specs.declared.outputs.Out.{Out};
ghost use Rattle.swf_evaluation.specs.Run.{Run, gives, raises, each, over, made, made_of, answered, spread};
ghost use Rattle.swf_evaluation.specs.Turns.{limit};
ghost use Rattle.swf_jq_eval.specs.Goes.{Goes, Comes, ending_of};

use std::alloc::{AllocError, AllocFailed, Global};
use swf_jq_builtins::{Outcome, Several, error};
use swf_value::{Json, depth, size_within};

/// How outputs end.
#[derive(Drop)]
pub enum Ending {
    Clean,
    /// With an error.
    Raised(Json),
}

/// Why an evaluation is given up.
#[derive(Clone, Copy, Debug, PartialEq, Eq)]
pub enum Stop {
    /// It takes more turns than are allowed.
    Limit,
    OutOfMemory,
}

impl From<AllocError> for Stop {
    ghost from_gives = { λ _ e. e ≡ OutOfMemory };

    fn from(_: AllocError) -> Self {
        Stop::OutOfMemory
    }
}

impl<T: Drop> From<AllocFailed<T>> for Stop {
    ghost from_gives = { λ _ e. e ≡ OutOfMemory };

    fn from(_: AllocFailed<T>) -> Self {
        Stop::OutOfMemory
    }
}

/// The outputs and the turns so far.
#[derive(Drop)]
pub struct Out {
    pub turns: u64,
    pub values: Vec<Json>,
}

/// All outputs of a run, and how they end.
#[derive(Drop)]
pub struct Outputs {
    pub values: Vec<Json>,
    pub end: Ending,
}

/// The turns that an evaluation may take.
const LIMIT: u64 = 1000000;

/// The depth that a value which is made may have.
const DEEPEST: u32 = 64;

/// More turns, unless there are too many.
pub fn count(turns: &mut u64, more: u64) -> Result<(), Stop>
    ensures { MatchResult result (λ _. (turns.new ≡ turns.old + more) × (turns.new ≤ limit)) (λ e. (e ≡ Limit) × (limit < turns.old + more)) }
{
    if *turns <= LIMIT && more <= LIMIT - *turns {
        *turns += more;
        Ok(())
    } else {
        Err(Stop::Limit)
    }
}

/// The turns that are left.
pub fn room(turns: u64) -> u64
    ensures { result ≡ limit - turns }
{
    LIMIT.saturating_sub(turns)
}

/// Whether there are more turns than are allowed.
pub fn is_over(turns: u64) -> bool
    ensures { MatchBool result (limit < turns) (turns ≤ limit) }
{
    turns > LIMIT
}

/// A run for each value in order, up to the first that raises.
pub fn each<F: Fn(&Json, &mut Out) -> Result<Ending, Stop>>(
    outer: Outputs,
    out: &mut Out,
    f: F,
) -> Result<Ending, Stop>
    requires { F.IsAlwaysCallable f }
    ensures { (g : Value → Run) → ((x : _) (o : _) (r : _) (o' : _) → F.post f x o r o' → Goes o.now (g x.now) o'.now r) → Goes out.old (each g outer.values.items (ending_of outer.end)) out.new result }
{
    for x in &outer.values {
        match f(x, out)? {
            Ending::Clean => {}
            Ending::Raised(error) => return Ok(Ending::Raised(error)),
        }
    }
    Ok(outer.end)
}

/// A run for each output of another, up to the first that raises.
#[tactic(auto, using(crate::proofs::Runs::over_on, crate::proofs::Runs::made_stop))]
pub fn over<F: Fn(&Json, &mut Out) -> Result<Ending, Stop>>(
    outer: Result<Outputs, Stop>,
    out: &mut Out,
    f: F,
) -> Result<Ending, Stop>
    requires { F.IsAlwaysCallable f }
    ensures { (old : Out) (s : Run) (g : Value → Run) → Comes old s out.old outer → ((x : _) (o : _) (r : _) (o' : _) → F.post f x o r o' → Goes o.now (g x.now) o'.now r) → Goes old (over s g) out.new result }
{
    match outer {
        Ok(outer) => each(outer, out, f),
        Err(stop) => Err(stop),
    }
}

/// One output.
pub fn give(value: &Json, out: &mut Out) -> Result<Ending, Stop>
    ensures { Goes out.old (gives value.now) out.new result }
{
    out.values.push(value.copy()?)?;
    Ok(Ending::Clean)
}

/// An error whose value is an ASCII text.
pub fn raise(alloc: Global, message: &str, _out: &mut Out) -> Result<Ending, Stop>
    requires { IsTrue (is_ascii message.now) }
    ensures { Goes _out.old (raises (text message.now)) _out.new result }
{
    Ok(Ending::Raised(error(alloc, message)?))
}

/// One output that is made, in as many turns as its size.
pub fn make(alloc: Global, value: Json, out: &mut Out) -> Result<Ending, Stop>
    ensures { Goes out.old (made value) out.new result }
{
    if depth(&value) > DEEPEST {
        return raise(alloc, "too deep", out);
    }
    count_size(&mut out.turns, &value)?;
    out.values.push(value)?;
    Ok(Ending::Clean)
}

/// As many turns as a value's size, unless there are too many. It looks no further than the turns
/// that are left.
fn count_size(turns: &mut u64, value: &Json) -> Result<(), Stop>
    ensures { MatchResult result (λ _. turns.new ≡ turns.old + size value.now) (λ e. (e ≡ Limit) × (limit < turns.old + size value.now)) }
{
    let most = room(*turns) + 1;
    let size = size_within(value, most);
    match count(turns, size) {
        Ok(()) => Ok(()),
        Err(stop) => Err(stop),
    }
}

/// A Boolean that is made.
pub fn make_truth(alloc: Global, value: bool, out: &mut Out) -> Result<Ending, Stop>
    ensures { Goes out.old (made (boolean value)) out.new result }
{
    make(alloc, Json::boolean(value), out)
}

/// What an operator or a built-in gives, which is made.
pub fn make_of(
    alloc: Global,
    outcome: Result<Outcome, AllocError>,
    out: &mut Out,
) -> Result<Ending, Stop>
    ensures { (a : Answer) → IfOk outcome (λ o. outcome_of o ≡ a) → Goes out.old (made_of a) out.new result }
{
    match outcome? {
        Outcome::Value(value) => make(alloc, value, out),
        Outcome::Raised(error) => Ok(Ending::Raised(error)),
    }
}

/// What an index gives.
pub fn answer(outcome: Result<Outcome, AllocError>, out: &mut Out) -> Result<Ending, Stop>
    ensures { (a : Answer) → IfOk outcome (λ o. outcome_of o ≡ a) → Goes out.old (answered a) out.new result }
{
    match outcome? {
        Outcome::Value(value) => {
            out.values.push(value)?;
            Ok(Ending::Clean)
        }
        Outcome::Raised(error) => Ok(Ending::Raised(error)),
    }
}

/// Several outputs.
pub fn spread(several: Result<Several, AllocError>, out: &mut Out) -> Result<Ending, Stop>
    ensures { (a : _) → IfOk several (λ s. several_of s ≡ a) → Goes out.old (spread a) out.new result }
{
    match several? {
        Several::Values(values) => {
            let mut values = values;
            out.values.append(&mut values)?;
            Ok(Ending::Clean)
        }
        Several::Raised(error) => Ok(Ending::Raised(error)),
    }
}
