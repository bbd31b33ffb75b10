// A small work: a job is a number, and what comes of it is a number.
ghost use Rattle.std.specs.Prelude.{◌≡◌, ◌⊎◌, ◌∷◌, ◌++◌, [], List, Some, IfOk, true, false};
ghost use Rattle.std.specs.Option.{ForSome};
ghost use Rattle.swf_host.specs.declared.host.Input.{Input as Came};
ghost use Rattle.swf_host.specs.Script.{coming, input_taken};
ghost use Rattle.swf_turns.specs.Turns.{AreMore};
ghost use Rattle.swf_test_turns.specs.Bell.{bell};
ghost use Rattle.swf_test_turns.specs.Examples.{go, started};
ghost use Rattle.swf_test_turns.specs.declared.work.Done.{Done as Result};

use swf_host::{Host, Input};
use swf_store::Failed;

/// A job.
#[derive(Clone, Copy)]
pub struct Job {
    pub number: u64,
}

/// What came of a job.
#[derive(Clone, Copy)]
pub struct Done {
    pub number: u64,
}

/// Takes an input and gives a job; where the crew has it, takes what comes of work. What is taken behind the first input belongs to its turn.
pub fn take_with_work<H: Host<Job, Done>>(host: &mut H, job: Job) -> Result<Input<Done>, Failed>
    ensures taken { ForSome (H.taken host.old) (λ before. IfOk result (λ first. (more : List (Came Result)) × AreMore bell more × (H.taken host.new ≡ Some (before ++ first ∷ more)))) }
    ensures given { ForSome (H.given host.old) (λ before. IfOk result (λ first. (H.given host.new ≡ Some before) ⊎ (H.given host.new ≡ Some (before ++ job ∷ [])))) }
    ensures said { H.said host.new ≡ H.said host.old }
{
    let first = host.next(false)?;
    if host.give(job).is_ok() {
        let _ = host.next(true)?;
    }
    Ok(first)
}

/// What a host in memory hands in by its script: a line, and then what came of work.
pub fn work_of_a_script()
    ensures first { (w : Result) → coming false (started w) ≡ go }
    ensures later { (w : Result) → coming true (input_taken false go (started w)) ≡ Came.Work w }
    // Where work alone is waited for, a line stays where it is.
    ensures waits { (w : Result) → (coming true (started w) ≡ Came.Idle) × (coming false (input_taken true Came.Idle (started w)) ≡ go) }
{}
