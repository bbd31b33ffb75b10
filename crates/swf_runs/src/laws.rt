// What holds of every run, whichever program makes it.
ghost use Rattle.std.specs.Prelude.{List, ◌++◌};
ghost use Rattle.swf_meaning.specs.Node.{Node};
ghost use Rattle.swf_meaning.specs.declared.label.Label.{Label};
ghost use Rattle.swf_runs.specs.Alive.{IsAllAlive};
ghost use Rattle.swf_runs.specs.Keys.{Once};
ghost use Rattle.swf_runs.specs.Counted.{IsCounted};
ghost use Rattle.swf_runs.specs.Grows.{Grows};
ghost use Rattle.swf_runs.specs.Kept.{IsWorld};
ghost use Rattle.swf_runs.specs.Quiet.{IsQuietStill};
ghost use Rattle.swf_runs.specs.Stays.{Stays};
ghost use Rattle.swf_runs.specs.Tops.{AreFound};
ghost use Rattle.swf_runs.specs.Waiting.{IsOverRunning, IsWaitListed};
ghost use Rattle.swf_runs.specs.Within.{IsWithin};
ghost use Rattle.swf_runs.specs.Runs.{Legal, world_at};

/// In a legal run no document is loaded twice under one key, no id starts two instances, no event is told twice, no call is answered
/// twice, and no moment is reached twice.
pub fn legal_once()
    ensures no_key_twice { (h : List Label) → Legal h → Once h }
{}

/// An instance that is completed or faulted has the same report in every longer legal run: what won stays.
pub fn legal_stays()
    ensures ended_reports_stay { (h g : List Label) → Legal (h ++ g) → Stays (world_at h) (world_at (h ++ g)) }
{}

/// After a legal run no strand is enabled exactly where no step of any strand of any id is allowed.
pub fn legal_quiet()
    ensures quiet_is_no_step { (h : List Label) → Legal h → IsQuietStill (world_at h) }
{}

/// After a legal run each `fork` at work has a branch that has not ended, and none that ended in an error; where its branches compete,
/// none has ended: the first that is done wins at once.
pub fn legal_alive()
    ensures forks_go_on { (h : List Label) → Legal h → IsAllAlive (world_at h) }
{}

/// After a legal run an instance whose status is waiting has a strand that listens, one that waits for a moment, or one that awaits an
/// answer.
pub fn legal_waiting()
    ensures waiting_is_listed { (h : List Label) → Legal h → IsWaitListed (world_at h) }
{}

/// After a legal run the ids of instances differ and are used keys, and no instance and no moment reached is later than now.
pub fn legal_world()
    ensures world_is_kept { (h : List Label) → Legal h → IsWorld (world_at h) }
{}

/// The world after a legal run counts the labels, and has each key of theirs with the place of its label.
pub fn legal_counted()
    ensures keys_have_places { (h : List Label) → Legal h → IsCounted h (world_at h) }
{}

/// After a legal run there are at most 1,000 documents and 10,000 instances, and each instance has at most 256 branches at work.
pub fn legal_within()
    ensures limits_hold { (h : List Label) → Legal h → IsWithin (world_at h) }
{}

/// What was loaded, started and sent after a legal run has the same place after every longer one, and time does not go back.
pub fn legal_grows()
    ensures nothing_is_taken_back { (h g : List Label) → Legal (h ++ g) → Grows (world_at h) (world_at (h ++ g)) }
{}

/// After a legal run an instance with a timer whose moment has come is running.
pub fn legal_over()
    ensures timers_end { (h : List Label) → Legal h → IsOverRunning (world_at h) }
{}

/// Among the strands of any node one is listed with a top exactly where its name finds that top.
pub fn node_tops()
    ensures listed_is_found { (n : Node) → AreFound n }
{}
