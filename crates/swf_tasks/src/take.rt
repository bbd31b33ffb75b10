// A step that was prepared is taken, and steps one after another.
ghost use Rattle.std.specs.Prelude.{◌≡◌, ◌↔◌, ℕ, Err, IfOk, OnErr, Some, false, option_map};
ghost use Rattle.swf_meaning.specs.Shared.{advanced};
ghost use Rattle.swf_meaning.specs.Strands.{can_go};
ghost use Rattle.swf_meaning.specs.World.{step_at};
ghost use Rattle.swf_stack.specs.Stack.{context_or};
ghost use Rattle.swf_strands.specs.Alarm.{alarm_of};
ghost use Rattle.swf_strands.specs.Strands.{IsGrown, root_node};
ghost use Rattle.swf_tasks.specs.Prepares.{applied, fits, Fits, node_after};
ghost use Rattle.swf_tasks.specs.Taken.{taken, emitted_of};

use crate::machine::Machine;
use crate::prepared::{Prepared, Strands};
use std::alloc::{AllocError, Global};
use swf_cloudevents::Event;
use swf_frames::Forest;
use swf_scene::Site;
use swf_stack::{SentEvent, Stand};
use swf_strands::{alarm_in, put_kept};
use swf_text::Strand;
use swf_value::Json;
use thiserror::Error;

/// What a step leads to besides the change of the instance.
#[derive(Drop)]
pub enum StepResult {
    Quiet,
    /// This event goes out.
    Emitted(Event),
}

/// Why a strand takes no step.
#[derive(Clone, Copy, Debug, PartialEq, Eq, Error)]
pub enum StepFault {
    #[error("not enabled")]
    NotEnabled,
    #[error("out of memory")]
    OutOfMemory,
}

impl Machine {
    /// Takes a step that was prepared. Answers the event that goes out, where one does. It takes no memory.
    pub fn take(&mut self, prepared: Prepared) -> Option<SentEvent>
        requires { Fits prepared self.old }
        ensures changed { self.new ≡ applied prepared self.old }
        ensures emitted { result ≡ prepared.emitted }
    {
        let Prepared {
            strand,
            strands,
            context,
            number,
            emitted,
        } = prepared;
        self.alarm = put_strands(&mut self.forest, strand.as_slice(), strands, self.alarm);
        put_context(&mut self.setting.context, context);
        self.setting.number = number;
        self.last = strand;
        emitted
    }

    /// A strand takes its step.
    pub fn step(
        &mut self,
        alloc: Global,
        strand: &Strand,
        site: Site<'_>,
    ) -> Result<StepResult, StepFault>
        ensures ok { IfOk result (λ r. option_map (taken self.old) (step_at site.entry.now site.entry.documents.now.documents strand.now self.old) ≡ Some (self.new, emitted_of r)) }
        ensures err { OnErr result (self.new ≡ self.old) }
        ensures not_enabled { (result ≡ Err StepFault.NotEnabled) ↔ (can_go site.entry.now strand.now self.old.node ≡ false) }
    {
        let Site { now, documents } = site;
        if !self.enabled(strand, now) {
            return Err(StepFault::NotEnabled);
        }
        let Ok(prepared) = self.prepare(alloc, strand, Site { now, documents }) else {
            return Err(StepFault::OutOfMemory);
        };
        match self.take(prepared) {
            None => Ok(StepResult::Quiet),
            Some(event) => Ok(StepResult::Emitted(event.into_inner())),
        }
    }

    /// Takes steps of a strand until the fuel is used, the next step is shared, or there is none. Answers their number. After want
    /// of memory the steps that were taken stand.
    pub fn advance(
        &mut self,
        alloc: Global,
        strand: &Strand,
        fuel: u32,
        site: Site<'_>,
    ) -> Result<u32, AllocError>
        ensures ok { IfOk result (λ steps. (self.new, steps) ≡ advanced site.entry.now site.entry.documents.now.documents strand.now fuel self.old) }
        ensures err { OnErr result ((steps : ℕ) × (advanced site.entry.now site.entry.documents.now.documents strand.now steps self.old ≡ (self.new, steps))) }
    {
        let Site { now, documents } = site;
        let mut steps = 0;
        while steps < fuel && !self.is_shared(strand) && self.enabled(strand, now) {
            let prepared = self.prepare(alloc, strand, Site { now, documents })?;
            self.take(prepared);
            steps += 1;
        }
        Ok(steps)
    }
}

// The context changes where a step changed it.
fn put_context(place: &mut Json, context: Option<Json>)
    ensures { place.new ≡ context_or place.old context }
{
    if let Some(context) = context {
        *place = context;
    }
}

// The strands are put anew. Answers the least moment, in milliseconds, that one of them waits for then.
fn put_strands(
    forest: &mut Forest<Stand>,
    strand: &[u16],
    strands: Strands,
    alarm: Option<u64>,
) -> Option<u64>
    requires grown { IsGrown forest.old.strands }
    requires fits { fits strands strand.now (root_node forest.old.strands) }
    requires alarm { alarm ≡ alarm_of (root_node forest.old.strands) }
    ensures grown { IsGrown forest.new.strands }
    ensures node { root_node forest.new.strands ≡ node_after strands strand.now (root_node forest.old.strands) }
    ensures alarm { result ≡ alarm_of (root_node forest.new.strands) }
{
    match strands {
        Strands::One { depth, stand } => put_kept(forest, &strand[..depth], stand, alarm),
        Strands::All(all) => {
            let alarm = alarm_in(&all, all.root());
            *forest = all;
            alarm
        }
    }
}
