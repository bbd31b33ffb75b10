// An event is offered to an instance (DSL 1.0.0, "Events").
ghost use Rattle.std.specs.Prelude.{◌≡◌, IfOk, OnErr, nat_lt};
ghost use Rattle.swf_meaning.specs.Offer.{offered_one, takers_in};
ghost use Rattle.swf_offers.specs.EventTypes.{event_types};
ghost use Rattle.swf_strands.specs.Strands.{IsGrown, root_node};
ghost use Rattle.swf_tasks.specs.Prepares.{applied, fits, Fits, node_after};
ghost use Rattle.swf_tasks.specs.Taken.{offered_own};

use crate::machine::Machine;
use crate::prepared::{Prepared, Strands};
use std::alloc::{AllocError, Global};
use swf_frames::Forest;
use swf_offers::{hears_in, list_types, offer_in};
use swf_stack::Stand;
use swf_strands::{alarm_in, put_at};
use swf_text::Text;
use swf_transform::Offer;

impl Machine {
    /// The types of the events that its strands listen for; none for a filter that takes events of more than one.
    pub fn event_types(&self, alloc: Global) -> Result<Vec<Option<Text>>, AllocError>
        ensures { IfOk result (λ v. v.items ≡ event_types self.now.node) }
    {
        let mut types = Vec::new(alloc);
        list_types(&self.forest, self.forest.root(), &mut types)?;
        Ok(types)
    }

    /// Whether a task of it takes an event.
    pub fn hears(&self, alloc: Global, offer: &Offer) -> Result<bool, AllocError>
        ensures { IfOk result (λ b. b ≡ nat_lt 0 (takers_in offer.now self.now)) }
    {
        hears_in(alloc, &self.forest, self.forest.root(), offer)
    }

    /// Offers it an event. Answers how many of its tasks took it.
    pub fn deliver_event(&mut self, alloc: Global, offer: &Offer) -> Result<u32, AllocError>
        ensures ok { IfOk result (λ n. (n ≡ takers_in offer.now self.old) × (self.new ≡ offered_one offer.now self.old)) }
        ensures err { OnErr result (self.new ≡ self.old) }
    {
        let mut forest = self.forest.copy(alloc)?;
        let root = forest.root();
        let taken = offer_in(alloc, &mut forest, root, offer)?;
        self.alarm = alarm_in(&forest, forest.root());
        self.forest = forest;
        Ok(taken)
    }

    /// The same step, with the event that goes out offered to the instance itself as well, where one goes out.
    pub fn offered(&self, alloc: Global, prepared: Prepared) -> Result<Prepared, AllocError>
        requires { Fits prepared self.now }
        ensures { IfOk result (λ q. Fits q self.now × (applied q self.now ≡ offered_own prepared.emitted (applied prepared self.now)) × (q.emitted ≡ prepared.emitted)) }
    {
        let Some(sent) = &prepared.emitted else {
            return Ok(prepared);
        };
        let offer = Offer::new(alloc, sent.get())?;
        let Prepared {
            strand,
            strands,
            context,
            number,
            emitted,
        } = prepared;
        let mut forest = self.all_after(alloc, strand.as_slice(), strands)?;
        let root = forest.root();
        offer_in(alloc, &mut forest, root, &offer)?;
        Ok(Prepared {
            strand,
            strands: Strands::All(forest),
            context,
            number,
            emitted,
        })
    }
    // All strands after a step.
    fn all_after(
        &self,
        alloc: Global,
        strand: &[u16],
        strands: Strands,
    ) -> Result<Forest<Stand>, AllocError>
        requires { fits strands strand.now self.now.node }
        ensures grown { IfOk result (λ f. IsGrown f.strands) }
        ensures node { IfOk result (λ f. root_node f.strands ≡ node_after strands strand.now self.now.node) }
    {
        match strands {
            Strands::One { depth, stand } => {
                let mut forest = self.forest.copy(alloc)?;
                put_at(&mut forest, &strand[..depth], stand);
                Ok(forest)
            }
            Strands::All(forest) => Ok(forest),
        }
    }
}
