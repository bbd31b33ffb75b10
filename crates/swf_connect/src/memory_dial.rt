// A dial in memory, whose links give what it was given, and which keeps what was said.
use crate::fails::is_failing;
use crate::talks::{Spoken, Talks};
use crate::{Dial, MemoryLink};
use std::alloc::{AllocError, Global};
use std::marker::Model;
use std::mem;
use swf_store::Failed;

/// Makes links that give its replies in order, one for each link, and keeps the talks on those that were hung up. The calls of `dial`
/// with the given numbers, from 0, fail and use up no reply. So do those for which none is left or no memory is found.
#[derive(Drop)]
pub struct MemoryDial {
    alloc: Global,
    replies: Vec<Vec<u8>>,
    next: usize,
    failing: Vec<u64>,
    dials: u64,
    talks: Talks,
    faults: u64,
    lacks: u64,
}

impl Model for MemoryDial {
    ghost use Rattle.swf_connect.specs.Dialed.{Dialed};

    ghost Value = { Dialed };

    ghost use Rattle.std.specs.Prelude.{drop, map};

    ghost view = { λ d. record { left = drop d.next (map (λ v. v.items) d.replies.items); failing = d.failing.items; dials = d.dials; talks = d.talks; faults = d.faults; lacks = d.lacks } };
}

impl MemoryDial {
    ghost use Rattle.std.specs.Prelude.{◌≡◌, [], map, option_map, IfOk, OnOk};
    ghost use Rattle.swf_connect.specs.Spoken.{last_of, talk_of};

    /// A dial whose links give these replies.
    pub fn new(alloc: Global, replies: Vec<Vec<u8>>, failing: Vec<u64>) -> MemoryDial
        ensures { result ≡ record { left = map (λ v. v.items) replies.items; failing = failing.items; dials = 0; talks = []; faults = 0; lacks = 0 } }
    {
        MemoryDial {
            alloc,
            replies,
            next: 0,
            failing,
            dials: 0,
            talks: Talks::none(),
            faults: 0,
            lacks: 0,
        }
    }

    /// What was said on the link that was hung up last.
    pub fn last(&self) -> Option<&Spoken>
        ensures { option_map (λ talk. talk_of talk.now) result ≡ last_of self.now.talks }
    {
        self.talks.last()
    }

    /// How many calls of this, and of the links that were hung up, found no memory.
    pub fn lacks(&self) -> u64
        ensures { result ≡ self.now.lacks }
    {
        self.lacks
    }
}

impl Dial for MemoryDial {
    type Link = MemoryLink;

    ghost use Rattle.std.specs.Prelude.{◌≡◌, ℕ, Some, IfOk};
    ghost use Rattle.swf_store.specs.Faults.{HasCause};
    ghost use Rattle.swf_connect.specs.Dialed.{link_about, link_lacks, link_left, link_written, one_more, Dials};
    ghost use Rattle.swf_connect.specs.Talks.{IsFresh};

    ghost talks = { λ dial. Some dial.talks };

    ghost dial_faults = { λ dial. dial.faults };

    #[tactic(auto, using(crate::proofs::DialLemmas::next_left))]
    fn dial(&mut self, host: &str, port: u16) -> Result<MemoryLink, Failed>
        ensures fresh { IfOk result (λ link. IsFresh host.now port (Some (link_about link)) (Some (link_left link)) (Some (link_written link))) }
        ensures unused { IfOk result (λ link. (◌≡◌ {A = ℕ} 0 0) × (link_lacks link ≡ 0)) }
        ensures talks { Some self.new.talks ≡ Some self.old.talks }
        ensures cause { HasCause self.old.faults self.new.faults result }
        ensures dials { Dials self.old self.new result }
        ensures counts { self.new.dials ≡ one_more self.old.dials }
    {
        let number = self.dials;
        self.dials = number.saturating_add(1);
        if is_failing(&self.failing, number) {
            self.faults = self.faults.saturating_add(1);
            return Err(Failed);
        }
        if self.next >= self.replies.len() {
            self.faults = self.faults.saturating_add(1);
            return Err(Failed);
        }
        match MemoryLink::new(self.alloc, host, port, &self.replies[self.next]) {
            Ok(link) => {
                self.next += 1;
                Ok(link)
            }
            Err(AllocError) => {
                self.faults = self.faults.saturating_add(1);
                self.lacks = self.lacks.saturating_add(1);
                Err(Failed)
            }
        }
    }

    fn hang_up(&mut self, link: MemoryLink) {
        let MemoryLink {
            talk,
            at: _at,
            lacks,
            room,
        } = link;
        let before = mem::replace(&mut self.talks, Talks::none());
        self.talks = before.with(room, talk);
        self.faults = self.faults.saturating_add(lacks);
        self.lacks = self.lacks.saturating_add(lacks);
    }
}
