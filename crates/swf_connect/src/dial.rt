// Links to other machines, and who makes them.
ghost use Rattle.std.specs.Prelude.{◌≡◌, ℕ, List, Option, IfOk};
ghost use Rattle.std.specs.Option.{ForSome};
ghost use Rattle.swf_store.specs.Faults.{HasCause};
ghost use Rattle.swf_connect.specs.Talks.{About, Talk, IsFresh, HungUp, with_faults};

use swf_http::{Sink, Source};
use swf_store::Failed;

/// A source and a sink on one other machine.
pub trait Link: Source + Sink {
    /// Whom it reaches and what it gave or has left, where the link tells it.
    ghost about: { Self → Option About };

    /// A read changes nothing of what was written.
    ghost read_keeps: { (a b : Self) → Self.beside a ≡ Self.beside b
        → (Self.written a ≡ Self.written b) × (Self.write_faults a ≡ Self.write_faults b) × (about a ≡ about b) };

    /// A write changes nothing of what is left.
    ghost write_keeps: { (a b : Self) → Self.kept a ≡ Self.kept b
        → (Self.left a ≡ Self.left b) × (Self.faults a ≡ Self.faults b) × (about a ≡ about b) };
}

/// Makes links.
pub trait Dial {
    type Link: Link;

    /// What was said on the links that were hung up, where it is told.
    ghost talks: { Self → Option (List Talk) };

    /// How many calls of this, and of the links that were hung up, have failed. It never falls.
    ghost dial_faults: { Self → ℕ };

    /// Makes a link to a host at a port.
    fn dial(&mut self, host: &str, port: u16) -> Result<Self::Link, Failed>
        ensures fresh { ForSome (talks self.old) (λ _. IfOk result (λ link. IsFresh host.now port (Self.Link.about link) (Self.Link.left link) (Self.Link.written link))) }
        ensures unused { IfOk result (λ link. (Self.Link.faults link ≡ 0) × (Self.Link.write_faults link ≡ 0)) }
        ensures talks { talks self.new ≡ talks self.old }
        ensures cause { HasCause (dial_faults self.old) (dial_faults self.new) result };

    /// Ends a link. The faults of the link are counted from now on.
    fn hang_up(&mut self, link: Self::Link)
        ensures talks { HungUp (Self.Link.about link) (Self.Link.written link) (talks self.old) (talks self.new) }
        ensures faults { dial_faults self.new ≡ with_faults (dial_faults self.old) (Self.Link.faults link) (Self.Link.write_faults link) };
}
