// Where inputs come from, and where replies and jobs go.
ghost use Rattle.std.specs.Prelude.{◌≡◌, ℕ, List, Option, length, option_map, true, IfOk, IfErr};
ghost use Rattle.std.specs.Option.{ForSome};
ghost use Rattle.swf_store.specs.Disk.{NothingNew};
ghost use Rattle.swf_store.specs.Faults.{HasCause};
ghost use Rattle.swf_store.specs.Said.{AfterSay, MayHaveSaid};
ghost use Rattle.swf_store.specs.Stops.{Elapses, ElapsesSilent};
ghost use Rattle.swf_host.specs.declared.host.Input.{Input as Came};
ghost use Rattle.swf_host.specs.Taken.{after_give, after_next, is_awaited};

use std::alloc::{AllocError, Global};
use swf_store::{Failed, Store};
use swf_text::Bytes;

/// What comes from outside, or of work that was given.
#[derive(Drop)]
pub enum Input<W> {
    /// A connection asks: a line without its newline.
    Ask(u64, Bytes),
    /// A connection asked something longer than a line may be.
    TooLong(u64),
    /// Some work is done, and this came of it.
    Work(W),
    /// Where work alone is waited for: none comes.
    Idle,
    /// Nothing comes any more.
    Closed,
}

/// The job, and the result of one, of a program that gives no work: there is none.
#[derive(Drop)]
pub enum NoWork {}

/// What a copy can be made of, where there is some.
pub trait CopyIn: Drop {
    fn copy(work: Option<&Self>, alloc: Global) -> Result<Option<Self>, AllocError>
        ensures { IfOk result (λ copy. copy ≡ option_map (λ w. w.now) work.entry) };
}

impl CopyIn for NoWork {
    fn copy(work: Option<&NoWork>, _alloc: Global) -> Result<Option<NoWork>, AllocError> {
        match work {
            Some(none) => match *none {},
            None => Ok(None),
        }
    }
}

impl<W> Input<W> {
    /// Whether it may be answered where work alone is waited for, or where any input is.
    pub fn is_awaited(&self, only_work: bool) -> bool
        ensures { result ≡ is_awaited only_work self.now }
    {
        match self {
            Input::Work(_) => true,
            Input::Idle => only_work,
            Input::Ask(_, _) | Input::TooLong(_) | Input::Closed => !only_work,
        }
    }
}

impl<W: CopyIn> Input<W> {
    pub fn copy(&self, alloc: Global) -> Result<Input<W>, AllocError>
        ensures { IfOk result (λ input. input ≡ self.now) }
    {
        Ok(match self {
            Input::Ask(conn, bytes) => Input::Ask(*conn, bytes.copy(alloc)?),
            Input::TooLong(conn) => Input::TooLong(*conn),
            Input::Work(work) => match W::copy(Some(work), alloc)? {
                Some(work) => Input::Work(work),
                None => unreachable!(),
            },
            Input::Idle => Input::Idle,
            Input::Closed => Input::Closed,
        })
    }
}

/// A source of inputs and a sink of replies, beside a store, with a crew that jobs are given to. `G` is a job, and `W` what comes of one.
/// Its own calls change nothing of the store.
pub trait Host<G: Drop, W: Drop>: Store {
    /// What was taken, where the host tells it.
    ghost taken: { Self → Option (List (Came W)) };

    /// The jobs that were given and not handed back, where the host tells them.
    ghost given: { Self → Option (List G) };

    /// How often it failed. It never falls.
    ghost host_faults: { Self → ℕ };

    /// Takes the next input; where work alone is waited for, the next that is work, or `Idle`. After a failure none was taken.
    fn next(&mut self, only_work: bool) -> Result<Input<W>, Failed>
        ensures taken { taken self.new ≡ after_next result (taken self.old) }
        ensures awaited { IfOk result (λ input. is_awaited only_work input ≡ true) }
        ensures given { given self.new ≡ given self.old }
        ensures cause { HasCause (host_faults self.old) (host_faults self.new) result }
        ensures seen { Self.seen self.new ≡ Self.seen self.old }
        ensures said { Self.said self.new ≡ Self.said self.old }
        ensures calls { Self.calls self.new ≡ Self.calls self.old }
        ensures store_faults { Self.store_faults self.new ≡ Self.store_faults self.old }
        ensures stop { NothingNew (Self.may_leave self.old) (Self.may_leave self.new) }
        ensures time { ElapsesSilent (Self.moment self.old) (Self.moment self.new) (Self.left_since self.old) (Self.left_since self.new) (Self.may_leave self.new) (Self.said self.old) };

    /// Says some bytes to a connection. After a failure the first of them may have been said, and so at a stop during it.
    fn say(&mut self, conn: u64, bytes: &[u8]) -> Result<(), Failed>
        ensures said { ForSome (taken self.old) (λ inputs. ForSome (Self.said self.old) (λ before. AfterSay conn bytes.now (length inputs) result before (Self.said self.new))) }
        ensures taken { taken self.new ≡ taken self.old }
        ensures given { given self.new ≡ given self.old }
        ensures cause { HasCause (host_faults self.old) (host_faults self.new) result }
        ensures seen { Self.seen self.new ≡ Self.seen self.old }
        ensures calls { Self.calls self.new ≡ Self.calls self.old }
        ensures store_faults { Self.store_faults self.new ≡ Self.store_faults self.old }
        ensures stop { NothingNew (Self.may_leave self.old) (Self.may_leave self.new) }
        ensures time { Elapses (Self.moment self.old) (Self.moment self.new) (Self.left_since self.old) (Self.left_since self.new) (Self.may_leave self.new) (MayHaveSaid conn bytes.now (taken self.old) (Self.said self.old)) };

    /// Gives a job to the crew, which may hand it back.
    fn give(&mut self, job: G) -> Result<(), G>
        ensures given { given self.new ≡ after_give job result (given self.old) }
        ensures back { IfErr result (λ back. back ≡ job) }
        ensures taken { taken self.new ≡ taken self.old }
        ensures host_faults { host_faults self.new ≡ host_faults self.old }
        ensures seen { Self.seen self.new ≡ Self.seen self.old }
        ensures said { Self.said self.new ≡ Self.said self.old }
        ensures calls { Self.calls self.new ≡ Self.calls self.old }
        ensures store_faults { Self.store_faults self.new ≡ Self.store_faults self.old }
        ensures stop { NothingNew (Self.may_leave self.old) (Self.may_leave self.new) }
        ensures time { ElapsesSilent (Self.moment self.old) (Self.moment self.new) (Self.left_since self.old) (Self.left_since self.new) (Self.may_leave self.new) (Self.said self.old) };

    /// Where all is equal besides the store, what was taken is.
    ghost beside_taken: { (a b : Self) → Self.beside a ≡ Self.beside b → taken a ≡ taken b };

    /// And so is what was given.
    ghost beside_given: { (a b : Self) → Self.beside a ≡ Self.beside b → given a ≡ given b };

    /// Where all is equal besides the store, so are the failures.
    ghost beside_faults: { (a b : Self) → Self.beside a ≡ Self.beside b → host_faults a ≡ host_faults b };
}
