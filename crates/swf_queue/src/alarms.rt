// Until when instances wait.
ghost use Rattle.std.specs.Prelude.{◌≡◌, ◌≤◌, ◌<◌, ◌+◌, ◌*◌, ◌++◌, ◌∷◌, ◌||◌, ℕ, [], None, length, true, slice_index_or, slice_set, take, OnOk};
ghost use Rattle.std.specs.List.{list_any};
ghost use Rattle.swf_queue.specs.Alarms.{IsTournament, above, is_by, is_due, node, sooner};
ghost use Rattle.swf_queue.specs.Queue.{is_among};

use crate::queue::Queue;
use std::alloc::{AllocError, Global};
use std::marker::Model;

/// The alarm of each instance, the moment in milliseconds until which it waits, or none. Contracts see the alarms by the number
/// of their instance, and for how many new instances there is room.
#[derive(Drop)]
pub struct Alarms {
    alarms: Vec<Option<u64>>,
    /// The inner nodes of a tournament among the alarms, from place 1 on.
    inner: Vec<Option<u64>>,
}

impl Model for Alarms {
    ghost use Rattle.std.specs.Prelude.{◌-◌, min, length};
    ghost use Rattle.std.specs.Vec.{vec_capacity};
    ghost use Rattle.swf_queue.specs.Alarms.{Alarms, alarms_code, IsTournament};

    ghost Value = { Alarms };

    ghost coded = { alarms_code };

    ghost view = { λ a. record { moments = a.alarms.items; room = min (vec_capacity a.alarms - length a.alarms.items) (length a.inner.items - length a.alarms.items) } };

    ghost invariant = { λ a. IsTournament a.inner.items a.alarms.items };
}

impl Alarms {
    /// Of no instance.
    pub fn new(alloc: Global) -> Alarms
        ensures { result.moments ≡ [] }
    {
        Alarms {
            alarms: Vec::new(alloc),
            inner: Vec::new(alloc),
        }
    }

    /// Makes room for so many new instances.
    pub fn reserve(&mut self, additional: usize) -> Result<(), AllocError>
        ensures moments { self.new.moments ≡ self.old.moments }
        ensures room { OnOk result (additional ≤ self.new.room) }
    {
        self.alarms.reserve(additional)?;
        let width = self.alarms.capacity();
        if self.inner.len() < width {
            self.inner.resize(width, None)?;
            play_all(&mut self.inner, &self.alarms);
        }
        Ok(())
    }

    /// A new instance has no alarm. It takes no memory.
    pub fn add(&mut self)
        requires { 0 < self.old.room }
        ensures moments { self.new.moments ≡ self.old.moments ++ None ∷ [] }
        ensures room { self.old.room ≤ self.new.room + 1 }
    {
        self.alarms.push(None).unwrap();
    }

    /// Sets the alarm of an instance in place of the one that it had. It takes no memory, and steps as many as the number of
    /// instances has digits in base two.
    pub fn set(&mut self, number: usize, until: Option<u64>)
        requires { number < length self.old.moments }
        ensures moments { self.new.moments ≡ slice_set self.old.moments number until }
        ensures room { self.new.room ≡ self.old.room }
    {
        let mut place = (self.inner.len() + number) / 2;
        self.alarms[number] = until;
        while place > 0 {
            play(&mut self.inner, &self.alarms, place);
            place /= 2;
        }
    }

    /// Whether some alarm is no later than a moment, in one step.
    pub fn is_over(&self, moment: u64) -> bool
        ensures { result ≡ list_any (is_by moment) self.now.moments }
    {
        is_by(node(&self.inner, &self.alarms, 1), moment)
    }

    /// The instances whose alarm is no later than a moment join the queue. The alarms stay. It takes no memory, and its steps are of
    /// those instances alone.
    pub fn wake(&self, queue: &mut Queue, moment: u64)
        requires { queue.old.count ≡ length self.now.moments }
        ensures numbers { (n : ℕ) → is_among n queue.new.numbers ≡ (is_among n queue.old.numbers || is_due moment self.now.moments n) }
        ensures front { take (length queue.old.numbers) queue.new.numbers ≡ queue.old.numbers }
        ensures count { queue.new.count ≡ queue.old.count }
        ensures room { queue.new.room ≡ queue.old.room }
    {
        wake_below(queue, &self.inner, &self.alarms, moment, 1);
    }
}

// The numbers of the leaves below a place join the queue, where their alarm is no later than a moment.
fn wake_below(
    queue: &mut Queue,
    inner: &[Option<u64>],
    alarms: &[Option<u64>],
    moment: u64,
    place: usize,
)
    requires count { queue.old.count ≡ length alarms.now }
    requires tournament { IsTournament inner.now alarms.now }
    requires place { 0 < place }
    ensures only { (n : ℕ) → is_among n queue.new.numbers ≡ true → (is_among n queue.old.numbers || is_due moment alarms.now n) ≡ true }
    ensures woken { (n levels : ℕ) → above levels (length inner.now + n) ≡ place → is_due moment alarms.now n ≡ true → is_among n queue.new.numbers ≡ true }
    ensures front { take (length queue.old.numbers) queue.new.numbers ≡ queue.old.numbers }
    ensures count { queue.new.count ≡ queue.old.count }
    ensures room { queue.new.room ≡ queue.old.room }
{
    if !is_by(node(inner, alarms, place), moment) {
        return;
    }
    if place >= inner.len() {
        queue.put(place - inner.len());
        return;
    }
    wake_below(queue, inner, alarms, moment, 2 * place);
    wake_below(queue, inner, alarms, moment, 2 * place + 1);
}

// The node of a place.
fn node(inner: &[Option<u64>], alarms: &[Option<u64>], place: usize) -> Option<u64>
    ensures { result ≡ node inner.now alarms.now place }
{
    if place < inner.len() {
        return inner[place];
    }
    let number = place - inner.len();
    if number < alarms.len() {
        alarms[number]
    } else {
        None
    }
}

// Whether there is an alarm no later than a moment.
fn is_by(alarm: Option<u64>, moment: u64) -> bool
    ensures { result ≡ is_by moment alarm }
{
    match alarm {
        Some(alarm) => alarm <= moment,
        None => false,
    }
}

// The earlier of two alarms.
fn sooner(a: Option<u64>, b: Option<u64>) -> Option<u64>
    ensures { result ≡ sooner a b }
{
    match (a, b) {
        (Some(a), Some(b)) => Some(a.min(b)),
        (Some(a), None) => Some(a),
        (None, b) => b,
    }
}

// The node of a place gets the sooner of the two at twice the place.
fn play(inner: &mut [Option<u64>], alarms: &[Option<u64>], place: usize)
    requires { place < length inner.old }
    ensures { inner.new ≡ slice_set inner.old place (sooner (node inner.old alarms.now (2 * place)) (node inner.old alarms.now (2 * place + 1))) }
{
    let left = node(inner, alarms, 2 * place);
    let right = node(inner, alarms, 2 * place + 1);
    inner[place] = sooner(left, right);
}

// All inner nodes are made anew.
fn play_all(inner: &mut [Option<u64>], alarms: &[Option<u64>])
    requires { length alarms.now ≤ length inner.old }
    ensures len { length inner.new ≡ length inner.old }
    ensures won { IsTournament inner.new alarms.now }
{
    let mut place = inner.len();
    while place > 1 {
        place -= 1;
        play(inner, alarms, place);
    }
}
