// The order of queue.
ghost use Rattle.std.specs.Prelude.{◌≡◌, ◌<◌, ◌≤◌, ◌+◌, ◌++◌, ◌∷◌, ◌||◌, ◌==◌, ℕ, [], length, drop, take, nat_eq, slice_get, true, OnOk};
ghost use Rattle.std.specs.List.{IsDistinct};
ghost use Rattle.swf_queue.specs.Queue.{is_among, put};

use std::alloc::{AllocError, Global};
use std::collections::VecDeque;
use std::marker::Model;

/// The numbers of the instances that may be enabled, in the order of their queue. None stands there twice. Contracts see the
/// numbers, how many instances there are, and how many more fit.
#[derive(Drop)]
pub struct Queue {
    /// With a place for each instance.
    numbers: VecDeque<usize>,
    /// Whether the instance of a number stands in the queue.
    queued: Vec<bool>,
}

impl Model for Queue {
    ghost use Rattle.std.specs.Prelude.{◌-◌, min, length};
    ghost use Rattle.std.specs.VecDeque.{deque_capacity};
    ghost use Rattle.std.specs.Vec.{vec_len, vec_capacity};
    ghost use Rattle.swf_queue.specs.Queue.{Queue, queue_code};

    ghost Value = { Queue };

    ghost coded = { queue_code };

    ghost use Rattle.swf_queue.specs.Queue.{AreFlagged};

    ghost view = { λ t. record { numbers = t.numbers.items; count = length t.queued.items; room = min (deque_capacity t.numbers - length t.queued.items) (vec_capacity t.queued - length t.queued.items) } };

    ghost invariant = { λ t. AreFlagged t.numbers.items t.queued.items (deque_capacity t.numbers) };
}

impl Queue {
    /// Of no instance.
    pub fn new(alloc: Global) -> Queue
        ensures numbers { result.numbers ≡ [] }
        ensures count { result.count ≡ 0 }
    {
        Queue {
            numbers: VecDeque::new(alloc),
            queued: Vec::new(alloc),
        }
    }

    /// Makes room for so many new instances.
    pub fn reserve(&mut self, additional: usize) -> Result<(), AllocError>
        ensures numbers { self.new.numbers ≡ self.old.numbers }
        ensures count { self.new.count ≡ self.old.count }
        ensures room { OnOk result (additional ≤ self.new.room) }
    {
        self.queued.reserve(additional)?;
        self.numbers
            .reserve(self.queued.capacity() - self.numbers.len())
    }

    /// Puts the number of a new instance behind all others. It takes no memory.
    pub fn add(&mut self)
        requires { 0 < self.old.room }
        ensures numbers { self.new.numbers ≡ self.old.numbers ++ self.old.count ∷ [] }
        ensures count { self.new.count ≡ self.old.count + 1 }
        ensures room { self.old.room ≤ self.new.room + 1 }
    {
        self.numbers.push_back(self.queued.len()).unwrap();
        self.queued.push(true).unwrap();
    }

    /// Puts a number behind all others, where it does not stand there. It takes no memory.
    pub fn put(&mut self, number: usize)
        requires { number < self.old.count }
        ensures numbers { self.new.numbers ≡ put number self.old.numbers }
        ensures among { (n : ℕ) → is_among n self.new.numbers ≡ (is_among n self.old.numbers || (n == number)) }
        ensures count { self.new.count ≡ self.old.count }
        ensures room { self.new.room ≡ self.old.room }
    {
        if !self.queued[number] {
            self.numbers.push_back(number).unwrap();
            self.queued[number] = true;
        }
    }

    /// The first number.
    pub fn first(&self) -> Option<usize>
        ensures first { result ≡ slice_get self.now.numbers 0 }
        ensures distinct { IsDistinct nat_eq self.now.numbers }
        ensures known { (n : ℕ) → is_among n self.now.numbers ≡ true → n < self.now.count }
    {
        self.numbers.front().copied()
    }

    /// The first number leaves.
    pub fn leave(&mut self)
        ensures numbers { self.new.numbers ≡ drop 1 self.old.numbers }
        ensures count { self.new.count ≡ self.old.count }
        ensures room { self.new.room ≡ self.old.room }
    {
        if let Some(number) = self.numbers.pop_front() {
            self.queued[number] = false;
        }
    }

    /// The first number goes behind all others.
    pub fn rotate(&mut self)
        requires { 0 < length self.old.numbers }
        ensures numbers { self.new.numbers ≡ drop 1 self.old.numbers ++ take 1 self.old.numbers }
        ensures count { self.new.count ≡ self.old.count }
        ensures room { self.new.room ≡ self.old.room }
    {
        self.numbers.rotate_left(1);
    }
}
