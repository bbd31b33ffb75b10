// Crews of none, one and two workers.
use crate::signs::{Counter, Signs, was_reached, was_set};
use crate::turnstile::{Through, one_seat, two_seats};
use std::alloc::{AllocError, Global};
use std::sync::atomic::Ordering;
use std::test::Fail;
use swf_scheduler::{Closed, Crew};

/// How many jobs are given while one is held: as many as the queue has room for.
const QUEUED: u64 = 64;

// The numbers that were taken and those that are left, by rising number.
fn all_numbers(alloc: Global, closed: &Closed<Through, Counter>) -> Result<Vec<u64>, AllocError> {
    let mut numbers = Vec::new(alloc);
    for list in &closed.taken {
        for number in list {
            numbers.push(*number)?;
        }
    }
    for (number, _) in &closed.left {
        numbers.push(*number)?;
    }
    numbers.sort()?;
    Ok(numbers)
}

// Whether numbers are those below one, each once.
fn are_below(numbers: &[u64], end: u64) -> bool {
    let mut next = 0u64;
    for number in numbers {
        if *number != next {
            return false;
        }
        next = next.saturating_add(1);
    }
    next == end
}

// Each of three jobs is taken or left once.
#[test]
fn taken_or_left(rt: HostRuntime) -> Result<(), Fail> {
    let alloc = rt.alloc();
    let signs = Signs::new(alloc)?;
    let mut crew = Crew::start(rt, two_seats(alloc, &signs)?)?;
    for job in 2..5 {
        assert!(rt; crew.give(Through::of(job, &signs)?).is_ok());
    }
    let Ok(closed) = crew.close() else {
        return Err(AllocError.into());
    };
    let numbers = all_numbers(alloc, &closed)?;
    assert_eq!(rt; numbers.as_slice(), [0, 1, 2].as_slice());
    assert_eq!(rt; closed.seats.len(), 2);
    assert_eq!(rt; closed.taken.len(), 2);
    Ok(())
}

// Two workers are at work at the same time: job 0 is held at a gate until job 1 is answered.
#[test]
fn gate(rt: HostRuntime) -> Result<(), Fail> {
    let alloc = rt.alloc();
    let signs = Signs::new(alloc)?;
    let mut crew = Crew::start(rt, two_seats(alloc, &signs)?)?;
    assert_eq!(rt; crew.workers(), 2);
    assert!(rt; crew.give(Through::of(0, &signs)?).is_ok());
    assert!(rt; crew.give(Through::of(1, &signs)?).is_ok());
    assert!(rt; was_reached(&signs.offered, 2));
    assert!(rt; signs.is_yes.load(Ordering::SeqCst));
    let Ok(closed) = crew.close() else {
        return Err(AllocError.into());
    };
    assert!(rt; closed.left.is_empty());
    Ok(())
}

// A crew with no worker hands work back.
#[test]
fn no_seats(rt: HostRuntime) -> Result<(), Fail> {
    let alloc = rt.alloc();
    let signs = Signs::new(alloc)?;
    let mut crew: Crew<Through, Counter, HostRuntime> = Crew::start(rt, Vec::new(alloc))?;
    assert_eq!(rt; crew.workers(), 0);
    let back = crew.give(Through::of(7, &signs)?);
    assert!(rt; matches!(back, Err(Through { job: 7, .. })));
    let Ok(closed) = crew.close() else {
        return Err(AllocError.into());
    };
    assert!(rt; closed.seats.is_empty() && closed.taken.is_empty() && closed.left.is_empty());
    Ok(())
}

// A queue that is full hands work back, and that uses no number: the job that is given next has the number 65.
#[test]
fn full(rt: HostRuntime) -> Result<(), Fail> {
    let alloc = rt.alloc();
    let signs = Signs::new(alloc)?;
    let mut crew = Crew::start(rt, one_seat(alloc, &signs)?)?;
    assert!(rt; crew.give(Through::of(0, &signs)?).is_ok());
    assert!(rt; was_set(&signs.is_begun));
    for _ in 0..QUEUED {
        assert!(rt; crew.give(Through::of(2, &signs)?).is_ok());
    }
    let back = crew.give(Through::of(3, &signs)?);
    assert!(rt; matches!(back, Err(Through { job: 3, .. })));
    signs.is_open.store(true, Ordering::SeqCst);
    assert!(rt; was_reached(&signs.offered, QUEUED + 1));
    assert!(rt; crew.give(Through::of(4, &signs)?).is_ok());
    let Ok(closed) = crew.close() else {
        return Err(AllocError.into());
    };
    let numbers = all_numbers(alloc, &closed)?;
    assert!(rt; are_below(numbers.as_slice(), QUEUED + 2));
    Ok(())
}

// A crew is abandoned while its worker is held at a gate: nobody waits for that job, its result is offered later, and the next job is dropped
// undone.
#[test]
fn abandoned(rt: HostRuntime) -> Result<(), Fail> {
    let alloc = rt.alloc();
    let signs = Signs::new(alloc)?;
    let mut crew = Crew::start(rt, one_seat(alloc, &signs)?)?;
    assert!(rt; crew.give(Through::of(0, &signs)?).is_ok());
    assert!(rt; crew.give(Through::of(2, &signs)?).is_ok());
    assert!(rt; was_set(&signs.is_begun));
    crew.abandon();
    assert_eq!(rt; signs.offered.load(Ordering::SeqCst), 0);
    signs.is_open.store(true, Ordering::SeqCst);
    assert!(rt; was_reached(&signs.undone, 1));
    assert_eq!(rt; signs.offered.load(Ordering::SeqCst), 1);
    assert!(rt; signs.is_yes.load(Ordering::SeqCst));
    Ok(())
}
