// What comes of a whole session in which one call fails, and of a stop at any moment of it.
use crate::session::fail;
use crate::{Failing, Ran, TestHost, run, script};
use std::alloc::{AllocError, Global};
use std::io;
use swf_store::{Image, MemoryStore};
use swf_test_tables::{add_line, add_outcome};

/// Loads the document `a`, whose one task sets x to 1.
const LOAD: &str =
    "load {\"document\":{\"dsl\":\"1.0.0\",\"namespace\":\"t\",\"name\":\"a\",\"version\":\"1.0.0\"},\"do\":[{\"s\":{\"set\":{\"x\":1}}}]}";

/// A whole session: the document is loaded, an instance of it is started, and it is done after three steps.
const WHOLE: [&str; 6] = [
    LOAD,
    "start i t a 1.0.0 {}",
    "settle 100",
    "status i",
    "status z",
    "quit",
];

const COMPLETED: &str =
    "{\"context\":null,\"id\":\"i\",\"output\":{\"x\":1},\"status\":\"completed\"}\n";

const RUNNING: &str = "{\"context\":null,\"id\":\"i\",\"status\":\"running\"}\n";

const UNKNOWN: &str = "{\"error\":\"unknown-instance\"}\n";

const LOADED: &str = "{\"ok\":\"loaded\",\"place\":0}\n";

const DUPLICATE: &str = "{\"error\":\"duplicate\",\"place\":0}\n";

const QUIT: &str = "{\"ok\":\"quit\"}\n";

/// What the whole session is answered.
const WHOLE_REPLIES: [&str; 6] = [
    LOADED,
    "{\"ok\":\"started\",\"place\":1}\n",
    "{\"ok\":\"quiet\",\"steps\":3}\n",
    COMPLETED,
    UNKNOWN,
    QUIT,
];

/// How many of the replies tell of something that is kept.
const KEPT_REPLIES: usize = 3;

/// What stands for replies, or for a history, that is none of those that are known.
const OTHER: usize = 9;

// Runs the whole session over files that were never written.
fn run_whole(alloc: Global, failing: Failing) -> Result<Ran, AllocError> {
    let script = script(alloc, &WHOLE)?;
    run(alloc, "session", Image::empty(alloc), failing, script)
}

// How many replies were said whole, where they are the first of these, each said to the connection that asked before the next
// line was taken, and behind them at most a part of the next one.
fn replies(host: &TestHost, wanted: &[&str]) -> usize {
    for (place, piece) in host.said().iter().enumerate() {
        let Some(reply) = wanted.get(place) else {
            return OTHER;
        };
        let number = place as u64;
        if piece.conn != number || piece.inputs != number.saturating_add(1) {
            return OTHER;
        }
        if piece.bytes.as_slice() != reply.as_bytes() {
            let is_part = reply.as_bytes().starts_with(piece.bytes.as_slice());
            let is_last = host.said().len() == place.saturating_add(1);
            return if is_part && is_last { place } else { OTHER };
        }
    }
    host.said().len()
}

// How far the history of an image has come, as a session over it tells: 0 where it is empty, 1 behind the load, 2 behind the
// start, and 3 where the instance is completed.
fn reached(alloc: Global, image: &Image) -> Result<usize, AllocError> {
    let script = script(alloc, &["status i", LOAD, "quit"])?;
    let none = Failing::none(alloc);
    let ran = run(alloc, "session", image.copy(alloc)?, none, script)?;
    Ok(if ran.status == 0 {
        place_of(&ran.host)
    } else {
        OTHER
    })
}

// The place of the replies that were said.
fn place_of(host: &TestHost) -> usize {
    let cases = [
        [UNKNOWN, LOADED, QUIT],
        [UNKNOWN, DUPLICATE, QUIT],
        [RUNNING, DUPLICATE, QUIT],
        [COMPLETED, DUPLICATE, QUIT],
    ];
    for (place, wanted) in cases.iter().enumerate() {
        if replies(host, wanted) == wanted.len() {
            return place;
        }
    }
    OTHER
}

/// How many images a stop may leave; in how many all that was answered stands and the line behind it too; and how many have
/// neither that nor what was answered.
#[derive(Clone, Copy)]
struct Tried {
    images: u64,
    ahead: u64,
    wrong: u64,
}

impl Tried {
    // One image more, whose history has come so far where so much had been said.
    fn count(&mut self, found: usize, said: usize) {
        self.images = self.images.saturating_add(1);
        if found == said.saturating_add(1) && found <= KEPT_REPLIES {
            self.ahead = self.ahead.saturating_add(1);
        } else if found != said {
            self.wrong = self.wrong.saturating_add(1);
        }
    }
}

// Runs a session over each image that a stop after so many calls may leave, when so many replies had been said.
fn try_stop(
    alloc: Global,
    store: &MemoryStore,
    calls: u64,
    said: usize,
) -> Result<Tried, AllocError> {
    let mut tried = Tried {
        images: 0,
        ahead: 0,
        wrong: 0,
    };
    let Ok(images) = store.images(alloc, calls) else {
        return Err(AllocError);
    };
    let said = said.min(KEPT_REPLIES);
    for image in images.iter() {
        tried.count(reached(alloc, image)?, said);
    }
    Ok(tried)
}

// How many pieces had been said when so many calls were made.
fn said_by(host: &TestHost, calls: u64) -> usize {
    let mut count = 0usize;
    for piece in host.said() {
        if piece.calls <= calls {
            count = count.saturating_add(1);
        }
    }
    count
}

// What comes of a stop of the whole session after so many calls.
fn stopped(alloc: Global, calls: u64) -> Result<String, AllocError> {
    let ran = run_whole(alloc, Failing::none(alloc))?;
    let said = said_by(&ran.host, calls);
    let Tried {
        images,
        ahead,
        wrong,
    } = try_stop(alloc, ran.host.store(), calls, said)?;
    format!(in alloc; "{images} images, {ahead} ahead, {wrong} wrong")
}

// What comes of the whole session where some calls fail.
fn failed(alloc: Global, failing: Failing) -> Result<String, AllocError> {
    let ran = run_whole(alloc, failing)?;
    let host = &ran.host;
    let status = ran.status;
    let said = replies(host, &WHOLE_REPLIES);
    let inputs = host.taken().len();
    let calls = host.store().calls().len();
    let reached = reached(alloc, host.store().image())?;
    let wrong = try_stop(alloc, host.store(), calls as u64, said)?.wrong;
    let lacks = host.lacks().saturating_add(host.store().lacks());
    format!(in alloc;
        "status {status}, {said} replies, {inputs} inputs, {calls} calls, {reached} reached, {wrong} wrong, {lacks} lacks"
    )
}

// What comes of a row: a call that fails, or a number of calls before a stop.
fn outcome(alloc: Global, row: &str) -> io::Result<String> {
    if let Some(calls) = row.strip_prefix("stop ") {
        let calls = calls.parse::<u64>().unwrap_or(u64::MAX);
        return Ok(stopped(alloc, calls)?);
    }
    let mut failing = Failing::none(alloc);
    if row != "nothing" {
        fail(&mut failing, row)?;
    }
    Ok(failed(alloc, failing)?)
}

/// Adds each row, and behind it what comes of it.
pub(crate) fn add_faults(alloc: Global, transcript: &mut Vec<u8>, rows: &str) -> io::Result<()> {
    for row in rows.split('\n') {
        if row.starts_with('#') {
            add_line(transcript, "", row)?;
        } else if !row.is_empty() {
            let outcome = outcome(alloc, row)?;
            add_outcome(transcript, row, outcome.as_str())?;
        }
    }
    Ok(())
}
