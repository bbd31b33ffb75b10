// What comes of a stop of a session at any moment: the session is given once more, over the files that were left.
use crate::{Failing, Ran, TestHost, run, script};
use std::alloc::{AllocError, Global};
use std::io;
use swf_store::Image;
use swf_test_tables::add_line;

/// A name, and the lines behind it.
#[derive(Drop)]
struct Session<'a> {
    name: &'a str,
    lines: Vec<&'a str>,
}

impl<'a> Session<'a> {
    fn new(alloc: Global, block: &'a str) -> Result<Session<'a>, AllocError> {
        let (name, rest) = block.split_once('\n').unwrap_or((block, ""));
        let mut lines = Vec::new(alloc);
        for line in rest.split('\n') {
            if !line.is_empty() {
                lines.push(line)?;
            }
        }
        Ok(Session { name, lines })
    }

    // Runs it over these files.
    fn run(&self, alloc: Global, image: Image) -> Result<TestHost, AllocError> {
        Ok(run_lines(alloc, &self.lines, image)?.host)
    }

    // Whether it has one instance, whose steps have one order.
    fn has_one_instance(&self) -> bool {
        let mut starts = 0usize;
        for line in self.lines.iter() {
            if line.starts_with("start ") {
                starts = starts.saturating_add(1);
            }
        }
        starts == 1
    }

    // Whether each status is told the same.
    fn is_same(&self, one: &TestHost, other: &TestHost) -> bool {
        for (place, line) in self.lines.iter().enumerate() {
            if line.starts_with("status ") && !has_same_reply(one, other, place) {
                return false;
            }
        }
        true
    }

    // Whether what was left came to the same end: the statuses and, of one instance, the labels.
    fn ends_the_same(
        &self,
        alloc: Global,
        image: &Image,
        whole: &TestHost,
    ) -> Result<bool, AllocError> {
        let again = self.run(alloc, image.copy(alloc)?)?;
        if !self.is_same(&again, whole) {
            return Ok(false);
        }
        if !self.has_one_instance() {
            return Ok(true);
        }
        let (one, other) = (history(alloc, &again)?, history(alloc, whole)?);
        Ok(has_same_reply(&one, &other, 0))
    }

    // Stops it after each number of calls, and tells how often it came to another end.
    fn outcome(&self, alloc: Global) -> Result<String, AllocError> {
        let whole = self.run(alloc, Image::empty(alloc))?;
        let calls = whole.store().calls().len() as u64;
        let mut wrong = 0u64;
        for stop in 0..=calls {
            self.count_wrong(alloc, &whole, stop, &mut wrong)?;
        }
        format!(in alloc; "{calls} calls, {wrong} wrong")
    }

    // Counts the images that a stop after so many calls may leave and that come to another end.
    fn count_wrong(
        &self,
        alloc: Global,
        whole: &TestHost,
        calls: u64,
        wrong: &mut u64,
    ) -> Result<(), AllocError> {
        let Ok(images) = whole.store().images(alloc, calls) else {
            return Err(AllocError);
        };
        for image in images.iter() {
            if !self.ends_the_same(alloc, image, whole)? {
                *wrong = wrong.saturating_add(1);
            }
        }
        Ok(())
    }
}

// Runs a session of these lines over these files.
fn run_lines(alloc: Global, lines: &[&str], image: Image) -> Result<Ran, AllocError> {
    let script = script(alloc, lines)?;
    run(alloc, "session", image, Failing::none(alloc), script)
}

// A session that tells the first hundred labels of the journal that another one left.
fn history(alloc: Global, host: &TestHost) -> Result<TestHost, AllocError> {
    let image = host.store().image().copy(alloc)?;
    Ok(run_lines(alloc, &["history 0"], image)?.host)
}

// Whether both said the same at this place.
fn has_same_reply(one: &TestHost, other: &TestHost, place: usize) -> bool {
    match (one.said().get(place), other.said().get(place)) {
        (Some(one), Some(other)) => one.bytes.as_slice() == other.bytes.as_slice(),
        _ => false,
    }
}

/// Adds the name of each session, and under it what comes of its stops.
pub(crate) fn add_stops(alloc: Global, transcript: &mut Vec<u8>, text: &str) -> io::Result<()> {
    for block in text.split("\n\n") {
        add_stop(alloc, transcript, block)?;
    }
    Ok(())
}

fn add_stop(alloc: Global, transcript: &mut Vec<u8>, block: &str) -> Result<(), AllocError> {
    let session = Session::new(alloc, block)?;
    let outcome = session.outcome(alloc)?;
    add_line(transcript, "", session.name)?;
    add_line(transcript, "", outcome.as_str())
}
