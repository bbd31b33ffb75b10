// A session: its lines become the inputs of a host in memory, and stand in the transcript with their replies.
//
// A line that begins with `!` is no command. Some prepare the run: `! words session,extra` has other words for the program,
// `! journal A5` a journal of these bytes, and `! fail say 1` a call that fails. Some say who answers calls (`board.rt`):
// `! response 200 application/json {"a":1}` has the next link over HTTP give a response of this status, type and body, `! raw 48`
// these bytes; `! fail dial 1` has a dial fail, and `! also https` puts a connector of a scheme behind the one over HTTP. Some are
// inputs: `! too-long`, `! bytes 3 FF` of a line of three such bytes, `! long 9 start i t a 1.0.0 "@"` of a line with nine `a` for
// the `@`, and `! many 9 start i@ t a 1.0.0 {}` of nine lines with their numbers for it, of which the last three replies are told.
// The others tell what came of the run: `! inputs`, `! replies`, `! calls`, `! sizes`, `! said`, all that was said, `! due 7`, the
// moment that an engine opened over its files tells, and whether 7 is due, and `! asked`, how often each connector was asked, where
// `-` stands for one that does not tell it.
use crate::board::Answering;
use crate::{Failing, REOPEN, Ran, add_status, ask, run_over};
use std::alloc::{AllocError, Global};
use std::io;
use swf_engine::Engine;
use swf_host::{Input, NoWork, Said, Turn};
use swf_store::{File, Image, MemoryStore};
use swf_test_tables::{add_line, bytes_of, no_meaning, number_of, split};
use swf_text::Bytes;

/// How many replies are told of a line that stands for many inputs.
const MOST_TOLD: usize = 3;

/// A line, and how many inputs it stands for.
#[derive(Drop)]
struct Shown<'a> {
    line: &'a str,
    inputs: usize,
}

/// A part of a session, from one opening of the store to the next.
#[derive(Drop)]
struct Part<'a> {
    words: &'a str,
    image: Image,
    failing: Failing,
    answering: Answering<'a>,
    script: Vec<Turn<NoWork>>,
    shown: Vec<Shown<'a>>,
}

impl<'a> Part<'a> {
    fn new(alloc: Global, image: Image) -> Part<'a> {
        Part {
            words: "session",
            image,
            failing: Failing::none(alloc),
            answering: Answering::nobody(alloc),
            script: Vec::new(alloc),
            shown: Vec::new(alloc),
        }
    }

    fn add(&mut self, alloc: Global, line: &'a str) -> io::Result<()> {
        let before = self.script.len();
        match line.strip_prefix("! ") {
            Some(order) => self.follow(alloc, order)?,
            None => self.script.push(ask(0, line.as_bytes().to_vec(alloc)?))?,
        }
        let inputs = self.script.len().saturating_sub(before);
        self.shown.push(Shown { line, inputs })?;
        Ok(())
    }

    // Does what stands behind a `!`. What only tells something of the run is left until it is over.
    fn follow(&mut self, alloc: Global, order: &'a str) -> io::Result<()> {
        let (word, rest) = order.split_once(' ').unwrap_or((order, ""));
        match word {
            "words" => {
                self.words = rest;
                Ok(())
            }
            "journal" => {
                self.image.journal = Bytes::of(bytes_of(alloc, rest)?);
                Ok(())
            }
            "fail" => self.fail(rest),
            "response" => self.answering.respond(alloc, rest),
            "raw" => self.answering.give(alloc, rest),
            "also" => self.answering.also(rest),
            "too-long" => Ok(self.script.push(Turn::In(Input::TooLong(0)))?),
            "bytes" => add_bytes(alloc, &mut self.script, rest),
            "long" => add_long(alloc, &mut self.script, rest),
            "many" => add_many(alloc, &mut self.script, rest),
            _ => Ok(()),
        }
    }

    // Has a call fail: one of the dial, or another.
    fn fail(&mut self, order: &str) -> io::Result<()> {
        match order.strip_prefix("dial ") {
            Some(number) => self.answering.fail(number),
            None => fail(&mut self.failing, order),
        }
    }
}

/// Has a call of a kind fail.
pub(crate) fn fail(failing: &mut Failing, order: &str) -> io::Result<()> {
    let (kind, number) = split(order)?;
    let number = number_of(number)?;
    match kind {
        "store" => failing.store.push(number)?,
        "next" => failing.next.push(number)?,
        "say" => failing.say.push(number)?,
        _ => return Err(no_meaning()),
    }
    Ok(())
}

// A line of so many equal pieces.
fn add_bytes(alloc: Global, script: &mut Vec<Turn<NoWork>>, order: &str) -> io::Result<()> {
    let (count, piece) = split(order)?;
    let piece = bytes_of(alloc, piece)?;
    let mut line = Vec::new(alloc);
    for _ in 0..number_of(count)? {
        line.extend_from_slice(&piece)?;
    }
    script.push(ask(0, line))?;
    Ok(())
}

// A line with so many `a` in the place of an `@`.
fn add_long(alloc: Global, script: &mut Vec<Turn<NoWork>>, order: &str) -> io::Result<()> {
    let (count, text) = split(order)?;
    let (before, after) = text.split_once('@').ok_or(no_meaning())?;
    let mut line = before.as_bytes().to_vec(alloc)?;
    for _ in 0..number_of(count)? {
        line.push(b'a')?;
    }
    line.extend_from_slice(after.as_bytes())?;
    script.push(ask(0, line))?;
    Ok(())
}

// So many lines, each with its number in the place of an `@`.
fn add_many(alloc: Global, script: &mut Vec<Turn<NoWork>>, order: &str) -> io::Result<()> {
    let (count, line) = split(order)?;
    let (before, after) = line.split_once('@').ok_or(no_meaning())?;
    for number in 0..number_of(count)? {
        let line = format!(in alloc; "{before}{number}{after}")?;
        script.push(ask(0, line.into_bytes()))?;
    }
    Ok(())
}

// The moment that an engine over these files tells, and whether that one is due.
fn due(alloc: Global, image: Image, moment: u64) -> Result<Option<String>, AllocError> {
    let mut store = MemoryStore::new(alloc, image, Vec::new(alloc));
    match Engine::open_on(alloc, &mut store) {
        Ok(engine) => {
            let now = engine.now().milliseconds();
            Ok(Some(format!(in alloc; "{now} {}", engine.due(moment))?))
        }
        Err(_) => Ok(None),
    }
}

// What a line that ends with a moment tells of a run, if it does.
fn told_due(alloc: Global, ran: &Ran, line: &str) -> io::Result<Option<String>> {
    let Some(moment) = line.strip_prefix("! due ") else {
        return Ok(None);
    };
    let image = ran.host.store().image().copy(alloc)?;
    Ok(due(alloc, image, number_of(moment)?)?)
}

// What a line tells of a run, if it does.
fn told(alloc: Global, ran: &Ran, line: &str) -> Result<Option<String>, AllocError> {
    let host = &ran.host;
    let image = host.store().image();
    Ok(match line {
        "! inputs" => Some(format!(in alloc; "{}", host.taken().len())?),
        "! replies" => Some(format!(in alloc; "{}", host.said().len())?),
        "! calls" => Some(format!(in alloc; "{}", host.store().calls().len())?),
        "! sizes" => Some(format!(in alloc;
            "{} {} {}",
            image.file(File::Journal).len(),
            image.file(File::Snap0).len(),
            image.file(File::Snap1).len()
        )?),
        _ => None,
    })
}

// Adds the last of the replies from one place to another.
fn add_replies(
    transcript: &mut Vec<u8>,
    ran: &Ran,
    from: usize,
    to: usize,
) -> Result<(), AllocError> {
    for place in from.max(to.saturating_sub(MOST_TOLD))..to {
        if let Some(piece) = ran.host.said().get(place) {
            add_piece(transcript, piece)?;
        }
    }
    Ok(())
}

// Adds a piece: a reply, or on a line of its own the part of one that was said.
fn add_piece(transcript: &mut Vec<u8>, piece: &Said) -> Result<(), AllocError> {
    transcript.extend_from_slice(piece.bytes.as_slice())?;
    if !piece.bytes.as_slice().ends_with(b"\n") {
        transcript.push(b'\n')?;
    }
    Ok(())
}

// Adds all that was said.
fn add_said(transcript: &mut Vec<u8>, ran: &Ran) -> Result<(), AllocError> {
    for piece in ran.host.said() {
        add_piece(transcript, piece)?;
    }
    Ok(())
}

// Adds each line, a command behind a `>`, and under it what it was answered.
fn add_shown(
    alloc: Global,
    transcript: &mut Vec<u8>,
    ran: &Ran,
    lines: &[Shown<'_>],
) -> io::Result<()> {
    let mut place = 0usize;
    for shown in lines {
        let before = if shown.line.starts_with('!') {
            ""
        } else {
            "> "
        };
        add_line(transcript, before, shown.line)?;
        let next = place.saturating_add(shown.inputs);
        add_replies(transcript, ran, place, next)?;
        place = next;
        if shown.line == "! said" {
            add_said(transcript, ran)?;
        }
        if shown.line == "! asked" {
            add_line(transcript, "", ran.asked.as_str())?;
        }
        if let Some(told) = told(alloc, ran, shown.line)? {
            add_line(transcript, "", told.as_str())?;
        }
        if let Some(told) = told_due(alloc, ran, shown.line)? {
            add_line(transcript, "", told.as_str())?;
        }
    }
    Ok(())
}

// Adds what comes of one part of a session. Answers the files that it left.
fn add_part(alloc: Global, transcript: &mut Vec<u8>, part: Part<'_>) -> io::Result<Image> {
    let Part {
        words,
        image,
        failing,
        answering,
        script,
        shown,
    } = part;
    let ran = run_over(alloc, words, image, failing, script, answering)?;
    add_shown(alloc, transcript, &ran, &shown)?;
    add_status(alloc, transcript, ran.status, 0)?;
    Ok(ran.host.store().image().copy(alloc)?)
}

// Adds the names among some lines, and the other lines to a part.
fn read_lines<'a>(
    alloc: Global,
    transcript: &mut Vec<u8>,
    text: &'a str,
    part: &mut Part<'a>,
) -> io::Result<()> {
    for line in text.split('\n') {
        if line.starts_with('#') {
            add_line(transcript, "", line)?;
        } else if !line.is_empty() {
            part.add(alloc, line)?;
        }
    }
    Ok(())
}

// Adds the part of these lines over some files. Answers the files that it left.
fn add_lines(
    alloc: Global,
    transcript: &mut Vec<u8>,
    text: &str,
    image: Image,
) -> io::Result<Image> {
    let mut part = Part::new(alloc, image);
    read_lines(alloc, transcript, text, &mut part)?;
    add_part(alloc, transcript, part)
}

/// Adds a session: its name and its lines, which fall into parts between which it is opened again.
pub(crate) fn add_session(alloc: Global, transcript: &mut Vec<u8>, block: &str) -> io::Result<()> {
    let mut image = Image::empty(alloc);
    for (number, text) in block.split(REOPEN).enumerate() {
        if number > 0 {
            transcript.extend_from_slice(REOPEN.as_bytes())?;
        }
        image = add_lines(alloc, transcript, text, image)?;
    }
    Ok(())
}
