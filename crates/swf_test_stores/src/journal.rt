// Journals over any store: frames are found and appended, and replies said behind them.
ghost use Rattle.std.specs.Prelude.{◌≡◌, IfOk, None, ◌<◌, length};
ghost use Rattle.swf_journal.specs.Place.{IsJournalOf};

use crate::calls::Number;
use std::alloc::{AllocError, Global};
use swf_host::Host;
use swf_journal::{FrameBytes, Journal, OpenFault, begin, build};
use swf_store::Store;

/// What was found in a journal, how many frames were appended before a call failed, and the journal's size then.
#[derive(Drop)]
pub(crate) struct Session {
    pub found: u64,
    pub appended: u64,
    pub size: u64,
}

/// The journal of a store, and how many frames it has.
pub(crate) fn open<S: Store>(alloc: Global, store: &mut S) -> Result<(Journal, u64), OpenFault>
    ensures { IfOk result (λ opened. IsJournalOf (S.seen store.new) opened.0) }
{
    let mut reading = begin(store)?;
    for frames in 0..u64::MAX {
        match reading.next_frame(alloc, store)? {
            Some(_) => {}
            None => return Ok((reading.finish(), frames)),
        }
    }
    Err(OpenFault::OutOfMemory)
}

// Appends a frame so often, until a call fails. Answers how often it was done.
fn append_often<S: Store>(
    store: &mut S,
    journal: &mut Journal,
    frame: &FrameBytes,
    count: u64,
) -> u64
    requires { IsJournalOf (S.seen store.old) journal.old }
{
    for appended in 0..count {
        if journal.append(store, frame).is_err() {
            return appended;
        }
    }
    count
}

/// Opens the journal of a store, and appends so many frames of a body.
pub(crate) fn append_frames<S: Store>(
    alloc: Global,
    store: &mut S,
    count: u64,
    body: &[u8],
) -> Result<Session, OpenFault>
    requires { 0 < length body.now }
{
    let Ok(frame) = build(alloc, body) else {
        return Err(OpenFault::OutOfMemory);
    };
    let (mut journal, found) = open(alloc, store)?;
    let appended = append_often(store, &mut journal, &frame, count);
    Ok(Session {
        found,
        appended,
        size: journal.size(),
    })
}

// Appends a frame, and says a reply behind it to the connection 7. Answers the fault, if there was one.
fn turn<H: Host<Number, Number>>(
    alloc: Global,
    host: &mut H,
    journal: &mut Journal,
    frame: &FrameBytes,
    reply: &[u8],
) -> Result<Option<String>, AllocError>
    requires { IsJournalOf (H.seen host.old) journal.old }
    ensures { IfOk result (λ fault. fault ≡ None → IsJournalOf (H.seen host.new) journal.new) }
{
    if let Err(fault) = journal.append(host, frame) {
        return Ok(Some(format!(in alloc; "{fault}")?));
    }
    match host.say(7, reply) {
        Ok(()) => Ok(None),
        Err(_) => Ok(Some(String::from_str(alloc, "the host failed")?)),
    }
}

/// Opens the journal of a host, and takes two turns over frames of the body `body`, with the replies `one` and `two`. Answers
/// which fault there was.
pub(crate) fn turns<H: Host<Number, Number>>(
    alloc: Global,
    host: &mut H,
) -> Result<String, AllocError> {
    let Ok(frame) = build(alloc, b"body".as_slice()) else {
        return Err(AllocError);
    };
    let mut journal = match open(alloc, host) {
        Ok(opened) => opened.0,
        Err(fault) => return format!(in alloc; "{fault}"),
    };
    if let Some(fault) = turn(alloc, host, &mut journal, &frame, b"one".as_slice())? {
        return Ok(fault);
    }
    match turn(alloc, host, &mut journal, &frame, b"two".as_slice())? {
        Some(fault) => Ok(fault),
        None => String::from_str(alloc, "done"),
    }
}
