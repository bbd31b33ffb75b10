// What is said of the bytes of a document.
ghost use Rattle.std.specs.Prelude.{◌≡◌, ◌++◌, IfOk, OnOk, flat_map};
ghost use Rattle.swf_check.specs.Verdict.{line, fault_line, refused, judged_faults, judged_bytes, judged, IsJudged};
ghost use Rattle.swf_validate.specs.Accepts.{faults};

use std::alloc::{AllocError, Global};
use std::mem::forget;
use swf_document::Fault;
use swf_host::{Input, MOST_LINE};
use swf_reader::ReadFault;
use swf_text::pointer_text;
use swf_validate::accept;
use swf_value::{Json, ValueFault, read_json, write_json};

/// Whether a document is accepted, and the lines that say so or why not.
#[derive(Drop)]
pub struct Verdict {
    pub accepted: bool,
    pub lines: Vec<u8>,
}

// Adds a fault: its kind, a space, and its place as JSON text.
fn add_fault(alloc: Global, lines: &mut Vec<u8>, fault: &Fault) -> Result<(), AllocError>
    ensures { OnOk result (lines.new.items ≡ lines.old.items ++ fault_line fault.now) }
{
    let place = Json::text(pointer_text(alloc, &fault.place)?);
    lines.extend_from_slice(fault.kind.word().as_bytes())?;
    lines.push(b' ')?;
    write_json(&place, lines)?;
    lines.push(b'\n')?;
    Ok(())
}

fn fault_lines(alloc: Global, faults: &[Fault]) -> Result<Vec<u8>, AllocError>
    ensures { IfOk result (λ lines. lines.items ≡ flat_map fault_line faults.now) }
{
    let mut lines = Vec::new(alloc);
    for fault in faults {
        add_fault(alloc, &mut lines, fault)?;
    }
    Ok(lines)
}

// A line of one word.
fn line(alloc: Global, word: &str) -> Result<Vec<u8>, AllocError>
    ensures { IfOk result (λ l. l.items ≡ line word.now) }
{
    let mut line = word.as_bytes().to_vec(alloc)?;
    line.push(b'\n')?;
    Ok(line)
}

fn refused(alloc: Global, word: &str) -> Result<Verdict, AllocError>
    ensures { IsJudged (refused word.now) result }
{
    Ok(Verdict {
        accepted: false,
        lines: line(alloc, word)?,
    })
}

// A process that checks a document ends once it said so. So what was read is left to the system, which frees it at once; letting
// it go piece by piece would take a tenth of the time.
fn value_verdict(alloc: Global, value: &Json) -> Result<Verdict, AllocError>
    ensures { IsJudged (judged_faults (faults value.now)) result }
{
    match accept(alloc, value) {
        Ok(document) => {
            forget(document);
            Ok(Verdict {
                accepted: true,
                lines: line(alloc, "accepted")?,
            })
        }
        Err(ReadFault::Faults(faults)) => Ok(Verdict {
            accepted: false,
            lines: fault_lines(alloc, faults.as_slice())?,
        }),
        Err(ReadFault::OutOfMemory) => Err(AllocError),
    }
}

fn bytes_verdict(alloc: Global, bytes: &[u8]) -> Result<Verdict, AllocError>
    ensures { IsJudged (judged_bytes bytes.now) result }
{
    if bytes.len() > MOST_LINE {
        return refused(alloc, "too-long");
    }
    match read_json(alloc, bytes) {
        Ok(value) => {
            let verdict = value_verdict(alloc, &value);
            forget(value);
            verdict
        }
        Err(ValueFault::NotJson) => refused(alloc, "not-json"),
        Err(ValueFault::TooDeep) => refused(alloc, "too-deep"),
        Err(ValueFault::NotWhole) => refused(alloc, "not-whole"),
        Err(ValueFault::OutOfMemory) => Err(AllocError),
    }
}

/// What is said of an input.
pub fn judge<W>(alloc: Global, input: &Input<W>) -> Result<Verdict, AllocError>
    ensures { IsJudged (judged input.now) result }
{
    match input {
        Input::Ask(_, bytes) => bytes_verdict(alloc, bytes.as_slice()),
        Input::TooLong(_) => refused(alloc, "too-long"),
        Input::Work(_) | Input::Idle | Input::Closed => bytes_verdict(alloc, &[]),
    }
}
