// From bytes to labels.
ghost use Rattle.std.specs.Prelude.{◌≡◌, ℕ, Ok, Err, IfOk};
ghost use Rattle.swf_record.specs.Decodes.{load_in, start_in, event_in, reply_in, moment_in, step_in, label_in, many_in, record_in, decoded};
ghost use Rattle.swf_record.specs.Encodes.{Encodes};
ghost use Rattle.swf_record.specs.Told.{Tells};

use crate::event::told_event;
use crate::fault::RecordFault;
use crate::reader::{Reader, Stop};
use std::alloc::Global;
use swf_calls::read_reply;
use swf_document::DocKey;
use swf_duration::Moment;
use swf_meaning::Label;

/// The labels that stand in these bytes. It takes no memory for what the bytes only announce.
pub fn decode_labels(alloc: Global, bytes: &[u8]) -> Result<Vec<Label>, RecordFault>
    ensures ok { IfOk result (λ labels. decoded bytes.now ≡ Ok labels.items) }
    ensures bad { (at : ℕ) → result ≡ Err (RecordFault.Bad at) → decoded bytes.now ≡ Err at }
    ensures encodes { IfOk result (λ labels. Encodes labels.items bytes.now) }
{
    let mut reader = Reader { rest: bytes };
    match read_record(alloc, &mut reader) {
        Ok(labels) => Ok(labels),
        Err(Stop::OutOfMemory) => Err(RecordFault::OutOfMemory),
        Err(Stop::Misfit) => Err(RecordFault::Bad {
            at: bytes.len().saturating_sub(reader.rest.len()) as u64,
        }),
    }
}

/// A list of labels and nothing behind it.
fn read_record(alloc: Global, reader: &mut Reader<'_>) -> Result<Vec<Label>, Stop>
    ensures { Tells (λ v. v.items) result reader.new.rest.now (record_in reader.old.rest.now) }
{
    let field = reader.rest;
    let count = reader.four_bytes()?;
    if count == 0 {
        reader.rest = field;
        return Err(Stop::Misfit);
    }
    let labels = read_labels(alloc, reader, count)?;
    if reader.rest.is_empty() {
        Ok(labels)
    } else {
        Err(Stop::Misfit)
    }
}

/// So many labels.
fn read_labels(alloc: Global, reader: &mut Reader<'_>, count: u32) -> Result<Vec<Label>, Stop>
    ensures { Tells (λ v. v.items) result reader.new.rest.now (many_in label_in count reader.old.rest.now) }
{
    let mut labels = Vec::new(alloc);
    for _ in 0..count {
        let label = read_label(alloc, reader)?;
        labels.push(label)?;
    }
    Ok(labels)
}

/// A label by its tag.
fn read_label(alloc: Global, reader: &mut Reader<'_>) -> Result<Label, Stop>
    ensures { Tells (λ l. l) result reader.new.rest.now (label_in reader.old.rest.now) }
{
    let field = reader.rest;
    let Some((tag, rest)) = field.split_first() else {
        return Err(Stop::Misfit);
    };
    reader.rest = rest;
    match *tag {
        1 => read_load(alloc, reader),
        2 => read_start(alloc, reader),
        3 => read_event(alloc, reader),
        4 => read_answered(alloc, reader),
        5 => read_moment(reader),
        6 => read_step(alloc, reader),
        _ => {
            reader.rest = field;
            Err(Stop::Misfit)
        }
    }
}

fn read_load(alloc: Global, reader: &mut Reader<'_>) -> Result<Label, Stop>
    ensures { Tells (λ l. l) result reader.new.rest.now (load_in reader.old.rest.now) }
{
    Ok(Label::Load(reader.value(alloc, 64)?))
}

fn read_start(alloc: Global, reader: &mut Reader<'_>) -> Result<Label, Stop>
    ensures { Tells (λ l. l) result reader.new.rest.now (start_in reader.old.rest.now) }
{
    let id = reader.text(alloc)?;
    let namespace = reader.text(alloc)?;
    let name = reader.text(alloc)?;
    let version = reader.text(alloc)?;
    let input = reader.value(alloc, 64)?;
    let key = DocKey {
        namespace,
        name,
        version,
    };
    Ok(Label::Start { id, key, input })
}

fn read_event(alloc: Global, reader: &mut Reader<'_>) -> Result<Label, Stop>
    ensures { Tells (λ l. l) result reader.new.rest.now (event_in reader.old.rest.now) }
{
    let field = reader.rest;
    let value = reader.value(alloc, 64)?;
    match told_event(alloc, &value)? {
        Some(event) => Ok(Label::Event(event)),
        None => {
            reader.rest = field;
            Err(Stop::Misfit)
        }
    }
}

/// A call that was answered. The object around the reply's values nests one deeper than they may.
fn read_answered(alloc: Global, reader: &mut Reader<'_>) -> Result<Label, Stop>
    ensures { Tells (λ l. l) result reader.new.rest.now (reply_in reader.old.rest.now) }
{
    let activity = reader.text(alloc)?;
    let field = reader.rest;
    let value = reader.value(alloc, 65)?;
    match read_reply(alloc, &value)? {
        Some(reply) => Ok(Label::Reply { activity, reply }),
        None => {
            reader.rest = field;
            Err(Stop::Misfit)
        }
    }
}

fn read_moment(reader: &mut Reader<'_>) -> Result<Label, Stop>
    ensures { Tells (λ l. l) result reader.new.rest.now (moment_in reader.old.rest.now) }
{
    let field = reader.rest;
    let milliseconds = reader.eight_bytes()?;
    if milliseconds <= Moment::LAST {
        Ok(Label::Moment(Moment::new(milliseconds)))
    } else {
        reader.rest = field;
        Err(Stop::Misfit)
    }
}

fn read_step(alloc: Global, reader: &mut Reader<'_>) -> Result<Label, Stop>
    ensures { Tells (λ l. l) result reader.new.rest.now (step_in reader.old.rest.now) }
{
    let id = reader.text(alloc)?;
    let strand = reader.strand(alloc)?;
    Ok(Label::Step { id, strand })
}
