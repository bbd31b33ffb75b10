// From labels to bytes.
ghost use Rattle.std.specs.Prelude.{◌≡◌, ◌++◌, ◌+◌, ◌^◌, ◌<◌, ◌≤◌, ℕ, length, IfOk, OnOk};
ghost use Rattle.std.specs.List.{AllByRecursion};
ghost use Rattle.swf_value.specs.Value.{depth};
ghost use Rattle.swf_record.specs.Encodes.{two_bytes, four_bytes, eight_bytes, block_bytes, text_bytes, value_bytes, strand_bytes, label_bytes, Nests, FitsText, FitsValue, FitsStrand, Fits, Encodes};

use std::alloc::{AllocError, Global};
use swf_calls::reply_json;
use swf_cloudevents::event_json;
use swf_document::DocKey;
use swf_meaning::Label;
use swf_text::{Strand, Text};
use swf_value::{Json, write_json};

/// Room for as many bytes as the labels of most frames have.
const MOST_OFTEN: usize = 64;

/// The bytes of these labels. A text, or the text of a value, of 2^32 bytes or more, and a strand of
/// 2^16 numbers or more, has no bytes, which counts as want of memory.
pub fn encode_labels(alloc: Global, labels: &[Label]) -> Result<Vec<u8>, AllocError>
    requires some { 1 ≤ length labels.now }
    requires few { length labels.now < 2 ^ 32 }
    requires nest { AllByRecursion Nests labels.now }
    ensures { IfOk result (λ bytes. Encodes labels.now bytes.items) }
{
    let mut out = Vec::with_capacity(alloc, MOST_OFTEN)?;
    write_four_bytes(labels.len() as u32, &mut out)?;
    for label in labels {
        write_label(alloc, label, &mut out)?;
    }
    Ok(out)
}

fn write_label(alloc: Global, label: &Label, out: &mut Vec<u8>) -> Result<(), AllocError>
    requires { Nests label.now }
    ensures ok { OnOk result (out.new.items ≡ out.old.items ++ label_bytes label.now) }
    ensures fits { OnOk result (Fits label.now) }
{
    match label {
        Label::Load(document) => {
            out.push(1)?;
            write_value(alloc, document, out)
        }
        Label::Start { id, key, input } => {
            out.push(2)?;
            write_text(id, out)?;
            write_key(key, out)?;
            write_value(alloc, input, out)
        }
        Label::Event(event) => {
            out.push(3)?;
            write_value(alloc, &event_json(alloc, event)?, out)
        }
        Label::Reply { activity, reply } => {
            out.push(4)?;
            write_text(activity, out)?;
            write_value(alloc, &reply_json(alloc, reply)?, out)
        }
        Label::Moment(moment) => {
            out.push(5)?;
            write_eight_bytes(moment.milliseconds(), out)
        }
        Label::Step { id, strand } => {
            out.push(6)?;
            write_text(id, out)?;
            write_strand(strand, out)
        }
    }
}

fn write_key(key: &DocKey, out: &mut Vec<u8>) -> Result<(), AllocError>
    ensures ok { OnOk result
        (out.new.items
        ≡ out.old.items ++ (text_bytes key.now.namespace ++ (text_bytes key.now.name ++ text_bytes key.now.version))) }
    ensures namespace { OnOk result (FitsText key.now.namespace) }
    ensures name { OnOk result (FitsText key.now.name) }
    ensures version { OnOk result (FitsText key.now.version) }
{
    write_text(&key.namespace, out)?;
    write_text(&key.name, out)?;
    write_text(&key.version, out)
}

#[tactic(auto, unfolding(crate::specs::Encodes::text_bytes))]
fn write_text(text: &Text, out: &mut Vec<u8>) -> Result<(), AllocError>
    ensures ok { OnOk result (out.new.items ≡ out.old.items ++ text_bytes text.now) }
    ensures fits { OnOk result (FitsText text.now) }
{
    write_block(text.as_str().as_bytes(), out)
}

#[tactic(auto, unfolding(crate::specs::Encodes::value_bytes))]
fn write_value(alloc: Global, value: &Json, out: &mut Vec<u8>) -> Result<(), AllocError>
    ensures ok { OnOk result (out.new.items ≡ out.old.items ++ value_bytes value.now) }
    ensures fits { OnOk result ((most : ℕ) → most ≤ 127 → depth value.now ≤ most → FitsValue most value.now) }
{
    let mut text = Vec::new(alloc);
    write_json(value, &mut text)?;
    write_block(text.as_slice(), out)
}

/// Bytes behind their count.
fn write_block(bytes: &[u8], out: &mut Vec<u8>) -> Result<(), AllocError>
    ensures ok { OnOk result (out.new.items ≡ out.old.items ++ block_bytes bytes.now) }
    ensures short { OnOk result (length bytes.now < 2 ^ 32) }
{
    let Ok(count) = u32::try_from(bytes.len()) else {
        return Err(AllocError);
    };
    write_four_bytes(count, out)?;
    out.extend_from_slice(bytes)
}

fn write_strand(strand: &Strand, out: &mut Vec<u8>) -> Result<(), AllocError>
    ensures ok { OnOk result (out.new.items ≡ out.old.items ++ strand_bytes strand.now) }
    ensures fits { OnOk result (FitsStrand strand.now) }
{
    write_numbers(strand.as_slice(), out)
}

/// The numbers of a strand behind their count.
fn write_numbers(numbers: &[u16], out: &mut Vec<u8>) -> Result<(), AllocError>
    ensures ok { OnOk result (out.new.items ≡ out.old.items ++ strand_bytes numbers.now) }
    ensures fits { OnOk result (FitsStrand numbers.now) }
{
    let Ok(count) = u16::try_from(numbers.len()) else {
        return Err(AllocError);
    };
    write_two_bytes(count, out)?;
    for number in numbers {
        write_two_bytes(*number, out)?;
    }
    Ok(())
}

#[tactic(auto, unfolding(crate::specs::Encodes::two_bytes))]
fn write_two_bytes(number: u16, out: &mut Vec<u8>) -> Result<(), AllocError>
    ensures { OnOk result (out.new.items ≡ out.old.items ++ two_bytes number) }
{
    out.extend_from_slice(&number.to_be_bytes())
}

#[tactic(auto, unfolding(crate::specs::Encodes::four_bytes))]
fn write_four_bytes(number: u32, out: &mut Vec<u8>) -> Result<(), AllocError>
    ensures { OnOk result (out.new.items ≡ out.old.items ++ four_bytes number) }
{
    out.extend_from_slice(&number.to_be_bytes())
}

#[tactic(auto, unfolding(crate::specs::Encodes::eight_bytes))]
fn write_eight_bytes(number: u64, out: &mut Vec<u8>) -> Result<(), AllocError>
    ensures { OnOk result (out.new.items ≡ out.old.items ++ eight_bytes number) }
{
    out.extend_from_slice(&number.to_be_bytes())
}
