// The lines of a job, by their numbers.
ghost use Rattle.std.specs.Prelude.{◌≡◌, ◌+◌, ◌++◌, ◌<◌, ◌≤◌, ◌^◌, IfOk, OnOk, length, slice_get};
ghost use Rattle.std.specs.Fmt.{decimal};
ghost use Rattle.swf_make.specs.Generated.{generated, instances, load_line, numbers, part, settle_line, start_line, status_line, turns_of};

use itoa::Buffer;
use std::alloc::{AllocError, Global};
use swf_text::Bytes;

/// How many turns an instance has at most.
const TURNS: u64 = 100;

/// The document that is loaded.
const DOCUMENT: &[u8] =
    b"{\"document\":{\"dsl\":\"1.0.0\",\"namespace\":\"make\",\"name\":\"gen\",\"version\":\"1.0.0\"},\"do\":[{\"outer\":{\"fork\":{\"compete\":true,\"branches\":[{\"slow\":{\"wait\":{\"days\":1}}},{\"work\":{\"do\":[{\"inner\":{\"fork\":{\"compete\":true,\"branches\":[{\"rest\":{\"wait\":{\"days\":2}}},{\"loop\":{\"for\":{\"in\":\".items\"},\"do\":[{\"add\":{\"set\":{\"n\":\"${ .n + $item }\"}}}]}}]}}}]}}]}}}]}";

/// How many lines a job of so many turns has.
pub fn generated_lines(turns: u32) -> u32
    ensures count { result ≡ length (generated turns) }
{
    (3 * instances(turns) + 1) as u32
}

/// The line of a number, from 0, of a job of so many turns, without its newline. None where there are no more.
#[tactic(auto, using(crate::proofs::LineLemmas::at_number, crate::proofs::LineLemmas::past_number))]
pub fn generated_line(alloc: Global, turns: u32, number: u32) -> Result<Option<Bytes>, AllocError>
    ensures line { IfOk result (λ line. line ≡ slice_get (generated turns) number) }
{
    if number == 0 {
        return Ok(Some(Bytes::of(load_line(alloc)?)));
    }
    let place = u64::from(number - 1);
    let instance = place / 3;
    if instance >= instances(turns) {
        return Ok(None);
    }
    let line = part(alloc, turns, instance, place % 3)?;
    Ok(Some(Bytes::of(line)))
}

// How many instances are started, each of at most 100 turns.
fn instances(turns: u32) -> u64
    ensures count { result ≡ instances turns }
{
    (u64::from(turns) + TURNS - 1) / TURNS
}

// The first line of three of an instance, the second or the third.
fn part(alloc: Global, turns: u32, instance: u64, place: u64) -> Result<Vec<u8>, AllocError>
    requires instance { instance < instances turns }
    ensures line { IfOk result (λ line. line.items ≡ part turns instance place) }
{
    match place {
        0 => start_line(alloc, turns, instance),
        1 => b"settle 1000".to_vec(alloc),
        _ => status_line(alloc, instance),
    }
}

fn load_line(alloc: Global) -> Result<Vec<u8>, AllocError>
    ensures line { IfOk result (λ line. line.items ≡ load_line) }
{
    let mut line = b"load ".to_vec(alloc)?;
    line.extend_from_slice(DOCUMENT)?;
    Ok(line)
}

fn start_line(alloc: Global, turns: u32, instance: u64) -> Result<Vec<u8>, AllocError>
    requires instance { instance < instances turns }
    ensures line { IfOk result (λ line. line.items ≡ start_line turns instance) }
{
    let count = turns_of(turns, instance);
    let mut line = b"start g".to_vec(alloc)?;
    put_number(&mut line, instance)?;
    line.extend_from_slice(b" make gen 1.0.0 {\"items\":[")?;
    put_numbers(&mut line, TURNS * instance + 1, count)?;
    line.extend_from_slice(b"],\"n\":0}")?;
    Ok(line)
}

// How many turns are of an instance.
fn turns_of(turns: u32, instance: u64) -> u64
    requires instance { instance < instances turns }
    ensures count { result ≡ turns_of turns instance }
    ensures most { result ≤ 100 }
{
    let before = TURNS * instance;
    (before + TURNS).min(u64::from(turns)) - before
}

fn status_line(alloc: Global, instance: u64) -> Result<Vec<u8>, AllocError>
    ensures line { IfOk result (λ line. line.items ≡ status_line instance) }
{
    let mut line = b"status g".to_vec(alloc)?;
    put_number(&mut line, instance)?;
    Ok(line)
}

// Adds so many numbers from the first on, with commas between.
#[tactic(auto, using(crate::proofs::LineLemmas::numbers_first, crate::proofs::LineLemmas::numbers_next))]
fn put_numbers(out: &mut Vec<u8>, first: u64, count: u64) -> Result<(), AllocError>
    requires small { first + count < 2 ^ 64 }
    ensures numbers { OnOk result (out.new.items ≡ out.old.items ++ numbers first count) }
{
    for place in 0..count {
        if place > 0 {
            out.push(b',')?;
        }
        put_number(out, first + place)?;
    }
    Ok(())
}

// Adds a number in digits.
fn put_number(out: &mut Vec<u8>, number: u64) -> Result<(), AllocError>
    ensures number { OnOk result (out.new.items ≡ out.old.items ++ decimal number) }
{
    let mut digits = Buffer::new();
    out.extend_from_slice(digits.format(number).as_bytes())
}
