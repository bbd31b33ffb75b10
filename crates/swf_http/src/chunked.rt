// Chunked bodies.
ghost use Rattle.std.specs.Prelude.{◌≡◌, ◌+◌, ◌-◌, ◌≤◌, ◌<◌, ◌^◌, ◌==◌, ◌&&◌, ◌||◌, nat_le, [], List, ℕ, drop, take, vec_len, length, slice_index, if◌then◌else◌, MatchResult, OnOk};
ghost use Rattle.swf_http.specs.Chunks.{content_of, ends_with, SaysChunked};
ghost use Rattle.swf_http.specs.Limits.{most_head, most_lines};
ghost use Rattle.swf_http.specs.Pieces.{SaysPiece, trailer_form};
ghost use Rattle.swf_http.specs.Sources.{Splits, ReadCause};
ghost use Rattle.swf_http.specs.Verdicts.{Answers, FaultSays, Then, whole};
ghost use Rattle.swf_http.specs.declared.fault.HttpFault.TheVariants.{Ended as SaysEnded, BadMessage as SaysBad};

use crate::found::{FoundLine, FoundTrailer};
use crate::grow::grow;
use crate::piece::read_piece;
use crate::sizes::{MOST_BODY, MOST_FIELDS, MOST_LINES};
use crate::{HttpFault, Source};
use std::alloc::Global;

// Whether a line ends at a place with CR LF.
fn closes_at(bytes: &[u8], at: usize) -> bool
    requires { at + 2 ≤ length bytes.now }
    ensures { result ≡ (slice_index bytes.now at == 13 && slice_index bytes.now (at + 1) == 10) }
{
    bytes[at] == b'\r' && bytes[at + 1] == b'\n'
}

// What bytes are that end before the line end at a place is whole.
fn cut_off(bytes: &[u8], at: usize) -> HttpFault
    requires { length bytes.now ≤ at + 1 }
    ensures { result ≡ (if nat_le (length bytes.now) at || slice_index bytes.now at == 13 then SaysEnded else SaysBad) }
{
    if bytes.len() <= at || bytes[at] == b'\r' {
        HttpFault::Ended
    } else {
        HttpFault::BadMessage
    }
}

// Reads the content of a chunk that begins at a place of a buffer, and the line end behind it.
fn read_content<S: Source>(
    from: &mut S,
    buffer: &mut Vec<u8>,
    at: usize,
    size: usize,
) -> Result<(), HttpFault>
    requires at { at ≤ vec_len buffer.old }
    requires fits { at + size + 2 < 2 ^ 64 }
    ensures grown { OnOk result (at + size + 2 ≤ vec_len buffer.new) }
    ensures most { OnOk result ((most : ℕ) → vec_len buffer.old ≤ most → at + size + 2 ≤ most → vec_len buffer.new ≤ most) }
    ensures says { (bytes : List ℕ) → Splits bytes buffer.old.items (S.left from.old)
        → MatchResult result
        (λ _. Splits bytes buffer.new.items (S.left from.new)
        × (content_of size (drop at bytes) ≡ whole (take size (drop at buffer.new.items)) (drop (at + size + 2) bytes)))
        (FaultSays (λ behind v. v ≡ content_of size behind) (drop at bytes)) }
    ensures cause { ReadCause result (S.faults from.old) (S.faults from.new) }
    ensures beside { S.beside from.new ≡ S.beside from.old }
{
    let end = at + size;
    'pieces: while buffer.len() < end + 2 {
        if grow(from, buffer, end + 2)? == 0 {
            return Err(cut_off(buffer, end));
        }
    }
    if closes_at(buffer, end) {
        Ok(())
    } else {
        Err(HttpFault::BadMessage)
    }
}

// Reads the trailer that begins at a place of a buffer and ends before another.
fn read_trailer<S: Source>(
    alloc: Global,
    from: &mut S,
    buffer: &mut Vec<u8>,
    at: usize,
    most: usize,
) -> Result<(), HttpFault>
    requires at { at ≤ vec_len buffer.old }
    requires room { vec_len buffer.old ≤ most }
    ensures says { (bytes : List ℕ) → Splits bytes buffer.old.items (S.left from.old) → (content : List ℕ)
        → Answers (Then (SaysPiece trailer_form (most - at)) (λ s after w. w ≡ ends_with content s after)) (λ items _. content ≡ items) (drop at bytes) result }
    ensures cause { ReadCause result (S.faults from.old) (S.faults from.new) }
    ensures beside { S.beside from.new ≡ S.beside from.old }
{
    let trailer = read_piece::<FoundTrailer, S>(alloc, from, buffer, at, most)?;
    if trailer.count > MOST_FIELDS {
        Err(HttpFault::TooLong)
    } else {
        Ok(())
    }
}

// Reads chunks that begin at a place of a buffer, and adds their content to another.
fn read_chunks<S: Source>(
    alloc: Global,
    from: &mut S,
    buffer: &mut Vec<u8>,
    start: usize,
    content: &mut Vec<u8>,
) -> Result<(), HttpFault>
    requires start { start ≤ vec_len buffer.old }
    requires fits { vec_len buffer.old ≤ most_head }
    requires none { content.old.items ≡ [] }
    ensures says { (bytes : List ℕ) → Splits bytes buffer.old.items (S.left from.old)
        → Answers (SaysChunked [] most_lines) (λ items _. content.new.items ≡ items) (drop start bytes) result }
    ensures cause { ReadCause result (S.faults from.old) (S.faults from.new) }
    ensures beside { S.beside from.new ≡ S.beside from.old }
{
    let mut at = start;
    let mut most = start + MOST_LINES;
    'chunks: loop {
        let line = read_piece::<FoundLine, S>(alloc, from, buffer, at, most)?;
        at += line.len;
        if line.size == 0 {
            return read_trailer(alloc, from, buffer, at, most);
        }
        if line.size > (MOST_BODY - content.len()) as u64 {
            return Err(HttpFault::TooLong);
        }
        let size = line.size as usize;
        read_content(from, buffer, at, size)?;
        content.extend_from_slice(&buffer[at..at + size])?;
        at += size + 2;
        most += size + 2;
    }
}

/// Reads the chunked body that begins at a place of a buffer. It takes no memory before the content is there.
pub(crate) fn read_chunked<S: Source>(
    alloc: Global,
    from: &mut S,
    buffer: &mut Vec<u8>,
    at: usize,
) -> Result<Vec<u8>, HttpFault>
    requires at { at ≤ vec_len buffer.old }
    requires fits { vec_len buffer.old ≤ most_head }
    ensures says { (bytes : List ℕ) → Splits bytes buffer.old.items (S.left from.old)
        → Answers (SaysChunked [] most_lines) (λ items body. body.items ≡ items) (drop at bytes) result }
    ensures cause { ReadCause result (S.faults from.old) (S.faults from.new) }
    ensures beside { S.beside from.new ≡ S.beside from.old }
{
    let mut content = Vec::new(alloc);
    read_chunks(alloc, from, buffer, at, &mut content)?;
    Ok(content)
}
