// Bytes from a source to the end of a buffer.
ghost use Rattle.std.specs.Prelude.{◌≡◌, ◌+◌, ◌<◌, ◌≤◌, List, ℕ, [], Some, true, false, vec_len, IfOk, OnOk};
ghost use Rattle.std.specs.Option.{ForSome};
ghost use Rattle.swf_http.specs.Sources.{Grows, Splits, IsReadFault, ReadCause};

use crate::piece::Piece;
use crate::{HttpFault, Source};
use swf_store::Failed;

/// The most bytes that are read at once.
const AT_ONCE: usize = 4096;

/// Reads some bytes to the end of a buffer, which has at most so many then. None come only at the end.
pub(crate) fn grow<S: Source>(
    from: &mut S,
    buffer: &mut Vec<u8>,
    most: usize,
) -> Result<usize, HttpFault>
    requires { vec_len buffer.old < most }
    ensures size { IfOk result (λ n. (vec_len buffer.new ≡ vec_len buffer.old + n) × (vec_len buffer.new ≤ most)) }
    ensures grows { ForSome (S.left from.old) (λ rest. IfOk result (λ n. Grows n buffer.old.items buffer.new.items rest (S.left from.new))) }
    ensures cause { ReadCause result (S.faults from.old) (S.faults from.new) }
    ensures faults { IsReadFault result }
    ensures beside { S.beside from.new ≡ S.beside from.old }
{
    let mut block = [0u8; AT_ONCE];
    let room = (most - buffer.len()).min(AT_ONCE);
    let window = &mut block[..room];
    match from.read(window) {
        Ok(count) => {
            buffer.extend_from_slice(&window[..count])?;
            Ok(count)
        }
        Err(Failed) => Err(HttpFault::Read),
    }
}

/// Reads on until the piece that begins at a place of a buffer may be whole, there are twice as many of its bytes, the buffer has so many,
/// or the source ends. Says whether it did not end.
pub(crate) fn fill<P: Piece, S: Source>(
    from: &mut S,
    buffer: &mut Vec<u8>,
    at: usize,
    most: usize,
) -> Result<bool, HttpFault>
    requires at { at ≤ vec_len buffer.old }
    requires room { vec_len buffer.old < most }
    ensures size { OnOk result ((vec_len buffer.old ≤ vec_len buffer.new) × (vec_len buffer.new ≤ most)) }
    ensures grows { IfOk result (λ more. more ≡ true → vec_len buffer.old < vec_len buffer.new) }
    ensures splits { (bytes : List ℕ) → Splits bytes buffer.old.items (S.left from.old) → OnOk result (Splits bytes buffer.new.items (S.left from.new)) }
    ensures at_end { (bytes : List ℕ) → Splits bytes buffer.old.items (S.left from.old) → IfOk result (λ more. more ≡ false → bytes ≡ buffer.new.items) }
    ensures cause { ReadCause result (S.faults from.old) (S.faults from.new) }
    ensures faults { IsReadFault result }
    ensures beside { S.beside from.new ≡ S.beside from.old }
{
    let seen = buffer.len() - at;
    'pieces: loop {
        let before = buffer.len() - at;
        if grow(from, buffer, most)? == 0 {
            return Ok(false);
        }
        let piece = &buffer[at..];
        if buffer.len() >= most || piece.len() / 2 >= seen || P::may_end(piece, before) {
            return Ok(true);
        }
    }
}
