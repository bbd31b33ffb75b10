//! What stands in a row of a table, and how what came of it is told: for the programs of tests that read such tables.
//!
//! A row is a line of text. What has no meaning in it is an error of the kind `InvalidInput`.
#![tactic(auto)]

ghost use Rattle.std.specs.Prelude.{◌≡◌, ◌≢◌, ◌<◌, ℕ, ◌++◌, ◌∷◌, [], length, get_or, codes, Ok, ◌⊎◌, IsErr, IfOk, IfErr, OnOk, MatchResult};
ghost use Rattle.std.specs.IoError.{error_kind};
ghost use Rattle.std.specs.Str.Parse.{ParsesUnsigned};
ghost use Rattle.hex.specs.Hex.{decode_of};

use hex::FromHexError;
use std::alloc::{AllocError, Global};
use std::io::{self, ErrorKind};

/// The error of what has no meaning.
pub fn no_meaning() -> io::Error
    ensures { error_kind result ≡ ErrorKind.InvalidInput }
{
    ErrorKind::InvalidInput.into()
}

/// The number that decimal digits spell, where it is less than 2^64.
pub fn number_of(text: &str) -> io::Result<u64>
    ensures value { ParsesUnsigned 64 10 text.now result }
    ensures kind { IfErr result (λ e. error_kind e ≡ ErrorKind.InvalidInput) }
{
    match text.parse::<u64>() {
        Ok(number) => Ok(number),
        Err(_) => Err(no_meaning()),
    }
}

/// What stands before the first space, and what stands behind it.
pub fn split(text: &str) -> io::Result<(&str, &str)>
    ensures parts { MatchResult result
        (λ p. (text.now ≡ p.0.now ++ 32 ∷ p.1.now) × ((i : ℕ) → i < length p.0.now → get_or p.0.now i 0 ≢ 32))
        (λ _. (i : ℕ) → i < length text.now → get_or text.now i 0 ≢ 32) }
    ensures kind { IfErr result (λ e. error_kind e ≡ ErrorKind.InvalidInput) }
{
    match text.split_once(' ') {
        Some(parts) => Ok(parts),
        None => Err(no_meaning()),
    }
}

/// The bytes that hexadecimal digits tell, two for each. Where memory is missing the error is of the kind `OutOfMemory`.
pub fn bytes_of(alloc: Global, digits: &str) -> io::Result<Vec<u8>>
    ensures value { IfOk result (λ bytes. decode_of digits.now ≡ Ok bytes.items) }
    ensures err { IfErr result (λ e. (error_kind e ≡ ErrorKind.OutOfMemory)
        ⊎ ((error_kind e ≡ ErrorKind.InvalidInput) × IsErr (decode_of digits.now))) }
{
    match hex::decode(alloc, digits) {
        Ok(bytes) => Ok(bytes),
        Err(FromHexError::OutOfMemory) => Err(AllocError.into()),
        Err(_) => Err(no_meaning()),
    }
}

/// Adds a line with something before it, and a newline.
pub fn add_line(transcript: &mut Vec<u8>, before: &str, line: &str) -> Result<(), AllocError>
    ensures { OnOk result (transcript.new.items ≡ transcript.old.items ++ before.now ++ line.now ++ 10 ∷ []) }
{
    transcript.extend_from_slice(before.as_bytes())?;
    transcript.extend_from_slice(line.as_bytes())?;
    transcript.extend_from_slice(b"\n")
}

/// Adds a row, ` => `, what came of it, and a newline.
pub fn add_outcome(transcript: &mut Vec<u8>, row: &str, outcome: &str) -> Result<(), AllocError>
    ensures { OnOk result (transcript.new.items ≡ transcript.old.items ++ row.now ++ codes " => " ++ outcome.now ++ 10 ∷ []) }
{
    transcript.extend_from_slice(row.as_bytes())?;
    add_line(transcript, " => ", outcome)
}
