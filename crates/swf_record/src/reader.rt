// Reading fields from the left.
ghost use Rattle.std.specs.Prelude.{◌≡◌, ◌≤◌, IfOk, IsErr, None};
ghost use Rattle.std.specs.Int.{w16, w32, w64};
ghost use Rattle.std.specs.Result.{result_ok};
ghost use Rattle.std.specs.Str.{bytes_eq};
ghost use Rattle.swf_value.specs.Read.{read_within};
ghost use Rattle.swf_value.specs.Written.{written};
ghost use Rattle.swf_record.specs.Decodes.{number_in, block_in, text_in, compact, value_in, many_in, strand_in};
ghost use Rattle.swf_record.specs.Told.{Tells};
ghost use Rattle.swf_record.specs.declared.reader.Stop.TheVariants.{OutOfMemory as StopOutOfMemory};

use std::alloc::{AllocError, AllocFailed, Global};
use std::str;
use swf_text::{Strand, Text};
use swf_value::{Json, ValueFault, read_json_within, write_json};

/// Why a reader went no further.
#[derive(Clone, Copy, Drop)]
pub(crate) enum Stop {
    /// The field where it stands does not fit.
    Misfit,
    OutOfMemory,
}

impl From<AllocError> for Stop {
    ghost from_gives = { λ _ e. e ≡ StopOutOfMemory };

    fn from(_: AllocError) -> Stop {
        Stop::OutOfMemory
    }
}

impl<T: Drop> From<AllocFailed<T>> for Stop {
    ghost from_gives = { λ _ e. e ≡ StopOutOfMemory };

    fn from(_: AllocFailed<T>) -> Stop {
        Stop::OutOfMemory
    }
}

/// The bytes that are still to be read. A field that does not fit is not passed.
#[derive(Drop)]
pub(crate) struct Reader<'a> {
    pub(crate) rest: &'a [u8],
}

impl<'a> Reader<'a> {
    fn two_bytes(&mut self) -> Result<u16, Stop>
        ensures { Tells (λ n. n) result self.new.rest.now (number_in w16 self.old.rest.now) }
    {
        if self.rest.len() < 2 {
            return Err(Stop::Misfit);
        }
        let number = u16::from_be_bytes([self.rest[0], self.rest[1]]);
        self.rest = &self.rest[2..];
        Ok(number)
    }

    pub(crate) fn four_bytes(&mut self) -> Result<u32, Stop>
        ensures { Tells (λ n. n) result self.new.rest.now (number_in w32 self.old.rest.now) }
    {
        if self.rest.len() < 4 {
            return Err(Stop::Misfit);
        }
        let number = u32::from_be_bytes([self.rest[0], self.rest[1], self.rest[2], self.rest[3]]);
        self.rest = &self.rest[4..];
        Ok(number)
    }

    pub(crate) fn eight_bytes(&mut self) -> Result<u64, Stop>
        ensures { Tells (λ n. n) result self.new.rest.now (number_in w64 self.old.rest.now) }
    {
        if self.rest.len() < 8 {
            return Err(Stop::Misfit);
        }
        let [a, b, c, d] = [self.rest[0], self.rest[1], self.rest[2], self.rest[3]];
        let [e, f, g, h] = [self.rest[4], self.rest[5], self.rest[6], self.rest[7]];
        let number = u64::from_be_bytes([a, b, c, d, e, f, g, h]);
        self.rest = &self.rest[8..];
        Ok(number)
    }

    /// Bytes behind their count. It takes no memory.
    fn block(&mut self) -> Result<&'a [u8], Stop>
        ensures { Tells (λ b. b.now) result self.new.rest.now (block_in self.old.rest.now) }
    {
        let field = self.rest;
        let count = self.four_bytes()? as usize;
        if self.rest.len() < count {
            self.rest = field;
            return Err(Stop::Misfit);
        }
        let (bytes, rest) = self.rest.split_at(count);
        self.rest = rest;
        Ok(bytes)
    }

    pub(crate) fn text(&mut self, alloc: Global) -> Result<Text, Stop>
        ensures { Tells (λ t. t) result self.new.rest.now (text_in self.old.rest.now) }
    {
        let field = self.rest;
        let bytes = self.block()?;
        match str::from_utf8(bytes) {
            Ok(text) => Ok(Text::copy_of(alloc, text)?),
            Err(_) => {
                self.rest = field;
                Err(Stop::Misfit)
            }
        }
    }

    /// A value that nests at most so deep, which has to stand there as it is written.
    pub(crate) fn value(&mut self, alloc: Global, depth: u32) -> Result<Json, Stop>
        requires { depth ≤ 127 }
        ensures { Tells (λ v. v) result self.new.rest.now (value_in depth self.old.rest.now) }
    {
        let field = self.rest;
        let bytes = self.block()?;
        match compact_value(alloc, bytes, depth)? {
            Some(value) => Ok(value),
            None => {
                self.rest = field;
                Err(Stop::Misfit)
            }
        }
    }

    pub(crate) fn strand(&mut self, alloc: Global) -> Result<Strand, Stop>
        ensures { Tells (λ s. s) result self.new.rest.now (strand_in self.old.rest.now) }
    {
        let count = self.two_bytes()?;
        Ok(Strand::of(self.numbers(alloc, count)?))
    }

    /// So many numbers of two bytes.
    fn numbers(&mut self, alloc: Global, count: u16) -> Result<Vec<u16>, Stop>
        ensures { Tells (λ v. v.items) result self.new.rest.now (many_in (number_in w16) count self.old.rest.now) }
    {
        let mut numbers = Vec::new(alloc);
        for _ in 0..count {
            let number = self.two_bytes()?;
            numbers.push(number)?;
        }
        Ok(numbers)
    }
}

/// The value that is written as these bytes, where it nests at most so deep.
#[tactic(auto, unfolding(crate::specs::Decodes::compact))]
fn compact_value(alloc: Global, bytes: &[u8], depth: u32) -> Result<Option<Json>, AllocError>
    requires { depth ≤ 127 }
    ensures { IfOk result (λ o. o ≡ compact depth bytes.now) }
{
    let Some(value) = any_value(alloc, bytes, depth)? else {
        return Ok(None);
    };
    let same = is_written(alloc, &value, bytes)?;
    Ok(same.then_some(value))
}

/// The value that these bytes are, in whatever spelling.
fn any_value(alloc: Global, bytes: &[u8], depth: u32) -> Result<Option<Json>, AllocError>
    requires { depth ≤ 127 }
    ensures { IfOk result (λ o. o ≡ result_ok (read_within depth bytes.now)) }
{
    match read_json_within(alloc, bytes, depth) {
        Ok(value) => Ok(Some(value)),
        Err(fault) => no_value(fault),
    }
}

/// No value, unless memory was missing.
fn no_value(fault: ValueFault) -> Result<Option<Json>, AllocError>
    ensures ok { IfOk result (λ o. o ≡ None) }
    ensures memory { fault ≡ ValueFault.OutOfMemory → IsErr result }
{
    match fault {
        ValueFault::OutOfMemory => Err(AllocError),
        ValueFault::NotJson | ValueFault::TooDeep | ValueFault::NotWhole => Ok(None),
    }
}

/// Whether a value is written as these bytes.
fn is_written(alloc: Global, value: &Json, bytes: &[u8]) -> Result<bool, AllocError>
    ensures { IfOk result (λ same. same ≡ bytes_eq (written value.now) bytes.now) }
{
    let mut text = Vec::new(alloc);
    write_json(value, &mut text)?;
    Ok(text.as_slice() == bytes)
}
