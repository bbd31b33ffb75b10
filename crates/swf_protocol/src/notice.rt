// Lines on a journal, which no reply is: their numbers may be greater than those of a value.
ghost use Rattle.std.specs.Prelude.{◌≡◌, IfOk};
ghost use Rattle.swf_protocol.specs.Spoken.{damaged_bytes, full_bytes};

use std::alloc::{AllocError, Global};

/// The line of a journal that is damaged at a place, with its newline.
pub fn damaged_line(alloc: Global, at: u64) -> Result<Vec<u8>, AllocError>
    ensures { IfOk result (λ bytes. bytes.items ≡ damaged_bytes at) }
{
    let line = format!(in alloc; "{{\"at\":{at},\"error\":\"damaged\"}}\n")?;
    Ok(line.into_bytes())
}

/// The line of a journal that is full at a size, with its newline.
pub fn full_line(alloc: Global, size: u64) -> Result<Vec<u8>, AllocError>
    ensures { IfOk result (λ bytes. bytes.items ≡ full_bytes size) }
{
    let line = format!(in alloc; "{{\"error\":\"journal-full\",\"size\":{size}}}\n")?;
    Ok(line.into_bytes())
}
