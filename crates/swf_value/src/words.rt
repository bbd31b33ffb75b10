// Members whose names are ASCII words.
ghost use Rattle.std.specs.Prelude.{◌≡◌, IfOk, IsTrue};
ghost use Rattle.swf_text.specs.Same.{is_ascii};

use crate::value::{Json, Member};
use std::alloc::{AllocError, Global};
use swf_text::word;

/// A member whose name is an ASCII word.
pub fn member(alloc: Global, name: &str, value: Json) -> Result<Member, AllocError>
    requires { IsTrue (is_ascii name.now) }
    ensures { IfOk result (λ m. m ≡ record { name = name.now; value = value }) }
{
    let name = word(alloc, name)?;
    Ok(Member { name, value })
}
