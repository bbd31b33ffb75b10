// Texts made of ASCII words.
ghost use Rattle.std.specs.Prelude.{◌≡◌, IfOk, IsTrue};
ghost use Rattle.swf_text.specs.Same.{is_ascii};

use crate::text::Text;
use std::alloc::{AllocError, Global};

/// The text of an ASCII word.
pub fn word(alloc: Global, word: &str) -> Result<Text, AllocError>
    requires { IsTrue (is_ascii word.now) }
    ensures { IfOk result (λ t. t ≡ word.now) }
{
    Text::copy_of(alloc, word)
}
