// Whether two texts are one.
ghost use Rattle.std.specs.Prelude.{◌≡◌, IsTrue};
ghost use Rattle.swf_text.specs.Same.{same, is_ascii};

use crate::text::Text;

/// Whether two texts have the same characters.
pub fn same_texts(a: &Text, b: &Text) -> bool
    ensures { result ≡ same a.now b.now }
{
    a.is(b.as_str())
}

/// Whether a text is an ASCII word.
pub fn is_word(text: &Text, word: &str) -> bool
    requires { IsTrue (is_ascii word.now) }
    ensures { result ≡ same text.now word.now }
{
    text.is(word)
}
