// A text that grows at its end.
ghost use Rattle.std.specs.Prelude.{◌≡◌, ◌++◌, ◌∷◌, [], chars, IfOk, OnOk, OnErr, IsTrue};
ghost use Rattle.swf_text.specs.Same.{is_ascii};
ghost use Rattle.swf_text.specs.Size.{bytes_in};

use crate::text::Text;
use std::alloc::{AllocError, Global};
use std::marker::Model;

/// A text so far. Contracts see it as the list of its characters.
#[derive(Drop)]
pub struct TextBuilder {
    text: String,
}

impl Model for TextBuilder {
    ghost use Rattle.std.specs.Prelude.{ℕ, List, chars, string_bytes};

    ghost Value = { List ℕ };

    ghost view = { λ b. chars (string_bytes b.text) };
}

impl TextBuilder {
    pub fn new(alloc: Global) -> TextBuilder
        ensures { result ≡ [] }
    {
        TextBuilder {
            text: String::new(alloc),
        }
    }

    /// An empty text with room for so many bytes.
    pub fn with_capacity(alloc: Global, bytes: usize) -> Result<TextBuilder, AllocError>
        ensures { IfOk result (λ b. b ≡ []) }
    {
        let text = String::with_capacity(alloc, bytes)?;
        Ok(TextBuilder { text })
    }

    /// One more character.
    pub fn push(&mut self, character: char) -> Result<(), AllocError>
        ensures { OnOk result (self.new ≡ self.old ++ character ∷ []) }
    {
        self.text.push(character)?;
        Ok(())
    }

    /// More characters.
    pub fn push_str(&mut self, more: &str) -> Result<(), AllocError>
        ensures { OnOk result (self.new ≡ self.old ++ chars more.now) }
    {
        self.text.push_str(more)?;
        Ok(())
    }

    /// More characters, which are ASCII.
    #[tactic(auto, using(crate::proofs::SameLemmas::chars_ascii))]
    pub fn push_ascii(&mut self, more: &str) -> Result<(), AllocError>
        requires { IsTrue (is_ascii more.now) }
        ensures { OnOk result (self.new ≡ self.old ++ more.now) }
    {
        self.push_str(more)
    }

    /// The characters of a text.
    pub fn push_text(&mut self, text: &Text) -> Result<(), AllocError>
        ensures { OnOk result (self.new ≡ self.old ++ text.now) }
    {
        self.push_str(text.as_str())
    }

    /// How many bytes it has in UTF-8.
    pub fn len(&self) -> usize
        ensures { result ≡ bytes_in self.now }
    {
        self.text.as_str().len()
    }

    /// The whole text.
    pub fn into_text(self, alloc: Global) -> Result<Text, AllocError>
        ensures { IfOk result (λ t. t ≡ self) }
    {
        Text::from_string(alloc, self.text)
    }
}
