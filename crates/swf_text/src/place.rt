// A place in a value.
ghost use Rattle.std.specs.Prelude.{◌≡◌, ◌++◌, ◌∷◌, [], IfOk, IfErr, IfSome};
ghost use Rattle.swf_text.specs.Pointer.{pointer};

use crate::pointer::pointer_text;
use crate::text::Text;
use std::alloc::{AllocError, Global};
use std::marker::Model;

/// A place in a value, by the names and positions on the way to it from the outside in. Contracts see it as that list.
#[derive(Drop)]
pub struct Place {
    parts: Vec<Text>,
    /// Its JSON Pointer, where that was made.
    pointer: Option<Text>,
}

impl Model for Place {
    ghost use Rattle.std.specs.Prelude.{ℕ, List};

    ghost Value = { List (List ℕ) };

    ghost view = { λ p. p.parts.items };

    ghost use Rattle.swf_text.specs.Pointer.{IsPointed};

    ghost invariant = { λ p. IsPointed p.pointer p.parts.items };
}

impl Place {
    /// The place of the whole value. It takes no memory.
    pub fn root(alloc: Global) -> Place
        ensures { result ≡ [] }
    {
        Place {
            parts: Vec::new(alloc),
            pointer: None,
        }
    }

    /// The place of these names and positions, from the outside in. It takes no memory.
    pub fn of(parts: Vec<Text>) -> Place
        ensures { result ≡ parts.items }
    {
        Place {
            parts,
            pointer: None,
        }
    }

    /// One name or position more, further in.
    pub fn push(&mut self, part: Text) -> Result<(), AllocError>
        ensures ok { IfOk result (λ _. self.new ≡ self.old ++ part ∷ []) }
        ensures err { IfErr result (λ _. self.new ≡ self.old) }
    {
        self.pointer = None;
        self.parts.push(part)?;
        Ok(())
    }

    /// The same place once more. It copies no characters.
    pub fn copy(&self, alloc: Global) -> Result<Place, AllocError>
        ensures { IfOk result (λ place. place ≡ self.now) }
    {
        let mut parts = Vec::new(alloc);
        for part in &self.parts {
            parts.push(part.copy()?)?;
        }
        Ok(Place {
            parts,
            pointer: None,
        })
    }

    /// The same place once more, with its JSON Pointer, which is then made no more.
    pub fn pointed(&self, alloc: Global) -> Result<Place, AllocError>
        ensures { IfOk result (λ place. place ≡ self.now) }
    {
        let pointer = pointer_text(alloc, self)?;
        let mut place = self.copy(alloc)?;
        place.pointer = Some(pointer);
        Ok(place)
    }

    /// Its JSON Pointer, where that was made.
    pub(crate) fn pointer(&self) -> Option<&Text>
        ensures { IfSome result (λ t. t.now ≡ pointer self.now) }
    {
        self.pointer.as_ref()
    }

    /// The names and positions in order.
    pub fn as_slice(&self) -> &[Text]
        ensures { result.now ≡ self.now }
    {
        self.parts.as_slice()
    }
}
