// The names of members that were read, so that equal ones share a text.
ghost use Rattle.std.specs.Prelude.{◌≡◌, IfOk, IsUtf8, chars};

use std::alloc::{AllocError, Global};
use swf_text::Text;

/// How many names are remembered at most.
const PLACES: usize = 64;

/// Names that were read, each at its place. A newer one takes the place of an older one.
#[derive(Drop)]
pub(crate) struct Names {
    places: Vec<Option<Text>>,
}

impl Names {
    pub(crate) fn new(alloc: Global) -> Result<Names, AllocError> {
        let mut places = Vec::with_capacity(alloc, PLACES)?;
        for _ in 0..PLACES {
            places.push(None)?;
        }
        Ok(Names { places })
    }

    /// A name as a text, which is that of an equal name where one is remembered.
    pub(crate) fn text_of(&mut self, alloc: Global, name: &str) -> Result<Text, AllocError>
        ensures is { IfOk result (λ t. t ≡ chars name.now) }
        ensures utf8 { IsUtf8 name.now }
    {
        let Some(place) = self.places.get_mut(place_of(name)) else {
            return Text::copy_of(alloc, name);
        };
        if let Some(text) = place
            && text.is(name)
        {
            return text.copy();
        }
        let text = Text::copy_of(alloc, name)?;
        *place = Some(text.copy()?);
        Ok(text)
    }
}

/// The place of a name, by its length and the bytes at its ends.
fn place_of(name: &str) -> usize {
    let bytes = name.as_bytes();
    let (Some(first), Some(last)) = (bytes.first(), bytes.last()) else {
        return 0;
    };
    let ends = usize::from(*first) * 7 + usize::from(*last) * 3;
    ends.wrapping_add(bytes.len()) % PLACES
}
