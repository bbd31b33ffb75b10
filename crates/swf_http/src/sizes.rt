// How large a message may be.

/// The most bytes of a head, with the responses before it that are read past.
pub(crate) const MOST_HEAD: usize = 65_536;

/// The most fields of a head or a trailer.
pub(crate) const MOST_FIELDS: usize = 100;

/// The most bytes of a body.
pub(crate) const MOST_BODY: usize = 1_048_576;

/// The most bytes of a body's chunk lines and trailer.
pub(crate) const MOST_LINES: usize = 16_777_216;
