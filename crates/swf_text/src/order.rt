// The order of texts.
ghost use Rattle.std.specs.Prelude.{◌≡◌, chars};
ghost use Rattle.std.specs.Ordering.{nat_cmp};
ghost use Rattle.std.specs.Cmp.Lexicographic.{slice_cmp};

use std::cmp::Ordering;

/// The order of two texts, by their characters.
pub fn compare_strs(a: &str, b: &str) -> Ordering
    ensures { result ≡ slice_cmp nat_cmp (chars a.now) (chars b.now) }
{
    a.cmp(b)
}
