// What can be compared exactly.
ghost use Rattle.std.specs.Prelude.{◌≡◌, ◌↔◌, IsTrue, option_map};

/// A value that can be compared with another.
pub trait Same {
    /// Whether it equals another value. It takes no memory.
    fn is_same(&self, other: &Self) -> bool
        ensures { IsTrue result ↔ (self.now ≡ other.now) };
}

/// Whether two lists have the same items.
pub fn same_items<T: Same>(a: &[T], b: &[T]) -> bool
    ensures { IsTrue result ↔ (a.now ≡ b.now) }
{
    if a.len() != b.len() {
        return false;
    }
    for (i, x) in a.iter().enumerate() {
        if !x.is_same(&b[i]) {
            return false;
        }
    }
    true
}

/// Whether two values are the same, where there are any.
pub fn same_given<T: Same>(a: Option<&T>, b: Option<&T>) -> bool
    ensures { IsTrue result ↔ (option_map (λ x. x.now) a.entry ≡ option_map (λ x. x.now) b.entry) }
{
    match (a, b) {
        (None, None) => true,
        (Some(x), Some(y)) => x.is_same(y),
        _ => false,
    }
}

impl<T: Same> Same for Option<T> {
    fn is_same(&self, other: &Option<T>) -> bool {
        match (self, other) {
            (None, None) => true,
            (Some(x), Some(y)) => x.is_same(y),
            _ => false,
        }
    }
}
