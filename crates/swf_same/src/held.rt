// Lists and values that are held in one way or another.
ghost use Rattle.std.specs.Prelude.{◌≡◌, ◌↔◌, IsTrue};

use crate::same::{Same, same_items};
use swf_catalog::Shared;
use swf_chain::Chain;
use swf_document::{Boxed, Listing};

impl<T: Same> Same for Boxed<T> {
    fn is_same(&self, other: &Boxed<T>) -> bool {
        self.get().is_same(other.get())
    }
}

impl<T: Same> Same for Shared<T> {
    fn is_same(&self, other: &Shared<T>) -> bool {
        self.get().is_same(other.get())
    }
}

impl<T: Same> Same for Listing<T> {
    fn is_same(&self, other: &Listing<T>) -> bool {
        same_items(self.as_slice(), other.as_slice())
    }
}

impl<T: Same> Same for Chain<T> {
    fn is_same(&self, other: &Chain<T>) -> bool {
        same_chain(self, other)
    }
}

fn same_chain<T: Same>(a: &Chain<T>, b: &Chain<T>) -> bool
    ensures { IsTrue result ↔ (a.now ≡ b.now) }
{
    match (a.split_first(), b.split_first()) {
        (None, None) => true,
        (Some((x, xs)), Some((y, ys))) => x.is_same(y) && same_chain(xs, ys),
        _ => false,
    }
}
