// A list that several values share.
ghost use Rattle.std.specs.Prelude.{◌≡◌, IfOk};

use std::alloc::{AllocError, Global};
use std::marker::Model;
use std::sync::Arc;

/// A list. A copy shares its items. Contracts see it as the list of them.
#[derive(Drop)]
pub struct Listing<T> {
    shared: Arc<Vec<T>>,
}

impl<T> Model for Listing<T> {
    ghost use Rattle.std.specs.Prelude.{List};
    ghost use Rattle.std.specs.Coded.{coded_list};
    ghost use Rattle.std.specs.Arc.{arc_value};

    ghost Value = { List T };

    ghost coded = { coded_list T.code };

    ghost view = { λ s. (arc_value s.shared).items };
}

impl<T> Listing<T> {
    pub fn of(alloc: Global, items: Vec<T>) -> Result<Listing<T>, AllocError>
    where
        T: Drop,
        ensures { IfOk result (λ list. list ≡ items.items) }
    {
        let shared = Arc::new(alloc, items)?;
        Ok(Listing { shared })
    }

    /// The same items once more. It copies nothing that is inside.
    pub fn copy(&self) -> Result<Listing<T>, AllocError>
        ensures { IfOk result (λ list. list ≡ self.now) }
    {
        let shared = Arc::try_clone(&self.shared)?;
        Ok(Listing { shared })
    }

    /// The items in order.
    pub fn as_slice(&self) -> &[T]
        ensures { result.now ≡ self.now }
    {
        self.shared.as_slice()
    }
}
