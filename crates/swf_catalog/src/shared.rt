// A value that several share.
ghost use Rattle.std.specs.Prelude.{◌≡◌, IfOk};
ghost use Rattle.std.specs.Arc.{arc_value};

use crate::numbered::NumberedDocument;
use std::alloc::{AllocError, Global};
use std::marker::Model;
use std::sync::Arc;
use swf_document::Document;

/// A value. A copy shares it. Contracts see it as the value.
#[derive(Drop)]
pub struct Shared<T> {
    inner: Arc<T>,
}

/// The document of an instance, which several share.
pub type SharedDocument = Shared<NumberedDocument>;

impl<T> Model for Shared<T> {
    ghost use Rattle.std.specs.Arc.{arc_value};

    ghost Value = { T };

    ghost coded = { T.code };

    ghost view = { λ s. arc_value s.inner };
}

impl<T> Shared<T> {
    pub fn new(alloc: Global, value: T) -> Result<Shared<T>, AllocError>
    where
        T: Drop,
        ensures { IfOk result (λ shared. shared ≡ value) }
    {
        let inner = Arc::new(alloc, value)?;
        Ok(Shared { inner })
    }

    /// The value.
    pub fn get(&self) -> &T
        ensures { result.now ≡ self.now }
    {
        &self.inner
    }

    /// The same once more. It copies nothing that is inside.
    pub fn copy(&self) -> Result<Shared<T>, AllocError>
        ensures { IfOk result (λ shared. shared ≡ self.now) }
    {
        let inner = Arc::try_clone(&self.inner)?;
        Ok(Shared { inner })
    }
}

/// A document to share, with the numbers of its tasks.
pub fn share_document(alloc: Global, document: Arc<Document>) -> Result<SharedDocument, AllocError>
    ensures { IfOk result (λ shared. shared ≡ arc_value document) }
{
    Shared::new(alloc, NumberedDocument::new(alloc, document)?)
}
