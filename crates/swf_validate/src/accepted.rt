// Documents without faults of scope.
ghost use Rattle.std.specs.Prelude.{◌≡◌, ◌≢◌, [], List, IfOk, Err};
ghost use Rattle.std.specs.Arc.{arc_value};
ghost use Rattle.swf_document.specs.declared.fault.Fault.{Fault};
ghost use Rattle.swf_reader.specs.Reads.{document_of};
ghost use Rattle.swf_validate.specs.Accepts.{IsRead, faults};
ghost use Rattle.swf_validate.specs.DocumentFaults.{scope_faults};

use crate::document::scope_faults;
use std::alloc::{AllocError, Global};
use std::marker::Model;
use std::sync::Arc;
use swf_document::Document;
use swf_reader::{ReadFault, read_document};
use swf_value::Json;

/// A document that a value is, without faults. Contracts see it as the document.
#[derive(Drop)]
pub struct Accepted {
    document: Arc<Document>,
}

impl Model for Accepted {
    ghost use Rattle.std.specs.Prelude.{◌≡◌, []};
    ghost use Rattle.std.specs.Arc.{arc_value};
    ghost use Rattle.swf_document.specs.declared.document.Document.{Document};
    ghost use Rattle.swf_document.specs.DocumentCode.{document_code};
    ghost use Rattle.swf_validate.specs.Accepts.{IsRead};
    ghost use Rattle.swf_validate.specs.DocumentFaults.{scope_faults};

    ghost Value = { Document };

    ghost coded = { document_code };

    ghost view = { λ a. arc_value a.document };

    ghost invariant = { λ a. IsRead (arc_value a.document) × (scope_faults (arc_value a.document) ≡ []) };
}

impl Accepted {
    ghost use Rattle.swf_validate.specs.Accepts.{IsRead};
    ghost use Rattle.swf_validate.specs.DocumentFaults.{scope_faults};

    /// The document.
    pub fn document(&self) -> &Document
        ensures value { result.now ≡ self.now }
        ensures read { IsRead self.now }
        ensures accepted { scope_faults self.now ≡ [] }
    {
        &self.document
    }

    /// The document for one more owner. It copies nothing that is inside.
    pub fn shared(&self) -> Result<Arc<Document>, AllocError>
        ensures { IfOk result (λ d. arc_value d ≡ self.now) }
    {
        Ok(Arc::try_clone(&self.document)?)
    }
}

/// The document, where it has no fault of scope, and else all its faults of scope in order.
pub fn validate(alloc: Global, document: Document) -> Result<Accepted, ReadFault>
    requires { IsRead document }
    ensures accepted { IfOk result (λ a. (a ≡ document) × (scope_faults document ≡ [])) }
    ensures refused { (faults : List Fault) → (result ≡ Err (ReadFault.Faults faults)) → (faults ≡ scope_faults document) × (faults ≢ []) }
{
    let faults = scope_faults(alloc, &document)?;
    if !faults.is_empty() {
        return Err(ReadFault::Faults(faults));
    }
    Ok(share(alloc, document)?)
}

/// A document that has no fault of scope.
fn share(alloc: Global, document: Document) -> Result<Accepted, AllocError>
    requires read { IsRead document }
    requires accepted { scope_faults document ≡ [] }
    ensures { IfOk result (λ a. a ≡ document) }
{
    let document = Arc::new(alloc, document)?;
    Ok(Accepted { document })
}

/// The document that a value is, where it has no faults, and else all its faults in order: those of reading,
/// or where there are none those of scope.
pub fn accept(alloc: Global, value: &Json) -> Result<Accepted, ReadFault>
    ensures accepted { IfOk result (λ a. (a ≡ document_of value.now) × (faults value.now ≡ [])) }
    ensures refused { (fs : List Fault) → (result ≡ Err (ReadFault.Faults fs)) → (fs ≡ faults value.now) × (fs ≢ []) }
{
    let document = read_document(alloc, value)?;
    validate(alloc, document)
}
