// Tasks and documents that are loaded.
ghost use Rattle.std.specs.Prelude.{◌≡◌, ◌↔◌, IsTrue};

use crate::same::Same;
use swf_catalog::{SharedDocument, TaskRef};

/// Whether two tasks are the same, wherever each comes from.
pub fn same_task(a: &TaskRef, b: &TaskRef) -> bool
    ensures exact { IsTrue result ↔ (a.now ≡ b.now) }
{
    a.is_same(b)
}

/// Whether two documents are the same.
pub fn same_document(a: &SharedDocument, b: &SharedDocument) -> bool
    ensures exact { IsTrue result ↔ (a.now ≡ b.now) }
{
    a.is_same(b)
}
