// A document and the key by which it is known (Serverless Workflow DSL 1.0.0, reference, "Workflow" and "Use").
ghost use Rattle.std.specs.Prelude.{◌≡◌, IfOk};

use crate::error::ErrorSpec;
use crate::listing::Listing;
use crate::retry::RetryPolicy;
use crate::tasks::Tasks;
use crate::template::Template;
use std::alloc::AllocError;
use swf_text::Text;

/// The namespace, name and version by which a document is known.
#[derive(PartialEq, Eq, Hash, Drop)]
pub struct DocKey {
    pub namespace: Text,
    pub name: Text,
    pub version: Text,
}

/// A workflow document.
#[derive(Drop)]
pub struct Document {
    pub key: DocKey,
    pub input_from: Option<Template>,
    pub output_as: Option<Template>,
    pub tasks: Tasks,
    /// The functions by ascending name, each a task.
    pub functions: Tasks,
    /// The errors by ascending name.
    pub errors: Listing<NamedError>,
    /// The retry policies by ascending name.
    pub retries: Listing<NamedRetry>,
}

/// An error that has a name.
#[derive(Drop)]
pub struct NamedError {
    pub name: Text,
    pub error: ErrorSpec,
}

/// A retry policy that has a name.
#[derive(Drop)]
pub struct NamedRetry {
    pub name: Text,
    pub policy: RetryPolicy,
}

impl DocKey {
    /// The same key once more. It copies no characters.
    pub fn copy(&self) -> Result<DocKey, AllocError>
        ensures { IfOk result (λ key. key ≡ self.now) }
    {
        let namespace = self.namespace.copy()?;
        let name = self.name.copy()?;
        let version = self.version.copy()?;
        Ok(DocKey {
            namespace,
            name,
            version,
        })
    }
}
