// Which workflow a `run` runs (DSL 1.0.0, reference, "Run").
use crate::document::DocKey;
use crate::template::Template;

/// A workflow that is run. Its version may be `latest`.
#[derive(Drop)]
pub struct RunSpec {
    pub key: DocKey,
    pub input: Option<Template>,
}
