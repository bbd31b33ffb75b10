// Documents.
use crate::same::Same;
use swf_catalog::NumberedDocument;
use swf_document::{Document, NamedError, NamedRetry};

impl Same for NamedError {
    fn is_same(&self, other: &NamedError) -> bool {
        self.name.is_same(&other.name) && self.error.is_same(&other.error)
    }
}

impl Same for NamedRetry {
    fn is_same(&self, other: &NamedRetry) -> bool {
        self.name.is_same(&other.name) && self.policy.is_same(&other.policy)
    }
}

impl Same for Document {
    fn is_same(&self, other: &Document) -> bool {
        self.key.is_same(&other.key)
            && self.input_from.is_same(&other.input_from)
            && self.output_as.is_same(&other.output_as)
            && self.tasks.is_same(&other.tasks)
            && self.functions.is_same(&other.functions)
            && self.errors.is_same(&other.errors)
            && self.retries.is_same(&other.retries)
    }
}

impl Same for NumberedDocument {
    fn is_same(&self, other: &NumberedDocument) -> bool {
        self.document().is_same(other.document())
    }
}
