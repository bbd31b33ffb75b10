// Errors as documents write them, as they are raised, and as they are caught.
use crate::same::Same;
use swf_document::{ErrorFilter, ErrorRef, ErrorSpec, Problem};

impl Same for ErrorSpec {
    fn is_same(&self, other: &ErrorSpec) -> bool {
        self.uri.is_same(&other.uri)
            && self.status == other.status
            && self.title.is_same(&other.title)
            && self.detail.is_same(&other.detail)
            && self.instance.is_same(&other.instance)
    }
}

impl Same for ErrorRef {
    fn is_same(&self, other: &ErrorRef) -> bool {
        match (self, other) {
            (ErrorRef::Named(a), ErrorRef::Named(b)) => a.is_same(b),
            (ErrorRef::Written(a), ErrorRef::Written(b)) => a.is_same(b),
            _ => false,
        }
    }
}

impl Same for ErrorFilter {
    fn is_same(&self, other: &ErrorFilter) -> bool {
        self.uri.is_same(&other.uri)
            && self.status.is_same(&other.status)
            && self.instance.is_same(&other.instance)
            && self.title.is_same(&other.title)
            && self.detail.is_same(&other.detail)
    }
}

impl Same for Problem {
    fn is_same(&self, other: &Problem) -> bool {
        self.uri.is_same(&other.uri)
            && self.status == other.status
            && self.title.is_same(&other.title)
            && self.detail.is_same(&other.detail)
            && self.instance.is_same(&other.instance)
    }
}
