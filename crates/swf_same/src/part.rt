// The parts of tasks.
use crate::same::Same;
use swf_document::{
    Callee, Case, Common, Correlation, DocKey, Endpoint, Filter, Flow, HttpSpec, ListenMode,
    ListenSpec, RetryPolicy, RetryRef, RunSpec,
};

impl Same for Flow {
    fn is_same(&self, other: &Flow) -> bool {
        match (self, other) {
            (Flow::Continue, Flow::Continue) | (Flow::Exit, Flow::Exit) | (Flow::End, Flow::End) =>
                true,
            (Flow::Task(a), Flow::Task(b)) => a.is_same(b),
            _ => false,
        }
    }
}

impl Same for Common {
    fn is_same(&self, other: &Common) -> bool {
        self.cond.is_same(&other.cond)
            && self.input_from.is_same(&other.input_from)
            && self.output_as.is_same(&other.output_as)
            && self.export_as.is_same(&other.export_as)
            && self.flow.is_same(&other.flow)
            && self.place.is_same(&other.place)
    }
}

impl Same for Case {
    fn is_same(&self, other: &Case) -> bool {
        self.name.is_same(&other.name)
            && self.cond.is_same(&other.cond)
            && self.flow.is_same(&other.flow)
    }
}

impl Same for Endpoint {
    fn is_same(&self, other: &Endpoint) -> bool {
        match (self, other) {
            (Endpoint::Pattern(a), Endpoint::Pattern(b)) => a.is_same(b),
            (Endpoint::Run(a), Endpoint::Run(b)) => a.is_same(b),
            (Endpoint::Uri(a), Endpoint::Uri(b)) => a.is_same(b),
            _ => false,
        }
    }
}

impl Same for HttpSpec {
    fn is_same(&self, other: &HttpSpec) -> bool {
        self.method.is_same(&other.method)
            && self.endpoint.is_same(&other.endpoint)
            && self.headers.is_same(&other.headers)
            && self.query.is_same(&other.query)
            && self.body.is_same(&other.body)
            && self.response == other.response
            && self.redirect == other.redirect
    }
}

impl Same for Callee {
    fn is_same(&self, other: &Callee) -> bool {
        match (self, other) {
            (Callee::Http(a), Callee::Http(b)) => a.is_same(b),
            (
                Callee::Function { name, with },
                Callee::Function {
                    name: other_name,
                    with: other_with,
                },
            ) => name.is_same(other_name) && with.is_same(other_with),
            _ => false,
        }
    }
}

impl Same for ListenMode {
    fn is_same(&self, other: &ListenMode) -> bool {
        *self == *other
    }
}

impl Same for Correlation {
    fn is_same(&self, other: &Correlation) -> bool {
        self.name.is_same(&other.name)
            && self.from.is_same(&other.from)
            && self.expect.is_same(&other.expect)
    }
}

impl Same for Filter {
    fn is_same(&self, other: &Filter) -> bool {
        self.with.is_same(&other.with) && self.correlate.is_same(&other.correlate)
    }
}

impl Same for ListenSpec {
    fn is_same(&self, other: &ListenSpec) -> bool {
        self.mode.is_same(&other.mode)
            && self.filters.is_same(&other.filters)
            && self.envelope == other.envelope
    }
}

impl Same for RetryPolicy {
    fn is_same(&self, other: &RetryPolicy) -> bool {
        self.delay == other.delay
            && self.count.is_same(&other.count)
            && self.cond.is_same(&other.cond)
            && self.except.is_same(&other.except)
    }
}

impl Same for RetryRef {
    fn is_same(&self, other: &RetryRef) -> bool {
        match (self, other) {
            (RetryRef::Named(a), RetryRef::Named(b)) => a.is_same(b),
            (RetryRef::Written(a), RetryRef::Written(b)) => a.is_same(b),
            _ => false,
        }
    }
}

impl Same for DocKey {
    fn is_same(&self, other: &DocKey) -> bool {
        self.namespace.is_same(&other.namespace)
            && self.name.is_same(&other.name)
            && self.version.is_same(&other.version)
    }
}

impl Same for RunSpec {
    fn is_same(&self, other: &RunSpec) -> bool {
        self.key.is_same(&other.key) && self.input.is_same(&other.input)
    }
}
