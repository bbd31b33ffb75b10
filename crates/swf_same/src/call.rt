// What calls ask, and what they are answered.
use crate::same::{Same, same_given, same_items};
use swf_calls::{CallReply, CallRequest, Header, Headers, Method};

impl Same for Method {
    fn is_same(&self, other: &Method) -> bool {
        *self == *other
    }
}

impl Same for Header {
    fn is_same(&self, other: &Header) -> bool {
        self.name.is_same(&other.name) && self.value.is_same(&other.value)
    }
}

impl Same for Headers {
    fn is_same(&self, other: &Headers) -> bool {
        same_items(self.as_slice(), other.as_slice())
    }
}

impl Same for CallRequest {
    fn is_same(&self, other: &CallRequest) -> bool {
        self.method() == other.method()
            && self.uri().is_same(other.uri())
            && self.headers().is_same(other.headers())
            && same_given(self.body(), other.body())
    }
}

impl Same for CallReply {
    fn is_same(&self, other: &CallReply) -> bool {
        match (self, other) {
            (
                CallReply::Answer {
                    status,
                    headers,
                    content,
                },
                CallReply::Answer {
                    status: other_status,
                    headers: other_headers,
                    content: other_content,
                },
            ) => {
                *status == *other_status
                    && headers.is_same(other_headers)
                    && content.is_same(other_content)
            }
            (CallReply::Unreached, CallReply::Unreached) => true,
            _ => false,
        }
    }
}
