// Values, and what is made of texts and values alone.
use crate::same::{Same, same_items};
use swf_value::{Json, JsonList, Member, depth, size};

/// By what is kept of each first: how deep and how large it is.
impl Same for Json {
    fn is_same(&self, other: &Json) -> bool {
        depth(self) == depth(other) && size(self) == size(other) && self.is(other)
    }
}

impl Same for Member {
    fn is_same(&self, other: &Member) -> bool {
        self.name.is_same(&other.name) && self.value.is_same(&other.value)
    }
}

impl Same for JsonList {
    fn is_same(&self, other: &JsonList) -> bool {
        same_items(self.as_slice(), other.as_slice())
    }
}
