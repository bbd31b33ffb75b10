// Texts, numbers and moments.
use crate::same::{Same, same_items};
use swf_duration::Moment;
use swf_text::{Place, Strand, Text};

impl Same for Text {
    fn is_same(&self, other: &Text) -> bool {
        self.is(other.as_str())
    }
}

impl Same for Place {
    fn is_same(&self, other: &Place) -> bool {
        same_items(self.as_slice(), other.as_slice())
    }
}

impl Same for u16 {
    fn is_same(&self, other: &u16) -> bool {
        *self == *other
    }
}

impl Same for u64 {
    fn is_same(&self, other: &u64) -> bool {
        *self == *other
    }
}

impl Same for Strand {
    fn is_same(&self, other: &Strand) -> bool {
        same_items(self.as_slice(), other.as_slice())
    }
}

impl Same for Moment {
    fn is_same(&self, other: &Moment) -> bool {
        self.milliseconds() == other.milliseconds()
    }
}
