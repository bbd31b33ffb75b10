// What a step goes by that is the same for all instances.
use swf_catalog::Documents;
use swf_duration::Moment;

/// The moment of a step, and the loaded documents.
#[derive(Clone, Copy)]
pub struct Site<'a> {
    pub now: Moment,
    pub documents: &'a Documents,
}
