// What crosses threads: the strands of an instance may go to another, and be lent to several.
use swf_frames::Forest;
use swf_stack::Stand;

// Takes only what crosses threads.
fn crosses<T: Send + Sync>(_: &T) {}

/// The strands of an instance cross threads. A call does nothing: that it stands here is what is checked.
pub fn strands_cross(forest: &Forest<Stand>) {
    crosses(forest);
}
