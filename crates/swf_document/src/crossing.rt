// What crosses threads: every type of a document may go to another, and be lent to several.
use crate::document::Document;
use crate::error::{ErrorSpec, Problem};
use crate::retry::RetryPolicy;
use crate::tasks::Tasks;
use crate::template::Template;

// Takes only what crosses threads.
fn crosses<T: Send + Sync>(_: &T) {}

/// A document crosses threads, and so do its parts. A call does nothing: that it stands here is what is checked.
pub fn document_crosses(
    document: &Document,
    tasks: &Tasks,
    template: &Template,
    error: &ErrorSpec,
    retry: &RetryPolicy,
) {
    crosses(document);
    crosses(tasks);
    crosses(template);
    crosses(error);
    crosses(retry);
}

/// What an instance ended with crosses threads.
pub fn problem_crosses(problem: &Problem) {
    crosses(problem);
}
