// What the parts of a document may name where they stand.
use crate::names::Names;
use crate::variables::Variables;

/// The names in a document's `use`.
#[derive(Drop)]
pub struct Known {
    pub functions: Names,
    pub errors: Names,
    pub retries: Names,
}

/// What a task may name.
#[derive(Clone, Copy)]
pub struct Scope<'a> {
    pub known: &'a Known,
    /// The tasks to which its `then` may go.
    pub targets: &'a Names,
    /// Whether a branch of a `fork` is around it.
    pub in_branch: bool,
    /// The variables that its `input.from` has.
    pub around: &'a Variables<'a>,
}
