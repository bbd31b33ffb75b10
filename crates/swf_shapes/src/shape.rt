// The shapes that the parts of a document have.

use swf_document::FaultKind;
use swf_forms::Form;

/// What may stand at a place.
#[derive(Clone, Copy)]
pub enum Shape {
    /// Anything.
    Any,
    /// Nothing: whatever stands there is this fault.
    Refused(FaultKind),
    /// Anything, with texts in it that may be expressions.
    Template,
    /// A text of this form.
    Text(Form),
    /// `true` or `false`.
    Flag,
    /// `true`, which is what is built.
    True,
    /// A whole number in this range.
    Number(Range),
    Duration,
    /// A list of one or more such objects.
    List(Object),
    /// Such an object.
    Object(Object),
    /// A text of this form, or such an object.
    TextOr(Form, Object),
}

/// What an object is.
#[derive(Clone, Copy)]
pub enum Object {
    /// One with the members of the table, and what else may stand beside them.
    Of(Table, Rest),
    /// One with a single member, of the table or else what may stand beside them.
    Single(Table, Rest),
    /// A task, by the keyword in it.
    Task,
    /// A task around which a function begins.
    Function,
    /// What a task listens to: exactly one of `all`, `any` and `one`.
    To,
    /// What a caught error must have, with `detail` or else `details`.
    Caught,
}

/// What may stand beside the members that a table names.
#[derive(Clone, Copy)]
pub enum Rest {
    /// Nothing: each other member is unknown.
    Unknown,
    Any,
    Template,
    Task,
    Function,
    Case,
    Error,
    Policy,
    Correlation,
}

/// The named members of an object.
#[derive(Clone, Copy)]
pub enum Table {
    Top(Top),
    Task(Task),
    Part(Part),
}

/// The parts of a document, and what tasks share.
#[derive(Clone, Copy)]
pub enum Top {
    Empty,
    Document,
    Head,
    Evaluate,
    Use,
    Input,
    Output,
    Common,
    FunctionCommon,
    Flows,
}

/// The tasks by their keywords.
#[derive(Clone, Copy)]
pub enum Task {
    HttpCall,
    FunctionCall,
    OtherCall,
    Do,
    Emit,
    For,
    Fork,
    Listen,
    Raise,
    Run,
    Set,
    Switch,
    Try,
    Wait,
}

/// The parts of tasks.
#[derive(Clone, Copy)]
pub enum Part {
    Http,
    Address,
    Emitted,
    Event,
    Attributes,
    Loop,
    Branches,
    Heard,
    To,
    Filter,
    Correlation,
    Raised,
    Error,
    Ran,
    Workflow,
    Case,
    Catch,
    Errors,
    Caught,
    CaughtDetails,
    Policy,
    Backoff,
    Limit,
    Attempt,
}

/// A range of whole numbers.
#[derive(Clone, Copy)]
pub enum Range {
    /// The status of an error.
    Status,
    /// How often something is tried again.
    Count,
}
