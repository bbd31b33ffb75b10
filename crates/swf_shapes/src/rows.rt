// The members of each object, as the reference of the DSL lists them.
ghost use Rattle.std.specs.Prelude.{◌≡◌, IsTrue, map};
ghost use Rattle.swf_shapes.specs.Shapes.{rows, top_rows, task_rows, part_rows, rest_shape, only};
ghost use Rattle.swf_shapes.specs.Row.{row_of, are_ascii};

use crate::shape::{Object, Part, Range, Rest, Shape, Table, Task, Top};
use swf_document::FaultKind;
use swf_forms::Form;

/// A member of an object by its name: whether it has to be there, and what it may be.
#[derive(Clone, Copy)]
pub struct Row {
    pub name: &'static str,
    pub required: bool,
    pub shape: Shape,
}

macro_rules! required {
    ($name:expr, $shape:expr) => {
        Row { name: $name, required: true, shape: $shape }
    };
}

macro_rules! optional {
    ($name:expr, $shape:expr) => {
        Row { name: $name, required: false, shape: $shape }
    };
}

macro_rules! left_out {
    ($name:expr) => {
        Row { name: $name, required: false, shape: Shape::Refused(FaultKind::NotInProfile) }
    };
}

macro_rules! top {
    ($table:ident) => {
        Shape::Object(Object::Of(Table::Top(Top::$table), Rest::Unknown))
    };
}

macro_rules! part {
    ($table:ident) => {
        Shape::Object(Object::Of(Table::Part(Part::$table), Rest::Unknown))
    };
}

/// A list of named tasks.
const TASKS: Shape = Shape::List(Object::Single(Table::Top(Top::Flows), Rest::Task));

/// A list of named cases.
const CASES: Shape = Shape::List(Object::Single(Table::Top(Top::Empty), Rest::Case));

/// A list of filters.
const FILTERS: Shape = Shape::List(Object::Of(Table::Part(Part::Filter), Rest::Unknown));

/// An object of templates.
const TEMPLATES: Shape = Shape::Object(Object::Of(Table::Top(Top::Empty), Rest::Template));

/// An object of any members.
const ANY_OBJECT: Shape = Shape::Object(Object::Of(Table::Top(Top::Empty), Rest::Any));

/// An object without members.
const EMPTY: Shape = Shape::Object(Object::Of(Table::Top(Top::Empty), Rest::Unknown));

/// Any text.
const PLAIN: Shape = Shape::Text(Form::Plain);

/// A label.
const LABEL: Shape = Shape::Text(Form::Label);

/// A name that expressions may use.
const VARIABLE: Shape = Shape::Text(Form::Variable);

/// An expression place.
const EXPRESSION: Shape = Shape::Text(Form::Expression);

/// A text that may be an expression.
const TEXT_TEMPLATE: Shape = Shape::Text(Form::Template);

/// An expression place, or an object that is a template.
const TRANSFORM: Shape = Shape::TextOr(
    Form::Expression,
    Object::Of(Table::Top(Top::Empty), Rest::Template),
);

const DOCUMENT_ROWS: &[Row] = &[
    required!("do", TASKS),
    required!("document", top!(Head)),
    optional!("evaluate", top!(Evaluate)),
    optional!("input", top!(Input)),
    optional!("output", top!(Output)),
    left_out!("schedule"),
    left_out!("timeout"),
    optional!("use", top!(Use)),
];

const HEAD_ROWS: &[Row] = &[
    required!("dsl", Shape::Text(Form::Dsl)),
    optional!("metadata", ANY_OBJECT),
    required!("name", LABEL),
    required!("namespace", LABEL),
    optional!("summary", PLAIN),
    optional!("tags", ANY_OBJECT),
    optional!("title", PLAIN),
    required!("version", Shape::Text(Form::Version)),
];

const EVALUATE_ROWS: &[Row] = &[
    optional!("language", Shape::Text(Form::Language)),
    optional!("mode", Shape::Text(Form::Mode)),
];

const USE_ROWS: &[Row] = &[
    left_out!("authentications"),
    left_out!("catalogs"),
    optional!(
        "errors",
        Shape::Object(Object::Of(Table::Top(Top::Empty), Rest::Error))
    ),
    left_out!("extensions"),
    optional!(
        "functions",
        Shape::Object(Object::Of(Table::Top(Top::Empty), Rest::Function))
    ),
    optional!(
        "retries",
        Shape::Object(Object::Of(Table::Top(Top::Empty), Rest::Policy))
    ),
    left_out!("secrets"),
    left_out!("timeouts"),
];

const INPUT_ROWS: &[Row] = &[optional!("from", TRANSFORM), left_out!("schema")];

const OUTPUT_ROWS: &[Row] = &[optional!("as", TRANSFORM), left_out!("schema")];

const COMMON_ROWS: &[Row] = &[
    optional!("export", top!(Output)),
    optional!("if", EXPRESSION),
    optional!("input", top!(Input)),
    optional!("metadata", ANY_OBJECT),
    optional!("output", top!(Output)),
    optional!("then", PLAIN),
    left_out!("timeout"),
];

const FUNCTION_COMMON_ROWS: &[Row] = &[
    left_out!("export"),
    optional!("if", EXPRESSION),
    optional!("input", top!(Input)),
    optional!("metadata", ANY_OBJECT),
    optional!("output", top!(Output)),
    optional!("then", PLAIN),
    left_out!("timeout"),
];

const FLOWS_ROWS: &[Row] = &[
    optional!("continue", Shape::Refused(FaultKind::BadText)),
    optional!("end", Shape::Refused(FaultKind::BadText)),
    optional!("exit", Shape::Refused(FaultKind::BadText)),
];

const HTTP_CALL_ROWS: &[Row] = &[
    required!("call", Shape::Text(Form::Callee)),
    required!("with", part!(Http)),
];

const FUNCTION_CALL_ROWS: &[Row] = &[
    required!("call", Shape::Text(Form::Callee)),
    optional!("with", TEMPLATES),
];

const OTHER_CALL_ROWS: &[Row] = &[
    required!("call", Shape::Text(Form::Callee)),
    optional!("with", Shape::Any),
];

const DO_ROWS: &[Row] = &[required!("do", TASKS)];

const EMIT_ROWS: &[Row] = &[required!("emit", part!(Emitted))];

const FOR_ROWS: &[Row] = &[
    required!("do", TASKS),
    required!("for", part!(Loop)),
    optional!("while", EXPRESSION),
];

const FORK_ROWS: &[Row] = &[required!("fork", part!(Branches))];

const LISTEN_ROWS: &[Row] = &[left_out!("foreach"), required!("listen", part!(Heard))];

const RAISE_ROWS: &[Row] = &[required!("raise", part!(Raised))];

const RUN_ROWS: &[Row] = &[required!("run", part!(Ran))];

const SET_ROWS: &[Row] = &[required!(
    "set",
    Shape::TextOr(
        Form::Enclosed,
        Object::Of(Table::Top(Top::Empty), Rest::Template)
    )
)];

const SWITCH_ROWS: &[Row] = &[required!("switch", CASES)];

const TRY_ROWS: &[Row] = &[required!("catch", part!(Catch)), required!("try", TASKS)];

const WAIT_ROWS: &[Row] = &[required!("wait", Shape::Duration)];

const HTTP_ROWS: &[Row] = &[
    optional!("body", Shape::Template),
    required!(
        "endpoint",
        Shape::TextOr(
            Form::Endpoint,
            Object::Of(Table::Part(Part::Address), Rest::Unknown)
        )
    ),
    optional!("headers", TEMPLATES),
    required!("method", Shape::Text(Form::Method)),
    optional!("output", Shape::Text(Form::Output)),
    optional!("query", TEMPLATES),
    optional!("redirect", Shape::Flag),
];

const ADDRESS_ROWS: &[Row] = &[
    left_out!("authentication"),
    required!("uri", Shape::Text(Form::Endpoint)),
];

const EMITTED_ROWS: &[Row] = &[required!("event", part!(Event))];

const EVENT_ROWS: &[Row] = &[required!(
    "with",
    Shape::Object(Object::Of(Table::Part(Part::Attributes), Rest::Template))
)];

const ATTRIBUTES_ROWS: &[Row] = &[
    left_out!("id"),
    required!("source", Shape::Template),
    left_out!("specversion"),
    left_out!("time"),
    required!("type", Shape::Template),
];

const LOOP_ROWS: &[Row] = &[
    optional!("at", VARIABLE),
    optional!("each", VARIABLE),
    required!("in", EXPRESSION),
];

const BRANCHES_ROWS: &[Row] = &[
    required!("branches", TASKS),
    optional!("compete", Shape::Flag),
];

const HEARD_ROWS: &[Row] = &[
    left_out!("foreach"),
    optional!("read", Shape::Text(Form::Read)),
    required!("to", Shape::Object(Object::To)),
];

const TO_ROWS: &[Row] = &[
    optional!("all", FILTERS),
    optional!("any", FILTERS),
    optional!("one", part!(Filter)),
    left_out!("until"),
];

const FILTER_ROWS: &[Row] = &[
    optional!(
        "correlate",
        Shape::Object(Object::Of(Table::Top(Top::Empty), Rest::Correlation))
    ),
    required!("with", TEMPLATES),
];

const CORRELATION_ROWS: &[Row] = &[
    optional!("expect", Shape::Template),
    required!("from", EXPRESSION),
];

const RAISED_ROWS: &[Row] = &[required!(
    "error",
    Shape::TextOr(
        Form::Plain,
        Object::Of(Table::Part(Part::Error), Rest::Unknown)
    )
)];

const ERROR_ROWS: &[Row] = &[
    optional!("detail", TEXT_TEMPLATE),
    optional!("instance", TEXT_TEMPLATE),
    required!("status", Shape::Number(Range::Status)),
    optional!("title", TEXT_TEMPLATE),
    required!("type", TEXT_TEMPLATE),
];

const RAN_ROWS: &[Row] = &[
    optional!("await", Shape::True),
    left_out!("container"),
    left_out!("script"),
    left_out!("shell"),
    required!("workflow", part!(Workflow)),
];

const WORKFLOW_ROWS: &[Row] = &[
    optional!("input", Shape::Template),
    required!("name", LABEL),
    required!("namespace", LABEL),
    optional!("version", Shape::Text(Form::VersionOrLatest)),
];

const CASE_ROWS: &[Row] = &[optional!("then", PLAIN), optional!("when", EXPRESSION)];

const CATCH_ROWS: &[Row] = &[
    optional!("as", VARIABLE),
    optional!("do", TASKS),
    optional!("errors", part!(Errors)),
    optional!("exceptWhen", EXPRESSION),
    optional!(
        "retry",
        Shape::TextOr(
            Form::Plain,
            Object::Of(Table::Part(Part::Policy), Rest::Unknown)
        )
    ),
    optional!("when", EXPRESSION),
];

const ERRORS_ROWS: &[Row] = &[optional!("with", Shape::Object(Object::Caught))];

const CAUGHT_ROWS: &[Row] = &[
    optional!("detail", PLAIN),
    optional!("instance", PLAIN),
    optional!("status", Shape::Number(Range::Status)),
    optional!("title", PLAIN),
    optional!("type", PLAIN),
];

const CAUGHT_DETAILS_ROWS: &[Row] = &[
    optional!("details", PLAIN),
    optional!("instance", PLAIN),
    optional!("status", Shape::Number(Range::Status)),
    optional!("title", PLAIN),
    optional!("type", PLAIN),
];

const POLICY_ROWS: &[Row] = &[
    optional!("backoff", part!(Backoff)),
    optional!("delay", Shape::Duration),
    optional!("exceptWhen", EXPRESSION),
    left_out!("jitter"),
    optional!("limit", part!(Limit)),
    optional!("when", EXPRESSION),
];

const BACKOFF_ROWS: &[Row] = &[
    optional!("constant", EMPTY),
    left_out!("exponential"),
    left_out!("linear"),
];

const LIMIT_ROWS: &[Row] = &[optional!("attempt", part!(Attempt)), left_out!("duration")];

const ATTEMPT_ROWS: &[Row] = &[
    optional!("count", Shape::Number(Range::Count)),
    left_out!("duration"),
];

fn top_rows(table: Top) -> &'static [Row]
    ensures rows { map row_of result.now ≡ top_rows table }
    ensures ascii { IsTrue (are_ascii result.now) }
{
    match table {
        Top::Empty => &[],
        Top::Document => DOCUMENT_ROWS,
        Top::Head => HEAD_ROWS,
        Top::Evaluate => EVALUATE_ROWS,
        Top::Use => USE_ROWS,
        Top::Input => INPUT_ROWS,
        Top::Output => OUTPUT_ROWS,
        Top::Common => COMMON_ROWS,
        Top::FunctionCommon => FUNCTION_COMMON_ROWS,
        Top::Flows => FLOWS_ROWS,
    }
}

fn task_rows(table: Task) -> &'static [Row]
    ensures rows { map row_of result.now ≡ task_rows table }
    ensures ascii { IsTrue (are_ascii result.now) }
{
    match table {
        Task::HttpCall => HTTP_CALL_ROWS,
        Task::FunctionCall => FUNCTION_CALL_ROWS,
        Task::OtherCall => OTHER_CALL_ROWS,
        Task::Do => DO_ROWS,
        Task::Emit => EMIT_ROWS,
        Task::For => FOR_ROWS,
        Task::Fork => FORK_ROWS,
        Task::Listen => LISTEN_ROWS,
        Task::Raise => RAISE_ROWS,
        Task::Run => RUN_ROWS,
        Task::Set => SET_ROWS,
        Task::Switch => SWITCH_ROWS,
        Task::Try => TRY_ROWS,
        Task::Wait => WAIT_ROWS,
    }
}

fn part_rows(table: Part) -> &'static [Row]
    ensures rows { map row_of result.now ≡ part_rows table }
    ensures ascii { IsTrue (are_ascii result.now) }
{
    match table {
        Part::Http => HTTP_ROWS,
        Part::Address => ADDRESS_ROWS,
        Part::Emitted => EMITTED_ROWS,
        Part::Event => EVENT_ROWS,
        Part::Attributes => ATTRIBUTES_ROWS,
        Part::Loop => LOOP_ROWS,
        Part::Branches => BRANCHES_ROWS,
        Part::Heard => HEARD_ROWS,
        Part::To => TO_ROWS,
        Part::Filter => FILTER_ROWS,
        Part::Correlation => CORRELATION_ROWS,
        Part::Raised => RAISED_ROWS,
        Part::Error => ERROR_ROWS,
        Part::Ran => RAN_ROWS,
        Part::Workflow => WORKFLOW_ROWS,
        Part::Case => CASE_ROWS,
        Part::Catch => CATCH_ROWS,
        Part::Errors => ERRORS_ROWS,
        Part::Caught => CAUGHT_ROWS,
        Part::CaughtDetails => CAUGHT_DETAILS_ROWS,
        Part::Policy => POLICY_ROWS,
        Part::Backoff => BACKOFF_ROWS,
        Part::Limit => LIMIT_ROWS,
        Part::Attempt => ATTEMPT_ROWS,
    }
}

/// The members that a table names, by ascending name.
pub fn rows(table: Table) -> &'static [Row]
    ensures rows { map row_of result.now ≡ rows table }
    ensures ascii { IsTrue (are_ascii result.now) }
{
    match table {
        Table::Top(table) => top_rows(table),
        Table::Task(table) => task_rows(table),
        Table::Part(table) => part_rows(table),
    }
}

/// What may stand beside the members that a table names.
pub fn rest_shape(rest: Rest) -> Shape
    ensures { result ≡ rest_shape rest }
{
    match rest {
        Rest::Unknown => Shape::Refused(FaultKind::UnknownMember),
        Rest::Any => Shape::Any,
        Rest::Template => Shape::Template,
        Rest::Task => Shape::Object(Object::Task),
        Rest::Function => Shape::Object(Object::Function),
        Rest::Case => only(Part::Case),
        Rest::Error => only(Part::Error),
        Rest::Policy => only(Part::Policy),
        Rest::Correlation => only(Part::Correlation),
    }
}

// An object of the members of a table alone.
fn only(part: Part) -> Shape
    ensures { result ≡ only part }
{
    Shape::Object(Object::Of(Table::Part(part), Rest::Unknown))
}
