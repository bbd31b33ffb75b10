// What the members of an object are judged by, and how a task is told by its keyword.
ghost use Rattle.std.specs.Prelude.{◌≡◌, IsTrue, Option, map, option_map, is_some, Some, None, codes};
ghost use Rattle.std.specs.List.{list_all};
ghost use Rattle.swf_text.specs.Same.{same, is_ascii};
ghost use Rattle.swf_value.specs.Value.{object};
ghost use Rattle.swf_value.specs.Members.{at, member_at};
ghost use Rattle.swf_value.specs.Node.{members_of};
ghost use Rattle.swf_shapes.specs.Layout.{has, keywords, keyword_in, keyword_of, seen_more, seen_in, callee_task, call_task, keyword_task, plain, closed, wrong, shared_table, caught_table, task_layout, single, to_layout, object_layout, row_shape, first_shape, shape_at};
ghost use Rattle.swf_shapes.specs.declared.layout.Seen.TheVariants.{Nothing};
ghost use Rattle.swf_shapes.specs.Row.{row_of, are_ascii, keyword_row};

use crate::rows::{Row, rest_shape, rows};
use crate::shape::{Object, Part, Rest, Shape, Table, Task, Top};
use swf_document::FaultKind;
use swf_text::{Text, is_word};
use swf_value::{Json, JsonNode, Member};

/// What the members of an object are judged by.
#[derive(Clone, Copy)]
pub struct Layout {
    /// The object's own fault.
    pub fault: Option<FaultKind>,
    /// The members that it may have, and those that it shares with others.
    pub table: Table,
    pub shared: Table,
    /// What may stand beside them.
    pub rest: Rest,
    /// Whether a function is around its members.
    pub inside: bool,
}

/// A keyword of a task.
#[derive(Clone, Copy)]
pub enum Keyword {
    Call,
    Of(Task),
}

/// The keywords that were seen.
#[derive(Clone, Copy)]
pub enum Seen {
    Nothing,
    One(Keyword),
    Several,
}

/// A keyword by its word.
#[derive(Clone, Copy)]
pub struct Word {
    pub word: &'static str,
    pub keyword: Keyword,
}

macro_rules! word {
    ($word:expr, $task:expr) => {
        Word {
            word: $word,
            keyword: Keyword::Of($task),
        }
    };
}

const KEYWORDS: &[Word] = &[
    Word {
        word: "call",
        keyword: Keyword::Call,
    },
    word!("do", Task::Do),
    word!("emit", Task::Emit),
    word!("for", Task::For),
    word!("fork", Task::Fork),
    word!("listen", Task::Listen),
    word!("raise", Task::Raise),
    word!("run", Task::Run),
    word!("set", Task::Set),
    word!("switch", Task::Switch),
    word!("try", Task::Try),
    word!("wait", Task::Wait),
];

/// The member of an object under a name that is an ASCII word.
pub fn field<'a>(value: &'a Json, name: &str) -> Option<&'a Json>
    requires { IsTrue (is_ascii name.now) }
    ensures { option_map (λ v. v.now) result ≡ member_at name.now value.now }
{
    value.member(name)
}

/// Whether an object has a member of the name.
pub fn has(value: &Json, name: &str) -> bool
    requires { IsTrue (is_ascii name.now) }
    ensures { result ≡ is_some (member_at name.now value.now) }
{
    field(value, name).is_some()
}

fn keyword_in(words: &[Word], name: &Text) -> Option<Keyword>
    requires { IsTrue (list_all (λ w. is_ascii w.word.now) words.now) }
    ensures { result ≡ keyword_in (map keyword_row words.now) name.now }
{
    for word in words {
        if is_word(name, word.word) {
            return Some(word.keyword);
        }
    }
    None
}

/// The keyword that a member is; `do` beside `for` belongs to it.
fn keyword_of(beside_for: bool, name: &Text) -> Option<Keyword>
    ensures { result ≡ keyword_of beside_for name.now }
{
    if beside_for && is_word(name, "do") {
        None
    } else {
        keyword_in(KEYWORDS, name)
    }
}

fn seen_more(seen: Seen, keyword: Option<Keyword>) -> Seen
    ensures { result ≡ seen_more seen keyword }
{
    match keyword {
        None => seen,
        Some(keyword) => match seen {
            Seen::Nothing => Seen::One(keyword),
            Seen::One(_) | Seen::Several => Seen::Several,
        },
    }
}

pub fn seen_in(beside_for: bool, members: &[Member]) -> Seen
    ensures { result ≡ seen_in beside_for Nothing (members_of members.now) }
{
    let mut seen = Seen::Nothing;
    for member in members {
        seen = seen_more(seen, keyword_of(beside_for, &member.name));
    }
    seen
}

/// What a task calls: a function, unless it is one of the calls of the DSL.
fn callee_task(text: &Text) -> Task
    ensures { result ≡ callee_task text.now }
{
    if is_word(text, "http") {
        Task::HttpCall
    } else if is_word(text, "asyncapi") || is_word(text, "grpc") || is_word(text, "openapi") {
        Task::OtherCall
    } else {
        Task::FunctionCall
    }
}

fn call_task(value: &Json) -> Task
    ensures { result ≡ call_task (Some value.now) }
{
    match value.node() {
        JsonNode::Text(text) => callee_task(text),
        JsonNode::Null
        | JsonNode::Bool(_)
        | JsonNode::Int(_)
        | JsonNode::List(_)
        | JsonNode::Object(_) => Task::OtherCall,
    }
}

pub fn keyword_task(keyword: Keyword, value: &Json, members: &[Member]) -> Task
    requires { value.now ≡ object (members_of members.now) }
    ensures { result ≡ keyword_task keyword (members_of members.now) }
{
    match keyword {
        Keyword::Call => match field(value, "call") {
            Some(callee) => call_task(callee),
            None => Task::OtherCall,
        },
        Keyword::Of(task) => task,
    }
}

/// The members of a table, and what else may stand beside them.
pub fn plain(inside: bool, table: Table, rest: Rest) -> Layout
    ensures { result ≡ plain inside table rest }
{
    Layout {
        fault: None,
        table,
        shared: Table::Top(Top::Empty),
        rest,
        inside,
    }
}

/// A value in which nothing is looked at.
pub fn closed(inside: bool, fault: Option<FaultKind>) -> Layout
    ensures { result ≡ closed inside fault }
{
    Layout {
        fault,
        table: Table::Top(Top::Empty),
        shared: Table::Top(Top::Empty),
        rest: Rest::Any,
        inside,
    }
}

fn wrong(inside: bool) -> Layout
    ensures { result ≡ wrong inside }
{
    closed(inside, Some(FaultKind::WrongKind))
}

fn shared_table(inside: bool) -> Table
    ensures { result ≡ shared_table inside }
{
    if inside {
        Table::Top(Top::FunctionCommon)
    } else {
        Table::Top(Top::Common)
    }
}

fn task_layout(inside: bool, value: &Json, members: &[Member]) -> Layout
    requires { value.now ≡ object (members_of members.now) }
    ensures { result ≡ task_layout inside (seen_in (is_some (member_at (codes "for") value.now)) Nothing (members_of members.now)) (members_of members.now) }
{
    match seen_in(has(value, "for"), members) {
        Seen::One(keyword) => Layout {
            fault: None,
            table: Table::Task(keyword_task(keyword, value, members)),
            shared: shared_table(inside),
            rest: Rest::Unknown,
            inside,
        },
        Seen::Nothing | Seen::Several => wrong(inside),
    }
}

fn is_single(members: &[Member]) -> bool
    ensures { result ≡ single (members_of members.now) }
{
    members.len() == 1
}

fn to_layout(inside: bool, all: bool, any: bool, one: bool) -> Layout
    ensures { result ≡ to_layout inside all any one }
{
    let table = Table::Part(Part::To);
    match (all, any, one) {
        (false, false, false) => Layout {
            fault: Some(FaultKind::Missing),
            table,
            shared: Table::Top(Top::Empty),
            rest: Rest::Unknown,
            inside,
        },
        (true, false, false) | (false, true, false) | (false, false, true) => {
            plain(inside, table, Rest::Unknown)
        }
        _ => wrong(inside),
    }
}

fn caught_table(detail: bool) -> Table
    ensures { result ≡ caught_table detail }
{
    if detail {
        Table::Part(Part::Caught)
    } else {
        Table::Part(Part::CaughtDetails)
    }
}

/// How the members of an object are judged, inside a function or not.
pub fn object_layout(inside: bool, shape: Object, value: &Json, members: &[Member]) -> Layout
    requires { value.now ≡ object (members_of members.now) }
    ensures { result ≡ object_layout inside shape (members_of members.now) }
{
    match shape {
        Object::Of(table, rest) => plain(inside, table, rest),
        Object::Single(table, rest) => {
            if is_single(members) {
                plain(inside, table, rest)
            } else {
                wrong(inside)
            }
        }
        Object::Task => task_layout(inside, value, members),
        Object::Function => task_layout(true, value, members),
        Object::To => to_layout(
            inside,
            has(value, "all"),
            has(value, "any"),
            has(value, "one"),
        ),
        Object::Caught => plain(inside, caught_table(has(value, "detail")), Rest::Unknown),
    }
}

fn row_shape(rows: &[Row], name: &Text) -> Option<Shape>
    requires { IsTrue (are_ascii rows.now) }
    ensures { result ≡ row_shape (map row_of rows.now) name.now }
{
    for row in rows {
        if is_word(name, row.name) {
            return Some(row.shape);
        }
    }
    None
}

/// What a member of the name may be.
pub fn shape_at(layout: &Layout, name: &Text) -> Shape
    ensures { result ≡ shape_at layout.now name.now }
{
    if let Some(shape) = row_shape(rows(layout.table), name) {
        return shape;
    }
    if let Some(shape) = row_shape(rows(layout.shared), name) {
        return shape;
    }
    rest_shape(layout.rest)
}
