// The built-in functions, one for each name and number of arguments.
ghost use Rattle.std.specs.Prelude.{◌≡◌, IfSome};
ghost use Rattle.swf_expr.specs.Builtin.{arity, builtin_name, builtin_of, first_of};

/// A built-in function.
#[derive(Clone, Copy, Debug, PartialEq, Eq)]
pub enum Builtin {
    Length,
    Keys,
    Has,
    Add,
    Any,
    All,
    AnyOf,
    AllOf,
    Map,
    Select,
    Empty,
    Not,
    Type,
    Error,
    ErrorWith,
    ToString,
    ToJson,
    ToNumber,
    ToEntries,
    FromEntries,
    WithEntries,
    Sort,
    SortBy,
    Unique,
    Min,
    Max,
    Reverse,
    Join,
    Split,
    StartsWith,
    EndsWith,
    AsciiDowncase,
    AsciiUpcase,
    RangeTo,
    RangeFrom,
    First,
    Last,
    FirstOf,
}

/// Each built-in once.
const ALL: [Builtin; 38] = [
    Builtin::Length,
    Builtin::Keys,
    Builtin::Has,
    Builtin::Add,
    Builtin::Any,
    Builtin::All,
    Builtin::AnyOf,
    Builtin::AllOf,
    Builtin::Map,
    Builtin::Select,
    Builtin::Empty,
    Builtin::Not,
    Builtin::Type,
    Builtin::Error,
    Builtin::ErrorWith,
    Builtin::ToString,
    Builtin::ToJson,
    Builtin::ToNumber,
    Builtin::ToEntries,
    Builtin::FromEntries,
    Builtin::WithEntries,
    Builtin::Sort,
    Builtin::SortBy,
    Builtin::Unique,
    Builtin::Min,
    Builtin::Max,
    Builtin::Reverse,
    Builtin::Join,
    Builtin::Split,
    Builtin::StartsWith,
    Builtin::EndsWith,
    Builtin::AsciiDowncase,
    Builtin::AsciiUpcase,
    Builtin::RangeTo,
    Builtin::RangeFrom,
    Builtin::First,
    Builtin::Last,
    Builtin::FirstOf,
];

impl Builtin {
    /// The name that it is called by.
    pub fn name(self) -> &'static str
        ensures { result.now ≡ builtin_name self }
    {
        match self {
            Builtin::Length => "length",
            Builtin::Keys => "keys",
            Builtin::Has => "has",
            Builtin::Add => "add",
            Builtin::Any => "any",
            Builtin::All => "all",
            Builtin::AnyOf => "any",
            Builtin::AllOf => "all",
            Builtin::Map => "map",
            Builtin::Select => "select",
            Builtin::Empty => "empty",
            Builtin::Not => "not",
            Builtin::Type => "type",
            Builtin::Error => "error",
            Builtin::ErrorWith => "error",
            Builtin::ToString => "tostring",
            Builtin::ToJson => "tojson",
            Builtin::ToNumber => "tonumber",
            Builtin::ToEntries => "to_entries",
            Builtin::FromEntries => "from_entries",
            Builtin::WithEntries => "with_entries",
            Builtin::Sort => "sort",
            Builtin::SortBy => "sort_by",
            Builtin::Unique => "unique",
            Builtin::Min => "min",
            Builtin::Max => "max",
            Builtin::Reverse => "reverse",
            Builtin::Join => "join",
            Builtin::Split => "split",
            Builtin::StartsWith => "startswith",
            Builtin::EndsWith => "endswith",
            Builtin::AsciiDowncase => "ascii_downcase",
            Builtin::AsciiUpcase => "ascii_upcase",
            Builtin::RangeTo => "range",
            Builtin::RangeFrom => "range",
            Builtin::First => "first",
            Builtin::Last => "last",
            Builtin::FirstOf => "first",
        }
    }

    /// How many arguments it has.
    pub fn arity(self) -> usize
        ensures { result ≡ arity self }
    {
        match self {
            Builtin::RangeFrom => 2,
            Builtin::Has
            | Builtin::AnyOf
            | Builtin::AllOf
            | Builtin::Map
            | Builtin::Select
            | Builtin::ErrorWith
            | Builtin::WithEntries
            | Builtin::SortBy
            | Builtin::Join
            | Builtin::Split
            | Builtin::StartsWith
            | Builtin::EndsWith
            | Builtin::RangeTo
            | Builtin::FirstOf => 1,
            Builtin::Length
            | Builtin::Keys
            | Builtin::Add
            | Builtin::Any
            | Builtin::All
            | Builtin::Empty
            | Builtin::Not
            | Builtin::Type
            | Builtin::Error
            | Builtin::ToString
            | Builtin::ToJson
            | Builtin::ToNumber
            | Builtin::ToEntries
            | Builtin::FromEntries
            | Builtin::Sort
            | Builtin::Unique
            | Builtin::Min
            | Builtin::Max
            | Builtin::Reverse
            | Builtin::AsciiDowncase
            | Builtin::AsciiUpcase
            | Builtin::First
            | Builtin::Last => 0,
        }
    }

    /// The built-in of this name and number of arguments.
    pub fn find(name: &str, arguments: usize) -> Option<Builtin>
        ensures value { result ≡ builtin_of name.now arguments }
        ensures arity { IfSome result (λ b. arity b ≡ arguments) }
    {
        find_in(&ALL, name, arguments)
    }
}

/// The first of these built-ins with this name and number of arguments.
fn find_in(all: &[Builtin], name: &str, arguments: usize) -> Option<Builtin>
    ensures value { result ≡ first_of all.now name.now arguments }
    ensures arity { IfSome result (λ b. arity b ≡ arguments) }
{
    for builtin in all {
        if builtin.arity() == arguments && builtin.name() == name {
            return Some(*builtin);
        }
    }
    None
}
