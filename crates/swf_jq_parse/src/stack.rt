// What is open at a place of the text.
ghost use Rattle.std.specs.Prelude.{◌≡◌, ◌∷◌, ◌++◌, [], IfOk, OnOk, option_map};
ghost use Rattle.swf_jq_parse.specs.Machine.{opened, put};
ghost use Rattle.swf_jq_parse.specs.Parts.{innermost};
ghost use Rattle.swf_jq_tokens.specs.Gives.{Gives};

use crate::joint::Joint;
use crate::mode::{Mode, Next};
use std::alloc::AllocError;
use std::collections::LinkedList;
use swf_expr::{Expr, ExprMember, Name};

/// All that is open, the innermost first.
pub type Stack = LinkedList<Item>;

/// The members of an object so far.
pub type Members = LinkedList<ExprMember>;

/// The arguments of a built-in so far.
pub type Arguments = LinkedList<Expr>;

/// What waits for its right operand.
#[derive(Drop)]
pub enum Pending {
    Negate,
    /// An operand and what joins it to the next.
    Left(Joint, Expr),
    /// What a name stands for, up to the `|`.
    Bind(Expr, Name),
    /// A condition and what follows if it is true, before an `elif`.
    Branch(Expr, Expr),
}

/// What a text with `\(` is to be.
#[derive(Drop)]
pub enum Purpose {
    Operand,
    /// The key by which this is indexed.
    Index(Expr),
    /// The key of a member, after these members.
    Key(Members),
}

/// Something that a token ends.
#[derive(Drop)]
pub enum Opening {
    /// `(`
    Paren,
    /// `[` of a list.
    List,
    /// `[` behind this.
    Index(Expr),
    /// A text, with the sum of its pieces so far.
    Text(Purpose, Option<Expr>),
    /// `(` of a member's key, after these members.
    Key(Members),
    /// `:` after a member's key, after these members.
    Value(Members, Expr),
    /// `if` or `elif`.
    If,
    /// `then`, with the condition.
    Then(Expr),
    /// `else`, with the condition and what follows if it is true.
    Else(Expr, Expr),
    /// The arguments so far of the name at a place.
    Arguments(Name, usize, Arguments),
}

/// Something open.
#[derive(Drop)]
pub enum Item {
    Pending(Pending),
    Open(Opening),
}

/// The innermost.
pub fn top(stack: &Stack) -> Option<&Item>
    ensures { option_map (λ x. x.now) result ≡ innermost stack.now }
{
    stack.front()
}

/// Something is opened.
pub fn push(stack: &mut Stack, item: Item) -> Result<(), AllocError>
    ensures { OnOk result (stack.new ≡ item ∷ stack.old) }
{
    stack.push_front(item)?;
    Ok(())
}

/// Something is opened, and this may stand next.
pub fn open(stack: &mut Stack, item: Item, next: Mode) -> Next
    ensures { Gives (λ m. (stack.new, m)) result (put item next stack.old) }
{
    push(stack, item)?;
    Ok(next)
}

/// Something is opened, in which an operand is wanted.
pub fn begin(stack: &mut Stack, opening: Opening) -> Next
    ensures { Gives (λ m. (stack.new, m)) result (opened opening stack.old) }
{
    open(stack, Item::Open(opening), Mode::Want)
}

/// A row with one more at its end.
pub fn with_last<T: Drop>(mut row: LinkedList<T>, last: T) -> Result<LinkedList<T>, AllocError>
    ensures { IfOk result (λ r. r ≡ row ++ last ∷ []) }
{
    row.push_back(last)?;
    Ok(row)
}
