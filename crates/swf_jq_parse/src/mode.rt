// What may stand next.
use crate::fault::ParseFault;
use crate::stack::Members;
use swf_expr::{Expr, Name};

/// What may stand next, beside what is open.
#[derive(Drop)]
pub enum Mode {
    /// An operand.
    Want,
    /// The end of the list or index that was just opened, or an operand.
    First,
    /// Whatever may follow this operand.
    Have(Expr),
    /// A text or a `[`, behind this and a `.`, or whatever may follow where the `.` is the operand.
    Dotted(Expr, bool),
    /// The arguments of a name at a place, or what may follow it.
    Called(Name, usize),
    /// A member after these, or the end where there is none yet.
    Member(Members, bool),
    /// A `:` after a member's key, or the member's end where the key may stand alone.
    AfterKey(Members, Expr, bool),
    /// A `,` or the end, after these members.
    MemberEnd(Members),
    /// The name for this.
    WantVar(Expr),
    /// The `|` after the name for this.
    WantPipe(Expr, Name),
}

/// What may stand next, or the fault of a token.
pub type Next = Result<Mode, ParseFault>;
