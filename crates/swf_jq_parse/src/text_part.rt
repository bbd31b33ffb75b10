// Texts with `\(`, piece by piece.
ghost use Rattle.std.specs.Prelude.{◌≡◌, IfOk};
ghost use Rattle.swf_expr.specs.Expr.{lit};
ghost use Rattle.swf_value.specs.Value.{text as text_value};
ghost use Rattle.swf_jq_parse.specs.Machine.{opened};
ghost use Rattle.swf_jq_parse.specs.Parts.{first_text, plus, text_sum};
ghost use Rattle.swf_jq_parse.specs.declared.stack.Opening.TheVariants as opening;
ghost use Rattle.swf_jq_tokens.specs.Gives.{Gives};

use crate::mode::Next;
use crate::stack::{Opening, Purpose, Stack, begin};
use std::alloc::{AllocError, Global};
use swf_expr::{Builtin, Expr, Op};
use swf_text::Text;
use swf_value::Json;

/// The expression that gives a text.
pub fn text_expr(alloc: Global, text: Text) -> Result<Expr, AllocError>
    ensures { IfOk result (λ e. e ≡ lit (text_value text)) }
{
    Expr::lit(alloc, Json::text(text))
}

/// The first piece, where it is not empty.
#[tactic(auto, unfolding(crate::specs::Parts::first_text))]
pub fn first_piece(alloc: Global, text: Text) -> Result<Option<Expr>, AllocError>
    ensures { IfOk result (λ o. o ≡ first_text text) }
{
    if text.as_str().is_empty() {
        Ok(None)
    } else {
        Ok(Some(text_expr(alloc, text)?))
    }
}

/// A text is opened with its first piece.
pub fn open_text(stack: &mut Stack, purpose: Purpose, text: Text) -> Next
    ensures { Gives (λ m. (stack.new, m)) result (opened (opening.Text purpose (first_text text)) stack.old) }
{
    let first = first_piece(*stack.allocator(), text)?;
    begin(stack, Opening::Text(purpose, first))
}

/// The sum so far, and one more piece.
fn plus(alloc: Global, sum: Option<Expr>, piece: Expr) -> Result<Expr, AllocError>
    ensures { IfOk result (λ e. e ≡ plus sum piece) }
{
    match sum {
        Some(sum) => Expr::binary(alloc, Op::Add, sum, piece),
        None => Ok(piece),
    }
}

/// The sum so far, what stood in a `\(` and its `)`, and the text after it, where that is not empty.
#[tactic(auto, unfolding(crate::specs::Parts::plus_text))]
pub fn text_sum(
    alloc: Global,
    sum: Option<Expr>,
    inner: Expr,
    text: Text,
) -> Result<Expr, AllocError>
    ensures { IfOk result (λ e. e ≡ text_sum sum inner text) }
{
    let to_string = Expr::apply(alloc, Builtin::ToString, Vec::new(alloc))?;
    let piece = Expr::pipe(alloc, inner, to_string)?;
    let sum = plus(alloc, sum, piece)?;
    match first_piece(alloc, text)? {
        Some(text) => Expr::binary(alloc, Op::Add, sum, text),
        None => Ok(sum),
    }
}
