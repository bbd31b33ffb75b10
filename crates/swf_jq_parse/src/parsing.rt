// Reading a text as an expression.
ghost use Rattle.std.specs.Prelude.{[], IfOk, IfErr};
ghost use Rattle.std.specs.Str.{chars};
ghost use Rattle.swf_jq_parse.specs.ExpressionText.{IsTextOf, IsRefused};
ghost use Rattle.swf_jq_tokens.specs.Gives.{Gives};
ghost use Rattle.swf_jq_parse.specs.Machine.{run};
ghost use Rattle.swf_jq_parse.specs.Parse.{parse_of};
ghost use Rattle.swf_jq_parse.specs.declared.mode.Mode.TheVariants as mode;

use crate::fault::{ParseFault, fail};
use crate::machine::{finish, last_read, step};
use crate::mode::Mode;
use crate::stack::Stack;
use std::alloc::Global;
use swf_expr::Expr;
use swf_jq_tokens::{End, Token, lex};

/// How many bytes an expression may have.
const LONGEST: usize = 4096;

/// The expression that a text is, or the first fault in it. A text is read exactly where it has at most
/// 4,096 bytes, is tokens to its end, and the grammar makes an expression of them.
pub fn parse(alloc: Global, text: &str) -> Result<Expr, ParseFault>
    ensures meaning { Gives (λ e. e) result (parse_of (chars text.now)) }
    ensures read { IfOk result (λ e. IsTextOf (chars text.now) e) }
    ensures refused { IfErr result (λ f. IsRefused (chars text.now) f) }
{
    if text.len() > LONGEST {
        return Err(ParseFault::TooLong);
    }
    let characters: Vec<char> = text.chars().collect(alloc)?;
    let (tokens, end) = lex(alloc, characters.as_slice())?;
    run(alloc, tokens, end)
}

/// The expression that tokens with their places are.
fn run(alloc: Global, tokens: Vec<(usize, Token)>, end: End) -> Result<Expr, ParseFault>
    ensures { Gives (λ e. e) result (run [] mode.Want tokens.items end) }
{
    let mut stack = Stack::new(alloc);
    let mut mode = Mode::Want;
    for (at, token) in tokens {
        mode = step(&mut stack, mode, at, token)?;
    }
    ended(&mut stack, mode, end)
}

/// The expression, where the tokens end. Where a fault ends them, that of the name before it goes first.
#[tactic(auto, using(crate::proofs::Reading::fails_first), unfolding(crate::specs::Machine::run))]
fn ended(stack: &mut Stack, mode: Mode, end: End) -> Result<Expr, ParseFault>
    ensures { Gives (λ e. e) result (run stack.old mode [] end) }
{
    match end {
        End::At(at) => finish(stack, mode, at),
        End::Fault(fault) => fail(last_read(*stack.allocator(), mode)?, fault),
    }
}
