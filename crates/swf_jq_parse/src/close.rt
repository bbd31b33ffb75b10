// What ends or goes on with something open.
ghost use Rattle.std.specs.Prelude.{◌≡◌, Ok};
ghost use Rattle.swf_jq_parse.specs.Machine.{close, go_on, text_end};
ghost use Rattle.swf_jq_tokens.specs.Gives.{Gives};

use crate::fault::{discard, refuse_token};
use crate::member::{object, with_value};
use crate::mode::{Mode, Next};
use crate::operand::apply_to;
use crate::stack::{Item, Opening, Pending, Purpose, Stack, begin, push, with_last};
use crate::text_part::text_sum;
use std::alloc::Global;
use swf_expr::Expr;
use swf_jq_tokens::{Keyword, Sign, Token};

/// What ends or goes on with something open, after an operand in it.
#[tactic(auto, unfolding(crate::specs::Machine::close))]
pub fn close(stack: &mut Stack, opening: Opening, of: Expr, at: usize, token: Token) -> Next
    ensures { Gives (λ m. (stack.new, m)) result (close opening stack.old of at token) }
{
    let alloc = *stack.allocator();
    match (opening, token) {
        (Opening::Paren, Token::Sign(Sign::RightParen)) => Ok(Mode::Have(of)),
        (Opening::Key(members), Token::Sign(Sign::RightParen)) => {
            Ok(Mode::AfterKey(members, of, false))
        }
        (Opening::Arguments(name, place, arguments), Token::Sign(Sign::RightParen)) => {
            let arguments = with_last(arguments, of)?;
            Ok(Mode::Have(apply_to(alloc, &name, arguments, place)?))
        }
        (Opening::Arguments(name, place, arguments), Token::Sign(Sign::Semicolon)) => {
            let arguments = with_last(arguments, of)?;
            begin(stack, Opening::Arguments(name, place, arguments))
        }
        (Opening::List, Token::Sign(Sign::RightBracket)) => {
            Ok(Mode::Have(Expr::list_of(alloc, of)?))
        }
        (Opening::Index(indexed), Token::Sign(Sign::RightBracket)) => {
            Ok(Mode::Have(Expr::index(alloc, indexed, of)?))
        }
        (Opening::Value(members, key), Token::Sign(Sign::RightBrace)) => {
            object(alloc, with_value(members, key, of)?)
        }
        (Opening::Value(members, key), Token::Sign(Sign::Comma)) => {
            Ok(Mode::Member(with_value(members, key, of)?, false))
        }
        (opening, token) => go_on(stack, opening, of, at, token),
    }
}

/// What ends or goes on with a text or branches.
#[tactic(auto, unfolding(crate::specs::Machine::go_on))]
fn go_on(stack: &mut Stack, opening: Opening, of: Expr, at: usize, token: Token) -> Next
    ensures { Gives (λ m. (stack.new, m)) result (go_on opening stack.old of at token) }
{
    let alloc = *stack.allocator();
    match (opening, token) {
        (Opening::Text(purpose, sum), Token::TextMid(text)) => {
            let sum = text_sum(alloc, sum, of, text)?;
            begin(stack, Opening::Text(purpose, Some(sum)))
        }
        (Opening::Text(purpose, sum), Token::TextClose(text)) => {
            let sum = text_sum(alloc, sum, of, text)?;
            end_text(alloc, purpose, sum)
        }
        (Opening::If, Token::Keyword(Keyword::Then)) => begin(stack, Opening::Then(of)),
        (Opening::Then(condition), Token::Keyword(Keyword::Elif)) => {
            push(stack, Item::Pending(Pending::Branch(condition, of)))?;
            begin(stack, Opening::If)
        }
        (Opening::Then(condition), Token::Keyword(Keyword::Else)) => {
            begin(stack, Opening::Else(condition, of))
        }
        (Opening::Then(condition), Token::Keyword(Keyword::End)) => {
            Ok(Mode::Have(Expr::if_then(alloc, condition, of)?))
        }
        (Opening::Else(condition, then), Token::Keyword(Keyword::End)) => {
            Ok(Mode::Have(Expr::if_else(alloc, condition, then, of)?))
        }
        (opening, token) => {
            discard(opening);
            refuse_token(token, at)
        }
    }
}

/// A text for its purpose.
#[tactic(auto, unfolding(crate::specs::Machine::text_end))]
fn end_text(alloc: Global, purpose: Purpose, text: Expr) -> Next
    ensures { Gives (λ m. m) result (Ok (text_end purpose text)) }
{
    match purpose {
        Purpose::Operand => Ok(Mode::Have(text)),
        Purpose::Index(of) => Ok(Mode::Have(Expr::index(alloc, of, text)?)),
        Purpose::Key(members) => Ok(Mode::AfterKey(members, text, true)),
    }
}
