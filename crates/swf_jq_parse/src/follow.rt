// What may follow an operand.
ghost use Rattle.std.specs.Prelude.{◌≡◌, ◌∷◌, Ok, IfOk};
ghost use Rattle.swf_jq_parse.specs.Machine.{pending_level, pending_right, joined, context, have, suffix, followed, dotted, called_next};
ghost use Rattle.swf_jq_tokens.specs.Gives.{Gives};

use crate::close::close;
use crate::fault::{discard, fail, refuse, refuse_token};
use crate::joint::{Follower, binds, follower_binds, follows, join};
use crate::mode::{Mode, Next};
use crate::operand::{apply_alone, field, operand};
use crate::stack::{Arguments, Item, Opening, Pending, Purpose, Stack, begin, open, top};
use crate::text_part::open_text;
use std::alloc::{AllocError, Global};
use swf_expr::{Expr, Name};
use swf_jq_tokens::{Sign, Token};

/// How tightly what waits binds once it has its right operand, and how tightly this has to. Nothing follows the
/// branches of an `elif` before they are joined.
fn pending_binds(pending: &Pending) -> (u8, u8)
    ensures { result ≡ (pending_level pending.now, pending_right pending.now) }
{
    match pending {
        Pending::Negate => (9, 9),
        Pending::Left(joint, _) => {
            let (level, _, right) = binds(*joint);
            (level, right)
        }
        Pending::Bind(_, _) => (0, 0),
        Pending::Branch(_, _) => (10, 11),
    }
}

/// How tightly what stands in the innermost has to bind.
fn context(stack: &Stack) -> u8
    ensures { result ≡ context stack.now }
{
    match top(stack) {
        Some(Item::Pending(pending)) => pending_binds(pending).1,
        Some(Item::Open(Opening::Value(_, _))) => 2,
        _ => 0,
    }
}

/// What waited, with its right operand.
pub fn join_pending(alloc: Global, pending: Pending, right: Expr) -> Result<Expr, AllocError>
    ensures { IfOk result (λ e. e ≡ joined pending right) }
{
    match pending {
        Pending::Negate => Expr::neg(alloc, right),
        Pending::Left(joint, left) => join(alloc, joint, left, right),
        Pending::Bind(left, name) => Expr::bind(alloc, left, name, right),
        Pending::Branch(condition, then) => Expr::if_else(alloc, condition, then, right),
    }
}

/// Whatever may follow an operand, which is first joined with what takes it before the token.
pub fn have(stack: &mut Stack, of: Expr, at: usize, token: Token) -> Next
    ensures { Gives (λ m. (stack.new, m)) result (have stack.old 10 of at token) }
{
    let mut value = of;
    let mut tight = 10;
    loop {
        match follows(context(stack), &token) {
            Some(follower) if follower_binds(follower).1 <= tight => {
                return followed(stack, follower, value, at, token);
            }
            Some(_) => return refuse((value, token), at),
            None => match stack.pop_front() {
                Some(Item::Pending(pending)) => {
                    tight = pending_binds(&pending).0;
                    value = join_pending(*stack.allocator(), pending, value)?;
                }
                Some(Item::Open(opening)) => return close(stack, opening, value, at, token),
                None => return refuse_token(token, at),
            },
        }
    }
}

/// A token after the operand that it follows.
#[tactic(auto, unfolding(crate::specs::Machine::followed))]
fn followed(stack: &mut Stack, follower: Follower, of: Expr, at: usize, token: Token) -> Next
    ensures { Gives (λ m. (stack.new, m)) result (followed follower stack.old of at token) }
{
    match follower {
        Follower::Suffix => suffix(stack, of, at, token),
        Follower::As => {
            discard(token);
            Ok(Mode::WantVar(of))
        }
        Follower::Joint(joint) => {
            discard(token);
            open(stack, Item::Pending(Pending::Left(joint, of)), Mode::Want)
        }
    }
}

#[tactic(auto, unfolding(crate::specs::Machine::suffix))]
fn suffix(stack: &mut Stack, of: Expr, at: usize, token: Token) -> Next
    ensures { Gives (λ m. (stack.new, m)) result (suffix stack.old of at token) }
{
    match token {
        Token::Dot => Ok(Mode::Dotted(of, false)),
        Token::Field(name) => operand(field(*stack.allocator(), of, name)),
        Token::Sign(Sign::LeftBracket) => open(stack, Item::Open(Opening::Index(of)), Mode::First),
        Token::Sign(Sign::Question) => operand(Expr::maybe(*stack.allocator(), of)),
        other => refuse((of, other), at),
    }
}

/// What may follow an operand and a `.`, or a `.` that is an operand.
#[tactic(auto, unfolding(crate::specs::Machine::dotted))]
pub fn dotted(stack: &mut Stack, of: Expr, alone: bool, at: usize, token: Token) -> Next
    ensures { Gives (λ m. (stack.new, m)) result (dotted stack.old of alone at token) }
{
    match token {
        Token::Text(text) => operand(field(*stack.allocator(), of, text)),
        Token::TextOpen(text) => open_text(stack, Purpose::Index(of), text),
        token if alone => have(stack, of, at, token),
        Token::Sign(Sign::LeftBracket) => open(stack, Item::Open(Opening::Index(of)), Mode::First),
        other => refuse((of, other), at),
    }
}

/// What may follow the name of a built-in.
#[tactic(auto, unfolding(crate::specs::Machine::called_next))]
pub fn called_next(stack: &mut Stack, name: Name, place: usize, at: usize, token: Token) -> Next
    ensures { Gives (λ m. (stack.new, m)) result (called_next stack.old name place at token) }
{
    let alloc = *stack.allocator();
    match token {
        Token::Sign(Sign::LeftParen) => {
            let arguments = Arguments::new(alloc);
            begin(stack, Opening::Arguments(name, place, arguments))
        }
        token => match apply_alone(alloc, name, place) {
            Ok(of) => have(stack, of, at, token),
            Err(fault) => fail(token, fault),
        },
    }
}
