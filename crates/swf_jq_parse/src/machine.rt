// One token after another.
ghost use Rattle.std.specs.Prelude.{◌≡◌, ◌∷◌};
ghost use Rattle.swf_jq_parse.specs.Machine.{step, bound, piped, last_read, finish};
ghost use Rattle.swf_jq_tokens.specs.Gives.{Gives};

use crate::fault::{ParseFault, discard, refuse};
use crate::follow::{called_next, dotted, have, join_pending};
use crate::member::{after_key, member, member_end};
use crate::mode::{Mode, Next};
use crate::operand::{apply_alone, first, want};
use crate::stack::{Item, Pending, Stack, open};
use std::alloc::Global;
use swf_expr::{Expr, Name};
use swf_jq_tokens::{Sign, Token};

/// What may stand after a token.
#[tactic(auto, unfolding(crate::specs::Machine::step))]
pub fn step(stack: &mut Stack, mode: Mode, at: usize, token: Token) -> Next
    ensures { Gives (λ m. (stack.new, m)) result (step stack.old mode at token) }
{
    match mode {
        Mode::Want => want(stack, at, token),
        Mode::First => first(stack, at, token),
        Mode::Have(of) => have(stack, of, at, token),
        Mode::Dotted(of, alone) => dotted(stack, of, alone, at, token),
        Mode::Called(name, place) => called_next(stack, name, place, at, token),
        Mode::Member(members, first) => member(stack, members, first, at, token),
        Mode::AfterKey(members, key, alone) => after_key(stack, members, key, alone, at, token),
        Mode::MemberEnd(members) => member_end(*stack.allocator(), members, at, token),
        Mode::WantVar(of) => bound(of, at, token),
        Mode::WantPipe(of, name) => piped(stack, of, name, at, token),
    }
}

/// The name after an `as`.
#[tactic(auto, unfolding(crate::specs::Machine::bound))]
fn bound(of: Expr, at: usize, token: Token) -> Next
    ensures { Gives (λ m. m) result (bound of at token) }
{
    match token {
        Token::Var(name) => Ok(Mode::WantPipe(of, name)),
        other => refuse(other, at),
    }
}

/// The `|` after an `as` and its name.
#[tactic(auto, unfolding(crate::specs::Machine::piped))]
fn piped(stack: &mut Stack, of: Expr, name: Name, at: usize, token: Token) -> Next
    ensures { Gives (λ m. (stack.new, m)) result (piped stack.old of name at token) }
{
    match token {
        Token::Sign(Sign::Pipe) => {
            open(stack, Item::Pending(Pending::Bind(of, name)), Mode::Want)
        }
        other => refuse(other, at),
    }
}

/// The operand that was read last, if it may be whole: a name with no arguments has to be known.
#[tactic(auto, unfolding(crate::specs::Machine::last_read))]
pub fn last_read(alloc: Global, mode: Mode) -> Result<Option<Expr>, ParseFault>
    ensures { Gives (λ o. o) result (last_read mode) }
{
    match mode {
        Mode::Have(of) => Ok(Some(of)),
        Mode::Dotted(of, true) => Ok(Some(of)),
        Mode::Called(name, place) => { Ok(Some(apply_alone(alloc, name, place)?)) },
        other => {
            discard(other);
            Ok(None)
        }
    }
}

/// The expression, where the text ends and nothing but what waits for its last operand is open.
#[tactic(auto, unfolding(crate::specs::Machine::finish, crate::specs::Machine::whole))]
pub fn finish(stack: &mut Stack, mode: Mode, at: usize) -> Result<Expr, ParseFault>
    ensures { Gives (λ e. e) result (finish stack.old mode at) }
{
    let alloc = *stack.allocator();
    let Some(mut value) = last_read(alloc, mode)? else {
        return Err(ParseFault::Syntax { at });
    };
    while let Some(item) = stack.pop_front() {
        match item {
            Item::Pending(pending) => value = join_pending(alloc, pending, value)?,
            Item::Open(opening) => return refuse(opening, at),
        }
    }
    Ok(value)
}
