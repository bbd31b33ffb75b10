// The members of an object.
ghost use Rattle.std.specs.Prelude.{◌≡◌, ◌∷◌, ◌++◌, [], IfOk, Ok, false};
ghost use Rattle.swf_jq_parse.specs.Machine.{member, after_key, member_end};
ghost use Rattle.swf_expr.specs.Expr.{lit, var, object_of};
ghost use Rattle.swf_expr.specs.ExprNode.{pairs_of};
ghost use Rattle.swf_value.specs.Value.{text as text_value};
ghost use Rattle.swf_jq_parse.specs.Parts.{with_value, key_alone, key_lit};
ghost use Rattle.swf_jq_parse.specs.declared.mode.Mode.TheVariants as mode;
ghost use Rattle.swf_jq_tokens.specs.Gives.{Gives};

use crate::fault::{fail, refuse};
use crate::mode::{Mode, Next};
use crate::stack::{Members, Opening, Purpose, Stack, begin, with_last};
use crate::text_part::{open_text, text_expr};
use std::alloc::{AllocError, Global};
use swf_expr::{Expr, ExprMember, Name};
use swf_jq_tokens::{Keyword, Sign, Token};
use swf_text::Text;

/// These members and one more, which has a value of its own.
pub fn with_value(members: Members, key: Expr, value: Expr) -> Result<Members, AllocError>
    ensures { IfOk result (λ ms. ms ≡ members ++ with_value key value ∷ []) }
{
    let value = Some(value);
    with_last(members, ExprMember { key, value })
}

/// The object of these members.
pub fn object(alloc: Global, members: Members) -> Next
    ensures { Gives (λ m. m) result (Ok (mode.Have (object_of (pairs_of members)))) }
{
    let members = members.into_iter().collect(alloc)?;
    Ok(Mode::Have(Expr::object_of(alloc, members)?))
}

/// The key that a text is, after these members.
fn key(alloc: Global, members: Members, text: Text, alone: bool) -> Next
    ensures { Gives (λ m. m) result (Ok (mode.AfterKey members (lit (text_value text)) alone)) }
{
    let key = text_expr(alloc, text)?;
    Ok(Mode::AfterKey(members, key, alone))
}

/// The key that a keyword is, after these members.
#[tactic(auto, using(crate::proofs::Parts::keyword_chars))]
fn keyword_key(alloc: Global, members: Members, keyword: Keyword) -> Next
    ensures { Gives (λ m. m) result (Ok (mode.AfterKey members (key_lit keyword) false)) }
{
    let word = Text::copy_of(alloc, keyword.word())?;
    key(alloc, members, word, false)
}

/// These members and the one that a variable is.
fn with_variable(alloc: Global, members: Members, name: Name) -> Next
    ensures { Gives (λ m. m) result (Ok (mode.MemberEnd (members ++ with_value (lit (text_value name)) (var name) ∷ []))) }
{
    let key = text_expr(alloc, name.text().copy()?)?;
    let value = Expr::var(alloc, name)?;
    Ok(Mode::MemberEnd(with_value(members, key, value)?))
}

/// A member after these, or the end where there is none yet.
#[tactic(auto, unfolding(crate::specs::Machine::member))]
pub fn member(stack: &mut Stack, members: Members, first: bool, at: usize, token: Token) -> Next
    ensures { Gives (λ m. (stack.new, m)) result (member stack.old members first at token) }
{
    let alloc = *stack.allocator();
    match token {
        Token::Name(name) => key(alloc, members, name.into_text(), true),
        Token::Keyword(keyword) => keyword_key(alloc, members, keyword),
        Token::Text(text) => key(alloc, members, text, true),
        Token::TextOpen(text) => open_text(stack, Purpose::Key(members), text),
        Token::Var(name) => with_variable(alloc, members, name),
        Token::Sign(Sign::LeftParen) => begin(stack, Opening::Key(members)),
        Token::Sign(Sign::RightBrace) if first => object(alloc, members),
        other => refuse((members, other), at),
    }
}

/// What may follow a member's key.
#[tactic(auto, unfolding(crate::specs::Machine::after_key))]
pub fn after_key(
    stack: &mut Stack,
    members: Members,
    key: Expr,
    alone: bool,
    at: usize,
    token: Token,
) -> Next
    ensures { Gives (λ m. (stack.new, m)) result (after_key stack.old members key alone at token) }
{
    match token {
        Token::Sign(Sign::Colon) => begin(stack, Opening::Value(members, key)),
        token if alone => key_ends(*stack.allocator(), members, key, at, token),
        other => refuse(((members, key), other), at),
    }
}

/// What may follow a key that stands alone.
fn key_ends(alloc: Global, members: Members, key: Expr, at: usize, token: Token) -> Next
    ensures { Gives (λ m. m) result (member_end (members ++ key_alone key ∷ []) at token) }
{
    let value = None;
    match with_last(members, ExprMember { key, value }) {
        Ok(members) => member_end(alloc, members, at, token),
        Err(full) => fail(token, full.into()),
    }
}

/// What may follow a whole member.
#[tactic(auto, unfolding(crate::specs::Machine::member_end))]
pub fn member_end(alloc: Global, members: Members, at: usize, token: Token) -> Next
    ensures { Gives (λ m. m) result (member_end members at token) }
{
    match token {
        Token::Sign(Sign::Comma) => Ok(Mode::Member(members, false)),
        Token::Sign(Sign::RightBrace) => object(alloc, members),
        other => refuse((members, other), at),
    }
}
