// What may stand where an operand is wanted.
ghost use Rattle.std.specs.Prelude.{◌≡◌, [], IfOk, IfErr, Ok, Err};
ghost use Rattle.swf_expr.specs.Expr.{lit, index};
ghost use Rattle.swf_value.specs.Value.{text as text_value};
ghost use Rattle.swf_jq_parse.specs.Machine.{applied, want, want_name, want_keyword, want_sign, first};
ghost use Rattle.swf_jq_parse.specs.Parts.{is_called};
ghost use Rattle.swf_jq_parse.specs.declared.mode.Mode.TheVariants as mode;
ghost use Rattle.swf_jq_tokens.specs.Gives.{Gives};
ghost use Rattle.swf_jq_tokens.specs.declared.fault.ParseFault.TheVariants.{OutOfMemory};

use crate::fault::{ParseFault, fail, refuse, refuse_token};
use crate::mode::{Mode, Next};
use crate::stack::{Arguments, Item, Members, Opening, Pending, Purpose, Stack, begin, open};
use crate::text_part::{open_text, text_expr};
use std::alloc::{AllocError, Global};
use swf_expr::{Builtin, Expr, Name, Op};
use swf_jq_tokens::{Keyword, Sign, Token};
use swf_text::Text;
use swf_value::Json;

/// An operand, or its beginning.
#[tactic(auto, unfolding(crate::specs::Machine::want))]
pub fn want(stack: &mut Stack, at: usize, token: Token) -> Next
    ensures { Gives (λ m. (stack.new, m)) result (want stack.old at token) }
{
    let alloc = *stack.allocator();
    match token {
        Token::Dot => Ok(Mode::Dotted(Expr::here(alloc)?, true)),
        Token::Field(name) => operand(field(alloc, Expr::here(alloc)?, name)),
        Token::Var(name) => operand(Expr::var(alloc, name)),
        Token::Name(name) => want_name(name, at),
        Token::Keyword(keyword) => want_keyword(stack, at, keyword),
        Token::Number(number) => operand(number.into_expr(alloc)),
        Token::Text(text) => operand(text_expr(alloc, text)),
        Token::TextOpen(text) => open_text(stack, Purpose::Operand, text),
        Token::Sign(sign) => want_sign(stack, at, sign),
        other => refuse_token(other, at),
    }
}

/// What was read as an operand.
pub fn operand(of: Result<Expr, AllocError>) -> Next
    ensures read { IfOk of (λ e. result ≡ Ok (mode.Have e)) }
    ensures full { IfErr of (λ f. result ≡ Err OutOfMemory) }
{
    Ok(Mode::Have(of?))
}

/// An operand, indexed by a text.
pub fn field(alloc: Global, of: Expr, name: Text) -> Result<Expr, AllocError>
    ensures { IfOk result (λ e. e ≡ index of (lit (text_value name))) }
{
    let name = text_expr(alloc, name)?;
    Expr::index(alloc, of, name)
}

/// Whether some built-in has this name.
#[tactic(auto, unfolding(crate::specs::Parts::is_called))]
fn is_called(name: &Name) -> bool
    ensures { result ≡ is_called name.now }
{
    let word = name.text().as_str();
    Builtin::find(word, 0).is_some()
        || Builtin::find(word, 1).is_some()
        || Builtin::find(word, 2).is_some()
}

/// The name of a built-in.
#[tactic(auto, unfolding(crate::specs::Machine::want_name))]
fn want_name(name: Name, at: usize) -> Next
    ensures { Gives (λ m. m) result (want_name name at) }
{
    if is_called(&name) {
        Ok(Mode::Called(name, at))
    } else {
        Err(ParseFault::UnknownName { at })
    }
}

#[tactic(auto, unfolding(crate::specs::Machine::want_keyword))]
fn want_keyword(stack: &mut Stack, at: usize, keyword: Keyword) -> Next
    ensures { Gives (λ m. (stack.new, m)) result (want_keyword stack.old at keyword) }
{
    let alloc = *stack.allocator();
    match keyword {
        Keyword::Null => operand(Expr::lit(alloc, Json::null())),
        Keyword::True => operand(Expr::lit(alloc, Json::boolean(true))),
        Keyword::False => operand(Expr::lit(alloc, Json::boolean(false))),
        Keyword::If => begin(stack, Opening::If),
        other => refuse(other, at),
    }
}

#[tactic(auto, unfolding(crate::specs::Machine::want_sign))]
fn want_sign(stack: &mut Stack, at: usize, sign: Sign) -> Next
    ensures { Gives (λ m. (stack.new, m)) result (want_sign stack.old at sign) }
{
    match sign {
        Sign::LeftParen => begin(stack, Opening::Paren),
        Sign::LeftBracket => open(stack, Item::Open(Opening::List), Mode::First),
        Sign::LeftBrace => Ok(Mode::Member(Members::new(*stack.allocator()), true)),
        Sign::Op(Op::Subtract) => open(stack, Item::Pending(Pending::Negate), Mode::Want),
        other => refuse(other, at),
    }
}

/// What begins a list or an index: its end, or an operand.
#[tactic(auto, unfolding(crate::specs::Machine::first, crate::specs::Machine::emptied))]
pub fn first(stack: &mut Stack, at: usize, token: Token) -> Next
    ensures { Gives (λ m. (stack.new, m)) result (first stack.old at token) }
{
    let alloc = *stack.allocator();
    match token {
        Token::Sign(Sign::RightBracket) => match stack.pop_front() {
            Some(Item::Open(Opening::List)) => operand(Expr::empty_list(alloc)),
            Some(Item::Open(Opening::Index(of))) => operand(Expr::iterate(alloc, of)),
            other => refuse(other, at),
        },
        token => want(stack, at, token),
    }
}

/// A name with no arguments.
pub fn apply_alone(alloc: Global, name: Name, at: usize) -> Result<Expr, ParseFault>
    ensures { Gives (λ e. e) result (applied name at []) }
{
    apply_to(alloc, &name, Arguments::new(alloc), at)
}

/// A name with its arguments.
#[tactic(auto, unfolding(crate::specs::Machine::applied, crate::specs::Machine::applied_to))]
pub fn apply_to(
    alloc: Global,
    name: &Name,
    arguments: Arguments,
    at: usize,
) -> Result<Expr, ParseFault>
    ensures { Gives (λ e. e) result (applied name.now at arguments) }
{
    match Builtin::find(name.text().as_str(), arguments.len()) {
        Some(builtin) => {
            let arguments = arguments.into_iter().collect(alloc)?;
            Ok(Expr::apply(alloc, builtin, arguments)?)
        }
        None => fail(arguments, ParseFault::UnknownName { at }),
    }
}
