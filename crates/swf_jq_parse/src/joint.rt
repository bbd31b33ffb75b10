// What stands between operands, and what may follow one.
ghost use Rattle.std.specs.Prelude.{◌≡◌, IfOk};
ghost use Rattle.swf_jq_parse.specs.Joints.{binds, tree_of, follower_level, follower_left, role, follows};

use std::alloc::{AllocError, Global};
use swf_expr::{Expr, Op};
use swf_jq_tokens::{Keyword, Sign, Token};

/// What stands between two operands.
#[derive(Clone, Copy, Debug, PartialEq, Eq)]
pub enum Joint {
    Pipe,
    Comma,
    /// The `|` in a member's value, where no `,` and no `as` belong to it.
    ValuePipe,
    Alt,
    Or,
    And,
    Op(Op),
}

/// What may follow an operand.
#[derive(Clone, Copy, Debug, PartialEq, Eq)]
pub enum Follower {
    /// What makes a longer term of it.
    Suffix,
    As,
    Joint(Joint),
}

/// How tightly a joint binds, and how tightly its left and its right operand have to. Comparisons do not
/// follow each other.
pub fn binds(joint: Joint) -> (u8, u8, u8)
    ensures { result ≡ binds joint }
{
    match joint {
        Joint::Pipe => (0, 1, 0),
        Joint::Comma => (1, 1, 3),
        Joint::ValuePipe => (2, 3, 2),
        Joint::Alt => (3, 4, 3),
        Joint::Or => (4, 4, 5),
        Joint::And => (5, 5, 6),
        Joint::Op(op) => match op {
            Op::Equal | Op::NotEqual | Op::Less | Op::AtMost | Op::Greater | Op::AtLeast => {
                (6, 7, 7)
            }
            Op::Add | Op::Subtract => (7, 7, 8),
            Op::Multiply | Op::Divide | Op::Modulo => (8, 8, 9),
        },
    }
}

/// Two operands, joined.
pub fn join(alloc: Global, joint: Joint, left: Expr, right: Expr) -> Result<Expr, AllocError>
    ensures { IfOk result (λ e. e ≡ tree_of joint left right) }
{
    match joint {
        Joint::Pipe | Joint::ValuePipe => Expr::pipe(alloc, left, right),
        Joint::Comma => Expr::both(alloc, left, right),
        Joint::Alt => Expr::alt(alloc, left, right),
        Joint::Or => Expr::or(alloc, left, right),
        Joint::And => Expr::and(alloc, left, right),
        Joint::Op(op) => Expr::binary(alloc, op, left, right),
    }
}

/// How tightly what follows an operand binds, and how tightly the operand has to.
pub fn follower_binds(follower: Follower) -> (u8, u8)
    ensures { result ≡ (follower_level follower, follower_left follower) }
{
    match follower {
        Follower::Suffix => (10, 10),
        Follower::As => (0, 10),
        Follower::Joint(joint) => {
            let (level, left, _) = binds(joint);
            (level, left)
        }
    }
}

/// What a token is after an operand, in what binds so tightly.
fn role(context: u8, token: &Token) -> Option<Follower>
    ensures { result ≡ role context token.now }
{
    let joint = match token {
        Token::Dot | Token::Field(_) => return Some(Follower::Suffix),
        Token::Sign(Sign::LeftBracket | Sign::Question) => return Some(Follower::Suffix),
        Token::Keyword(Keyword::As) => return Some(Follower::As),
        Token::Keyword(Keyword::Or) => Joint::Or,
        Token::Keyword(Keyword::And) => Joint::And,
        Token::Sign(Sign::Comma) => Joint::Comma,
        Token::Sign(Sign::Pipe) if context == 2 => Joint::ValuePipe,
        Token::Sign(Sign::Pipe) => Joint::Pipe,
        Token::Sign(Sign::Alternative) => Joint::Alt,
        Token::Sign(Sign::Op(op)) => Joint::Op(*op),
        _ => return None,
    };
    Some(Follower::Joint(joint))
}

/// What a token is after an operand, unless what binds so tightly ends before it.
pub fn follows(context: u8, token: &Token) -> Option<Follower>
    ensures { result ≡ follows context token.now }
{
    match role(context, token) {
        Some(follower) if context <= follower_binds(follower).0 => Some(follower),
        _ => None,
    }
}
