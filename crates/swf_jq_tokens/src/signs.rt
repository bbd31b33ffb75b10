// Tokens of signs.
ghost use Rattle.std.specs.Prelude.{◌≡◌};
ghost use Rattle.swf_jq_tokens.specs.Lexer.{sign_at};

use crate::token::{Found, Sign, Token};
use swf_expr::Op;

/// A sign, of two characters where they are one, with how many follow the first.
#[tactic(auto, unfolding(crate::specs::Lexer::sign_at))]
pub fn sign_at(first: char, tail: &[char]) -> Option<Found>
    ensures { result ≡ sign_at first tail.now }
{
    match (first, tail) {
        ('/', ['/', ..]) => Some((Token::Sign(Sign::Alternative), 1)),
        ('=', ['=', ..]) => Some((Token::Sign(Sign::Op(Op::Equal)), 1)),
        ('!', ['=', ..]) => Some((Token::Sign(Sign::Op(Op::NotEqual)), 1)),
        ('<', ['=', ..]) => Some((Token::Sign(Sign::Op(Op::AtMost)), 1)),
        ('>', ['=', ..]) => Some((Token::Sign(Sign::Op(Op::AtLeast)), 1)),
        ('(', _) => Some((Token::Sign(Sign::LeftParen), 0)),
        (')', _) => Some((Token::Sign(Sign::RightParen), 0)),
        ('[', _) => Some((Token::Sign(Sign::LeftBracket), 0)),
        (']', _) => Some((Token::Sign(Sign::RightBracket), 0)),
        ('{', _) => Some((Token::Sign(Sign::LeftBrace), 0)),
        ('}', _) => Some((Token::Sign(Sign::RightBrace), 0)),
        (',', _) => Some((Token::Sign(Sign::Comma), 0)),
        ('|', _) => Some((Token::Sign(Sign::Pipe), 0)),
        (';', _) => Some((Token::Sign(Sign::Semicolon), 0)),
        (':', _) => Some((Token::Sign(Sign::Colon), 0)),
        ('?', _) => Some((Token::Sign(Sign::Question), 0)),
        ('<', _) => Some((Token::Sign(Sign::Op(Op::Less)), 0)),
        ('>', _) => Some((Token::Sign(Sign::Op(Op::Greater)), 0)),
        ('+', _) => Some((Token::Sign(Sign::Op(Op::Add)), 0)),
        ('-', _) => Some((Token::Sign(Sign::Op(Op::Subtract)), 0)),
        ('*', _) => Some((Token::Sign(Sign::Op(Op::Multiply)), 0)),
        ('/', _) => Some((Token::Sign(Sign::Op(Op::Divide)), 0)),
        ('%', _) => Some((Token::Sign(Sign::Op(Op::Modulo)), 0)),
        _ => None,
    }
}
