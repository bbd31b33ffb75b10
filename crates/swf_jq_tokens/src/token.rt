// The tokens of an expression's text.
ghost use Rattle.std.specs.Prelude.{◌≡◌};
ghost use Rattle.swf_jq_tokens.specs.Words.{keyword_text};

use crate::number::Number;
use swf_expr::{Name, Op};
use swf_text::Text;

/// A token.
#[derive(Drop)]
pub enum Token {
    /// A `.` that no name follows at once.
    Dot,
    /// A `.` that another `.` follows at once.
    Dots,
    /// A `.` and a word.
    Field(Text),
    /// A `$` and a name.
    Var(Name),
    Name(Name),
    Keyword(Keyword),
    Number(Number),
    /// A whole text.
    Text(Text),
    /// A text from its start to a `\(`.
    TextOpen(Text),
    /// A text from the `)` of one `\(` to the next `\(`.
    TextMid(Text),
    /// A text from the `)` of a `\(` to its end.
    TextClose(Text),
    Sign(Sign),
}

/// A token, and how many characters it has after its first.
pub type Found = (Token, usize);

/// A word that is no name.
#[derive(Clone, Copy, Debug, PartialEq, Eq)]
pub enum Keyword {
    As,
    Or,
    And,
    If,
    Then,
    Elif,
    Else,
    End,
    Null,
    True,
    False,
}

/// A token of signs.
#[derive(Clone, Copy, Debug, PartialEq, Eq)]
pub enum Sign {
    LeftParen,
    RightParen,
    LeftBracket,
    RightBracket,
    LeftBrace,
    RightBrace,
    Comma,
    Pipe,
    Semicolon,
    Colon,
    Question,
    /// `//`
    Alternative,
    Op(Op),
}

impl Keyword {
    /// The word.
    pub fn word(self) -> &'static str
        ensures { result.now ≡ keyword_text self }
    {
        match self {
            Keyword::As => "as",
            Keyword::Or => "or",
            Keyword::And => "and",
            Keyword::If => "if",
            Keyword::Then => "then",
            Keyword::Elif => "elif",
            Keyword::Else => "else",
            Keyword::End => "end",
            Keyword::Null => "null",
            Keyword::True => "true",
            Keyword::False => "false",
        }
    }
}
