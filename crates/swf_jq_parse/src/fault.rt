// Faults, and letting go of what cannot stand.
ghost use Rattle.std.specs.Prelude.{◌≡◌};
ghost use Rattle.swf_jq_parse.specs.Machine.{wrong_place};
ghost use Rattle.swf_jq_tokens.specs.declared.fault.ParseFault.TheVariants.{Syntax};

pub use swf_jq_tokens::ParseFault;
use swf_jq_tokens::Token;

/// What cannot stand at a place is let go.
pub fn refuse<T: Drop, R>(_value: T, at: usize) -> Result<R, ParseFault>
    ensures { result ≡ Err (Syntax at) }
{
    Err(ParseFault::Syntax { at })
}

/// A token cannot stand at a place. Of two points the second is wrong.
pub fn refuse_token<R>(token: Token, at: usize) -> Result<R, ParseFault>
    ensures { result ≡ Err (Syntax (wrong_place at token)) }
{
    match token {
        Token::Dots => Err(ParseFault::Syntax {
            at: at.saturating_add(1),
        }),
        other => refuse(other, at),
    }
}

/// A value is let go, beside a fault.
pub fn fail<T: Drop, R>(_value: T, fault: ParseFault) -> Result<R, ParseFault>
    ensures { result ≡ Err fault }
{
    Err(fault)
}

/// A value is let go.
pub fn discard<T: Drop>(_value: T) {}
