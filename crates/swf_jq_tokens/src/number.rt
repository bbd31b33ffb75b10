// Numbers that an expression may hold.
ghost use Rattle.std.specs.Prelude.{◌≡◌, ◌-◌, ◌^◌, ◌≤◌, ◌∷◌, min, length, take, true};
ghost use Rattle.std.specs.Str.Parse.{digits_value};
ghost use Rattle.swf_jq_tokens.specs.Lexer.{goes_on, more_digits, number};
ghost use Rattle.swf_jq_tokens.specs.Words.{is_digit};

use crate::token::{Found, Token};
use std::alloc::{AllocError, Global};
use std::marker::Model;
use swf_expr::Expr;
use swf_value::Json;

/// A whole number from 0 to 9007199254740991.
#[derive(Drop)]
pub struct Number(u64);

impl Model for Number {
    ghost use Rattle.std.specs.Prelude.{ℕ, ◌<◌, ◌^◌};

    ghost Value = { ℕ };

    ghost view = { λ n. n.0 };

    ghost invariant = { λ n. n.0 < 2 ^ 53 };
}

impl Number {
    ghost use Rattle.std.specs.Prelude.{◌≡◌, pos, IfOk};
    ghost use Rattle.swf_value.specs.Value.{int};
    ghost use Rattle.swf_expr.specs.Expr.{lit};

    /// The expression that gives it.
    pub fn into_expr(self, alloc: Global) -> Result<Expr, AllocError>
        ensures { IfOk result (λ e. e ≡ lit (int (pos self))) }
    {
        Expr::lit(alloc, Json::int(self.0 as i64))
    }
}

/// `0`, or digits of which the first is not `0`, with how many follow the first.
pub fn read_number(first: char, tail: &[char]) -> Option<Found>
    requires { is_digit first ≡ true }
    ensures { result ≡ number first tail.now }
{
    let (value, count) = digits(first, tail);
    if 9007199254740992 <= value || goes_on(tail.split_at(count).1) {
        return None;
    }
    Some((Token::Number(Number(value)), count))
}

/// What digits come to, or the largest number where that is more, and how many follow the first: after a `0` none.
fn digits(first: char, tail: &[char]) -> (u64, usize)
    requires { is_digit first ≡ true }
    ensures value { result.0 ≡ min (digits_value 10 (first ∷ take result.1 tail.now)) (2 ^ 64 - 1) }
    ensures count { result.1 ≡ more_digits first tail.now }
    ensures within { result.1 ≤ length tail.now }
{
    let mut value = first as u64 - 48;
    let mut count = 0;
    if first == '0' {
        return (value, count);
    }
    for c in tail {
        let Some(digit) = c.to_digit(10) else { break };
        value = value.saturating_mul(10).saturating_add(u64::from(digit));
        count += 1;
    }
    (value, count)
}

/// Whether a fraction or an exponent stands at the front.
fn goes_on(rest: &[char]) -> bool
    ensures { result ≡ goes_on rest.now }
{
    matches!(
        rest,
        ['.' | 'e' | 'E', '0'..='9', ..] | ['e' | 'E', '+' | '-', '0'..='9', ..]
    )
}
