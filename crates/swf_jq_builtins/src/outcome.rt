// What an operator or a built-in gives.
ghost use Rattle.std.specs.Prelude.{◌≡◌, IfOk, IsTrue, Ok, Err};
ghost use Rattle.swf_text.specs.Same.{is_ascii};
ghost use Rattle.swf_value.specs.Value.{boolean, text};
ghost use Rattle.swf_evaluation.specs.Builtins.{cannot};
ghost use Rattle.swf_evaluation.specs.Operations.{fails, whole};
ghost use Rattle.swf_jq_builtins.specs.Outcome.{outcome_of};

use std::alloc::{AllocError, Global};
use swf_expr::Builtin;
use swf_text::{Text, TextBuilder};
use swf_value::Json;

/// A value, or the value of an error.
#[derive(Drop)]
pub enum Outcome {
    Value(Json),
    Raised(Json),
}

/// Several values, or the value of an error.
#[derive(Drop)]
pub enum Several {
    Values(Vec<Json>),
    Raised(Json),
}

/// The greatest whole number.
const GREATEST: i128 = 9007199254740991;

/// An error whose value is an ASCII text.
pub fn fails(alloc: Global, message: &str) -> Result<Outcome, AllocError>
    requires { IsTrue (is_ascii message.now) }
    ensures { IfOk result (λ o. outcome_of o ≡ fails message.now) }
{
    Ok(Outcome::Raised(error(alloc, message)?))
}

/// The value of an error whose value is an ASCII text.
pub fn error(alloc: Global, message: &str) -> Result<Json, AllocError>
    requires { IsTrue (is_ascii message.now) }
    ensures { IfOk result (λ v. v ≡ text message.now) }
{
    let text = swf_text::word(alloc, message)?;
    Ok(Json::text(text))
}

/// A number, or an error where it is out of range.
pub fn whole(alloc: Global, value: i128) -> Result<Outcome, AllocError>
    ensures { IfOk result (λ o. outcome_of o ≡ whole value) }
{
    if -GREATEST <= value && value <= GREATEST {
        Ok(Outcome::Value(Json::int(value as i64)))
    } else {
        fails(alloc, "out of range")
    }
}

/// A Boolean.
pub fn truth(value: bool) -> Outcome
    ensures { outcome_of result ≡ Ok (boolean value) }
{
    Outcome::Value(Json::boolean(value))
}

/// A text.
pub fn text(value: Text) -> Outcome
    ensures { outcome_of result ≡ Ok (text value) }
{
    Outcome::Value(Json::text(value))
}

/// The error of a value that a built-in doesn't take.
pub fn cannot(alloc: Global, builtin: Builtin) -> Result<Outcome, AllocError>
    ensures { IfOk result (λ o. outcome_of o ≡ cannot builtin) }
{
    let mut message = TextBuilder::new(alloc);
    message.push_ascii("cannot ")?;
    message.push_ascii(builtin.name())?;
    Ok(Outcome::Raised(Json::text(message.into_text(alloc)?)))
}

/// The same values once more.
pub fn copies(alloc: Global, values: &[Json]) -> Result<Vec<Json>, AllocError>
    ensures { IfOk result (λ v. v.items ≡ values.now) }
{
    values.to_vec(alloc)
}
