// Texts that other grammars read: expressions, versions and durations.
ghost use Rattle.std.specs.Prelude.{◌≡◌, IfOk, is_ok};
ghost use Rattle.semver.specs.Parse.{version_parts};
ghost use Rattle.swf_forms.specs.Expression.{expression_of, parses, is_version, is_duration};

use semver::{Error, Version};
use std::alloc::{AllocError, Global};
use swf_duration::{DurationFault, read_duration};
use swf_expr::Expr;
use swf_jq_parse::{ParseFault, parse};
use swf_text::{Text, TextBuilder};
use swf_value::Json;

/// The text of these characters.
fn text_of(alloc: Global, characters: &[char]) -> Result<Text, AllocError>
    ensures { IfOk result (λ t. t ≡ characters.now) }
{
    let mut text = TextBuilder::new(alloc);
    for character in characters {
        text.push(*character)?;
    }
    text.into_text(alloc)
}

/// The expression that characters are, if they are one.
#[tactic(auto, unfolding(crate::specs::Expression::expression_of))]
pub fn expression_of(alloc: Global, characters: &[char]) -> Result<Option<Expr>, AllocError>
    ensures { IfOk result (λ e. e ≡ expression_of characters.now) }
{
    let text = text_of(alloc, characters)?;
    match parse(alloc, text.as_str()) {
        Ok(expression) => Ok(Some(expression)),
        Err(ParseFault::OutOfMemory) => Err(AllocError),
        Err(
            ParseFault::TooLong
            | ParseFault::TooDeep { .. }
            | ParseFault::NotWhole { .. }
            | ParseFault::UnknownName { .. }
            | ParseFault::Syntax { .. },
        ) => Ok(None),
    }
}

/// Whether characters are an expression.
pub fn parses(alloc: Global, characters: &[char]) -> Result<bool, AllocError>
    ensures { IfOk result (λ b. b ≡ parses characters.now) }
{
    let expression = expression_of(alloc, characters)?;
    Ok(expression.is_some())
}

/// Whether a text is a version by SemVer 2.0.0.
#[tactic(auto, unfolding(crate::specs::Expression::is_version))]
pub fn is_version(alloc: Global, text: &Text) -> Result<bool, AllocError>
    ensures { IfOk result (λ b. b ≡ is_version text.now) }
{
    match Version::parse(alloc, text.as_str()) {
        Ok(_) => Ok(true),
        Err(error) if error == Error::from(AllocError) => Err(AllocError),
        Err(_) => Ok(false),
    }
}

/// Whether a value is a duration.
#[tactic(auto, unfolding(crate::specs::Expression::is_duration))]
pub fn is_duration(alloc: Global, value: &Json) -> Result<bool, AllocError>
    ensures { IfOk result (λ b. b ≡ is_duration value.now) }
{
    match read_duration(alloc, value) {
        Ok(_) => Ok(true),
        Err(DurationFault::OutOfMemory) => Err(AllocError),
        Err(DurationFault::WrongKind | DurationFault::BadText | DurationFault::TooLong) => Ok(
            false,
        ),
    }
}
