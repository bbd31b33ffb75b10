// Standard errors, and errors as values (RFC 9457).
ghost use Rattle.std.specs.Prelude.{◌≡◌, ◌++◌, IfOk, IsTrue, chars, codes, pos};
ghost use Rattle.swf_text.specs.Same.{is_ascii};
ghost use Rattle.swf_value.specs.Node.{members_of};
ghost use Rattle.swf_value.specs.Value.{int, member};
ghost use Rattle.swf_document.specs.Errors.{kind_word, standard, given, problem_value};

use crate::error::{ErrorKind, Problem};
use std::alloc::{AllocError, Global};
use swf_text::{Place, Text, TextBuilder, pointer_text, word};
use swf_value::{Json, Member, member};

/// A standard error of the task at a place. It keeps the detail that it is given, also an empty one.
pub fn standard_error(
    alloc: Global,
    kind: ErrorKind,
    place: &Place,
    detail: &str,
) -> Result<Problem, AllocError>
    ensures { IfOk result (λ p. p ≡ standard kind place.now (chars detail.now)) }
{
    let uri = standard_uri(alloc, kind)?;
    let title = word(alloc, kind.word())?;
    let detail = Text::copy_of(alloc, detail)?;
    let instance = pointer_text(alloc, place)?;
    Ok(Problem {
        uri,
        status: kind.status(),
        title: Some(title),
        detail: Some(detail),
        instance: Some(instance),
    })
}

/// The URI of a standard kind of error.
fn standard_uri(alloc: Global, kind: ErrorKind) -> Result<Text, AllocError>
    ensures { IfOk result (λ t. t ≡ codes "https://serverlessworkflow.io/spec/1.0.0/errors/" ++ kind_word kind) }
{
    let mut uri = TextBuilder::new(alloc);
    uri.push_ascii("https://serverlessworkflow.io/spec/1.0.0/errors/")?;
    uri.push_ascii(kind.word())?;
    uri.into_text(alloc)
}

/// An error as a value.
#[tactic(auto, using(crate::proofs::Problems::problem_ascends))]
pub fn problem_value(alloc: Global, problem: &Problem) -> Result<Json, AllocError>
    ensures { IfOk result (λ v. v ≡ problem_value problem.now) }
{
    let mut members = Vec::new(alloc);
    lead(alloc, "type", Json::text(problem.uri.copy()?), &mut members)?;
    lead_given(alloc, "title", &problem.title, &mut members)?;
    lead(alloc, "status", status_value(problem.status), &mut members)?;
    lead_given(alloc, "instance", &problem.instance, &mut members)?;
    lead_given(alloc, "detail", &problem.detail, &mut members)?;
    Json::object(alloc, members)
}

/// A status as a value.
fn status_value(status: u16) -> Json
    ensures { result ≡ int (pos status) }
{
    Json::int(i64::from(status))
}

/// A member before the others.
fn lead(alloc: Global, name: &str, value: Json, members: &mut Vec<Member>) -> Result<(), AllocError>
    requires { IsTrue (is_ascii name.now) }
    ensures { IfOk result (λ _. members_of members.new.items ≡ member name.now value (members_of members.old.items)) }
{
    let first = member(alloc, name, value)?;
    members.insert(0, first)?;
    Ok(())
}

/// A text before the other members, where there is one.
fn lead_given(
    alloc: Global,
    name: &str,
    text: &Option<Text>,
    members: &mut Vec<Member>,
) -> Result<(), AllocError>
    requires { IsTrue (is_ascii name.now) }
    ensures { IfOk result (λ _. members_of members.new.items ≡ given name.now text.now (members_of members.old.items)) }
{
    match text {
        Some(text) => lead(alloc, name, Json::text(text.copy()?), members),
        None => Ok(()),
    }
}
