// Errors, retries and what is caught.
ghost use Rattle.std.specs.Prelude.{◌≡◌, IfOk, Some, None, option_map};
ghost use Rattle.swf_value.specs.Node.{members_of};
ghost use Rattle.swf_reader.specs.Reads.{errors_named, errors_of, retries_named, retries_of};
ghost use Rattle.swf_reader.specs.Parts.{error_in, raised_in, duration_in, delay_at, count_at, policy_in, retry_in, retry_at, status_at, detail_at, errors_in};

use crate::parts::{expression_at, number_in, part, status_in, text_at, text_in};
use crate::template::{template_at, template_part};
use std::alloc::{AllocError, Global};
use swf_document::{
    Boxed, ErrorFilter, ErrorRef, ErrorSpec, Listing, NamedError, NamedRetry, RetryPolicy, RetryRef,
};
use swf_duration::{DurationFault, read_duration};
use swf_shapes::field;
use swf_text::Text;
use swf_value::{Json, JsonNode, Member};

/// An error that is filled in when it is raised.
pub fn error_in(alloc: Global, value: &Json) -> Result<ErrorSpec, AllocError>
    ensures { IfOk result (λ e. e ≡ error_in value.now) }
{
    let uri = template_part(alloc, value, "type")?;
    let title = template_at(alloc, value, "title")?;
    let detail = template_at(alloc, value, "detail")?;
    let instance = template_at(alloc, value, "instance")?;
    let nothing = Json::null();
    let status = status_in(part(value, "status", &nothing));
    Ok(ErrorSpec {
        uri,
        status,
        title,
        detail,
        instance,
    })
}

pub fn raised_in(alloc: Global, value: &Json) -> Result<ErrorRef, AllocError>
    ensures { IfOk result (λ e. e ≡ raised_in value.now) }
{
    match value.node() {
        JsonNode::Text(name) => Ok(ErrorRef::Named(name.copy()?)),
        _ => Ok(ErrorRef::Written(error_in(alloc, value)?)),
    }
}

/// The milliseconds of a duration.
pub fn duration_in(alloc: Global, value: &Json) -> Result<u64, AllocError>
    ensures { IfOk result (λ n. n ≡ duration_in value.now) }
{
    match read_duration(alloc, value) {
        Ok(length) => Ok(length),
        Err(DurationFault::OutOfMemory) => Err(AllocError),
        Err(DurationFault::WrongKind | DurationFault::BadText | DurationFault::TooLong) => Ok(0),
    }
}

fn delay_at(alloc: Global, value: &Json) -> Result<u64, AllocError>
    ensures { IfOk result (λ n. n ≡ delay_at value.now) }
{
    match field(value, "delay") {
        Some(found) => duration_in(alloc, found),
        None => Ok(0),
    }
}

// How many further attempts there are at most.
fn count_at(value: &Json) -> Option<u64>
    ensures { result ≡ count_at value.now }
{
    let limit = field(value, "limit")?;
    let attempt = field(limit, "attempt")?;
    let count = field(attempt, "count")?;
    Some(number_in(count))
}

fn policy_in(alloc: Global, value: &Json) -> Result<RetryPolicy, AllocError>
    ensures { IfOk result (λ p. p ≡ policy_in value.now) }
{
    let delay = delay_at(alloc, value)?;
    let count = count_at(value);
    let cond = expression_at(alloc, value, "when")?;
    let except = expression_at(alloc, value, "exceptWhen")?;
    Ok(RetryPolicy {
        delay,
        count,
        cond,
        except,
    })
}

fn retry_in(alloc: Global, value: &Json) -> Result<RetryRef, AllocError>
    ensures { IfOk result (λ r. r ≡ retry_in value.now) }
{
    match value.node() {
        JsonNode::Text(name) => Ok(RetryRef::Named(name.copy()?)),
        _ => Ok(RetryRef::Written(policy_in(alloc, value)?)),
    }
}

pub fn retry_at(alloc: Global, value: &Json) -> Result<Option<Boxed<RetryRef>>, AllocError>
    ensures { IfOk result (λ r. r ≡ retry_at value.now) }
{
    match field(value, "retry") {
        Some(found) => Ok(Some(Boxed::new(alloc, retry_in(alloc, found)?)?)),
        None => Ok(None),
    }
}

fn status_at(value: &Json) -> Option<u16>
    ensures { result ≡ status_at value.now }
{
    let status = field(value, "status")?;
    Some(status_in(status))
}

// `details` is read as `detail`, where that is absent.
fn detail_at(alloc: Global, value: &Json) -> Result<Option<Text>, AllocError>
    ensures { IfOk result (λ t. t ≡ detail_at value.now) }
{
    match field(value, "detail") {
        Some(found) => Ok(Some(text_in(alloc, found)?)),
        None => text_at(alloc, value, "details"),
    }
}

/// What a caught error must have.
pub fn errors_in(alloc: Global, value: &Json) -> Result<Boxed<ErrorFilter>, AllocError>
    ensures { IfOk result (λ e. e ≡ errors_in value.now) }
{
    let uri = text_at(alloc, value, "type")?;
    let status = status_at(value);
    let instance = text_at(alloc, value, "instance")?;
    let title = text_at(alloc, value, "title")?;
    let detail = detail_at(alloc, value)?;
    let filter = ErrorFilter {
        uri,
        status,
        instance,
        title,
        detail,
    };
    Boxed::new(alloc, filter)
}

fn error_named(alloc: Global, member: &Member) -> Result<NamedError, AllocError>
    ensures { IfOk result (λ e. e ≡ record { name = member.now.name; error = error_in member.now.value }) }
{
    let name = member.name.copy()?;
    let error = error_in(alloc, &member.value)?;
    Ok(NamedError { name, error })
}

fn errors_named(alloc: Global, members: &[Member]) -> Result<Vec<NamedError>, AllocError>
    ensures { IfOk result (λ v. v.items ≡ errors_named (members_of members.now)) }
{
    let mut errors = Vec::new(alloc);
    for member in members {
        let error = error_named(alloc, member)?;
        errors.push(error)?;
    }
    Ok(errors)
}

/// The errors of a document.
pub fn errors_of(alloc: Global, value: &Json) -> Result<Listing<NamedError>, AllocError>
    ensures { IfOk result (λ es. es ≡ errors_of value.now) }
{
    let errors = match value.node() {
        JsonNode::Object(members) => errors_named(alloc, members.as_slice())?,
        _ => Vec::new(alloc),
    };
    Listing::of(alloc, errors)
}

fn retry_named(alloc: Global, member: &Member) -> Result<NamedRetry, AllocError>
    ensures { IfOk result (λ r. r ≡ record { name = member.now.name; policy = policy_in member.now.value }) }
{
    let name = member.name.copy()?;
    let policy = policy_in(alloc, &member.value)?;
    Ok(NamedRetry { name, policy })
}

fn retries_named(alloc: Global, members: &[Member]) -> Result<Vec<NamedRetry>, AllocError>
    ensures { IfOk result (λ v. v.items ≡ retries_named (members_of members.now)) }
{
    let mut retries = Vec::new(alloc);
    for member in members {
        let retry = retry_named(alloc, member)?;
        retries.push(retry)?;
    }
    Ok(retries)
}

/// The retry policies of a document.
pub fn retries_of(alloc: Global, value: &Json) -> Result<Listing<NamedRetry>, AllocError>
    ensures { IfOk result (λ rs. rs ≡ retries_of value.now) }
{
    let retries = match value.node() {
        JsonNode::Object(members) => retries_named(alloc, members.as_slice())?,
        _ => Vec::new(alloc),
    };
    Listing::of(alloc, retries)
}
