// What comes of an answer (DSL 1.0.0, reference, "HTTP Call" and "HTTP Response").
ghost use Rattle.std.specs.Prelude.{◌≡◌, [], IfOk, true};
ghost use Rattle.swf_document.specs.Errors.{standard};
ghost use Rattle.swf_document.specs.declared.error.ErrorKind.TheVariants.{Communication};
ghost use Rattle.swf_meaning.specs.Complete.{complete};
ghost use Rattle.swf_meaning.specs.Call.{answered, answered_by, is_answered, response_value};
ghost use Rattle.swf_meaning.specs.Parts.{http_in, kind_of, place_of};
ghost use Rattle.swf_rule.specs.Rules.{line_in};
ghost use Rattle.swf_scene.specs.Halts.{Makes};

use std::alloc::{AllocError, Global};
use swf_calls::{CallReply, CallRequest, Headers, head_json};
use swf_catalog::Work;
use swf_document::{Callee, ErrorKind, HttpSpec, Problem, standard_error};
use swf_rule::Rule;
use swf_scene::Halt;
use swf_stack::Made;
use swf_text::{Text, word};
use swf_value::{Json, member};

// Whether a status is no error: one of success, and one that leads on where the call says so.
fn is_answered(redirect: bool, status: u16) -> bool
    ensures { result ≡ is_answered redirect status }
{
    let most = if redirect { 399 } else { 299 };
    200 <= status && status <= most
}

// The whole response.
fn response(
    alloc: Global,
    request: &CallRequest,
    status: u16,
    headers: &Headers,
    content: &Json,
) -> Result<Json, AllocError>
    ensures { IfOk result (λ v. v ≡ response_value true request.now status headers.now content.now) }
{
    let mut members = Vec::new(alloc);
    members.push(member(alloc, "content", content.copy()?)?)?;
    members.push(member(alloc, "headers", headers.json(alloc)?)?)?;
    members.push(member(alloc, "request", head_json(alloc, request)?)?)?;
    members.push(member(alloc, "statusCode", Json::int(i64::from(status)))?)?;
    Json::object(alloc, members)
}

// A communication error with a status of its own.
fn communication(rule: &Rule, status: u16, detail: Option<Text>) -> Result<Problem, AllocError>
    ensures { IfOk result (λ p. p ≡ record (standard Communication (place_of rule.now.running.now.task) []) { status = status; detail = detail }) }
{
    let place = rule.running.task().place(rule.alloc)?;
    let problem = standard_error(rule.alloc, ErrorKind::Communication, &place, "")?;
    Ok(Problem {
        status,
        detail,
        ..problem
    })
}

// The call is complete with what an answer gives.
fn given(
    rule: &Rule,
    spec: &HttpSpec,
    request: &CallRequest,
    status: u16,
    headers: &Headers,
    content: &Json,
) -> Result<Made, Halt>
    ensures { Makes (line_in rule.now) (complete (line_in rule.now) rule.now.running.now (response_value spec.now.response request.now status headers.now content.now)) result }
{
    let output = if spec.response {
        response(rule.alloc, request, status, headers, content)?
    } else {
        content.copy()?
    };
    rule.complete(output)
}

// What comes of an answer to a request of this form.
fn answered_http(
    rule: &Rule,
    spec: &HttpSpec,
    request: &CallRequest,
    reply: &CallReply,
) -> Result<Made, Halt>
    ensures { Makes (line_in rule.now) (answered (line_in rule.now) rule.now.running.now spec.now request.now reply.now) result }
{
    match reply {
        CallReply::Answer {
            status,
            headers,
            content,
        } => {
            if is_answered(spec.redirect, *status) {
                given(rule, spec, request, *status, headers, content)
            } else {
                Err(Halt::Fault(communication(rule, *status, None)?))
            }
        }
        CallReply::Unreached => {
            let detail = word(rule.alloc, "unreached")?;
            Err(Halt::Fault(communication(rule, 500, Some(detail))?))
        }
    }
}

/// A call that was answered is complete with the content of the answer, or with the whole response; or ends in the error that the answer
/// is.
pub fn answered(rule: &Rule, request: &CallRequest, reply: &CallReply) -> Result<Made, Halt>
    ensures { Makes (line_in rule.now) (answered_by (line_in rule.now) rule.now.running.now request.now reply.now (http_in (kind_of rule.now.running.now.task))) result }
{
    match rule.running.task().work() {
        Work::Call(Callee::Http(spec)) => answered_http(rule, spec.get(), request, reply),
        _ => rule.complete(rule.running.input().copy()?),
    }
}
