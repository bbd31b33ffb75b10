// What tasks call and run.
ghost use Rattle.std.specs.Prelude.{◌≡◌, IfOk, codes};
ghost use Rattle.swf_reader.specs.Parts.{part, endpoint_run, endpoint_text, endpoint_in, method_in, response_in, http_in, callee_in, key_in, version_in, run_in};

use crate::parts::{flag_at, part, text_in, text_part, tree_of};
use crate::template::{named_templates_of, template_at};
use std::alloc::{AllocError, Global};
use swf_calls::Method;
use swf_document::{Boxed, Callee, DocKey, Endpoint, HttpSpec, RunSpec};
use swf_expr::Expr;
use swf_forms::{characters, inner, is_enclosed, method_of, trimmed};
use swf_shapes::field;
use swf_text::{Text, is_word, word};
use swf_value::{Json, JsonNode};

// The endpoint that an expression gives, which stands in an object or not.
fn endpoint_run(in_object: bool, expression: Expr) -> Endpoint
    ensures { result ≡ endpoint_run in_object expression }
{
    if in_object {
        Endpoint::Uri(expression)
    } else {
        Endpoint::Run(expression)
    }
}

fn endpoint_text(alloc: Global, in_object: bool, text: &Text) -> Result<Endpoint, AllocError>
    ensures { IfOk result (λ e. e ≡ endpoint_text in_object text.now) }
{
    let characters = characters(alloc, text)?;
    let trimmed = trimmed(&characters);
    if is_enclosed(trimmed) {
        let expression = tree_of(alloc, inner(trimmed))?;
        Ok(endpoint_run(in_object, expression))
    } else {
        Ok(Endpoint::Pattern(text.copy()?))
    }
}

fn endpoint_in(alloc: Global, value: &Json) -> Result<Endpoint, AllocError>
    ensures { IfOk result (λ e. e ≡ endpoint_in value.now) }
{
    match value.node() {
        JsonNode::Text(text) => endpoint_text(alloc, false, text),
        _ => {
            let text = text_part(alloc, value, "uri")?;
            endpoint_text(alloc, true, &text)
        }
    }
}

// The method of a request.
fn method_at(alloc: Global, value: &Json) -> Result<Method, AllocError>
    ensures { IfOk result (λ m. m ≡ method_in (part (codes "method") value.now)) }
{
    let text = text_part(alloc, value, "method")?;
    match method_of(&text) {
        Some(method) => Ok(method),
        None => Ok(Method::Get),
    }
}

// Whether the output of a call is the whole response.
fn response_in(alloc: Global, value: &Json) -> Result<bool, AllocError>
    ensures { IfOk result (λ b. b ≡ response_in value.now) }
{
    let output = text_part(alloc, value, "output")?;
    Ok(is_word(&output, "response"))
}

fn http_in(alloc: Global, value: &Json) -> Result<Boxed<HttpSpec>, AllocError>
    ensures { IfOk result (λ h. h ≡ http_in value.now) }
{
    let method = method_at(alloc, value)?;
    let response = response_in(alloc, value)?;
    let redirect = flag_at(value, "redirect");
    let headers = named_templates_of(alloc, value, "headers")?;
    let query = named_templates_of(alloc, value, "query")?;
    let body = template_at(alloc, value, "body")?;
    let endpoint = {
        let nothing = Json::null();
        endpoint_in(alloc, part(value, "endpoint", &nothing))?
    };
    let http = HttpSpec {
        method,
        endpoint,
        headers,
        query,
        body,
        response,
        redirect,
    };
    Boxed::new(alloc, http)
}

/// What a task calls.
pub fn callee_in(alloc: Global, value: &Json) -> Result<Callee, AllocError>
    ensures { IfOk result (λ c. c ≡ callee_in value.now) }
{
    let name = text_part(alloc, value, "call")?;
    if is_word(&name, "http") {
        let nothing = Json::null();
        let http = http_in(alloc, part(value, "with", &nothing))?;
        Ok(Callee::Http(http))
    } else {
        let with = template_at(alloc, value, "with")?;
        Ok(Callee::Function { name, with })
    }
}

/// The key of a document of this version.
pub fn key_in(alloc: Global, version: Text, value: &Json) -> Result<DocKey, AllocError>
    ensures { IfOk result (λ k. k ≡ key_in version value.now) }
{
    let namespace = text_part(alloc, value, "namespace")?;
    let name = text_part(alloc, value, "name")?;
    Ok(DocKey {
        namespace,
        name,
        version,
    })
}

fn version_in(alloc: Global, value: &Json) -> Result<Text, AllocError>
    ensures { IfOk result (λ t. t ≡ version_in value.now) }
{
    match field(value, "version") {
        Some(version) => text_in(alloc, version),
        None => word(alloc, "latest"),
    }
}

/// The workflow that a task runs.
pub fn run_in(alloc: Global, value: &Json) -> Result<RunSpec, AllocError>
    ensures { IfOk result (λ r. r ≡ run_in value.now) }
{
    let version = version_in(alloc, value)?;
    let key = key_in(alloc, version, value)?;
    let input = template_at(alloc, value, "input")?;
    Ok(RunSpec { key, input })
}
