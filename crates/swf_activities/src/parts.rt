// The parts of a request, as they are filled in (DSL 1.0.0, reference, "HTTP Call").
ghost use Rattle.std.specs.Prelude.{◌≡◌, [], IfOk, codes, option_map, true};
ghost use Rattle.swf_document.specs.declared.error.ErrorKind.TheVariants.{Expression};
ghost use Rattle.swf_value.specs.Node.{members_of};
ghost use Rattle.swf_value.specs.Value.{no_members};
ghost use Rattle.swf_calls.specs.Request.{are_sendable};
ghost use Rattle.swf_meaning.specs.Call.{body_by, filled_members, header_text, headers_by, one_header, sent_headers, uri_by, uri_run, uri_text};
ghost use Rattle.swf_meaning.specs.Line.{within};
ghost use Rattle.swf_rule.specs.Rules.{line_in};
ghost use Rattle.swf_scene.specs.Halts.{Gives, IsFault};

use swf_calls::{Header, Headers, are_sendable, is_sendable};
use swf_cloudevents::NamedValues;
use swf_document::{Endpoint, ErrorKind, Field, Template};
use swf_expr::Expr;
use swf_rule::Rule;
use swf_scene::Halt;
use swf_text::{Text, word};
use swf_transform::{add_query, digits, expand_uri, first};
use swf_value::{Json, JsonNode, Member};

// The error of a part that nothing stands for.
fn cannot_expand(rule: &Rule) -> Halt
    ensures { IsFault rule.now.running.now.task Expression (codes "cannot expand") result }
{
    rule.fails(ErrorKind::Expression, "cannot expand")
}

/// The values of templates by their names.
pub fn filled_members(rule: &Rule, fields: &[Field]) -> Result<NamedValues, Halt>
    ensures { Gives (filled_members rule.now.running.now.task (within (line_in rule.now) rule.now.running.now) rule.now.running.now.input fields.now no_members) result }
{
    let mut members = NamedValues::none(rule.alloc)?;
    for field in fields {
        let value = rule.filled(&field.value)?;
        members.put(field.name.copy()?, value)?;
    }
    Ok(members)
}

// The URI that a value is.
fn uri_text(rule: &Rule, value: &Json) -> Result<Text, Halt>
    ensures { Gives (uri_text rule.now.running.now.task value.now) result }
{
    match value.node() {
        JsonNode::Text(text) => Ok(text.copy()?),
        _ => Err(cannot_expand(rule)),
    }
}

// The URI that an expression gives, with a query.
fn uri_of(rule: &Rule, query: &[Member], uri: &Expr) -> Result<Text, Halt>
    ensures { Gives (uri_run rule.now.running.now.task (within (line_in rule.now) rule.now.running.now) rule.now.running.now.input (members_of query.now) uri.now) result }
{
    let sight = rule.within()?;
    let value = rule.value_of(first(rule.alloc, uri, sight.vars(), rule.running.input())?)?;
    let uri = uri_text(rule, &value)?;
    rule.value_of(add_query(rule.alloc, &uri, query)?)
}

/// The URI of an endpoint with a query.
pub fn uri_by(rule: &Rule, query: &[Member], endpoint: &Endpoint) -> Result<Text, Halt>
    ensures { Gives (uri_by rule.now.running.now.task (within (line_in rule.now) rule.now.running.now) rule.now.running.now.input (members_of query.now) endpoint.now) result }
{
    match endpoint {
        Endpoint::Pattern(pattern) => {
            rule.value_of(expand_uri(rule.alloc, pattern, query, rule.running.input())?)
        }
        Endpoint::Run(uri) | Endpoint::Uri(uri) => uri_of(rule, query, uri),
    }
}

// The text of a header: a text, a number or a Boolean.
fn header_text(rule: &Rule, value: &Json) -> Result<Text, Halt>
    ensures { Gives (header_text rule.now.running.now.task value.now) result }
{
    match value.node() {
        JsonNode::Bool(true) => Ok(word(rule.alloc, "true")?),
        JsonNode::Bool(false) => Ok(word(rule.alloc, "false")?),
        JsonNode::Int(number) => Ok(digits(rule.alloc, *number)?),
        JsonNode::Text(text) => Ok(text.copy()?),
        JsonNode::Null | JsonNode::List(_) | JsonNode::Object(_) => Err(cannot_expand(rule)),
    }
}

// A header that is filled, and then judged.
fn one_header(rule: &Rule, field: &Field) -> Result<Header, Halt>
    ensures { Gives (one_header rule.now.running.now.task (within (line_in rule.now) rule.now.running.now) rule.now.running.now.input field.now) result }
{
    let value = rule.filled(&field.value)?;
    let value = header_text(rule, &value)?;
    let name = field.name.copy()?;
    let header = Header { name, value };
    if is_sendable(&header) {
        Ok(header)
    } else {
        Err(cannot_expand(rule))
    }
}

// Headers, each filled and judged.
fn filled_headers(rule: &Rule, fields: &[Field]) -> Result<Headers, Halt>
    ensures { Gives (headers_by rule.now.running.now.task (within (line_in rule.now) rule.now.running.now) rule.now.running.now.input fields.now []) result }
{
    let mut headers = Headers::none(rule.alloc);
    for field in fields {
        let header = one_header(rule, field)?;
        headers.add(rule.alloc, header)?;
    }
    Ok(headers)
}

/// Headers that can be sent.
pub fn headers_by(rule: &Rule, fields: &[Field]) -> Result<Headers, Halt>
    ensures value { Gives (sent_headers rule.now.running.now.task (within (line_in rule.now) rule.now.running.now) rule.now.running.now.input fields.now) result }
    ensures sendable { IfOk result (λ headers. are_sendable headers ≡ true) }
{
    let headers = filled_headers(rule, fields)?;
    if are_sendable(&headers) {
        Ok(headers)
    } else {
        Err(cannot_expand(rule))
    }
}

/// The body, where there is one.
pub fn body_by(rule: &Rule, body: Option<&Template>) -> Result<Option<Json>, Halt>
    ensures { Gives (body_by rule.now.running.now.task (within (line_in rule.now) rule.now.running.now) rule.now.running.now.input (option_map (λ t. t.now) body.entry)) result }
{
    match body {
        None => Ok(None),
        Some(template) => Ok(Some(rule.filled(template)?)),
    }
}
