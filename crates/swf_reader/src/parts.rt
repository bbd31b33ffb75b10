// The small parts of a document.
ghost use Rattle.std.specs.Prelude.{◌≡◌, IfOk, IsTrue, Some, None, option_map, unwrap_or};
ghost use Rattle.swf_text.specs.Same.{is_ascii};
ghost use Rattle.swf_value.specs.Value.{null};
ghost use Rattle.swf_reader.specs.Parts.{part, text_in, text_at, flag_in, flag_at, number_in, status_in, tree_of, expression_in, expression_at, flow_in, flow_at};

use std::alloc::{AllocError, Global};
use swf_document::{Boxed, Flow};
use swf_expr::Expr;
use swf_forms::{bare, characters, expression_of, trimmed};
use swf_shapes::field;
use swf_text::{Text, TextBuilder, is_word};
use swf_value::{Json, JsonNode};

/// A member, or else null.
pub fn part<'a>(value: &'a Json, name: &str, nothing: &'a Json) -> &'a Json
    requires ascii { IsTrue (is_ascii name.now) }
    requires nothing { nothing.now ≡ null }
    ensures { result.now ≡ part name.now value.now }
{
    match field(value, name) {
        Some(found) => found,
        None => nothing,
    }
}

/// The text that a value is, or else the empty one.
pub fn text_in(alloc: Global, value: &Json) -> Result<Text, AllocError>
    ensures { IfOk result (λ t. t ≡ text_in value.now) }
{
    match value.node() {
        JsonNode::Text(text) => text.copy(),
        _ => TextBuilder::new(alloc).into_text(alloc),
    }
}

/// The text that a member is, or else the empty one.
pub fn text_part(alloc: Global, value: &Json, name: &str) -> Result<Text, AllocError>
    requires { IsTrue (is_ascii name.now) }
    ensures { IfOk result (λ t. t ≡ text_in (part name.now value.now)) }
{
    let nothing = Json::null();
    text_in(alloc, part(value, name, &nothing))
}

pub fn text_at(alloc: Global, value: &Json, name: &str) -> Result<Option<Text>, AllocError>
    requires { IsTrue (is_ascii name.now) }
    ensures { IfOk result (λ t. t ≡ text_at name.now value.now) }
{
    match field(value, name) {
        Some(found) => Ok(Some(text_in(alloc, found)?)),
        None => Ok(None),
    }
}

fn flag_in(value: &Json) -> bool
    ensures { result ≡ flag_in value.now }
{
    match value.node() {
        JsonNode::Bool(flag) => *flag,
        _ => false,
    }
}

pub fn flag_at(value: &Json, name: &str) -> bool
    requires { IsTrue (is_ascii name.now) }
    ensures { result ≡ flag_at name.now value.now }
{
    match field(value, name) {
        Some(found) => flag_in(found),
        None => false,
    }
}

/// The number of at least 0 that a value is, or else 0.
pub fn number_in(value: &Json) -> u64
    ensures { result ≡ number_in value.now }
{
    match value.node() {
        JsonNode::Int(number) => {
            let number = *number;
            if number >= 0 { number as u64 } else { 0 }
        }
        _ => 0,
    }
}

/// The status of an error.
pub fn status_in(value: &Json) -> u16
    ensures { result ≡ status_in value.now }
{
    let number = number_in(value);
    if number <= 599 { number as u16 } else { 0 }
}

/// The expression that characters are.
pub fn tree_of(alloc: Global, characters: &[char]) -> Result<Expr, AllocError>
    ensures { IfOk result (λ e. e ≡ tree_of characters.now) }
{
    match expression_of(alloc, characters)? {
        Some(expression) => Ok(expression),
        None => Expr::here(alloc),
    }
}

/// The expression in an expression place.
pub fn expression_in(alloc: Global, value: &Json) -> Result<Expr, AllocError>
    ensures { IfOk result (λ e. e ≡ expression_in value.now) }
{
    let text = text_in(alloc, value)?;
    let characters = characters(alloc, &text)?;
    tree_of(alloc, bare(trimmed(&characters)))
}

pub fn expression_at(
    alloc: Global,
    value: &Json,
    name: &str,
) -> Result<Option<Boxed<Expr>>, AllocError>
    requires { IsTrue (is_ascii name.now) }
    ensures { IfOk result (λ e. e ≡ expression_at name.now value.now) }
{
    match field(value, name) {
        Some(found) => Ok(Some(Boxed::new(alloc, expression_in(alloc, found)?)?)),
        None => Ok(None),
    }
}

/// What runs after a task.
fn flow_in(alloc: Global, value: &Json) -> Result<Flow, AllocError>
    ensures { IfOk result (λ f. f ≡ flow_in (text_in value.now)) }
{
    let name = text_in(alloc, value)?;
    if is_word(&name, "continue") {
        Ok(Flow::Continue)
    } else if is_word(&name, "exit") {
        Ok(Flow::Exit)
    } else if is_word(&name, "end") {
        Ok(Flow::End)
    } else {
        Ok(Flow::Task(name))
    }
}

pub fn flow_at(alloc: Global, value: &Json) -> Result<Option<Flow>, AllocError>
    ensures { IfOk result (λ f. f ≡ flow_at value.now) }
{
    match field(value, "then") {
        Some(found) => Ok(Some(flow_in(alloc, found)?)),
        None => Ok(None),
    }
}
