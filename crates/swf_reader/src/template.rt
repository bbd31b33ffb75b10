// Templates.
ghost use Rattle.std.specs.Prelude.{◌≡◌, IfOk, IsTrue, option_map};
ghost use Rattle.swf_text.specs.Same.{is_ascii};
ghost use Rattle.swf_value.specs.Node.{items_of, members_of};
ghost use Rattle.swf_value.specs.Value.{text};
ghost use Rattle.swf_document.specs.Template.{constant};
ghost use Rattle.swf_document.specs.TemplateNode.{templates_of};
ghost use Rattle.swf_forms.specs.Forms.{trimmed, is_enclosed};
ghost use Rattle.swf_reader.specs.Parts.{is_constant, are_constant, have_constants, part, template_in, templates_in, template_at, named_templates, named_templates_of, transform_in, transform_at};

use crate::parts::{expression_in, part, tree_of};
use std::alloc::{AllocError, Global};
use swf_document::{Field, Listing, Template};
use swf_forms::{characters, inner, is_enclosed, trimmed};
use swf_shapes::field;
use swf_text::Text;
use swf_value::{Json, JsonNode, Member};

// Whether a text stands between `${` and `}`.
fn is_enclosed_text(alloc: Global, text: &Text) -> Result<bool, AllocError>
    ensures { IfOk result (λ b. b ≡ is_enclosed (trimmed text.now)) }
{
    let characters = characters(alloc, text)?;
    Ok(is_enclosed(trimmed(&characters)))
}

// Whether no text in the value is an expression.
#[cycle(constant)]
fn is_constant(alloc: Global, value: &Json) -> Result<bool, AllocError>
    ensures { IfOk result (λ b. b ≡ is_constant value.now) }
{
    match value.node() {
        JsonNode::Null | JsonNode::Bool(_) | JsonNode::Int(_) => Ok(true),
        JsonNode::Text(text) => {
            let enclosed = is_enclosed_text(alloc, text)?;
            Ok(!enclosed)
        }
        JsonNode::List(items) => are_constant(alloc, items.as_slice()),
        JsonNode::Object(members) => have_constants(alloc, members.as_slice()),
    }
}

#[cycle(constant)]
fn are_constant(alloc: Global, items: &[Json]) -> Result<bool, AllocError>
    ensures { IfOk result (λ b. b ≡ are_constant (items_of items.now)) }
{
    for item in items {
        if !is_constant(alloc, item)? {
            return Ok(false);
        }
    }
    Ok(true)
}

#[cycle(constant)]
fn have_constants(alloc: Global, members: &[Member]) -> Result<bool, AllocError>
    ensures { IfOk result (λ b. b ≡ have_constants (members_of members.now)) }
{
    for member in members {
        if !is_constant(alloc, &member.value)? {
            return Ok(false);
        }
    }
    Ok(true)
}

// The template that gives a value as it is.
fn constant_of(alloc: Global, value: &Json) -> Result<Template, AllocError>
    ensures { IfOk result (λ t. t ≡ constant value.now) }
{
    let value = value.copy()?;
    Template::constant(alloc, value)
}

// The template that a text is.
fn text_template(alloc: Global, value: &Json, written: &Text) -> Result<Template, AllocError>
    requires { value.now ≡ text written.now }
    ensures { IfOk result (λ t. t ≡ template_in (text written.now)) }
{
    let characters = characters(alloc, written)?;
    let trimmed = trimmed(&characters);
    if is_enclosed(trimmed) {
        let expression = tree_of(alloc, inner(trimmed))?;
        Template::run(alloc, expression)
    } else {
        constant_of(alloc, value)
    }
}

/// The template in a template place.
#[cycle(template)]
#[tactic(auto, using(std::proofs::lemmas::Grind::common_steps, crate::proofs::ReadLemmas::fields_named))]
pub fn template_in(alloc: Global, value: &Json) -> Result<Template, AllocError>
    ensures { IfOk result (λ t. t ≡ template_in value.now) }
{
    match value.node() {
        JsonNode::Null | JsonNode::Bool(_) | JsonNode::Int(_) => constant_of(alloc, value),
        JsonNode::Text(text) => text_template(alloc, value, text),
        JsonNode::List(items) => {
            let items = items.as_slice();
            if are_constant(alloc, items)? {
                return constant_of(alloc, value);
            }
            let filled = templates_in(alloc, items)?;
            Template::list(alloc, filled)
        }
        JsonNode::Object(members) => {
            let members = members.as_slice();
            if have_constants(alloc, members)? {
                return constant_of(alloc, value);
            }
            let filled = named_templates(alloc, members)?;
            Template::object(alloc, filled)
        }
    }
}

#[cycle(template)]
#[tactic(auto, using(std::proofs::lemmas::Grind::common_steps, crate::proofs::ReadLemmas::templates_push, crate::proofs::ReadLemmas::templates_all))]
fn templates_in(alloc: Global, items: &[Json]) -> Result<Vec<Template>, AllocError>
    ensures { IfOk result (λ v. templates_of v.items ≡ templates_in (items_of items.now)) }
{
    let mut filled = Vec::new(alloc);
    for item in items {
        filled.push(template_in(alloc, item)?)?;
    }
    Ok(filled)
}

/// The template that a member is.
pub fn template_part(alloc: Global, value: &Json, name: &str) -> Result<Template, AllocError>
    requires { IsTrue (is_ascii name.now) }
    ensures { IfOk result (λ t. t ≡ template_in (part name.now value.now)) }
{
    let nothing = Json::null();
    template_in(alloc, part(value, name, &nothing))
}

pub fn template_at(alloc: Global, value: &Json, name: &str) -> Result<Option<Template>, AllocError>
    requires { IsTrue (is_ascii name.now) }
    ensures { IfOk result (λ t. t ≡ template_at name.now value.now) }
{
    match field(value, name) {
        Some(found) => Ok(Some(template_in(alloc, found)?)),
        None => Ok(None),
    }
}

// The members of an object, each a template.
#[cycle(template)]
fn named_templates(alloc: Global, members: &[Member]) -> Result<Vec<Field>, AllocError>
    ensures { IfOk result (λ v. v.items ≡ named_templates (members_of members.now)) }
{
    let mut fields = Vec::new(alloc);
    for member in members {
        let name = member.name.copy()?;
        let value = template_in(alloc, &member.value)?;
        fields.push(Field { name, value })?;
    }
    Ok(fields)
}

/// The members of a member that is an object, each a template.
pub fn named_templates_of(
    alloc: Global,
    value: &Json,
    name: &str,
) -> Result<Listing<Field>, AllocError>
    requires { IsTrue (is_ascii name.now) }
    ensures { IfOk result (λ fs. fs ≡ named_templates_of (part name.now value.now)) }
{
    let nothing = Json::null();
    let fields = match part(value, name, &nothing).node() {
        JsonNode::Object(members) => named_templates(alloc, members.as_slice())?,
        _ => Vec::new(alloc),
    };
    Listing::of(alloc, fields)
}

/// The template of a `from` or an `as`.
fn transform_in(alloc: Global, value: &Json) -> Result<Template, AllocError>
    ensures { IfOk result (λ t. t ≡ transform_in value.now) }
{
    match value.node() {
        JsonNode::Text(_) => {
            let expression = expression_in(alloc, value)?;
            Template::run(alloc, expression)
        }
        _ => template_in(alloc, value),
    }
}

pub fn transform_at(
    alloc: Global,
    value: &Json,
    name: &str,
    inner: &str,
) -> Result<Option<Template>, AllocError>
    requires name { IsTrue (is_ascii name.now) }
    requires inner { IsTrue (is_ascii inner.now) }
    ensures { IfOk result (λ t. t ≡ transform_at name.now inner.now value.now) }
{
    let Some(holder) = field(value, name) else {
        return Ok(None);
    };
    match field(holder, inner) {
        Some(found) => Ok(Some(transform_in(alloc, found)?)),
        None => Ok(None),
    }
}
