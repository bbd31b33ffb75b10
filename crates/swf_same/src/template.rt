// Templates.
ghost use Rattle.std.specs.Prelude.{◌≡◌, ◌↔◌, IsTrue};

use crate::same::Same;
use swf_document::{Field, Template, TemplateNode};

impl Same for Template {
    fn is_same(&self, other: &Template) -> bool {
        same_template(self, other)
    }
}

impl Same for Field {
    fn is_same(&self, other: &Field) -> bool {
        same_field(self, other)
    }
}

#[cycle(same)]
fn same_template(a: &Template, b: &Template) -> bool
    ensures { IsTrue result ↔ (a.now ≡ b.now) }
{
    match (a.node(), b.node()) {
        (TemplateNode::Const(a), TemplateNode::Const(b)) => a.is_same(b),
        (TemplateNode::Run(a), TemplateNode::Run(b)) => a.is_same(b),
        (TemplateNode::List(a), TemplateNode::List(b)) => same_templates(a, b),
        (TemplateNode::Object(a), TemplateNode::Object(b)) => same_fields(a, b),
        _ => false,
    }
}

#[cycle(same)]
fn same_templates(a: &[Template], b: &[Template]) -> bool
    ensures { IsTrue result ↔ (a.now ≡ b.now) }
{
    if a.len() != b.len() {
        return false;
    }
    for (i, x) in a.iter().enumerate() {
        if !same_template(x, &b[i]) {
            return false;
        }
    }
    true
}

#[cycle(same)]
fn same_fields(a: &[Field], b: &[Field]) -> bool
    ensures { IsTrue result ↔ (a.now ≡ b.now) }
{
    if a.len() != b.len() {
        return false;
    }
    for (i, x) in a.iter().enumerate() {
        if !same_field(x, &b[i]) {
            return false;
        }
    }
    true
}

#[cycle(same)]
fn same_field(a: &Field, b: &Field) -> bool
    ensures { IsTrue result ↔ (a.now ≡ b.now) }
{
    a.name.is_same(&b.name) && same_template(&a.value, &b.value)
}
