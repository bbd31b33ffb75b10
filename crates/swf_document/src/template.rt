// A template: one level is a `TemplateNode`, and the `Template` round it is what contracts see.
ghost use Rattle.std.specs.Prelude.{◌≡◌, IfOk};

use std::alloc::{AllocError, Global};
use std::marker::Model;
use swf_expr::Expr;
use swf_text::Text;
use swf_value::Json;

/// A value that is filled in when a task runs. Contracts see it as a `Template` of specs.
#[cycle(template)]
pub struct Template {
    node: Box<TemplateNode>,
}

impl Drop for Template {
    #[cycle(template)]
    fn drop(self) {
        let Template { node: _node } = self;
    }
}

/// One level of a template.
#[cycle(template)]
#[derive(Drop)]
pub enum TemplateNode {
    /// A value as it is.
    Const(Json),
    /// What an expression gives.
    Run(Expr),
    List(Vec<Template>),
    Object(Vec<Field>),
}

/// A member of an object that is filled in.
#[cycle(template)]
#[derive(Drop)]
pub struct Field {
    pub name: Text,
    pub value: Template,
}

impl Model for Template {
    ghost use Rattle.swf_document.specs.Template.{Template as Filled};
    ghost use Rattle.swf_document.specs.TemplateCode.{template_code};

    ghost Value = { Filled };

    ghost coded = { template_code };

    ghost use Rattle.swf_document.specs.TemplateNode.{node_template};
    ghost use Rattle.swf_document.specs.Template.{weight};

    ghost view = { λ t. node_template t.node.value };

    ghost size = { weight };

    ghost use Rattle.swf_document.specs.TemplateFalls.{falls};

    ghost size_decreases = { λ a h. falls a.node.value };
}

impl Template {
    ghost use Rattle.swf_document.specs.Template.{constant, run, list, object};
    ghost use Rattle.swf_document.specs.TemplateNode.{node_template, templates_of, fields_of};

    pub fn constant(alloc: Global, value: Json) -> Result<Template, AllocError>
        ensures { IfOk result (λ t. t ≡ constant value) }
    {
        let node = Box::new(alloc, TemplateNode::Const(value))?;
        Ok(Template { node })
    }

    pub fn run(alloc: Global, expression: Expr) -> Result<Template, AllocError>
        ensures { IfOk result (λ t. t ≡ run expression) }
    {
        let node = Box::new(alloc, TemplateNode::Run(expression))?;
        Ok(Template { node })
    }

    pub fn list(alloc: Global, items: Vec<Template>) -> Result<Template, AllocError>
        ensures { IfOk result (λ t. t ≡ list (templates_of items.items)) }
    {
        let node = Box::new(alloc, TemplateNode::List(items))?;
        Ok(Template { node })
    }

    pub fn object(alloc: Global, fields: Vec<Field>) -> Result<Template, AllocError>
        ensures { IfOk result (λ t. t ≡ object (fields_of fields.items)) }
    {
        let node = Box::new(alloc, TemplateNode::Object(fields))?;
        Ok(Template { node })
    }

    /// The level at the top.
    pub fn node(&self) -> &TemplateNode
        ensures { node_template result.now ≡ self.now }
    {
        &self.node
    }
}
