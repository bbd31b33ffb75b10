// Objects of an expression that are the same for every input.
ghost use Rattle.std.specs.Prelude.{◌≡◌, ℕ, List, Some, IfOk, IfErr, IfSome};
ghost use Rattle.swf_value.specs.Value.{Value, text};
ghost use Rattle.swf_value.specs.Grow.{IsObject, with_put};
ghost use Rattle.swf_expr.specs.Expr.{lit};
ghost use Rattle.swf_expr.specs.ExprNode.{pairs_of, value_or_here};
ghost use Rattle.swf_expr.specs.Constant.{constant_of};

use crate::expr::{Expr, ExprMember, ExprNode};
use std::alloc::{AllocError, Global};
use std::marker::Model;
use swf_text::Text;
use swf_value::{Json, JsonNode};

/// Members whose keys and values are literals, and the object that they make. Contracts see it as the members.
#[cycle(expr)]
#[derive(Drop)]
pub struct ConstantObject {
    members: Vec<ExprMember>,
    object: Box<Json>,
}

impl Model for ConstantObject {
    ghost use Rattle.std.specs.Prelude.{◌≡◌, Some};
    ghost use Rattle.swf_expr.specs.Expr.{Pairs};
    ghost use Rattle.swf_expr.specs.ExprCode.{pairs_code};

    ghost Value = { Pairs };

    ghost coded = { pairs_code };

    ghost use Rattle.swf_expr.specs.ExprNode.{pairs_of, weight_object};
    ghost use Rattle.swf_expr.specs.Constant.{constant_of};

    ghost view = { λ c. pairs_of c.members.items };

    ghost invariant = { λ c. constant_of (pairs_of c.members.items) ≡ Some c.object.value };

    ghost size = { weight_object };

    ghost use Rattle.swf_expr.specs.ExprFalls.{falls_object};

    ghost size_decreases = { λ a h. falls_object a.members.items };
}

impl ConstantObject {
    /// These members with the object that they make; the members alone where one is no literal, or no memory is found.
    pub(crate) fn of(
        alloc: Global,
        members: Vec<ExprMember>,
    ) -> Result<ConstantObject, Vec<ExprMember>>
        ensures ok { IfOk result (λ c. c ≡ pairs_of members.items) }
        ensures err { IfErr result (λ ms. ms ≡ members) }
    {
        let Some(object) = object_of_literals(alloc, members.as_slice()) else {
            return Err(members);
        };
        match Box::new(alloc, object) {
            Ok(object) => Ok(ConstantObject { members, object }),
            Err(_) => Err(members),
        }
    }

    /// The members in order.
    pub fn members(&self) -> &[ExprMember]
        ensures { pairs_of result.now ≡ self.now }
    {
        self.members.as_slice()
    }

    /// The object that they make.
    pub fn object(&self) -> &Json
        ensures { constant_of self.now ≡ Some result.now }
    {
        &self.object
    }
}

/// The literal that an expression is, if it is one.
fn literal(expr: &Expr) -> Option<&Json>
    ensures { IfSome result (λ v. expr.now ≡ lit v.now) }
{
    match expr.node() {
        ExprNode::Lit(value) => Some(value),
        _ => None,
    }
}

/// The literal text that an expression is, if it is one.
fn literal_text(expr: &Expr) -> Option<&Text>
    ensures { IfSome result (λ t. expr.now ≡ lit (text t.now)) }
{
    match literal(expr)?.node() {
        JsonNode::Text(text) => Some(text),
        _ => None,
    }
}

/// An object with one more member, which is one of literals.
fn with_literals(object: &mut Json, member: &ExprMember) -> Option<()>
    requires { IsObject object.old }
    ensures put { IfSome result (λ _. (t : List ℕ) × (v : Value) × (member.now.key ≡ lit (text t)) × (value_or_here member.now.key member.now.value ≡ lit v) × (object.new ≡ with_put object.old t v)) }
{
    let name = literal_text(&member.key)?.copy().ok()?;
    let value = literal(member.value.as_ref()?)?.copy().ok()?;
    object.put(name, value).ok()
}

/// The object that members make, if all their keys and values are literals.
fn object_of_literals(alloc: Global, members: &[ExprMember]) -> Option<Json>
    ensures { IfSome result (λ v. constant_of (pairs_of members.now) ≡ Some v) }
{
    let mut object = Json::object(alloc, Vec::new(alloc)).ok()?;
    for member in members {
        with_literals(&mut object, member)?;
    }
    Some(object)
}
