// Expressions.
ghost use Rattle.std.specs.Prelude.{◌≡◌, ◌↔◌, ◌∷◌, [], IsTrue};
ghost use Rattle.swf_expr.specs.Expr.{here, index};
ghost use Rattle.swf_expr.specs.ExprNode.{node_tree, pairs_of};

use crate::same::Same;
use swf_expr::{Builtin, Expr, ExprMember, ExprNode, Name, Op};

impl Same for Op {
    fn is_same(&self, other: &Op) -> bool {
        *self == *other
    }
}

impl Same for Builtin {
    fn is_same(&self, other: &Builtin) -> bool {
        *self == *other
    }
}

impl Same for Name {
    fn is_same(&self, other: &Name) -> bool {
        self.text().is_same(other.text())
    }
}

impl Same for Expr {
    fn is_same(&self, other: &Expr) -> bool {
        same_tree(self, other)
    }
}

#[cycle(same)]
fn same_tree(a: &Expr, b: &Expr) -> bool
    ensures { IsTrue result ↔ (a.now ≡ b.now) }
{
    same_node(a.node(), b.node())
}

// Whether two levels are the same.
#[cycle(same)]
fn same_node(a: &ExprNode, b: &ExprNode) -> bool
    ensures { IsTrue result ↔ (node_tree a.now ≡ node_tree b.now) }
{
    match (a, b) {
        (ExprNode::Here, ExprNode::Here) => true,
        (ExprNode::Lit(a), ExprNode::Lit(b)) => a.is_same(b),
        (ExprNode::Var(a), ExprNode::Var(b)) => a.is_same(b),
        (ExprNode::Index(a, x), ExprNode::Index(b, y)) => same_tree(a, b) && same_tree(x, y),
        (ExprNode::Iterate(a), ExprNode::Iterate(b)) => same_tree(a, b),
        (ExprNode::Maybe(a), ExprNode::Maybe(b)) => same_tree(a, b),
        (ExprNode::Pipe(a, x), ExprNode::Pipe(b, y)) => same_tree(a, b) && same_tree(x, y),
        (ExprNode::Both(a, x), ExprNode::Both(b, y)) => same_tree(a, b) && same_tree(x, y),
        (ExprNode::Alt(a, x), ExprNode::Alt(b, y)) => same_tree(a, b) && same_tree(x, y),
        (ExprNode::Or(a, x), ExprNode::Or(b, y)) => same_tree(a, b) && same_tree(x, y),
        (ExprNode::And(a, x), ExprNode::And(b, y)) => same_tree(a, b) && same_tree(x, y),
        (ExprNode::Binary(o, a, x), ExprNode::Binary(p, b, y)) => {
            o.is_same(p) && same_tree(a, b) && same_tree(x, y)
        }
        (ExprNode::Neg(a), ExprNode::Neg(b)) => same_tree(a, b),
        (ExprNode::List(a), ExprNode::List(b)) => same_option(a, b),
        (ExprNode::Object(a), ExprNode::Object(b)) => same_members(a, b),
        (ExprNode::Object(a), ExprNode::Constant(b)) => same_members(a, b.members()),
        (ExprNode::Constant(a), ExprNode::Object(b)) => same_members(a.members(), b),
        (ExprNode::Constant(a), ExprNode::Constant(b)) => same_members(a.members(), b.members()),
        (ExprNode::If(a, x, u), ExprNode::If(b, y, v)) => {
            same_tree(a, b) && same_tree(x, y) && same_option(u, v)
        }
        (ExprNode::Bind(a, m, x), ExprNode::Bind(b, n, y)) => {
            m.is_same(n) && same_tree(a, b) && same_tree(x, y)
        }
        (ExprNode::Apply(f, a), ExprNode::Apply(g, b)) => f.is_same(g) && same_trees(a, b),
        _ => false,
    }
}

#[cycle(same)]
fn same_option(a: &Option<Expr>, b: &Option<Expr>) -> bool
    ensures { IsTrue result ↔ (a.now ≡ b.now) }
{
    match (a, b) {
        (None, None) => true,
        (Some(a), Some(b)) => same_tree(a, b),
        _ => false,
    }
}

#[cycle(same)]
fn same_trees(a: &[Expr], b: &[Expr]) -> bool
    ensures { IsTrue result ↔ (a.now ≡ b.now) }
{
    if a.len() != b.len() {
        return false;
    }
    for (i, x) in a.iter().enumerate() {
        if !same_tree(x, &b[i]) {
            return false;
        }
    }
    true
}

// Whether two lists of members make the same object.
#[cycle(same)]
fn same_members(a: &[ExprMember], b: &[ExprMember]) -> bool
    ensures { IsTrue result ↔ (pairs_of a.now ≡ pairs_of b.now) }
{
    if a.len() != b.len() {
        return false;
    }
    for (i, x) in a.iter().enumerate() {
        if !same_member(x, &b[i]) {
            return false;
        }
    }
    true
}

// A member without a value of its own has the input's member of its key.
#[cycle(same)]
fn same_member(a: &ExprMember, b: &ExprMember) -> bool
    ensures { IsTrue result ↔ (pairs_of (a.now ∷ []) ≡ pairs_of (b.now ∷ [])) }
{
    if !same_tree(&a.key, &b.key) {
        return false;
    }
    match (&a.value, &b.value) {
        (None, None) => true,
        (Some(x), Some(y)) => same_tree(x, y),
        (Some(value), None) | (None, Some(value)) => is_member_here(&a.key, value),
    }
}

// Whether a value is the input's member of a key.
#[cycle(same)]
fn is_member_here(key: &Expr, value: &Expr) -> bool
    ensures { IsTrue result ↔ (index here key.now ≡ value.now) }
{
    match value.node() {
        ExprNode::Index(of, name) => matches!(of.node(), ExprNode::Here) && same_tree(key, name),
        _ => false,
    }
}
