// An expression: one level is an `ExprNode`, and the `Expr` round it keeps what holds of each level.
ghost use Rattle.std.specs.Prelude.{◌≡◌, true, IfOk};

use crate::builtin::Builtin;
use crate::constant::ConstantObject;
use crate::name::Name;
use crate::op::Op;
use std::alloc::{AllocError, Global};
use std::marker::Model;
use swf_value::Json;

/// An expression. Contracts see it as a `Tree`.
#[cycle(expr)]
pub struct Expr {
    node: Box<ExprNode>,
}

impl Drop for Expr {
    #[cycle(expr)]
    fn drop(self) {
        let Expr { node: _node } = self;
    }
}

/// One level of an expression.
#[cycle(expr)]
#[derive(Drop)]
pub enum ExprNode {
    /// The input.
    Here,
    /// Null, a Boolean, a number of at least 0 or a text.
    Lit(Json),
    /// The value of a name.
    Var(Name),
    Index(Expr, Expr),
    Iterate(Expr),
    Maybe(Expr),
    Pipe(Expr, Expr),
    Both(Expr, Expr),
    Alt(Expr, Expr),
    Or(Expr, Expr),
    And(Expr, Expr),
    Binary(Op, Expr, Expr),
    Neg(Expr),
    List(Option<Expr>),
    Object(Vec<ExprMember>),
    /// An object whose keys and values are literals.
    Constant(ConstantObject),
    If(Expr, Expr, Option<Expr>),
    Bind(Expr, Name, Expr),
    /// A built-in, with as many arguments as it has.
    Apply(Builtin, Vec<Expr>),
}

/// A member of an object. Without a value of its own it has the input's member of its key.
#[cycle(expr)]
#[derive(Drop)]
pub struct ExprMember {
    pub key: Expr,
    pub value: Option<Expr>,
}

impl Model for Expr {
    ghost use Rattle.swf_expr.specs.Expr.{Tree};
    ghost use Rattle.swf_expr.specs.ExprCode.{tree_code};

    ghost Value = { Tree };

    ghost coded = { tree_code };

    ghost use Rattle.swf_expr.specs.Expr.{IsTreeLevel};
    ghost use Rattle.swf_expr.specs.ExprNode.{node_tree, weight};

    ghost view = { λ e. node_tree e.node.value };

    ghost invariant = { λ e. IsTreeLevel (node_tree e.node.value) };

    ghost size = { weight };

    ghost use Rattle.swf_expr.specs.ExprFalls.{falls};

    ghost size_decreases = { λ a h. falls a.node.value };
}

impl Expr {
    ghost use Rattle.std.specs.Prelude.{◌≡◌, true, IfOk, length};
    ghost use Rattle.swf_expr.specs.Expr.{here, lit, var, index, iterate, maybe, pipe, both, alt, or, and, binary, neg, empty_list, list_of, object_of, if_then, if_else, bind, apply, is_literal, IsTreeLevel};
    ghost use Rattle.swf_expr.specs.Builtin.{arity};
    ghost use Rattle.swf_expr.specs.ExprNode.{node_tree, trees_of, pairs_of};

    // The expression of this level.
    fn of(alloc: Global, node: ExprNode) -> Result<Expr, AllocError>
        requires { IsTreeLevel (node_tree node) }
        ensures { IfOk result (λ e. e ≡ node_tree node) }
    {
        let node = Box::new(alloc, node)?;
        Ok(Expr { node })
    }

    /// The input.
    pub fn here(alloc: Global) -> Result<Expr, AllocError>
        ensures { IfOk result (λ e. e ≡ here) }
    {
        Expr::of(alloc, ExprNode::Here)
    }

    /// Null, a Boolean, a number of at least 0 or a text.
    pub fn lit(alloc: Global, value: Json) -> Result<Expr, AllocError>
        requires { is_literal value ≡ true }
        ensures { IfOk result (λ e. e ≡ lit value) }
    {
        Expr::of(alloc, ExprNode::Lit(value))
    }

    pub fn var(alloc: Global, name: Name) -> Result<Expr, AllocError>
        ensures { IfOk result (λ e. e ≡ var name) }
    {
        Expr::of(alloc, ExprNode::Var(name))
    }

    pub fn index(alloc: Global, of: Expr, key: Expr) -> Result<Expr, AllocError>
        ensures { IfOk result (λ e. e ≡ index of key) }
    {
        Expr::of(alloc, ExprNode::Index(of, key))
    }

    pub fn iterate(alloc: Global, of: Expr) -> Result<Expr, AllocError>
        ensures { IfOk result (λ e. e ≡ iterate of) }
    {
        Expr::of(alloc, ExprNode::Iterate(of))
    }

    pub fn maybe(alloc: Global, of: Expr) -> Result<Expr, AllocError>
        ensures { IfOk result (λ e. e ≡ maybe of) }
    {
        Expr::of(alloc, ExprNode::Maybe(of))
    }

    pub fn pipe(alloc: Global, left: Expr, right: Expr) -> Result<Expr, AllocError>
        ensures { IfOk result (λ e. e ≡ pipe left right) }
    {
        Expr::of(alloc, ExprNode::Pipe(left, right))
    }

    pub fn both(alloc: Global, left: Expr, right: Expr) -> Result<Expr, AllocError>
        ensures { IfOk result (λ e. e ≡ both left right) }
    {
        Expr::of(alloc, ExprNode::Both(left, right))
    }

    pub fn alt(alloc: Global, left: Expr, right: Expr) -> Result<Expr, AllocError>
        ensures { IfOk result (λ e. e ≡ alt left right) }
    {
        Expr::of(alloc, ExprNode::Alt(left, right))
    }

    pub fn or(alloc: Global, left: Expr, right: Expr) -> Result<Expr, AllocError>
        ensures { IfOk result (λ e. e ≡ or left right) }
    {
        Expr::of(alloc, ExprNode::Or(left, right))
    }

    pub fn and(alloc: Global, left: Expr, right: Expr) -> Result<Expr, AllocError>
        ensures { IfOk result (λ e. e ≡ and left right) }
    {
        Expr::of(alloc, ExprNode::And(left, right))
    }

    pub fn binary(alloc: Global, op: Op, left: Expr, right: Expr) -> Result<Expr, AllocError>
        ensures { IfOk result (λ e. e ≡ binary op left right) }
    {
        Expr::of(alloc, ExprNode::Binary(op, left, right))
    }

    pub fn neg(alloc: Global, of: Expr) -> Result<Expr, AllocError>
        ensures { IfOk result (λ e. e ≡ neg of) }
    {
        Expr::of(alloc, ExprNode::Neg(of))
    }

    pub fn empty_list(alloc: Global) -> Result<Expr, AllocError>
        ensures { IfOk result (λ e. e ≡ empty_list) }
    {
        Expr::of(alloc, ExprNode::List(None))
    }

    pub fn list_of(alloc: Global, of: Expr) -> Result<Expr, AllocError>
        ensures { IfOk result (λ e. e ≡ list_of of) }
    {
        Expr::of(alloc, ExprNode::List(Some(of)))
    }

    /// An object. Where its keys and values are literals, it keeps the object that they make, unless no memory is found for that.
    pub fn object_of(alloc: Global, members: Vec<ExprMember>) -> Result<Expr, AllocError>
        ensures { IfOk result (λ e. e ≡ object_of (pairs_of members.items)) }
    {
        match ConstantObject::of(alloc, members) {
            Ok(constant) => Expr::of(alloc, ExprNode::Constant(constant)),
            Err(members) => Expr::of(alloc, ExprNode::Object(members)),
        }
    }

    pub fn if_then(alloc: Global, condition: Expr, then: Expr) -> Result<Expr, AllocError>
        ensures { IfOk result (λ e. e ≡ if_then condition then) }
    {
        Expr::of(alloc, ExprNode::If(condition, then, None))
    }

    pub fn if_else(
        alloc: Global,
        condition: Expr,
        then: Expr,
        otherwise: Expr,
    ) -> Result<Expr, AllocError>
        ensures { IfOk result (λ e. e ≡ if_else condition then otherwise) }
    {
        Expr::of(alloc, ExprNode::If(condition, then, Some(otherwise)))
    }

    pub fn bind(alloc: Global, of: Expr, name: Name, then: Expr) -> Result<Expr, AllocError>
        ensures { IfOk result (λ e. e ≡ bind of name then) }
    {
        Expr::of(alloc, ExprNode::Bind(of, name, then))
    }

    pub fn apply(alloc: Global, builtin: Builtin, arguments: Vec<Expr>) -> Result<Expr, AllocError>
        requires { length arguments.items ≡ arity builtin }
        ensures { IfOk result (λ e. e ≡ apply builtin (trees_of arguments.items)) }
    {
        Expr::of(alloc, ExprNode::Apply(builtin, arguments))
    }

    /// The level at the top.
    pub fn node(&self) -> &ExprNode
        ensures value { node_tree result.now ≡ self.now }
        ensures level { IsTreeLevel self.now }
    {
        &self.node
    }
}
