// Which variables of an expression have a value.
ghost use Rattle.std.specs.Prelude.{◌≡◌, ◌&&◌};
ghost use Rattle.swf_text.specs.Same.{same};
ghost use Rattle.swf_expr.specs.ExprNode.{node_tree, trees_of, pairs_of, value_or_here};
ghost use Rattle.swf_scope.specs.Variables.{is_among, all_known, are_known, pairs_known};
ghost use Rattle.swf_scope.specs.VariablesView.{standard_name, names_in};

use swf_expr::{Expr, ExprMember, ExprNode};
use swf_text::{Text, is_word, same_texts};

/// A variable that the standard names.
#[derive(Clone, Copy, Debug, PartialEq, Eq)]
pub enum Standard {
    Workflow,
    Context,
    Task,
    Input,
    Output,
    Error,
}

/// The variables that have a value, the innermost first.
#[derive(Clone, Copy)]
pub enum Variables<'a> {
    Nothing,
    /// One that the standard names.
    Word(Standard, &'a Variables<'a>),
    /// One that a document or an expression names.
    Name(&'a Text, &'a Variables<'a>),
}

/// Whether a name is that of a variable of the standard.
fn is_standard(name: &Text, standard: Standard) -> bool
    ensures { result ≡ same name.now (standard_name standard) }
{
    match standard {
        Standard::Workflow => is_word(name, "workflow"),
        Standard::Context => is_word(name, "context"),
        Standard::Task => is_word(name, "task"),
        Standard::Input => is_word(name, "input"),
        Standard::Output => is_word(name, "output"),
        Standard::Error => is_word(name, "error"),
    }
}

/// Whether a name is one of these variables.
fn has(variables: &Variables<'_>, name: &Text) -> bool
    ensures { result ≡ is_among (names_in variables.now) name.now }
{
    match variables {
        Variables::Nothing => false,
        Variables::Word(standard, outer) => is_standard(name, *standard) || has(*outer, name),
        Variables::Name(inner, outer) => same_texts(name, *inner) || has(*outer, name),
    }
}

/// Whether each variable of an expression has a value, or gets one inside it.
#[cycle(known)]
pub fn all_known(expr: &Expr, variables: &Variables<'_>) -> bool
    ensures { result ≡ all_known (names_in variables.now) expr.now }
{
    match expr.node() {
        ExprNode::Here | ExprNode::Lit(_) | ExprNode::List(None) => true,
        ExprNode::Constant(constant) => members_known(constant.members(), &*variables),
        ExprNode::Var(name) => has(variables, name.text()),
        ExprNode::Iterate(of)
        | ExprNode::Maybe(of)
        | ExprNode::Neg(of)
        | ExprNode::List(Some(of)) => all_known(of, &*variables),
        ExprNode::Index(left, right)
        | ExprNode::Pipe(left, right)
        | ExprNode::Both(left, right)
        | ExprNode::Alt(left, right)
        | ExprNode::Or(left, right)
        | ExprNode::And(left, right)
        | ExprNode::Binary(_, left, right)
        | ExprNode::If(left, right, None) => all_known(left, &*variables)
            && all_known(right, &*variables),
        ExprNode::If(condition, first, Some(second)) => {
            all_known(condition, &*variables)
                && all_known(first, &*variables)
                && all_known(second, &*variables)
        }
        ExprNode::Bind(of, name, inside) => {
            all_known(of, &*variables)
                && all_known(inside, &Variables::Name(name.text(), &*variables))
        }
        ExprNode::Object(members) => members_known(members, &*variables),
        ExprNode::Apply(_, arguments) => arguments_known(arguments, &*variables),
    }
}

/// Whether each variable of some expressions has a value.
#[cycle(known)]
fn arguments_known(arguments: &[Expr], variables: &Variables<'_>) -> bool
    ensures { result ≡ are_known (names_in variables.now) (trees_of arguments.now) }
{
    for argument in arguments {
        if !all_known(argument, &*variables) {
            return false;
        }
    }
    true
}

/// Whether each variable of an object's keys and values has a value.
#[cycle(known)]
fn members_known(members: &[ExprMember], variables: &Variables<'_>) -> bool
    ensures { result ≡ pairs_known (names_in variables.now) (pairs_of members.now) }
{
    for member in members {
        if !member_known(member, &*variables) {
            return false;
        }
    }
    true
}

/// Whether each variable of a member's key and of its value has a value.
#[cycle(known)]
fn member_known(member: &ExprMember, variables: &Variables<'_>) -> bool
    ensures { result ≡ all_known (names_in variables.now) member.now.key && all_known (names_in variables.now) (value_or_here member.now.key member.now.value) }
{
    all_known(&member.key, &*variables)
        && match &member.value {
            Some(value) => all_known(value, &*variables),
            None => true,
        }
}
