// Writing an expression as text, with parentheses round each operand that is no term.
ghost use Rattle.std.specs.Prelude.{◌≡◌, ◌≤◌, ◌∷◌, ◌++◌, [], true, false, length, Ok, IfOk, OnOk, IsTrue};
ghost use Rattle.swf_expr.specs.Expr.{is_literal};
ghost use Rattle.swf_expr.specs.ExprNode.{trees_of, pairs_of, value_or_here};
ghost use Rattle.swf_text.specs.Same.{is_ascii};
ghost use Rattle.swf_expr.specs.Name.{is_name};
ghost use Rattle.swf_value.specs.Value.{IsValue};
ghost use Rattle.swf_jq_print.specs.Printed.{nesting, IsExpression, AreArguments, AreMembers};
ghost use Rattle.swf_jq_parse.specs.Parse.{parse_of};
ghost use Rattle.std.specs.Str.{encode_utf8_all};
ghost use Rattle.swf_jq_print.specs.Print.{literal_text, op_text, var_text, is_term, enclosed, between, print_of, print_members, member_text, arguments_text};

use std::alloc::{AllocError, Global};
use swf_expr::{Expr, ExprMember, ExprNode, Name, Op};
use swf_text::{Text, TextBuilder};
use swf_value::{Json, write_json};

/// What was written so far.
#[derive(Drop)]
struct Out {
    alloc: Global,
    text: TextBuilder,
}

/// The text of an expression, with parentheses round each operand that is no term. Within the limits on
/// texts it is read as the same expression.
pub fn print(alloc: Global, expr: &Expr) -> Result<Text, AllocError>
    ensures text { IfOk result (λ t. t ≡ print_of expr.now) }
    ensures kept { IfOk result (λ _. IsExpression expr.now) }
    ensures read_back { IfOk result (λ t. length (encode_utf8_all t) ≤ 4096 → nesting expr.now ≤ 64 → parse_of t ≡ Ok expr.now) }
{
    let text = TextBuilder::new(alloc);
    let mut out = Out { alloc, text };
    write(expr, &mut out)?;
    out.text.into_text(alloc)
}

/// Appends an expression. After an `Err` some of it may stand there.
#[cycle(print)]
fn write(expr: &Expr, out: &mut Out) -> Result<(), AllocError>
    ensures text { OnOk result (out.new.text ≡ out.old.text ++ print_of expr.now) }
    ensures kept { OnOk result (IsExpression expr.now) }
{
    match expr.node() {
        ExprNode::Here => out.text.push('.'),
        ExprNode::Lit(value) => write_literal(value, out),
        ExprNode::Var(name) => write_var(name, out),
        ExprNode::Index(of, key) => {
            write_operand("", of, "[", out)?;
            write_between("", key, "]", out)
        }
        ExprNode::Iterate(of) => write_operand("", of, "[]", out),
        ExprNode::Maybe(of) => write_operand("", of, "?", out),
        ExprNode::Pipe(left, right) => write_both(left, "|", right, out),
        ExprNode::Both(left, right) => write_both(left, ",", right, out),
        ExprNode::Alt(left, right) => write_both(left, "//", right, out),
        ExprNode::Or(left, right) => write_both(left, " or ", right, out),
        ExprNode::And(left, right) => write_both(left, " and ", right, out),
        ExprNode::Binary(op, left, right) => write_both(left, sign_of(*op), right, out),
        ExprNode::Neg(of) => write_operand("-", of, "", out),
        ExprNode::List(None) => out.text.push_ascii("[]"),
        ExprNode::List(Some(of)) => write_between("[", of, "]", out),
        ExprNode::Object(members) => write_object(members, out),
        ExprNode::Constant(constant) => write_object(constant.members(), out),
        ExprNode::If(condition, then, None) => {
            write_between("if ", condition, " then ", out)?;
            write_between("", then, " end", out)
        }
        ExprNode::If(condition, then, Some(otherwise)) => {
            write_between("if ", condition, " then ", out)?;
            write_between("", then, " else ", out)?;
            write_between("", otherwise, " end", out)
        }
        ExprNode::Bind(of, name, then) => {
            write_operand("", of, " as ", out)?;
            write_var(name, out)?;
            write_between("|", then, "", out)
        }
        ExprNode::Apply(builtin, arguments) => {
            out.text.push_ascii(builtin.name())?;
            write_arguments(arguments, out)
        }
    }
}

/// Appends an expression between two texts.
#[cycle(print)]
fn write_between(before: &str, expr: &Expr, after: &str, out: &mut Out) -> Result<(), AllocError>
    requires before { IsTrue (is_ascii before.now) }
    requires after { IsTrue (is_ascii after.now) }
    ensures text { OnOk result (out.new.text ≡ out.old.text ++ (before.now ++ (print_of expr.now ++ after.now))) }
    ensures kept { OnOk result (IsExpression expr.now) }
{
    out.text.push_ascii(before)?;
    write(expr, out)?;
    out.text.push_ascii(after)
}

/// Appends an operand between two texts: in parentheses, where it is no term.
#[cycle(print)]
fn write_operand(before: &str, expr: &Expr, after: &str, out: &mut Out) -> Result<(), AllocError>
    requires before { IsTrue (is_ascii before.now) }
    requires after { IsTrue (is_ascii after.now) }
    ensures text { OnOk result
        (out.new.text ≡ out.old.text ++ (before.now ++ (enclosed (is_term expr.now) (print_of expr.now) ++ after.now))) }
    ensures kept { OnOk result (IsExpression expr.now) }
{
    if is_term(expr) {
        return write_between(before, expr, after, out);
    }
    out.text.push_ascii(before)?;
    write_between("(", expr, ")", out)?;
    out.text.push_ascii(after)
}

/// Appends two operands and what joins them.
#[cycle(print)]
fn write_both(left: &Expr, joint: &str, right: &Expr, out: &mut Out) -> Result<(), AllocError>
    requires { IsTrue (is_ascii joint.now) }
    ensures text { OnOk result
        (out.new.text
        ≡ out.old.text ++ (enclosed (is_term left.now) (print_of left.now) ++ (joint.now ++ enclosed (is_term right.now) (print_of right.now)))) }
    ensures kept { OnOk result (IsExpression left.now × IsExpression right.now) }
{
    write_operand("", left, joint, out)?;
    write_operand("", right, "", out)
}

/// Appends an object.
#[cycle(print)]
fn write_object(members: &[ExprMember], out: &mut Out) -> Result<(), AllocError>
    ensures text { OnOk result (out.new.text ≡ out.old.text ++ 123 ∷ (print_members false (pairs_of members.now) ++ 125 ∷ [])) }
    ensures kept { OnOk result (AreMembers (pairs_of members.now)) }
{
    out.text.push('{')?;
    for (index, member) in members.iter().enumerate() {
        write_comma(',', index > 0, out)?;
        write_member(member, out)?;
    }
    out.text.push('}')
}

/// Appends a member.
#[cycle(print)]
fn write_member(member: &ExprMember, out: &mut Out) -> Result<(), AllocError>
    ensures text { OnOk result (out.new.text ≡ out.old.text ++ member_text member.now.key (value_or_here member.now.key member.now.value)) }
    ensures kept { OnOk result (IsExpression member.now.key × IsExpression (value_or_here member.now.key member.now.value)) }
{
    write_between("(", &member.key, "):", out)?;
    match &member.value {
        Some(value) => write_operand("", value, "", out),
        None => write_between("(.[", &member.key, "])", out),
    }
}

/// Appends the arguments of a built-in, if it has any.
#[cycle(print)]
fn write_arguments(arguments: &[Expr], out: &mut Out) -> Result<(), AllocError>
    ensures text { OnOk result (out.new.text ≡ out.old.text ++ arguments_text (trees_of arguments.now)) }
    ensures kept { OnOk result (AreArguments (trees_of arguments.now)) }
{
    if arguments.is_empty() {
        return Ok(());
    }
    out.text.push('(')?;
    for (index, argument) in arguments.iter().enumerate() {
        write_comma(';', index > 0, out)?;
        write(argument, out)?;
    }
    out.text.push(')')
}

/// Appends a sign, where something stands before.
fn write_comma(sign: char, later: bool, out: &mut Out) -> Result<(), AllocError>
    ensures { OnOk result (out.new.text ≡ out.old.text ++ between sign later) }
{
    if later { out.text.push(sign) } else { Ok(()) }
}

/// Whether an expression's text is a term.
fn is_term(expr: &Expr) -> bool
    ensures { result ≡ is_term expr.now }
{
    match expr.node() {
        ExprNode::Here | ExprNode::Lit(_) | ExprNode::Var(_) => true,
        ExprNode::List(_) | ExprNode::Object(_) | ExprNode::Constant(_) => true,
        ExprNode::If(_, _, _) | ExprNode::Apply(_, _) => true,
        _ => false,
    }
}

/// Appends the name of a variable.
fn write_var(name: &Name, out: &mut Out) -> Result<(), AllocError>
    ensures text { OnOk result (out.new.text ≡ out.old.text ++ var_text name.now) }
    ensures kept { OnOk result (is_name name.now ≡ true) }
{
    out.text.push('$')?;
    out.text.push_str(name.text().as_str())
}

/// Appends a literal.
#[tactic(auto, using(crate::proofs::Literals::literal_written))]
fn write_literal(value: &Json, out: &mut Out) -> Result<(), AllocError>
    requires { is_literal value.now ≡ true }
    ensures text { OnOk result (out.new.text ≡ out.old.text ++ literal_text value.now) }
    ensures kept { OnOk result (IsValue value.now) }
{
    let mut bytes = Vec::new(out.alloc);
    write_json(value, &mut bytes)?;
    match str::from_utf8(bytes.as_slice()) {
        Ok(text) => out.text.push_str(text),
        Err(_) => unreachable!(),
    }
}

/// How an operator is written.
fn sign_of(op: Op) -> &'static str
    ensures text { result.now ≡ op_text op }
    ensures ascii { IsTrue (is_ascii result.now) }
{
    match op {
        Op::Equal => "==",
        Op::NotEqual => "!=",
        Op::Less => "<",
        Op::AtMost => "<=",
        Op::Greater => ">",
        Op::AtLeast => ">=",
        Op::Add => "+",
        Op::Subtract => "-",
        Op::Multiply => "*",
        Op::Divide => "/",
        Op::Modulo => "%",
    }
}
