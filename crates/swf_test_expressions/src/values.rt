//! What an expression gives on an input. Most rows have what jq 1.6 gives for the same; the others were worked out by hand where
//! whole numbers, ascending names or the texts of errors make a difference.
use std::alloc::{AllocError, Global};
use swf_expr::Expr;
use swf_jq_eval::{End, First, Stream, Variable, Vars, eval, first_value};
use swf_jq_parse::parse;
use swf_text::Text;
use swf_value::{Json, read_json, write_json};

/// How many bytes of an outcome its end has.
const END: usize = 7;

/// Adds the compact text of a value.
fn append(alloc: Global, value: &Json, out: &mut String) -> Result<(), AllocError> {
    let mut bytes = Vec::new(alloc);
    write_json(value, &mut bytes)?;
    match str::from_utf8(bytes.as_slice()) {
        Ok(text) => out.push_str(text),
        Err(_) => out.push_str("no UTF-8"),
    }
}

/// Adds all values of a stream, with a space between two.
fn append_all(alloc: Global, values: &[Json], out: &mut String) -> Result<(), AllocError> {
    for value in values {
        if !out.is_empty() {
            out.push(' ')?;
        }
        append(alloc, value, out)?;
    }
    Ok(())
}

/// Adds how a stream ended.
fn append_end(alloc: Global, end: &End, out: &mut String) -> Result<(), AllocError> {
    match end {
        End::Clean => Ok(()),
        End::Raised(error) => {
            out.push_str(if out.is_empty() { "!" } else { " !" })?;
            append(alloc, error, out)
        }
        End::Limit => out.push_str("limit"),
    }
}

/// What a stream has, in a line.
fn line_of(alloc: Global, stream: &Stream) -> Result<String, AllocError> {
    let mut out = String::new(alloc);
    append_all(alloc, stream.values.as_slice(), &mut out)?;
    append_end(alloc, &stream.end, &mut out)?;
    if out.is_empty() {
        out.push_str("nothing")?;
    }
    Ok(out)
}

/// What an expression gives on an input, where both are read.
fn told_where(
    alloc: Global,
    expression: &str,
    input: &str,
    vars: &Vars,
) -> Result<String, AllocError> {
    let Ok(expression) = parse(alloc, expression) else {
        return String::from_str(alloc, "unread");
    };
    let Ok(input) = read_json(alloc, input.as_bytes()) else {
        return String::from_str(alloc, "unread");
    };
    let stream = eval(alloc, &expression, vars, &input)?;
    line_of(alloc, &stream)
}

/// What an expression gives on an input.
pub fn told(alloc: Global, expression: &str, input: &str) -> Result<String, AllocError> {
    told_where(alloc, expression, input, &Vars::of(Vec::new(alloc)))
}

/// A variable with a value.
fn variable(alloc: Global, name: &str, value: Json) -> Result<Variable, AllocError> {
    Ok(Variable {
        name: Text::copy_of(alloc, name)?,
        value,
    })
}

/// What an expression gives on an input where `x` is false, `y` null, and `x` once more true.
pub fn told_with_names(alloc: Global, expression: &str, input: &str) -> Result<String, AllocError> {
    let mut vars = Vec::new(alloc);
    vars.push(variable(alloc, "x", Json::boolean(false))?)?;
    vars.push(variable(alloc, "y", Json::null())?)?;
    vars.push(variable(alloc, "x", Json::boolean(true))?)?;
    told_where(alloc, expression, input, &Vars::of(vars))
}

/// The first value that an expression gives on an input, in a line.
fn first_line(alloc: Global, expression: &Expr, input: &Json) -> Result<String, AllocError> {
    let mut out = String::new(alloc);
    match first_value(alloc, expression, &Vars::of(Vec::new(alloc)), input)? {
        First::Value(value) => append(alloc, &value, &mut out)?,
        First::Raised(error) => {
            out.push('!')?;
            append(alloc, &error, &mut out)?;
        }
        First::Limit => out.push_str("limit")?,
    }
    Ok(out)
}

/// The first value that an expression gives on an input, where both are read.
pub fn first_told(alloc: Global, expression: &str, input: &str) -> Result<String, AllocError> {
    let Ok(expression) = parse(alloc, expression) else {
        return String::from_str(alloc, "unread");
    };
    let Ok(input) = read_json(alloc, input.as_bytes()) else {
        return String::from_str(alloc, "unread");
    };
    first_line(alloc, &expression, &input)
}

/// The last bytes of an outcome.
pub fn end_of(alloc: Global, outcome: &str) -> Result<String, AllocError> {
    let from = outcome.len().saturating_sub(END);
    match outcome.get(from..) {
        Some(end) => String::from_str(alloc, end),
        None => String::from_str(alloc, outcome),
    }
}
