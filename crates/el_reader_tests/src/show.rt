use el_reader::{El, Els, Value};
use std::alloc::AllocError;

// The tree of an expression: an operator stands before its parts in parentheses, and a text in
// quotes.
#[cycle(show)]
pub(crate) fn show(out: &mut String, el: &El) -> Result<(), AllocError> {
    match el {
        El::Literal(value) => show_value(out, value),
        El::Name(name) => out.push_str(name.as_str()),
        El::Call { prefix, name, args } => {
            write!(out, "({}:{}", prefix.as_str(), name.as_str())?;
            show_all(out, args)?;
            out.push(')')
        }
        El::List(items) => {
            out.push_str("[")?;
            show_all(out, items)?;
            out.push_str(" ]")
        }
        El::Map(pairs) => {
            out.push('{')?;
            for (key, value) in pairs {
                out.push(' ')?;
                show(out, key)?;
                out.push(':')?;
                show(out, value)?;
            }
            out.push_str(" }")
        }
        El::Index(value, key) => {
            out.push_str("(at ")?;
            show(out, value)?;
            out.push(' ')?;
            show(out, key)?;
            out.push(')')
        }
        El::Unary(op, part) => {
            write!(out, "({op:?} ")?;
            show(out, part)?;
            out.push(')')
        }
        El::Binary(op, left, right) => {
            write!(out, "({op:?} ")?;
            show(out, left)?;
            out.push(' ')?;
            show(out, right)?;
            out.push(')')
        }
        El::Choice(condition, one, other) => {
            out.push_str("(if ")?;
            show(out, condition)?;
            out.push(' ')?;
            show(out, one)?;
            out.push(' ')?;
            show(out, other)?;
            out.push(')')
        }
    }
}

#[cycle(show)]
fn show_all(out: &mut String, parts: &Els) -> Result<(), AllocError> {
    for part in parts {
        out.push(' ')?;
        show(out, part)?;
    }
    Ok(())
}

fn show_value(out: &mut String, value: &Value) -> Result<(), AllocError> {
    match value {
        Value::Null => out.push_str("null"),
        Value::Bool(truth) => write!(out, "{truth}"),
        Value::Int(number) => write!(out, "{number}"),
        Value::Text(text) => write!(out, "'{}'", text.as_str()),
        _ => out.push('?'),
    }
}
