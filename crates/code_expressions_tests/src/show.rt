use page_code::{Cell, Code, Coercion, HeaderObject, Implicit, Instr, Op};
use pg_value::Value;
use std::alloc::{AllocError, Global};

// The cells of a code between semicolons, each with how many values stand before it.
pub(crate) fn show(alloc: Global, code: &Code) -> Result<String, AllocError> {
    let mut out = String::new(alloc);
    for cell in code.as_slice() {
        if !out.is_empty() {
            out.push_str("; ")?;
        }
        show_cell(&mut out, cell)?;
    }
    Ok(out)
}

fn show_cell(out: &mut String, cell: &Cell) -> Result<(), AllocError> {
    write!(out, "{} ", cell.shape.get().values)?;
    match &cell.instr {
        Instr::Op(op) => show_op(out, op),
        Instr::Jump(size) => write!(out, "Jump {size}"),
        Instr::JumpIf(truth, size) => write!(out, "JumpIf {truth} {size}"),
        _ => out.push('?'),
    }
}

fn show_op(out: &mut String, op: &Op) -> Result<(), AllocError> {
    match op {
        Op::Visit(count) => write!(out, "Visit {count}"),
        Op::Const(value) => show_value(out, value),
        Op::Find(name) => write!(out, "Find {}", name.as_text().as_str()),
        Op::Implicit(object) => show_object(out, *object),
        Op::Index => out.push_str("Index"),
        Op::HeaderIndex(HeaderObject::Header) => out.push_str("HeaderIndex"),
        Op::HeaderIndex(HeaderObject::HeaderValues) => out.push_str("HeaderValuesIndex"),
        Op::ScopeIndex(scope) => write!(out, "ScopeIndex {scope:?}"),
        Op::Unary(op) => write!(out, "{op:?}"),
        Op::Binary(op) => write!(out, "{op:?}"),
        Op::Coerce(Coercion::Truth) => out.push_str("ToTruth"),
        Op::Coerce(Coercion::Text) => out.push_str("ToText"),
        Op::MakeList(count) => write!(out, "MakeList {count}"),
        Op::MakeMap(count) => write!(out, "MakeMap {count}"),
        Op::Concat(count) => write!(out, "Concat {count}"),
        Op::Call(function) => write!(out, "Call {function:?}"),
        Op::Pop => out.push_str("Pop"),
        _ => out.push('?'),
    }
}

fn show_object(out: &mut String, object: Implicit) -> Result<(), AllocError> {
    match object {
        Implicit::Param => out.push_str("Object param"),
        Implicit::Scope(scope) => write!(out, "Object {scope:?}"),
        _ => out.push('?'),
    }
}

fn show_value(out: &mut String, value: &Value) -> Result<(), AllocError> {
    match value {
        Value::Null => out.push_str("null"),
        Value::Bool(truth) => write!(out, "{truth}"),
        Value::Int(number) => write!(out, "{number}"),
        Value::Text(text) => write!(out, "'{}'", text.as_str()),
        _ => out.push('?'),
    }
}
