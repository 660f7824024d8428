// The operations by their words.
use crate::accepted::{name, place, text};
use page_code::{Coercion, HeaderObject, Implicit, Op, PropertyMode, ScopedName, Shared};
use pg_value::{BinOp, Function, Scope, UnOp, Value};
use std::alloc::Global;
use std::test::Fail;

/// The operation of this word.
pub fn operation(alloc: Global, word: &str) -> Result<Op, Fail> {
    match word {
        "Push" => Ok(Op::Const(Value::Null)),
        "Pop" => Ok(Op::Pop),
        "Visit" => Ok(Op::Visit(1)),
        "Put" => Ok(Op::Put),
        "PutEscaped" => Ok(Op::PutEscaped),
        "MakeList" => Ok(Op::MakeList(3)),
        "MakeMap" => Ok(Op::MakeMap(2)),
        "Concat" => Ok(Op::Concat(0)),
        _ => of_values(alloc, word),
    }
}

// What takes values and leaves one, or else an operation on variables or properties.
fn of_values(alloc: Global, word: &str) -> Result<Op, Fail> {
    match word {
        "Implicit" => Ok(Op::Implicit(Implicit::Cookie)),
        "Index" => Ok(Op::Index),
        "HeaderIndex" => Ok(Op::HeaderIndex(HeaderObject::Header)),
        "ScopeIndex" => Ok(Op::ScopeIndex(Scope::Application)),
        "Unary" => Ok(Op::Unary(UnOp::Not)),
        "Binary" => Ok(Op::Binary(BinOp::Add)),
        "Coerce" => Ok(Op::Coerce(Coercion::Text)),
        "Call" => Ok(Op::Call(Function::Replace)),
        "Url" => Ok(Op::Url(1)),
        _ => of_variables(alloc, word),
    }
}

fn of_variables(alloc: Global, word: &str) -> Result<Op, Fail> {
    match word {
        "Write" => Ok(Op::Write(text(alloc)?)),
        "Find" => Ok(Op::Find(name(alloc)?)),
        "SetVar" => Ok(Op::SetVar(scoped(alloc)?)),
        "RemoveVar" => Ok(Op::RemoveVar(scoped(alloc)?)),
        "RemoveAll" => Ok(Op::RemoveAll(name(alloc)?)),
        _ => of_properties(alloc, word),
    }
}

fn of_properties(alloc: Global, word: &str) -> Result<Op, Fail> {
    match word {
        "GetProperty" => Ok(Op::GetProperty(name(alloc)?)),
        "SetEntry" => set_property(alloc, PropertyMode::Entry),
        "SetProperty" => set_property(alloc, value_mode(alloc)?),
        "SetParameters" => set_property(alloc, PropertyMode::Parameters),
        _ => Err(Fail::new("there is no such instruction")),
    }
}

fn set_property(alloc: Global, mode: PropertyMode) -> Result<Op, Fail> {
    let mode = Shared::new(alloc, mode)?;
    Ok(Op::SetProperty(name(alloc)?, mode))
}

fn value_mode(alloc: Global) -> Result<PropertyMode, Fail> {
    let property = text(alloc)?;
    let place = place(alloc)?;
    Ok(PropertyMode::Value { property, place })
}

/// The name in the scope of the page.
pub fn scoped(alloc: Global) -> Result<ScopedName, Fail> {
    Ok(ScopedName {
        scope: Scope::Page,
        name: name(alloc)?,
    })
}
