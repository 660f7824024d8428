use crate::name::Name;
use crate::operands::{Coercion, HeaderObject, Implicit, PropertyMode, ScopedName};
use crate::shared::Shared;
use pg_text::Text;
use pg_value::{BinOp, Function, Scope, UnOp, Value};

/// An operation that takes values from the top of the stack, leaves one or none, and goes on with
/// the next cell.
#[derive(Drop)]
pub enum Op {
    /// Writes a text.
    Write(Text),
    /// Writes the text on top.
    Put,
    /// Writes the text on top with `<`, `>`, `&` and the two quotes escaped.
    PutEscaped,
    /// Counts so many visits.
    Visit(u32),
    Const(Value),
    /// The variable of this name.
    Find(Name),
    Implicit(Implicit),
    /// The entry of the lower value under the upper one.
    Index,
    /// The entry of such an object under the key on top.
    HeaderIndex(HeaderObject),
    /// The variable of a scope whose name is on top.
    ScopeIndex(Scope),
    Unary(UnOp),
    Binary(BinOp),
    Coerce(Coercion),
    /// A list of so many values.
    MakeList(usize),
    /// A record of so many pairs, each key below its value.
    MakeMap(usize),
    /// So many texts joined.
    Concat(usize),
    /// A function, of as many values as it has arguments.
    Call(Function),
    /// An address with so many parameters, each name below its value, and the address below them.
    Url(usize),
    Pop,
    SetVar(ScopedName),
    RemoveVar(ScopedName),
    /// Removes the variables of this name from all scopes.
    RemoveAll(Name),
    /// Sets properties of the variable of this name.
    SetProperty(Name, Shared<PropertyMode>),
    /// The property on top of the variable of this name.
    GetProperty(Name),
}
