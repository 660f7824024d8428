use crate::name::Name;
use pg_text::{Listed, Place, Text};
use pg_value::Scope;

/// What a value becomes. The forms with `OrNull` leave null as it is.
#[derive(Clone, Copy, Debug, PartialEq, Eq)]
pub enum Coercion {
    Text,
    TextOrNull,
    Number,
    NumberOrNull,
    Truth,
    TruthOrNull,
}

/// An implicit object that has the request's fields by their names.
#[derive(Clone, Copy, Debug, PartialEq, Eq)]
pub enum HeaderObject {
    /// The first value of each field.
    Header,
    /// All values of each field.
    HeaderValues,
}

/// An implicit object of the expression language.
#[derive(Clone, Copy, Debug, PartialEq, Eq)]
pub enum Implicit {
    PageContext,
    /// `pageScope` and its kin.
    Scope(Scope),
    Param,
    ParamValues,
    Header(HeaderObject),
    Cookie,
    InitParam,
}

/// A variable of a scope.
#[derive(Drop)]
pub struct ScopedName {
    pub scope: Scope,
    pub name: Name,
}

/// How the properties of a record are set.
#[derive(Drop)]
pub enum PropertyMode {
    /// One entry. The values are the property and what stands under it, on top.
    Entry,
    /// Each property that a parameter of the page names.
    Parameters,
    /// One property, by the value on top. The faults of that value stand at a place of their own.
    Value { property: Text, place: Place },
    /// One property, by a parameter of the page.
    Parameter { property: Text, parameter: Text },
}

/// What a loop goes over.
#[derive(Clone, Copy, Debug, PartialEq, Eq)]
pub enum Over {
    Numbers,
    Items,
    /// The pieces of a text between delimiters.
    Tokens,
}

/// A loop: what it goes over, the attributes whose values it takes, in the order in which they were
/// pushed, and its two variables in page scope.
#[derive(Drop)]
pub struct LoopKind {
    pub over: Over,
    pub names: Listed<Text>,
    pub variable: Option<Name>,
    pub status: Option<Name>,
}
