ghost use Rattle.std.specs.Prelude.{◌≡◌};
ghost use Rattle.std.specs.Option.{option_map};
ghost use Rattle.tag_decl.specs.Declare.{declared};

use crate::attr_decls::AttrDecls;
use pg_text::{Listed, Text};

/// The type of an attribute of a tag file.
#[derive(Clone, Copy, Debug, PartialEq, Eq)]
pub enum AttrKind {
    Text,
    Number,
    Truth,
    Any,
}

/// When a variable of a tag file is copied to its caller.
#[derive(Clone, Copy, Debug, PartialEq, Eq)]
pub enum VarScope {
    Nested,
    AtBegin,
    AtEnd,
}

/// The body that a tag file takes.
#[derive(Clone, Copy, Debug, PartialEq, Eq)]
pub enum BodyKind {
    Scriptless,
    Empty,
    TagDependent,
}

/// An attribute that a tag file declares.
#[derive(Drop)]
pub struct AttrDecl {
    pub name: Text,
    pub required: bool,
    pub fragment: bool,
    /// Whether its value may hold an expression.
    pub expression: bool,
    pub kind: AttrKind,
}

/// A variable that a tag file gives its caller.
#[derive(Drop)]
pub struct VarDecl {
    /// Its name in the tag file.
    pub name: Text,
    /// The attribute whose value is its name at the caller, where it isn't its own.
    pub from: Option<Text>,
    pub scope: VarScope,
}

/// Declarations of variables, in the order written.
pub type VarDecls = Listed<VarDecl>;

/// What the directives of a tag file declare.
#[derive(Drop)]
pub struct TagDecl {
    pub attributes: AttrDecls,
    pub variables: VarDecls,
    pub body: BodyKind,
    /// The name of the record of undeclared attributes, where they are allowed.
    pub dynamic: Option<Text>,
}

/// The declaration of an attribute: the first of that name.
pub fn declared<'a>(decls: &'a AttrDecls, name: &str) -> Option<&'a AttrDecl>
    ensures { option_map (λ decl. decl.now) result ≡ declared name.now decls.now }
{
    decls.first(name)
}
