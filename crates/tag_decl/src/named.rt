ghost use Rattle.std.specs.Prelude.{◌≡◌, map};
ghost use Rattle.std.specs.Option.{option_map};
ghost use Rattle.tag_decl.specs.Declare.{bodies, kind_in, named_or, types, var_scopes};
ghost use Rattle.page_directives.specs.Directive.{row_of};

use crate::declaration::{AttrKind, BodyKind, VarScope};
use page_pieces::{Attributes, has_name};

static TYPES: [(&str, AttrKind); 8] = [
    ("java.lang.String", AttrKind::Text),
    ("java.lang.Long", AttrKind::Number),
    ("java.lang.Integer", AttrKind::Number),
    ("java.lang.Boolean", AttrKind::Truth),
    ("java.lang.Object", AttrKind::Any),
    ("java.util.List", AttrKind::Any),
    ("java.util.Collection", AttrKind::Any),
    ("java.util.Map", AttrKind::Any),
];

// The types of attributes.
fn types() -> &'static [(&'static str, AttrKind)]
    ensures { map (λ row. (row.0.now, row.1)) result.now ≡ types }
{
    &TYPES
}

// The row of a name.
fn row_of(name: &str, table: &[(&str, AttrKind)]) -> Option<AttrKind>
    ensures { result ≡ row_of name.now (map (λ row. (row.0.now, row.1)) table.now) }
{
    for (row, kind) in table {
        if *row == name {
            return Some(*kind);
        }
    }
    None
}

// The type that a value names, or else any.
fn kind_or_any(value: Option<&str>) -> AttrKind
    ensures { result ≡ named_or AttrKind.Any types (option_map (λ text. text.now) value.entry) }
{
    match value {
        Some(name) => row_of(name, types()).unwrap_or(AttrKind::Any),
        None => AttrKind::Any,
    }
}

// The type of an attribute.
pub(crate) fn kind_in(attributes: &Attributes) -> AttrKind
    ensures { result ≡ kind_in attributes.now }
{
    if has_name(attributes.as_slice(), "type") {
        kind_or_any(attributes.plain("type"))
    } else {
        AttrKind::Text
    }
}

// The scope that a value names, or else that of the body alone.
pub(crate) fn scope_or_nested(value: Option<&str>) -> VarScope
    ensures { result ≡ named_or VarScope.Nested var_scopes (option_map (λ text. text.now) value.entry) }
{
    match value {
        Some("NESTED") => VarScope::Nested,
        Some("AT_BEGIN") => VarScope::AtBegin,
        Some("AT_END") => VarScope::AtEnd,
        _ => VarScope::Nested,
    }
}

// The body that a value names, or else one without scripts.
pub(crate) fn body_or_scriptless(value: Option<&str>) -> BodyKind
    ensures { result ≡ named_or BodyKind.Scriptless bodies (option_map (λ text. text.now) value.entry) }
{
    match value {
        Some("scriptless") => BodyKind::Scriptless,
        Some("empty") => BodyKind::Empty,
        Some("tagdependent") => BodyKind::TagDependent,
        _ => BodyKind::Scriptless,
    }
}
