// Names: implicit objects and variables.
ghost use Rattle.std.specs.Prelude.{◌≡◌, option_map, Some, IfOk};
ghost use Rattle.el_reader.specs.El.{tree_of};
ghost use Rattle.el_reader.specs.Tree.{name as named};
ghost use Rattle.code_expressions.specs.Objects.{entry_code};
ghost use Rattle.page_code.specs.declared.op.Op.TheVariants as op;
ghost use Rattle.code_forms.specs.Codes.{form_code};
ghost use Rattle.code_forms.specs.Forms.{does};
ghost use Rattle.code_lowering.specs.Expressions.{entry_form, name_form, object_of};
ghost use Rattle.page_meaning.specs.Expressions.{keyed_object};
ghost use Rattle.page_meaning.specs.Implicit.{implicit_named};

use code_forms::operation;
use el_reader::El;
use page_code::{Code, HeaderObject, Implicit, Name, Op, Shape};
use pg_text::{Place, Text};
use pg_value::Scope;
use std::alloc::{AllocError, Global};

/// The code of a name alone: an implicit object or a variable.
pub(crate) fn name(
    alloc: Global,
    ground: &Shape,
    place: &Place,
    name: &Text,
) -> Result<Code, AllocError>
    ensures { IfOk result (λ code. code ≡ form_code ground.now
        (name_form place.now name.now (implicit_named name.now))) }
{
    match implicit_named(name.as_str()) {
        Some(object) => operation(alloc, ground, place, Op::Implicit(object)),
        None => variable(alloc, ground, place, name),
    }
}

// The code of a variable. A name that is too long for a code is answered as if memory ran out.
fn variable(alloc: Global, ground: &Shape, place: &Place, name: &Text) -> Result<Code, AllocError>
    ensures { IfOk result (λ code. code ≡ form_code ground.now (does (op.Find name.now) place.now)) }
{
    let Some(name) = Name::new(name.copy()?) else {
        return Err(AllocError);
    };
    operation(alloc, ground, place, Op::Find(name))
}

/// The code of the entry, under the key on top, of the implicit object that an expression names.
/// None where it names no object of which an index takes one entry alone.
pub(crate) fn entry(
    alloc: Global,
    ground: &Shape,
    place: &Place,
    value: &El,
) -> Result<Option<Code>, AllocError>
    ensures { IfOk result (λ entry. entry ≡ option_map
        (λ object. form_code ground.now (entry_form place.now object)) (keyed_object (tree_of value.now))) }
{
    match value {
        El::Name(name) => entry_named(alloc, ground, place, name.as_str()),
        El::Literal(_) => Ok(None),
        El::Call { .. } => Ok(None),
        El::List(_) => Ok(None),
        El::Map(_) => Ok(None),
        El::Index(..) => Ok(None),
        El::Unary(..) => Ok(None),
        El::Binary(..) => Ok(None),
        El::Choice(..) => Ok(None),
    }
}

// The same of a name.
fn entry_named(
    alloc: Global,
    ground: &Shape,
    place: &Place,
    name: &str,
) -> Result<Option<Code>, AllocError>
    ensures { IfOk result (λ entry. entry ≡ option_map
        (λ object. form_code ground.now (entry_form place.now object)) (keyed_object (named name.now))) }
{
    match implicit_named(name) {
        Some(object) => entry_of(alloc, ground, place, object),
        None => Ok(None),
    }
}

// The same of an object.
fn entry_of(
    alloc: Global,
    ground: &Shape,
    place: &Place,
    object: Implicit,
) -> Result<Option<Code>, AllocError>
    ensures { IfOk result (λ entry. entry ≡ entry_code ground.now place.now (Some object)) }
{
    let entry = match object {
        Implicit::Scope(scope) => operation(alloc, ground, place, Op::ScopeIndex(scope))?,
        Implicit::Header(part) => operation(alloc, ground, place, Op::HeaderIndex(part))?,
        Implicit::PageContext => return Ok(None),
        Implicit::Param => return Ok(None),
        Implicit::ParamValues => return Ok(None),
        Implicit::Cookie => return Ok(None),
        Implicit::InitParam => return Ok(None),
    };
    Ok(Some(entry))
}

// The implicit object of this name.
fn implicit_named(name: &str) -> Option<Implicit>
    ensures { result ≡ option_map object_of (implicit_named name.now) }
{
    match name {
        "pageContext" => Some(Implicit::PageContext),
        "pageScope" => Some(Implicit::Scope(Scope::Page)),
        "requestScope" => Some(Implicit::Scope(Scope::Request)),
        "sessionScope" => Some(Implicit::Scope(Scope::Session)),
        "applicationScope" => Some(Implicit::Scope(Scope::Application)),
        "param" => Some(Implicit::Param),
        "paramValues" => Some(Implicit::ParamValues),
        "header" => Some(Implicit::Header(HeaderObject::Header)),
        "headerValues" => Some(Implicit::Header(HeaderObject::HeaderValues)),
        "cookie" => Some(Implicit::Cookie),
        "initParam" => Some(Implicit::InitParam),
        _ => None,
    }
}
