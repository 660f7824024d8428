// What actions do to variables.
ghost use Rattle.std.specs.Prelude.{◌≡◌, IfOk, option_map};
ghost use Rattle.page_acts.specs.Views.{variable_of};
ghost use Rattle.page_code.specs.declared.op.Op.TheVariants as op;
ghost use Rattle.code_forms.specs.Codes.{form_code};
ghost use Rattle.code_forms.specs.Forms.{does};
ghost use Rattle.code_lowering.specs.Lowering.{keeps_fault, removes, scoped, sets, sets_given};
ghost use Rattle.code_lowering.specs.Lowering.{sets_or_removes};
ghost use Rattle.pg_value.specs.Datum.{truth};
ghost use Rattle.pg_value.specs.declared.scope.Scope.TheVariants as scope;

use crate::parting::where_null_above;
use code_expressions::constant;
use code_forms::{joined, operation};
use page_acts::Variable;
use page_code::{Code, Name, Op, ScopedName, Shape};
use pg_text::{Place, Text};
use pg_value::{Scope, Value};
use std::alloc::{AllocError, Global};

/// The name of a variable. One with more bytes than a name may have is answered as if memory ran
/// out.
pub(crate) fn name_of(text: &Text) -> Result<Name, AllocError>
    ensures { IfOk result (λ name. name ≡ text.now) }
{
    let Some(name) = Name::new(text.copy()?) else {
        return Err(AllocError);
    };
    Ok(name)
}

/// The same, where there is one.
pub(crate) fn name_if_given(text: &Option<Text>) -> Result<Option<Name>, AllocError>
    ensures { IfOk result (λ name. name ≡ text.now) }
{
    match text {
        Some(text) => Ok(Some(name_of(text)?)),
        None => Ok(None),
    }
}

/// A variable of a scope.
pub(crate) fn scoped(scope: Scope, name: &Text) -> Result<ScopedName, AllocError>
    ensures { IfOk result (λ made. made ≡ scoped scope name.now) }
{
    Ok(ScopedName {
        scope,
        name: name_of(name)?,
    })
}

/// The code that sets a variable to the value on top; in page scope where no scope is given.
pub(crate) fn sets(
    alloc: Global,
    ground: &Shape,
    place: &Place,
    variable: &Variable,
) -> Result<Code, AllocError>
    ensures { IfOk result (λ code. code ≡ form_code ground.now (sets place.now (variable_of variable.now))) }
{
    let scope = match variable.scope {
        Some(scope) => scope,
        None => Scope::Page,
    };
    let name = scoped(scope, &variable.name)?;
    operation(alloc, ground, place, Op::SetVar(name))
}

/// The code that sets a variable to a truth value, where one is given.
pub(crate) fn sets_given(
    alloc: Global,
    ground: &Shape,
    place: &Place,
    variable: &Option<Variable>,
    value: bool,
) -> Result<Code, AllocError>
    ensures { IfOk result (λ code. code ≡ form_code ground.now
        (sets_given place.now (option_map variable_of variable.now) (truth value))) }
{
    match variable {
        Some(variable) => {
            let value = constant(alloc, ground, place, Value::Bool(value))?;
            joined(value, sets(alloc, ground, place, variable)?)
        }
        None => Ok(Code::new(alloc)),
    }
}

/// The code of `c:remove`: of the scope that is given, or else of all.
pub fn remove(
    alloc: Global,
    ground: &Shape,
    place: &Place,
    variable: &Variable,
) -> Result<Code, AllocError>
    ensures { IfOk result (λ code. code ≡ form_code ground.now
        (removes place.now (variable_of variable.now).scope (variable_of variable.now).name)) }
{
    match variable.scope {
        Some(scope) => {
            let name = scoped(scope, &variable.name)?;
            operation(alloc, ground, place, Op::RemoveVar(name))
        }
        None => removes_all(alloc, ground, place, &variable.name),
    }
}

/// The code that sets a variable to the value on top, or removes it where that is null; in all
/// scopes where none is given.
pub(crate) fn sets_or_removes(
    alloc: Global,
    ground: &Shape,
    place: &Place,
    variable: &Variable,
) -> Result<Code, AllocError>
    ensures { IfOk result (λ code. code ≡ form_code ground.now
        (sets_or_removes place.now (variable_of variable.now).scope (variable_of variable.now).name)) }
{
    match variable.scope {
        Some(scope) => {
            let name = scoped(scope, &variable.name)?;
            operation(alloc, ground, place, Op::SetVar(name))
        }
        None => {
            let absent = removes_all(alloc, ground, place, &variable.name)?;
            let present = sets_in_page(alloc, ground, place, &variable.name)?;
            where_null_above(alloc, ground, 1, place, absent, present)
        }
    }
}

/// The code that keeps the record of a fault in the variable of a catch, where it has one.
pub(crate) fn keeps_fault(
    alloc: Global,
    ground: &Shape,
    place: &Place,
    variable: &Option<Text>,
) -> Result<Code, AllocError>
    ensures { IfOk result (λ code. code ≡ form_code ground.now (keeps_fault place.now variable.now)) }
{
    match variable {
        Some(name) => sets_in_page(alloc, ground, place, name),
        None => operation(alloc, ground, place, Op::Pop),
    }
}

// The code that removes the variables of this name from all scopes.
fn removes_all(
    alloc: Global,
    ground: &Shape,
    place: &Place,
    name: &Text,
) -> Result<Code, AllocError>
    ensures { IfOk result (λ code. code ≡ form_code ground.now (does (op.RemoveAll name.now) place.now)) }
{
    operation(alloc, ground, place, Op::RemoveAll(name_of(name)?))
}

// The code that sets a variable of page scope to the value on top.
fn sets_in_page(
    alloc: Global,
    ground: &Shape,
    place: &Place,
    name: &Text,
) -> Result<Code, AllocError>
    ensures { IfOk result (λ code. code ≡ form_code ground.now
        (does (op.SetVar (scoped scope.Page name.now)) place.now)) }
{
    let name = scoped(Scope::Page, name)?;
    operation(alloc, ground, place, Op::SetVar(name))
}
