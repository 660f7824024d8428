// Beans and their properties.
ghost use Rattle.std.specs.Prelude.{◌≡◌, ◌++◌, ◌∷◌, length, map, IfOk, codes};
ghost use Rattle.el_ops.specs.Indexing.{or_null};
ghost use Rattle.page_acts.specs.Views.{property_of};
ghost use Rattle.page_code.specs.Shapes.{cell};
ghost use Rattle.page_code.specs.declared.instr.Instr.TheVariants as instr;
ghost use Rattle.page_code.specs.declared.op.Op.TheVariants as op;
ghost use Rattle.page_code.specs.declared.operands.Coercion.TheVariants as coercion;
ghost use Rattle.page_code.specs.declared.operands.PropertyMode.TheVariants as mode;
ghost use Rattle.code_forms.specs.Codes.{arranged_code, form_code};
ghost use Rattle.code_forms.specs.Forms.{both, does};
ghost use Rattle.code_lowering.specs.Expressions.{coerces, constant};
ghost use Rattle.code_lowering.specs.Lowering.{has, property_form, scoped};
ghost use Rattle.pg_value.specs.Attrs.{entry_at};
ghost use Rattle.pg_value.specs.Datum.{text};
ghost use Rattle.pg_value.specs.Value.{value_of};

use crate::arranging::arranged_before;
use crate::names::has;
use crate::outputs::put_as_text;
use crate::variables::{name_of, scoped};
use code_expressions::constant;
use code_forms::{ensured, joined, operation};
use page_acts::Property;
use page_code::{Bean, Code, Op, PropertyMode, Shape, Shared};
use pg_text::{Listed, Place, Text};
use pg_value::{Attrs, Scope, Value};
use std::alloc::{AllocError, Global};

/// `jsp:useBean`, apart from its body.
#[derive(Clone, Copy)]
pub struct UseBean<'a> {
    pub name: &'a Text,
    pub scope: Scope,
    pub class: &'a Text,
}

/// The code of `jsp:useBean` among these beans. The part runs where the bean was made.
pub fn use_bean(
    alloc: Global,
    ground: &Shape,
    place: &Place,
    beans: &Attrs,
    action: &UseBean,
    part: Code,
) -> Result<Code, AllocError>
    ensures { IfOk result (λ code. code ≡ cell ground.now place.now
        (instr.Ensure (scoped action.now.scope action.now.name.now)
        (value_of (or_null (entry_at action.now.class.now beans.now))) (length part)) ∷ part) }
{
    let bean = bean_of(beans, action.class.as_str())?;
    let variable = scoped(action.scope, action.name)?;
    ensured(alloc, ground, place, variable, bean, part)
}

// The bean of a class. One over the limits of a value, as no bean that was read is, is answered as
// if memory ran out.
#[tactic(auto, using(code_expressions::proofs::ValueLemmas::inverses))]
fn bean_of(beans: &Attrs, class: &str) -> Result<Bean, AllocError>
    ensures { IfOk result (λ bean. bean ≡ value_of (or_null (entry_at class.now beans.now))) }
{
    let value = match beans.get(class) {
        Some(value) => value.copy()?,
        None => Value::Null,
    };
    match Bean::new(value) {
        Some(bean) => Ok(bean),
        None => Err(AllocError),
    }
}

/// The code of `jsp:getProperty`.
pub fn get_property(
    alloc: Global,
    ground: &Shape,
    place: &Place,
    name: &Text,
    property: &Text,
) -> Result<Code, AllocError>
    ensures { IfOk result (λ code. code
        ≡ form_code ground.now (both (constant place.now (text property.now))
        (both (does (op.GetProperty name.now) place.now) (both (coerces coercion.Text place.now)
        (does op.Put place.now))))) }
{
    let property = constant(alloc, ground, place, Value::Text(property.copy()?))?;
    joined(property, got_and_put(alloc, ground, place, name)?)
}

// The code that writes the property of a bean whose name stands on top.
fn got_and_put(
    alloc: Global,
    ground: &Shape,
    place: &Place,
    name: &Text,
) -> Result<Code, AllocError>
    ensures { IfOk result (λ code. code ≡ form_code ground.now
        (both (does (op.GetProperty name.now) place.now) (both (coerces coercion.Text place.now)
        (does op.Put place.now)))) }
{
    let got = operation(alloc, ground, place, Op::GetProperty(name_of(name)?))?;
    joined(got, put_as_text(alloc, ground, place)?)
}

/// `jsp:setProperty`, apart from its attributes. The faults of its value stand at a place of their
/// own.
#[derive(Clone, Copy)]
pub struct SetProperty<'a> {
    pub name: &'a Text,
    pub property: &'a Property,
    pub value_place: &'a Place,
}

/// The code of `jsp:setProperty`, behind the values of its attributes.
pub fn set_property(
    alloc: Global,
    ground: &Shape,
    place: &Place,
    action: &SetProperty,
    names: &Listed<Text>,
) -> Result<Code, AllocError>
    ensures { IfOk result (λ code. code ≡ form_code ground.now
        (property_form place.now action.now.name.now (property_of action.now.property.now)
        action.now.value_place.now (has (codes "value") names.now) names.now)) }
{
    match action.property {
        Property::Every => {
            let op = setting(alloc, action.name, PropertyMode::Parameters)?;
            arranged_for(alloc, ground, place, op, &[], names)
        }
        Property::One {
            property,
            parameter,
        } => {
            if has(names.as_slice(), "value") {
                let op = setting(alloc, action.name, by_value(property, action.value_place)?)?;
                arranged_for(alloc, ground, place, op, &["value"], names)
            } else {
                let op = setting(alloc, action.name, by_parameter(property, parameter)?)?;
                arranged_for(alloc, ground, place, op, &[], names)
            }
        }
    }
}

// A property is set to a value, whose faults stand at this place.
fn by_value(property: &Text, place: &Place) -> Result<PropertyMode, AllocError>
    ensures { IfOk result (λ made. made ≡ mode.Value property.now place.now) }
{
    Ok(PropertyMode::Value {
        property: property.copy()?,
        place: place.copy()?,
    })
}

// A property is set to a parameter of the request.
fn by_parameter(property: &Text, parameter: &Text) -> Result<PropertyMode, AllocError>
    ensures { IfOk result (λ made. made ≡ mode.Parameter property.now parameter.now) }
{
    Ok(PropertyMode::Parameter {
        property: property.copy()?,
        parameter: parameter.copy()?,
    })
}

/// The operation that sets properties of the bean with this name.
pub(crate) fn setting(alloc: Global, name: &Text, mode: PropertyMode) -> Result<Op, AllocError>
    ensures { IfOk result (λ made. made ≡ op.SetProperty name.now mode) }
{
    Ok(Op::SetProperty(name_of(name)?, Shared::new(alloc, mode)?))
}

// The code of an operation on these of the values.
fn arranged_for(
    alloc: Global,
    ground: &Shape,
    place: &Place,
    op: Op,
    wanted: &[&str],
    names: &Listed<Text>,
) -> Result<Code, AllocError>
    ensures { IfOk result (λ code. code ≡ arranged_code ground.now place.now
        (map (λ name. name.now) wanted.now) names.now 0 ++ form_code ground.now (does op place.now)) }
{
    let behind = operation(alloc, ground, place, op)?;
    arranged_before(alloc, ground, place, wanted, names, behind)
}
