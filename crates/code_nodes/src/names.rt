// The names of attributes and what becomes of them.
ghost use Rattle.std.specs.Prelude.{◌≡◌, ◌++◌, IfOk, OnOk};
ghost use Rattle.code_actions.specs.Evaluations.{coercions};
ghost use Rattle.page_acts.specs.Views.{attributes_of};
ghost use Rattle.page_meaning.specs.Attributes.{evaluated_names, name_of_evaluated};
ghost use Rattle.page_meaning.specs.Beans.{value_place};
ghost use Rattle.code_nodes.specs.Values.{attribute_place, name_of};

use code_actions::Evaluations;
use code_expressions::Evaluation;
use page_acts::ActAttribute;
use pg_text::{Listed, Place, Text};
use std::alloc::{AllocError, Global};

/// The names of the attributes that are evaluated, in this order.
pub(crate) fn evaluated_names(
    alloc: Global,
    evaluations: &Evaluations,
    list: &[ActAttribute],
) -> Result<Listed<Text>, AllocError>
    ensures { IfOk result (λ names. names ≡ evaluated_names (coercions evaluations.now) (attributes_of list.now)) }
{
    let mut names = Listed::empty(alloc);
    for attribute in list {
        add_name(evaluations, name_of(attribute), &mut names)?;
    }
    Ok(names)
}

// Adds a name, where it is that of an evaluated attribute.
fn add_name(
    evaluations: &Evaluations,
    name: &Text,
    names: &mut Listed<Text>,
) -> Result<(), AllocError>
    ensures { OnOk result (names.new ≡ names.old ++ name_of_evaluated (coercions evaluations.now name.now) name.now) }
{
    match evaluations.of(name.as_str()) {
        Evaluation::Unevaluated => Ok(()),
        Evaluation::AsItIs => names.push(name.copy()?),
        Evaluation::To(_) => names.push(name.copy()?),
    }
}

/// The name of an attribute.
pub(crate) fn name_of<'a>(attribute: &'a ActAttribute) -> &'a Text
    ensures { result.now ≡ name_of attribute.now }
{
    match attribute {
        ActAttribute::Written { name, .. } => name,
        ActAttribute::Given { name, .. } => name,
    }
}

// Where the faults of an attribute stand.
fn place_of<'a>(attribute: &'a ActAttribute) -> &'a Place
    ensures { result.now ≡ attribute_place attribute.now }
{
    match attribute {
        ActAttribute::Written { place, .. } => place,
        ActAttribute::Given { place, .. } => place,
    }
}

/// Where the value of `jsp:setProperty` stands, or else its own place.
pub(crate) fn value_place<'a>(list: &'a [ActAttribute], place: &'a Place) -> &'a Place
    ensures { result.now ≡ value_place (attributes_of list.now) place.now }
{
    for attribute in list {
        if name_of(attribute).as_str() == "value" {
            return place_of(attribute);
        }
    }
    place
}
