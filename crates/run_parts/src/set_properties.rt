// Properties of variables' records.
ghost use Rattle.std.specs.Prelude.{◌≡◌, [], ◌∷◌, length, map};
ghost use Rattle.page_code.specs.Ops.{mode_takes};
ghost use Rattle.page_code.specs.declared.operands.PropertyMode.TheVariants as mode;
ghost use Rattle.page_meaning.specs.Beans.{property_of};
ghost use Rattle.page_meaning.specs.Variables.{look_up};
ghost use Rattle.page_meaning.specs.Went.{then_do, result_of};
ghost use Rattle.page_table.specs.Operations.{property_set};
ghost use Rattle.page_table.specs.Seat.{page_run_of};
ghost use Rattle.pg_value.specs.Value.{datum_of};
ghost use Rattle.run_parts.specs.Operations.{ModeHasOnePlace};
ghost use Rattle.run_parts.specs.Properties.{found_property, put_back, written};
ghost use Rattle.run_parts.specs.Records.{AreParamsOf};
ghost use Rattle.run_world.specs.Params.{params_of};
ghost use Rattle.run_values.specs.Properties.{found_of};
ghost use Rattle.run_world.specs.Part.{Doing};
ghost use Rattle.run_world.specs.Seats.{params_at, seat_of};

use crate::param_records::{ParamRecords, param};
use crate::variables::{assign, look_up};
use page_code::{Name, PropertyMode, Shared};
use pg_text::{Failure, Text};
use pg_value::{Record, RunFault, Scope, Value};
use run_values::{
    FoundProperty, changed_all, changed_one, measured_record, property_found, property_of,
    property_replaced, text_of,
};
use run_world::{Params, Seat, World};
use std::alloc::Global;

/// The property of a variable: X14, X5.
pub fn find_property<W: World>(
    name: &Name,
    property: &Text,
    world: &mut W,
) -> Result<FoundProperty, Failure<RunFault>>
    requires covered { W.covered world.old }
    ensures covered { W.covered world.new }
    ensures does { Doing W.reached W.replies found_of (λ place. found_property place name.now property.now)
        world.old world.new result }
{
    let found = look_up(name, world)?;
    property_found(found.0, &found.1, property)
}

// A changed record is measured and written back to its scope: X20, X13, X21, X22.
fn write_record<W: World>(
    scope: Scope,
    name: &Name,
    entries: Record,
    world: &mut W,
) -> Result<(), Failure<RunFault>>
    requires covered { W.covered world.old }
    ensures covered { W.covered world.new }
    ensures does { Doing W.reached W.replies (λ u. u) (λ place. written place scope entries name.now)
        world.old world.new result }
{
    let record = measured_record(entries)?;
    assign(scope, name, record, world)
}

/// The property set to a new value, in its scope: X20, X13, X21, X22.
pub fn write_back<W: World>(
    found: FoundProperty,
    property: &Text,
    new: Value,
    name: &Name,
    world: &mut W,
) -> Result<(), Failure<RunFault>>
    requires covered { W.covered world.old }
    ensures covered { W.covered world.new }
    ensures does { Doing W.reached W.replies (λ u. u) (λ place. put_back place (found_of found) property.now
        (datum_of new) name.now) world.old world.new result }
{
    let FoundProperty {
        scope,
        mut entries,
        ..
    } = found;
    entries.insert(property.copy()?, new)?;
    write_record(scope, name, entries, world)
}

// The property of the variable of a name.
pub(crate) fn get_property<W: World>(
    name: &Name,
    property: &str,
    world: &mut W,
) -> Result<Value, Failure<RunFault>>
    requires covered { W.covered world.old }
    ensures covered { W.covered world.new }
    ensures does { Doing W.reached W.replies datum_of (λ place s. then_do (look_up place name.now s)
        (λ p s1. result_of place (property_of property.now p.1) s1)) world.old world.new result }
{
    let found = look_up(name, world)?;
    property_of(property, &found.1)
}

// Sets an entry of the record of a variable, or removes it by null.
fn set_entry<W: World>(
    alloc: Global,
    name: &Name,
    key: &Value,
    new: &Value,
    world: &mut W,
) -> Result<(), Failure<RunFault>>
    requires covered { W.covered world.old }
    ensures covered { W.covered world.new }
    ensures does { Doing W.reached W.replies (λ u. u) (λ place. property_set place name.now mode.Entry []
        (datum_of key.now ∷ datum_of new.now ∷ [])) world.old world.new result }
{
    let property = Text::copy_of(alloc, text_of(key))?;
    let found = look_up(name, world)?;
    let made = property_replaced(&property, new, &found.1)?;
    assign(found.0, name, made, world)
}

// Sets all properties by the parameters of their names, whose record is kept.
fn set_all<W: World>(
    alloc: Global,
    name: &Name,
    params: &Params,
    kept: &mut ParamRecords,
    world: &mut W,
) -> Result<(), Failure<RunFault>>
    requires covered { W.covered world.old }
    requires kept { AreParamsOf params.now kept.old }
    ensures covered { W.covered world.new }
    ensures kept { AreParamsOf params.now kept.new }
    ensures does { Doing W.reached W.replies (λ u. u)
        (λ place. property_set place name.now mode.Parameters (params_of params.now) []) world.old world.new result }
{
    let values = param(alloc, params, kept)?;
    let found = look_up(name, world)?;
    let changed = changed_all(alloc, &values, &found.1)?;
    write_record(found.0, name, changed, world)
}

/// A property of the variable of a name, with the parameter that sets it.
#[derive(Clone, Copy)]
struct ByParameter<'a> {
    name: &'a Name,
    property: &'a Text,
    parameter: &'a Text,
}

// Sets a property by a parameter, of the record that is kept; one that is empty or absent changes
// nothing.
fn set_one<W: World>(
    alloc: Global,
    setting: &ByParameter,
    params: &Params,
    kept: &mut ParamRecords,
    world: &mut W,
) -> Result<(), Failure<RunFault>>
    requires covered { W.covered world.old }
    requires kept { AreParamsOf params.now kept.old }
    ensures covered { W.covered world.new }
    ensures kept { AreParamsOf params.now kept.new }
    ensures does { Doing W.reached W.replies (λ u. u) (λ place. property_set place setting.now.name.now
        (mode.Parameter setting.now.property.now setting.now.parameter.now) (params_of params.now) [])
        world.old world.new result }
{
    let ByParameter {
        name,
        property,
        parameter,
    } = *setting;
    let values = param(alloc, params, kept)?;
    let found = look_up(name, world)?;
    match changed_one(alloc, &values, property, parameter, &found.1)? {
        Some(changed) => write_record(found.0, name, changed, world),
        None => Ok(()),
    }
}

/// A change of properties of the variable of a name, with the values that it takes.
#[derive(Clone, Copy)]
pub(crate) struct PropertyChange<'a> {
    pub name: &'a Name,
    pub mode: &'a Shared<PropertyMode>,
    pub args: &'a [Value],
}

// Sets properties of the variable of a name, but for one whose value has a place of its own. The
// first values of the parameters are kept.
pub(crate) fn set_property<W: World>(
    alloc: Global,
    seat: &Seat,
    kept: &mut ParamRecords,
    change: &PropertyChange,
    world: &mut W,
) -> Result<(), Failure<RunFault>>
    requires covered { W.covered world.old }
    requires kept { AreParamsOf (params_at seat.now) kept.old }
    requires args { length change.now.args.now ≡ mode_takes change.now.mode.now }
    requires placed { ModeHasOnePlace change.now.mode.now }
    ensures covered { W.covered world.new }
    ensures kept { AreParamsOf (params_at seat.now) kept.new }
    ensures does { Doing W.reached W.replies (λ u. u) (λ place. property_set place change.now.name.now
        change.now.mode.now (page_run_of (seat_of seat.now)).params (map datum_of change.now.args.now))
        world.old world.new result }
{
    let name = change.name;
    match (change.mode.get(), change.args) {
        (PropertyMode::Entry, [key, new]) => set_entry(alloc, name, key, new, world),
        (PropertyMode::Parameters, _) => set_all(alloc, name, seat.params(), kept, world),
        (
            PropertyMode::Parameter {
                property,
                parameter,
            },
            _,
        ) => {
            let setting = ByParameter {
                name,
                property,
                parameter,
            };
            set_one(alloc, &setting, seat.params(), kept, world)
        }
        _ => unreachable!(),
    }
}
