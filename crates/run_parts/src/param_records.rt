// The records of parameters, each made when a page run first looks at it: of an included page's, by
// putting its own into those of the page that includes it.
ghost use Rattle.std.specs.Prelude.{◌≡◌, ◌++◌, List, map, option_map, IfOk, OnOk};
ghost use Rattle.http_in.specs.declared.params.Param.{Param as Param'};
ghost use Rattle.page_meaning.specs.Request.{all_values, first_values, items_under};
ghost use Rattle.pg_value.specs.Datum.{item_list};
ghost use Rattle.pg_value.specs.Value.{datum_of};
ghost use Rattle.run_parts.specs.Records.{AreParamsOf, list_before};
ghost use Rattle.run_world.specs.Params.{params_of};
ghost use Rattle.run_world.specs.declared.params.Params.{Params as Params'};

use crate::targets::all_params;
use http_in::Param;
use pg_value::{Record, Value, Values};
use run_values::{all_values, first_values};
use run_world::Params;
use std::alloc::{AllocError, Global};

/// So many entries may stand in one list, all of which are copied where one is put into a copy.
const MANY: usize = 256;

/// The records of the parameters that a page run has looked at: with the first value of each name,
/// and with the list of its values.
#[derive(Drop)]
pub struct ParamRecords {
    pub param: Option<Record>,
    pub param_values: Option<Record>,
    /// Those of the page that includes this one, where it has parameters of its own.
    pub outer: Option<Box<ParamRecords>>,
}

impl ParamRecords {
    // None is made yet.
    pub(crate) fn none() -> Self
        ensures { (params : Params') → AreParamsOf params result }
    {
        ParamRecords {
            param: None,
            param_values: None,
            outer: None,
        }
    }

    // Has many entries stand in blocks, of which one that is put into a copy copies one.
    pub(crate) fn come_into_blocks(&mut self) -> Result<(), AllocError>
        ensures { self.new ≡ self.old }
    {
        if let Some(made) = &mut self.param {
            come_into_blocks(made)?;
        }
        if let Some(made) = &mut self.param_values {
            come_into_blocks(made)?;
        }
        Ok(())
    }
}

// Has many entries stand in blocks: the first is put again where it stands.
fn come_into_blocks(made: &mut Record) -> Result<(), AllocError>
    ensures { made.new ≡ made.old }
{
    let list = made.entries_from(0);
    if list.len() <= MANY {
        return Ok(());
    }
    let (name, value) = &list[0];
    let name = name.copy()?;
    let value = value.copy()?;
    made.insert(name, value)
}

// Each parameter's name with the first of its values.
pub(crate) fn param(
    alloc: Global,
    params: &Params,
    kept: &mut ParamRecords,
) -> Result<Record, AllocError>
    requires kept { AreParamsOf params.now kept.old }
    ensures made { IfOk result (λ made. made ≡ first_values (params_of params.now)) }
    ensures kept { AreParamsOf params.now kept.new }
{
    if let Some(record) = &kept.param {
        return record.copy();
    }
    let made = match (params, &mut kept.outer) {
        (Params::Before(own, rest), Some(outer)) => {
            with_first_values(alloc, param(alloc, rest, outer)?, own)?
        }
        _ => make_param(alloc, params)?,
    };
    kept.param = Some(made.copy()?);
    Ok(made)
}

// The record of parameters with the first value of each name. More lists than one are copied into
// one first.
#[inline(never)]
fn make_param(alloc: Global, params: &Params) -> Result<Record, AllocError>
    ensures { IfOk result (λ made. made ≡ first_values (params_of params.now)) }
{
    let entries = match params {
        Params::Listed(own) => first_values(alloc, own)?,
        params => first_values(alloc, all_params(alloc, params)?.as_slice())?,
    };
    Record::new(entries)
}

// The record of first values with those of parameters in front put into it.
#[inline(never)]
fn with_first_values(alloc: Global, outer: Record, own: &[Param]) -> Result<Record, AllocError>
    ensures { (rest : List Param') → outer ≡ first_values rest →
        IfOk result (λ made. made ≡ first_values (own.now ++ rest)) }
{
    let mut made = outer;
    for (name, value) in first_values(alloc, own)?.into_vec() {
        made.insert(name, value)?;
    }
    Ok(made)
}

// Each parameter's name with the list of its values.
pub(crate) fn param_values(
    alloc: Global,
    params: &Params,
    kept: &mut ParamRecords,
) -> Result<Record, AllocError>
    requires kept { AreParamsOf params.now kept.old }
    ensures made { IfOk result (λ made. made ≡ all_values (params_of params.now)) }
    ensures kept { AreParamsOf params.now kept.new }
{
    if let Some(record) = &kept.param_values {
        return record.copy();
    }
    let made = match (params, &mut kept.outer) {
        (Params::Before(own, rest), Some(outer)) => {
            with_all_values(alloc, param_values(alloc, rest, outer)?, own)?
        }
        _ => make_param_values(alloc, params)?,
    };
    kept.param_values = Some(made.copy()?);
    Ok(made)
}

// The record of parameters with the list of the values of each name. More lists than one are copied
// into one first.
#[inline(never)]
fn make_param_values(alloc: Global, params: &Params) -> Result<Record, AllocError>
    ensures { IfOk result (λ made. made ≡ all_values (params_of params.now)) }
{
    let entries = match params {
        Params::Listed(own) => all_values(alloc, own)?,
        params => all_values(alloc, all_params(alloc, params)?.as_slice())?,
    };
    Record::new(entries)
}

// The record of lists with the values of parameters in front put before those of their names.
#[inline(never)]
fn with_all_values(alloc: Global, outer: Record, own: &[Param]) -> Result<Record, AllocError>
    ensures { (rest : List Param') → outer ≡ all_values rest →
        IfOk result (λ made. made ≡ all_values (own.now ++ rest)) }
{
    let mut made = outer;
    for (name, values) in all_values(alloc, own)?.into_vec() {
        let list = list_before(alloc, &values, made.get(name.as_str()))?;
        made.insert(name, list)?;
    }
    Ok(made)
}

// The list of the items of one list, and of those of another, where there is one.
fn list_before(alloc: Global, own: &Value, outer: Option<&Value>) -> Result<Value, AllocError>
    ensures { IfOk result (λ made. datum_of made
        ≡ list_before (datum_of own.now) (option_map (λ value. datum_of value.now) outer.entry)) }
{
    let mut items = Vec::new(alloc);
    add_items(&mut items, Some(own))?;
    add_items(&mut items, outer)?;
    Ok(Value::List(Values::new(items)?))
}

// Puts copies of the items of a list, where there is one, behind others.
fn add_items(items: &mut Vec<Value>, list: Option<&Value>) -> Result<(), AllocError>
    ensures { OnOk result (map datum_of items.new.items ≡ map datum_of items.old.items
        ++ item_list (items_under (option_map (λ value. datum_of value.now) list.entry))) }
{
    if let Some(Value::List(list)) = list {
        for item in list.as_slice() {
            items.push(item.copy()?)?;
        }
    }
    Ok(())
}
