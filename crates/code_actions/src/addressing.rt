// Actions on an address with params.
ghost use Rattle.std.specs.Prelude.{◌≡◌, IfOk, option_map};
ghost use Rattle.code_actions.specs.Addressing.{addressing_code, address_code, address_done};
ghost use Rattle.code_actions.specs.Addressing.{addressing_evaluations, page_address_code};
ghost use Rattle.code_actions.specs.Addressing.{url_code};
ghost use Rattle.page_acts.specs.Views.{variable_of};
ghost use Rattle.page_code.specs.Ops.{address_with};
ghost use Rattle.page_code.specs.Shapes.{up};
ghost use Rattle.code_forms.specs.Codes.{form_code};
ghost use Rattle.code_forms.specs.Forms.{calls, forwards_to, included_page};
ghost use Rattle.code_lowering.specs.Lowering.{url_put};

use crate::arranging::arranged_before;
use crate::calls::import;
use crate::evaluations::Evaluations;
use crate::variables::sets;
use code_forms::{call, joined, leave, operation};
use page_acts::{Addressing, Variable};
use page_code::{CallOut, Code, Leave, Op, Shape, values_of_address};
use pg_text::{Listed, Place, Text};
use std::alloc::{AllocError, Global};

/// The params of an address: how many they are, and their code, which has one value more below it
/// than the action.
#[derive(Drop)]
pub struct Params {
    pub count: usize,
    pub code: Code,
}

/// What becomes of the attributes of an action on an address.
pub fn addressing_evaluations(action: &Addressing) -> Evaluations<'static>
    ensures { result ≡ addressing_evaluations action.now }
{
    match action {
        Addressing::Import(_) => Evaluations::Url,
        Addressing::Url(_) => Evaluations::Url,
        Addressing::Redirect => Evaluations::Url,
        Addressing::Include(_) => Evaluations::Page,
        Addressing::Forward => Evaluations::Page,
    }
}

/// The code of an action on an address, behind the values of its attributes, which have these
/// names.
pub fn addressing_code(
    alloc: Global,
    ground: &Shape,
    place: &Place,
    action: &Addressing,
    names: &Listed<Text>,
    params: Params,
) -> Result<Code, AllocError>
    ensures { IfOk result (λ code. code
        ≡ addressing_code action.now ground.now place.now names.now params.count params.code) }
{
    let count = params.count;
    let address = address(alloc, ground, place, action, names, params)?;
    joined(address, behind(alloc, ground, place, action, count)?)
}

// The code of the address of an action.
fn address(
    alloc: Global,
    ground: &Shape,
    place: &Place,
    action: &Addressing,
    names: &Listed<Text>,
    params: Params,
) -> Result<Code, AllocError>
    ensures { IfOk result (λ code. code
        ≡ address_code action.now ground.now place.now names.now params.count params.code) }
{
    match action {
        Addressing::Import(_) => url(alloc, ground, place, "url", names, params),
        Addressing::Url(_) => url(alloc, ground, place, "value", names, params),
        Addressing::Redirect => url(alloc, ground, place, "url", names, params),
        Addressing::Include(_) => page(alloc, ground, place, names, params.code),
        Addressing::Forward => page(alloc, ground, place, names, params.code),
    }
}

// The code of what an action does with its address, which has so many params.
fn behind(
    alloc: Global,
    ground: &Shape,
    place: &Place,
    action: &Addressing,
    count: usize,
) -> Result<Code, AllocError>
    ensures { IfOk result (λ code. code ≡ address_done action.now ground.now place.now count) }
{
    match action {
        Addressing::Import(variable) => import(alloc, ground, place, variable),
        Addressing::Url(variable) => url_put(alloc, ground, place, variable),
        Addressing::Redirect => leave(alloc, &ground.up(1)?, place, Leave::Redirect),
        Addressing::Include(flush) => include(alloc, ground, place, *flush, count),
        Addressing::Forward => forward(alloc, ground, place, count),
    }
}

// The code of the url of a tag, behind the values of its attributes: its address with params.
fn url(
    alloc: Global,
    ground: &Shape,
    place: &Place,
    address: &str,
    names: &Listed<Text>,
    params: Params,
) -> Result<Code, AllocError>
    ensures { IfOk result (λ code. code
        ≡ url_code ground.now place.now address.now names.now params.count params.code) }
{
    let Params { count, code } = params;
    let address = arranged_before(alloc, ground, place, &[address], names, code)?;
    joined(address, operation(alloc, ground, place, Op::Url(count))?)
}

// The code of a page's address, behind the values of the attributes, with params, whose code has
// one value more below it.
fn page(
    alloc: Global,
    ground: &Shape,
    place: &Place,
    names: &Listed<Text>,
    params: Code,
) -> Result<Code, AllocError>
    ensures { IfOk result (λ code. code ≡ page_address_code ground.now place.now names.now params) }
{
    arranged_before(alloc, ground, place, &["page"], names, params)
}

// The code of `c:url` behind its url: it is written, or set as a variable where one is given.
fn url_put(
    alloc: Global,
    ground: &Shape,
    place: &Place,
    variable: &Option<Variable>,
) -> Result<Code, AllocError>
    ensures { IfOk result (λ code. code ≡ form_code ground.now
        (url_put place.now (option_map variable_of variable.now))) }
{
    match variable {
        Some(variable) => sets(alloc, ground, place, variable),
        None => operation(alloc, ground, place, Op::Put),
    }
}

// The code of `jsp:include` behind the address of a page with so many params.
fn include(
    alloc: Global,
    ground: &Shape,
    place: &Place,
    flush: bool,
    params: usize,
) -> Result<Code, AllocError>
    ensures { IfOk result (λ code. code ≡ form_code ground.now (calls (included_page flush params) place.now)) }
{
    let before = with_address(ground, params)?;
    call(alloc, &before, place, CallOut::Include { flush, params })
}

// The code of `jsp:forward` behind the address of a page with so many params.
fn forward(alloc: Global, ground: &Shape, place: &Place, params: usize) -> Result<Code, AllocError>
    ensures { IfOk result (λ code. code ≡ form_code ground.now (forwards_to params place.now)) }
{
    let before = with_address(ground, params)?;
    leave(alloc, &before, place, Leave::Forward(params))
}

// The shape with an address with so many params.
fn with_address(ground: &Shape, params: usize) -> Result<Shape, AllocError>
    ensures { IfOk result (λ made. made ≡ up (address_with params) ground.now) }
{
    let Ok(count) = usize::try_from(values_of_address(params)) else {
        return Err(AllocError);
    };
    ground.up(count)
}
