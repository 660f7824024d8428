// Calls of functions.
ghost use Rattle.std.specs.Prelude.{◌≡◌, ◌++◌, IfOk};
ghost use Rattle.code_expressions.specs.Calls.{call_code};
ghost use Rattle.page_code.specs.declared.op.Op.TheVariants as op;
ghost use Rattle.code_forms.specs.Codes.{form_code};
ghost use Rattle.code_forms.specs.Forms.{does};
ghost use Rattle.code_lowering.specs.Expressions.{fitted};
ghost use Rattle.pg_value.specs.Function.{arity_of, function_named};

use crate::single::constant;
use code_forms::operation;
use page_code::{Code, Op, Shape};
use pg_text::Place;
use pg_value::{Function, Value};
use std::alloc::{AllocError, Global};

/// The code of the call of the function of a name with so many arguments; null where there is no
/// such function.
pub(crate) fn call(
    alloc: Global,
    ground: &Shape,
    place: &Place,
    name: &str,
    count: usize,
    arguments: Code,
) -> Result<Code, AllocError>
    ensures { IfOk result (λ code. code
        ≡ call_code ground.now place.now (function_named name.now) count arguments) }
{
    match Function::of_name(name) {
        Some(function) => called(alloc, ground, place, function, count, arguments),
        None => constant(alloc, ground, place, Value::Null),
    }
}

// The code of the call of a function with so many arguments.
fn called(
    alloc: Global,
    ground: &Shape,
    place: &Place,
    function: Function,
    count: usize,
    arguments: Code,
) -> Result<Code, AllocError>
    ensures { IfOk result (λ code. code ≡ arguments
        ++ (form_code ground.now (fitted place.now count (arity_of function))
        ++ form_code ground.now (does (op.Call function) place.now))) }
{
    let mut rest = fitted(alloc, ground, place, count, function.arity())?;
    rest.join(operation(alloc, ground, place, Op::Call(function))?)?;
    let mut code = arguments;
    code.join(rest)?;
    Ok(code)
}

// The code that makes so many values of those that were given.
fn fitted(
    alloc: Global,
    ground: &Shape,
    place: &Place,
    given: usize,
    wanted: usize,
) -> Result<Code, AllocError>
    ensures { IfOk result (λ code. code ≡ form_code ground.now (fitted place.now given wanted)) }
{
    let kept = given.min(wanted);
    let above = ground.up(kept)?;
    let mut code = nulls(alloc, &above, place, wanted - kept)?;
    code.join(pops(alloc, &above, place, given - kept)?)?;
    Ok(code)
}

// The code that puts so many nulls.
fn nulls(alloc: Global, ground: &Shape, place: &Place, count: usize) -> Result<Code, AllocError>
    ensures { IfOk result (λ code. code ≡ form_code ground.now (fitted place.now 0 count)) }
{
    let mut code = Code::new(alloc);
    let mut above = ground.copy()?;
    let mut left = count;
    while left > 0 {
        code.join(constant(alloc, &above, place, Value::Null)?)?;
        above = above.up(1)?;
        left -= 1;
    }
    Ok(code)
}

// The code that takes so many values away.
fn pops(alloc: Global, ground: &Shape, place: &Place, count: usize) -> Result<Code, AllocError>
    ensures { IfOk result (λ code. code ≡ form_code ground.now (fitted place.now count 0)) }
{
    let mut code = Code::new(alloc);
    let mut left = count;
    while left > 0 {
        left -= 1;
        code.join(operation(alloc, &ground.up(left)?, place, Op::Pop)?)?;
    }
    Ok(code)
}
