// Frequent operations: each is done in place, and goes on behind itself or falls, so that its
// answer is small.
ghost use Rattle.std.specs.Prelude.{◌≡◌, ◌≤◌, IsTrue, Ok, length};
ghost use Rattle.el_ops.specs.Operators.{unary_of};
ghost use Rattle.page_code.specs.Ops.{takes};
ghost use Rattle.page_code.specs.declared.instr.Instr.TheVariants as instr;
ghost use Rattle.page_code.specs.declared.op.Op.TheVariants as ops;
ghost use Rattle.page_table.specs.Act.{act};
ghost use Rattle.page_table.specs.Program.{Serving};
ghost use Rattle.page_table.specs.Seat.{Seat as Seat'};
ghost use Rattle.pg_text.specs.Failure.{AnswersAs};
ghost use Rattle.pg_value.specs.Value.{datum_of};
ghost use Rattle.run_moves.specs.Opened.{open_of};
ghost use Rattle.run_moves.specs.Quick.{LandsSo, Made, Pushed, is_quick};
ghost use Rattle.run_world.specs.Seats.{seat_of};

use crate::open::{Open, Stack};
use el_ops::{binary, index, unary};
use page_code::{Coercion, Name, Op};
use pg_text::Failure;
use pg_value::{BinOp, RunFault, UnOp, Value};
use run_parts::{count_visits, find, put_escaped};
use run_values::{coerced, is_coerced, text_of};
use run_world::{Seat, World};
use std::alloc::Global;

/// Whether an operation is a frequent one, which [`quick`] does.
#[inline(always)]
pub fn is_quick(op: &Op) -> bool
    ensures { result ≡ is_quick op.now }
{
    matches!(
        op,
        Op::Write(_)
            | Op::Put
            | Op::PutEscaped
            | Op::Visit(_)
            | Op::Const(_)
            | Op::Find(_)
            | Op::Index
            | Op::Unary(_)
            | Op::Binary(_)
            | Op::Coerce(_)
    )
}

/// Does a frequent operation up to its landing: whoever goes on behind it, or where its fault
/// leads, has made one move of the instruction table.
#[inline(always)]
pub fn quick<W: World>(
    alloc: Global,
    seat: &Seat,
    op: &Op,
    opened: &mut Open,
    world: &mut W,
) -> Result<(), Failure<RunFault>>
    requires covered { W.covered world.old }
    requires filled { takes op.now ≤ length opened.old.stack }
    requires quick { IsTrue (is_quick op.now) }
    ensures covered { W.covered world.new }
    ensures lands { (serving : Serving) →
        LandsSo W.reached W.replies (λ place pc s. act serving (seat_of seat.now) place pc s (open_of opened.old)
        (instr.Op op.now)) world.old world.new (open_of opened.new) result }
    ensures left { opened.new.left ≡ opened.old.left }
{
    match op {
        Op::Write(text) => world.put(text.as_str()),
        Op::Visit(count) => count_visits(*count, world),
        Op::Find(name) => find_top(seat, name, opened, world),
        Op::Put => put_top(opened, world),
        Op::PutEscaped => put_escaped_top(alloc, opened, world),
        Op::Const(value) => push_copy(value, &mut opened.stack),
        Op::Index => index_top(alloc, &mut opened.stack),
        Op::Coerce(coercion) => coerce_top(alloc, *coercion, &mut opened.stack),
        Op::Unary(op) => unary_top(*op, &mut opened.stack),
        Op::Binary(op) => binary_top(alloc, *op, &mut opened.stack),
        _ => unreachable!(),
    }
}

// Pushes the value of a variable.
#[inline(always)]
fn find_top<W: World>(
    seat: &Seat,
    name: &Name,
    opened: &mut Open,
    world: &mut W,
) -> Result<(), Failure<RunFault>>
    requires covered { W.covered world.old }
    ensures covered { W.covered world.new }
    ensures lands { (serving : Serving) →
        LandsSo W.reached W.replies (λ place pc s. act serving (seat_of seat.now) place pc s (open_of opened.old)
        (instr.Op (ops.Find name.now))) world.old world.new (open_of opened.new) result }
    ensures left { opened.new.left ≡ opened.old.left }
{
    let found = find(seat.is_strict(), name, world);
    push_made(found, &mut opened.stack)
}

// Writes the text on top.
#[inline(always)]
fn put_top<W: World>(opened: &mut Open, world: &mut W) -> Result<(), Failure<RunFault>>
    requires covered { W.covered world.old }
    requires filled { 1 ≤ length opened.old.stack }
    ensures covered { W.covered world.new }
    ensures lands { (serving : Serving) (seat : Seat') →
        LandsSo W.reached W.replies (λ place pc s. act serving seat place pc s (open_of opened.old) (instr.Op ops.Put))
        world.old world.new (open_of opened.new) result }
    ensures left { opened.new.left ≡ opened.old.left }
{
    let Some(value) = opened.stack.topmost() else {
        unreachable!()
    };
    let done = world.put(text_of(value));
    opened.stack.drop_top(1);
    done
}

// Writes the text on top with `<`, `>`, `&` and the two quotes escaped.
#[inline(always)]
fn put_escaped_top<W: World>(
    alloc: Global,
    opened: &mut Open,
    world: &mut W,
) -> Result<(), Failure<RunFault>>
    requires covered { W.covered world.old }
    requires filled { 1 ≤ length opened.old.stack }
    ensures covered { W.covered world.new }
    ensures lands { (serving : Serving) (seat : Seat') →
        LandsSo W.reached W.replies (λ place pc s. act serving seat place pc s (open_of opened.old)
        (instr.Op ops.PutEscaped)) world.old world.new (open_of opened.new) result }
    ensures left { opened.new.left ≡ opened.old.left }
{
    let Some(value) = opened.stack.topmost() else {
        unreachable!()
    };
    let done = put_escaped(alloc, text_of(value), world);
    opened.stack.drop_top(1);
    done
}

// Pushes a copy of a constant.
#[inline(always)]
fn push_copy(value: &Value, stack: &mut Stack) -> Result<(), Failure<RunFault>>
    ensures { Made (ops.Const value.now) stack.old result stack.new }
{
    let made = copied(value);
    push_made(made, stack)
}

// A copy of a value, whose only failure is that memory ran out.
#[inline(always)]
fn copied(value: &Value) -> Result<Value, Failure<RunFault>>
    ensures { AnswersAs datum_of (Ok (datum_of value.now)) result }
{
    Ok(value.copy()?)
}

// Puts what stands in the value below the top at the index on top into their place.
#[inline(always)]
fn index_top(alloc: Global, stack: &mut Stack) -> Result<(), Failure<RunFault>>
    requires filled { 2 ≤ length stack.old }
    ensures { Made ops.Index stack.old result stack.new }
{
    let Some(key) = stack.pop() else {
        unreachable!()
    };
    let Some(value) = stack.pop() else {
        unreachable!()
    };
    let made = index(alloc, &value, &key);
    push_made(made, stack)
}

// Coerces the value on top. One that is of its kind already stays where it is.
#[inline(always)]
fn coerce_top(alloc: Global, coercion: Coercion, stack: &mut Stack) -> Result<(), Failure<RunFault>>
    requires filled { 1 ≤ length stack.old }
    ensures { Made (ops.Coerce coercion) stack.old result stack.new }
{
    let Some(top) = stack.topmost() else {
        unreachable!()
    };
    if is_coerced(coercion, top) {
        return Ok(());
    }
    let Some(value) = stack.pop() else {
        unreachable!()
    };
    let made = coerced(alloc, coercion, &value);
    push_made(made, stack)
}

// Puts what an operator makes of the value on top into its place.
#[inline(always)]
fn unary_top(op: UnOp, stack: &mut Stack) -> Result<(), Failure<RunFault>>
    requires filled { 1 ≤ length stack.old }
    ensures { Made (ops.Unary op) stack.old result stack.new }
{
    let Some(value) = stack.pop() else {
        unreachable!()
    };
    let made = answered(op, &value);
    push_made(made, stack)
}

// What an operator makes of one value.
#[inline(always)]
fn answered(op: UnOp, value: &Value) -> Result<Value, Failure<RunFault>>
    ensures { AnswersAs datum_of (unary_of op (datum_of value.now)) result }
{
    Ok(unary(op, value)?)
}

// Puts what an operator makes of the two values on top into their place.
#[inline(always)]
fn binary_top(alloc: Global, op: BinOp, stack: &mut Stack) -> Result<(), Failure<RunFault>>
    requires filled { 2 ≤ length stack.old }
    ensures { Made (ops.Binary op) stack.old result stack.new }
{
    let Some(right) = stack.pop() else {
        unreachable!()
    };
    let Some(left) = stack.pop() else {
        unreachable!()
    };
    let made = binary(alloc, op, left, &right);
    push_made(made, stack)
}

// Pushes the value that was made.
#[inline(always)]
fn push_made(
    made: Result<Value, Failure<RunFault>>,
    stack: &mut Stack,
) -> Result<(), Failure<RunFault>>
    ensures { Pushed made stack.old result stack.new }
{
    match made {
        Ok(value) => match stack.push(value) {
            Ok(()) => Ok(()),
            Err(_) => Err(Failure::NoMemory),
        },
        Err(failed) => Err(failed),
    }
}
