// What single instructions do.
ghost use Rattle.std.specs.Prelude.{◌≡◌, ◌+◌, ◌<◌, ◌^◌, ◌∷◌, List, length, slice_get};
ghost use Rattle.out_buffer.specs.Writer.{with_body};
ghost use Rattle.page_meaning.specs.Bodies.{taken};
ghost use Rattle.page_meaning.specs.State.{in_writer};
ghost use Rattle.page_table.specs.Act.{bean_made, brought_up, catch_closed, is_same_truth, is_true};
ghost use Rattle.page_table.specs.Act.{jump_null, with_catch};
ghost use Rattle.page_table.specs.Landing.{Running, land, one_of, then_at};
ghost use Rattle.page_table.specs.Move.{On, popped};
ghost use Rattle.pg_value.specs.Datum.{Datum, text};
ghost use Rattle.pg_value.specs.Value.{datum_of};
ghost use Rattle.run_moves.specs.Acted.{Acted};
ghost use Rattle.run_moves.specs.Opened.{open_of};
ghost use Rattle.run_parts.specs.Answers.{is_null};
ghost use Rattle.run_world.specs.Part.{Doing};
ghost use Rattle.scopes.specs.HeldScope.{held_scope};
ghost use Rattle.site_words.specs.Law.{told};
ghost use Rattle.site_words.specs.PageSteps.{tells_created};

use crate::at::At;
use crate::flow::{End, Flow};
use crate::landing::fail;
use crate::open::{Open, OpenCatch, Stack};
use page_code::{Bean, ScopedName};
use pg_text::Failure;
use pg_value::{RunFault, Value};
use run_world::World;
use scopes::HeldScope;
use site_words::{AppReply, AppStep};
use std::alloc::Global;

// Brings the value that has so many above it to the top.
#[inline(always)]
pub(crate) fn take<W: World>(pc: usize, above: usize, opened: &mut Open, world: &mut W) -> Flow
    requires covered { W.covered world.old }
    requires within { pc + 1 < 2 ^ 64 }
    requires there { above < length opened.old.stack }
    ensures covered { W.covered world.new }
    ensures acted { Acted W.reached W.replies (λ s. brought_up (slice_get (open_of opened.old).stack above) above
        (pc + 1) s (open_of opened.old)) world.old world.new (open_of opened.new) result }
    ensures left { opened.new.left ≡ opened.old.left }
{
    opened.stack.bring_up(above);
    Flow::Go(pc + 1)
}

// Keeps what is written from here on.
pub(crate) fn start_body<W: World>(pc: usize, opened: &mut Open, world: &mut W) -> Flow
    requires covered { W.covered world.old }
    requires within { pc + 1 < 2 ^ 64 }
    ensures covered { W.covered world.new }
    ensures acted { Acted W.reached W.replies
        (λ s. On (Running (pc + 1) (in_writer (with_body s.writer) s) (open_of opened.old))) world.old world.new
        (open_of opened.new) result }
    ensures left { opened.new.left ≡ opened.old.left }
{
    match world.start_body() {
        Ok(()) => Flow::Go(pc + 1),
        Err(_) => Flow::Over(End::NoMemory),
    }
}

// Pushes the innermost kept body as a text.
#[inline(never)]
pub(crate) fn take_body<W: World>(alloc: Global, at: &At, opened: &mut Open, world: &mut W) -> Flow
    requires covered { W.covered world.old }
    requires within { at.now.pc + 1 < 2 ^ 64 }
    requires some { 0 < W.kept world.old }
    ensures covered { W.covered world.new }
    ensures acted { Acted W.reached W.replies
        (λ s. On (land (at.now.pc + 1) (λ t. text t ∷ (open_of opened.old).stack) (open_of opened.old)
        (taken at.now.cell.place s))) world.old world.new (open_of opened.new) result }
    ensures left { opened.new.left ≡ opened.old.left }
{
    match world.take_body() {
        Ok(text) => match opened.stack.push(Value::Text(text)) {
            Ok(()) => Flow::Go(at.pc + 1),
            Err(_) => Flow::Over(End::NoMemory),
        },
        Err(failed) => fail(alloc, failed, &at.cell.place, opened, world),
    }
}

// Takes a truth value, and passes over so many cells where it is this one.
#[inline(always)]
pub(crate) fn jump_if<W: World>(
    pc: usize,
    holds: bool,
    size: usize,
    opened: &mut Open,
    world: &mut W,
) -> Flow
    requires covered { W.covered world.old }
    requires within { pc + 1 + size < 2 ^ 64 }
    requires filled { 0 < length opened.old.stack }
    ensures covered { W.covered world.new }
    ensures acted { Acted W.reached W.replies (λ s. popped (open_of opened.old) (open_of opened.old).stack
        (λ d p. On (one_of (is_same_truth holds (is_true d)) (Running (pc + 1 + size) s p)
        (Running (pc + 1) s p)))) world.old world.new (open_of opened.new) result }
    ensures left { opened.new.left ≡ opened.old.left }
{
    let Some(value) = opened.stack.pop() else {
        unreachable!()
    };
    if is_same(holds, &value) {
        Flow::Go(pc + 1 + size)
    } else {
        Flow::Go(pc + 1)
    }
}

// Whether a value is the truth value `true`.
fn is_true(value: &Value) -> bool
    ensures { result ≡ is_true (datum_of value.now) }
{
    match value {
        Value::Bool(truth) => *truth,
        _ => false,
    }
}

// Whether a value is the truth value `true`, or, where `holds` is false, whether it isn't.
fn is_same(holds: bool, value: &Value) -> bool
    ensures { result ≡ is_same_truth holds (is_true (datum_of value.now)) }
{
    if holds {
        is_true(value)
    } else {
        !is_true(value)
    }
}

// Whether null is on top.
fn has_null(stack: &Stack) -> bool
    requires filled { 0 < length stack.now }
    ensures { (d : Datum) (rest : List Datum) → stack.now ≡ d ∷ rest → result ≡ is_null d }
{
    matches!(stack.topmost(), Some(Value::Null))
}

// Takes null from the top and passes over so many cells, where it is there.
#[inline(always)]
pub(crate) fn jump_null<W: World>(pc: usize, size: usize, opened: &mut Open, world: &mut W) -> Flow
    requires covered { W.covered world.old }
    requires within { pc + 1 + size < 2 ^ 64 }
    requires filled { 0 < length opened.old.stack }
    ensures covered { W.covered world.new }
    ensures acted { Acted W.reached W.replies (λ s. popped (open_of opened.old) (open_of opened.old).stack
        (λ d p. On (jump_null d (pc + 1 + size) (pc + 1) s (open_of opened.old) p))) world.old world.new
        (open_of opened.new) result }
    ensures left { opened.new.left ≡ opened.old.left }
{
    if has_null(&opened.stack) {
        opened.stack.drop_top(1);
        Flow::Go(pc + 1 + size)
    } else {
        Flow::Go(pc + 1)
    }
}

// A catch opens, whose faults go on behind so many cells.
#[inline(never)]
pub(crate) fn catch_start<W: World>(
    pc: usize,
    size: usize,
    opened: &mut Open,
    world: &mut W,
) -> Flow
    requires covered { W.covered world.old }
    requires within { pc + 1 + size < 2 ^ 64 }
    ensures covered { W.covered world.new }
    ensures acted { Acted W.reached W.replies
        (λ s. On (Running (pc + 1) s (with_catch (pc + 1 + size) s (open_of opened.old)))) world.old world.new
        (open_of opened.new) result }
    ensures left { opened.new.left ≡ opened.old.left }
{
    let innermost = OpenCatch {
        to: pc + 1 + size,
        values: opened.stack.len(),
        bodies: world.bodies(),
        loops: opened.loops.len(),
    };
    match opened.catches.push(innermost) {
        Ok(()) => Flow::Go(pc + 1),
        Err(_) => Flow::Over(End::NoMemory),
    }
}

// The innermost catch closes.
#[inline(never)]
pub(crate) fn catch_end<W: World>(pc: usize, opened: &mut Open, world: &mut W) -> Flow
    requires covered { W.covered world.old }
    requires within { pc + 1 < 2 ^ 64 }
    requires opened { 0 < length opened.old.catches }
    ensures covered { W.covered world.new }
    ensures acted { Acted W.reached W.replies (λ s. catch_closed (open_of opened.old).catches (pc + 1) s
        (open_of opened.old)) world.old world.new (open_of opened.new) result }
    ensures left { opened.new.left ≡ opened.old.left }
{
    let Some(_) = opened.catches.pop() else {
        unreachable!()
    };
    Flow::Go(pc + 1)
}

// Whether the site answered that the variable was absent, and has the value now.
fn is_created(reply: &AppReply) -> bool
    ensures { result ≡ tells_created (told reply.now) }
{
    match reply {
        AppReply::Created => true,
        _ => false,
    }
}

// Sets a bean where its variable is absent, and answers whether it was.
fn make_bean<W: World>(
    variable: &ScopedName,
    bean: &Bean,
    world: &mut W,
) -> Result<bool, Failure<RunFault>>
    requires covered { W.covered world.old }
    ensures covered { W.covered world.new }
    ensures does { Doing W.reached W.replies (λ b. b)
        (λ place. bean_made place (held_scope variable.now.scope) variable.now.name (datum_of bean.now))
        world.old world.new result }
{
    let name = variable.name.as_text();
    let Some(held) = HeldScope::of(variable.scope) else {
        let reply = world.ask(AppStep::Ensure(name.copy()?, bean.value().copy()?))?;
        return Ok(is_created(&reply));
    };
    if world.scopes().find_in(held, name.as_str()).is_some() {
        return Ok(false);
    }
    world.set(held, name, bean.value().copy()?)?;
    Ok(true)
}

// A variable, the bean to which it is set where it is absent, and the number of cells that are
// passed over where it is not.
#[derive(Drop)]
pub(crate) struct Ensured<'a> {
    pub variable: &'a ScopedName,
    pub bean: &'a Bean,
    pub size: usize,
}

// A bean is set where its variable is absent; else so many cells are passed over.
#[inline(never)]
pub(crate) fn ensure<W: World>(
    alloc: Global,
    at: &At,
    ensured: &Ensured,
    opened: &mut Open,
    world: &mut W,
) -> Flow
    requires covered { W.covered world.old }
    requires within { at.now.pc + 1 + ensured.now.size < 2 ^ 64 }
    ensures covered { W.covered world.new }
    ensures acted { Acted W.reached W.replies
        (λ s. On (then_at (open_of opened.old) (bean_made at.now.cell.place
        (held_scope ensured.now.variable.now.scope) ensured.now.variable.now.name
        (datum_of ensured.now.bean.now) s) (λ made s1.
        one_of made (Running (at.now.pc + 1) s1 (open_of opened.old))
        (Running (at.now.pc + 1 + ensured.now.size) s1 (open_of opened.old)))))
        world.old world.new (open_of opened.new) result }
    ensures left { opened.new.left ≡ opened.old.left }
{
    match make_bean(ensured.variable, ensured.bean, world) {
        Ok(true) => Flow::Go(at.pc + 1),
        Ok(false) => Flow::Go(at.pc + 1 + ensured.size),
        Err(failed) => fail(alloc, failed, &at.cell.place, opened, world),
    }
}
