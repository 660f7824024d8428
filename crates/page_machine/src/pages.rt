// Includes and imports of other pages. In contracts `Changes` says what became of the response's
// state, and `covered` that the request's promise still covers all that it may ask of the site.
ghost use Rattle.std.specs.Prelude.{◌≡◌, ◌+◌, ◌<◌, ◌≤◌, ◌^◌, Err, OnErr, OnOk, ◌&&◌};
ghost use Rattle.std.specs.Prelude.{is_none, length, not, take};
ghost use Rattle.std.specs.Arc.{arc_value};
ghost use Rattle.out_buffer.specs.Writer.{with_bodies};
ghost use Rattle.page_code.specs.Ops.{address_with};
ghost use Rattle.page_code.specs.declared.call.CallOut.TheVariants as call;
ghost use Rattle.page_machine.specs.Pages.{include_found, included_run, params_for};
ghost use Rattle.page_machine.specs.Turn.{Ran, Stepped};
ghost use Rattle.page_meaning.specs.Meaning.{flush_if};
ghost use Rattle.page_meaning.specs.State.{in_scopes, in_writer};
ghost use Rattle.page_table.specs.Act.{called_out};
ghost use Rattle.page_table.specs.Pages.{page_begun};
ghost use Rattle.page_table.specs.Runs.{PageRuns};
ghost use Rattle.page_table.specs.Seat.{page_run_of};
ghost use Rattle.pg_text.specs.declared.failure.Failure.TheVariants as failure;
ghost use Rattle.run_moves.specs.At.{IsRecordsAt, seat_at};
ghost use Rattle.run_moves.specs.Opened.{open_of};
ghost use Rattle.run_moves.specs.declared.flow.End.TheVariants as end;
ghost use Rattle.run_moves.specs.declared.flow.Flow.TheVariants as flow;
ghost use Rattle.run_parts.specs.Records.{IsRecordsOf};
ghost use Rattle.run_world.specs.Params.{params_of};
ghost use Rattle.run_world.specs.Known.{Known, ServesSo};
ghost use Rattle.run_world.specs.Part.{Changes, Doing};
ghost use Rattle.run_world.specs.Programs.{program_of};
ghost use Rattle.scopes.specs.Scopes.{with_frame};

use crate::found::{Included, TargetPage, included_at};
use crate::targets::{Target, TargetParams, find_target, import_target};
use crate::turn::{CodeStart, run_code};
use pg_text::Failure;
use pg_value::RunFault;
use run_moves::{At, End, Flow, Open, fail, throw};
use run_parts::RequestRecords;
use run_world::{Params, Program, Seat, Served, World, know_tags};
use std::alloc::{AllocError, Global};

/// A page that begins to run, with its parameters and so many levels left below it.
#[derive(Drop)]
pub(crate) struct PageStart<'a> {
    pub program: &'a Program,
    pub params: &'a Params<'a>,
    pub left: u32,
}

// Commits what is buffered, where that is asked. Where memory runs out, the state is as before.
#[inline(never)]
fn flush_if<W: World>(flush: bool, world: &mut W) -> Result<(), AllocError>
    requires covered { W.covered world.old }
    ensures covered { W.covered world.new }
    ensures ok { OnOk result (Changes W.reached (flush_if flush) world.old world.new) }
    ensures err { OnErr result (Changes W.reached (λ s. s) world.old world.new) }
    ensures replies { W.replies world.new ≡ W.replies world.old }
{
    if flush { world.flush() } else { Ok(()) }
}

/// Includes what an address names, behind a flush where that is asked.
#[cycle(machine)]
#[inline(never)]
pub(crate) fn include_call<W: World>(
    alloc: Global,
    at: &At,
    records: &mut RequestRecords,
    flush: bool,
    params: usize,
    opened: &mut Open,
    world: &mut W,
) -> Flow
    requires covered { W.covered world.old }
    requires records { IsRecordsAt at.now records.old }
    requires known { Known W.reached W.stores at.now.served.now world.old }
    requires within { at.now.pc + 1 < 2 ^ 64 }
    requires filled { address_with params ≤ length opened.old.stack }
    ensures covered { W.covered world.new }
    ensures records { IsRecordsAt at.now records.new }
    ensures stepped { Stepped W.reached W.replies (ServesSo W.stores at.now.served.now) (seat_at at.now)
        (λ serving s. called_out serving (seat_at at.now) at.now.cell.place (at.now.pc + 1)
        (call.Include flush params) s (open_of opened.old)) world.old world.new (open_of opened.new) result }
    ensures left { opened.new.left ≡ opened.old.left }
{
    let Ok(()) = flush_if(flush, world) else {
        return Flow::Over(End::NoMemory);
    };
    let _ = opened.stack.len();
    let count = 2 * params + 1;
    let found = find_target(alloc, at.seat, opened.stack.top(count));
    opened.stack.drop_top(count);
    include(alloc, at, records, found, opened, world)
}

/// Includes what a url names: X15 where it has `://`.
#[cycle(machine)]
#[inline(never)]
pub(crate) fn import_call<W: World>(
    alloc: Global,
    at: &At,
    records: &mut RequestRecords,
    opened: &mut Open,
    world: &mut W,
) -> Flow
    requires covered { W.covered world.old }
    requires records { IsRecordsAt at.now records.old }
    requires known { Known W.reached W.stores at.now.served.now world.old }
    requires within { at.now.pc + 1 < 2 ^ 64 }
    requires filled { 1 ≤ length opened.old.stack }
    ensures covered { W.covered world.new }
    ensures records { IsRecordsAt at.now records.new }
    ensures stepped { Stepped W.reached W.replies (ServesSo W.stores at.now.served.now) (seat_at at.now)
        (λ serving s. called_out serving (seat_at at.now) at.now.cell.place (at.now.pc + 1) call.Import s
        (open_of opened.old)) world.old world.new (open_of opened.new) result }
    ensures left { opened.new.left ≡ opened.old.left }
{
    let found = import_target(alloc, at.seat, opened.stack.top(1));
    opened.stack.drop_top(1);
    include(alloc, at, records, found, opened, world)
}

// Includes a target, one level deeper: X17, then what stands at its path.
#[cycle(machine)]
#[inline(always)]
fn include<W: World>(
    alloc: Global,
    at: &At,
    records: &mut RequestRecords,
    found: Result<Target, Failure<RunFault>>,
    opened: &mut Open,
    world: &mut W,
) -> Flow
    requires covered { W.covered world.old }
    requires records { IsRecordsAt at.now records.old }
    requires known { Known W.reached W.stores at.now.served.now world.old }
    requires within { at.now.pc + 1 < 2 ^ 64 }
    ensures covered { W.covered world.new }
    ensures records { IsRecordsAt at.now records.new }
    ensures stepped { Stepped W.reached W.replies (ServesSo W.stores at.now.served.now) (seat_at at.now)
        (λ serving s. include_found (page_run_of (seat_at at.now)) serving at.now.cell.place found (at.now.pc + 1)
        s (open_of opened.old)) world.old world.new (open_of opened.new) result }
    ensures short { found ≡ Err failure.NoMemory → (result ≡ flow.Over end.NoMemory) × (world.new
        ≡ world.old) }
    ensures left { opened.new.left ≡ opened.old.left }
{
    match included_at(alloc, at, found, opened, world) {
        Included::Page(page) => include_page(alloc, at, records, &page, opened, world),
        Included::Done(flow) => flow,
    }
}

// Includes a page. It shares the records that were made of the request, but for those of the
// parameters where it has some of its own.
#[cycle(machine)]
#[inline(always)]
fn include_page<W: World>(
    alloc: Global,
    at: &At,
    records: &mut RequestRecords,
    page: &TargetPage,
    opened: &mut Open,
    world: &mut W,
) -> Flow
    requires covered { W.covered world.old }
    requires records { IsRecordsAt at.now records.old }
    requires known { Known W.reached W.stores at.now.served.now world.old }
    requires within { at.now.pc + 1 < 2 ^ 64 }
    ensures covered { W.covered world.new }
    ensures records { IsRecordsAt at.now records.new }
    ensures stepped { Stepped W.reached W.replies (ServesSo W.stores at.now.served.now) (seat_at at.now)
        (λ serving s. included_run at.now.cell.place (program_of (arc_value page.now.program))
        (params_for (page_run_of (seat_at at.now)) page.now.params) page.now.left (at.now.pc + 1) s
        (open_of opened.old)) world.old world.new (open_of opened.new) result }
    ensures left { opened.new.left ≡ opened.old.left }
{
    let program = &*page.program;
    let left = page.left;
    match &page.params {
        TargetParams::Same => {
            let start = PageStart {
                program,
                params: at.seat.params(),
                left,
            };
            included_page(alloc, at, records, start, opened, world)
        }
        TargetParams::Own(own) => {
            let Ok(()) = records.set_params_aside(alloc) else {
                return Flow::Over(End::NoMemory);
            };
            let around = at.seat.params();
            let params = Params::Before(own.as_slice(), around);
            let start = PageStart {
                program,
                params: &params,
                left,
            };
            let flow = included_page(alloc, at, records, start, opened, world);
            records.put_params_back();
            flow
        }
    }
}

// Puts an empty frame behind the others, and makes it current.
#[inline(never)]
fn push_frame<W: World>(world: &mut W) -> Result<(), AllocError>
    requires covered { W.covered world.old }
    ensures covered { W.covered world.new }
    ensures ok { OnOk result (Changes W.reached (λ s. in_scopes (with_frame s.scopes) s) world.old world.new) }
    ensures err { OnErr result (Changes W.reached (λ s. s) world.old world.new) }
    ensures replies { W.replies world.new ≡ W.replies world.old }
{
    world.push_frame()
}

// Drops the frames behind the first so many, and makes one of these current.
#[inline(never)]
fn go_back<W: World>(frames: u64, current: u32, world: &mut W)
    requires covered { W.covered world.old }
    requires there { (current < frames) × (frames ≤ length (W.variables world.old).frames) }
    ensures covered { W.covered world.new }
    ensures back { Changes W.reached (λ s.
        in_scopes (record s.scopes { frames = take frames s.scopes.frames; current = current }) s)
        world.old world.new }
    ensures replies { W.replies world.new ≡ W.replies world.old }
{
    world.go_back(frames, current);
}

// Drops the kept bodies inside the outermost so many.
#[inline(never)]
fn drop_bodies<W: World>(left: usize, world: &mut W)
    requires covered { W.covered world.old }
    ensures covered { W.covered world.new }
    ensures left { Changes W.reached (λ s. in_writer (with_bodies left s.writer) s) world.old world.new }
    ensures replies { W.replies world.new ≡ W.replies world.old }
{
    world.drop_bodies(left);
}

// Runs an included page in a frame of its own. Its fault stands at the include, and a redirect ends
// it alone.
#[cycle(machine)]
#[inline(never)]
fn included_page<W: World>(
    alloc: Global,
    at: &At,
    records: &mut RequestRecords,
    start: PageStart,
    opened: &mut Open,
    world: &mut W,
) -> Flow
    requires covered { W.covered world.old }
    requires records { IsRecordsOf at.now.served.now.request.now start.params.now records.old }
    requires known { Known W.reached W.stores at.now.served.now world.old }
    requires within { at.now.pc + 1 < 2 ^ 64 }
    ensures covered { W.covered world.new }
    ensures records { IsRecordsOf at.now.served.now.request.now start.entry.params.now records.new }
    ensures stepped { Stepped W.reached W.replies (ServesSo W.stores at.now.served.now) (seat_at at.now)
        (λ serving s. included_run at.now.cell.place (program_of start.entry.program.now)
        (params_of start.entry.params.now) start.entry.left (at.now.pc + 1) s (open_of opened.old)) world.old
        world.new (open_of opened.new) result }
    ensures left { opened.new.left ≡ opened.old.left }
{
    let bodies = world.bodies();
    let frame = world.frame();
    let frames = world.scopes().frames();
    let Ok(()) = push_frame(world) else {
        return Flow::Over(End::NoMemory);
    };
    match enter_page(alloc, at.served, start, records, world) {
        End::Normal => {
            go_back(frames, frame, world);
            Flow::Go(at.pc + 1)
        }
        End::Raised { fault, .. } => {
            go_back(frames, frame, world);
            throw(alloc, fault, &at.cell.place, opened, world)
        }
        End::Redirect(_) => {
            drop_bodies(bodies, world);
            go_back(frames, frame, world);
            Flow::Go(at.pc + 1)
        }
        end => Flow::Over(end),
    }
}

// Whether a page's run starts a session.
fn starts_session<W: World>(program: &Program, world: &W) -> bool
    requires covered { W.covered world.now }
    ensures { result ≡ (program.now.settings.session && is_none (W.variables world.now).session && not
        (W.committed world.now)) }
{
    program.settings.session && !world.has_session() && !world.has_committed()
}

// Makes a session, where a page's run starts one.
#[inline(never)]
fn make_session<W: World>(program: &Program, world: &mut W) -> Result<(), Failure<RunFault>>
    requires covered { W.covered world.old }
    ensures covered { W.covered world.new }
    ensures does { Doing W.reached W.replies (λ u. u) (λ place. page_begun (program_of program.now))
        world.old world.new result }
{
    if starts_session(program, world) {
        return world.fresh();
    }
    Ok(())
}

/// Enters a page in the current frame: a session first, where its run starts one, then its code.
#[cycle(machine)]
pub(crate) fn enter_page<W: World>(
    alloc: Global,
    served: &Served,
    start: PageStart,
    records: &mut RequestRecords,
    world: &mut W,
) -> End
    requires covered { W.covered world.old }
    requires records { IsRecordsOf served.now.request.now start.params.now records.old }
    requires known { Known W.reached W.stores served.now world.old }
    ensures covered { W.covered world.new }
    ensures records { IsRecordsOf served.now.request.now start.entry.params.now records.new }
    ensures ran { Ran W.reached W.replies (ServesSo W.stores served.now) (λ serving s d.
        PageRuns serving (program_of start.entry.program.now) (params_of start.entry.params.now) start.entry.left s d)
        world.old world.new result }
{
    let PageStart {
        program,
        params,
        left,
    } = start;
    know_tags(program.tags.as_slice());
    let _ = program.code.code();
    let Ok(()) = make_session(program, world) else {
        return End::NoMemory;
    };
    let seat = Seat::InPage(program, params);
    let start = CodeStart {
        seat: &seat,
        pc: 0,
        left,
    };
    run_code(alloc, &*served, start, records, world)
}
