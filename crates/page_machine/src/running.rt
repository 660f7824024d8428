// The run of a page.
ghost use Rattle.std.specs.Prelude.{◌≡◌, ◌+◌, ◌-◌, ◌≤◌, ℕ, List, Option};
ghost use Rattle.out_buffer.specs.Held.{Stands};
ghost use Rattle.out_buffer.specs.Writer.{Writer as Written};
ghost use Rattle.page_machine.specs.Run.{DepthSo, IsInOrder, IsServed, KnownSo, PageRan, SeesSo};
ghost use Rattle.page_machine.specs.Run.{Serves, StandsFor, depth_behind, end_of, level_limit};
ghost use Rattle.page_machine.specs.Turn.{Ran};
ghost use Rattle.page_meaning.specs.State.{State};
ghost use Rattle.page_table.specs.Program.{Serving};
ghost use Rattle.page_table.specs.Runs.{PageRuns};
ghost use Rattle.run_stage.specs.Keeping.{HasCharged, KeepsResponse, KeepsSession};
ghost use Rattle.run_world.specs.Origin.{Origin};
ghost use Rattle.run_world.specs.Programs.{program_of};

use crate::asked_page::AskedPage;
use crate::pages::{PageStart, enter_page};
use edges::Sink;
use http_in::{Param, Request};
use out_buffer::Writer;
use page_meaning::LEVEL_LIMIT;
use pg_text::{Listed, Path, Place, Text};
use pg_value::RunFault;
use run_moves::End;
use run_parts::RequestRecords;
use run_stage::{RUN_PROMISE, Stage};
use run_world::{Around, Params, Program, Raise, Served, World};
use scopes::Scopes;
use site_words::AppPort;
use std::alloc::Global;

/// How a page run ends.
#[derive(Drop)]
pub enum RunEnd {
    Normal,
    /// The page at this path runs in its place, with these parameters.
    Forward(Path, Listed<Param>),
    /// The client is sent to this address.
    Redirect(Text),
    Raised { fault: RunFault, place: Place },
    NoMemory,
}

/// Runs a page, whose Fetch was charged before. The counts of `around` are raised, and its depth is
/// that of the target where the page ends by a forward.
pub fn run<P: AppPort<Program>, K: Sink>(
    alloc: Global,
    asked: AskedPage,
    scopes: &mut Scopes,
    writer: &mut Writer,
    sink: &mut K,
    around: &mut Around,
    port: &mut P,
) -> RunEnd
    requires in_order { IsInOrder scopes.old around.old (P.asking port.old) }
    requires promise { RUN_PROMISE ≤ around.old.charge + (P.asking port.old).left }
    requires served { IsServed P.made P.faulty (P.tree port.old) asked.request.now around.old }
    requires writer { (start : Option (List ℕ)) × (before : ℕ) × (written : Written) × Stands start
        before writer.old (K.taken sink.old) (K.faults sink.old) written }
    ensures ran { (serving : Serving) → Serves P.made P.faulty (P.tree port.old) asked.entry.request.now around.old
        serving → (origin : Origin) (s : State) → StandsFor origin scopes.old writer.old (K.taken sink.old)
        (K.faults sink.old) around.old (P.asking port.old) s
        → PageRan serving (program_of asked.entry.program.now) asked.entry.params.now (level_limit - around.old.depth)
        (StandsFor origin scopes.new writer.new (K.taken sink.new) (K.faults sink.new) around.new
        (P.asking port.new)) s (P.asking port.old).answers (P.asking port.new).answers around.new.depth result }
    ensures in_order { IsInOrder scopes.new around.new (P.asking port.new) }
    ensures charged { HasCharged around.old around.new (P.asking port.old) (P.asking port.new) }
    ensures depth { DepthSo around.old.depth around.new.depth result }
    ensures session { KeepsSession around.old around.new }
    ensures response { KeepsResponse writer.old writer.new around.old around.new }
    ensures exception { around.new.exception ≡ around.old.exception }
    ensures tree { P.tree port.new ≡ P.tree port.old }
    ensures leads { P.leads port.old port.new }
{
    let left = LEVEL_LIMIT.saturating_sub(around.depth);
    let exception = around.exception.take();
    let mut stage = Stage {
        scopes,
        writer,
        sink,
        around,
        port,
    };
    let end = run_with_exception(alloc, asked, left, &exception, &mut stage);
    stage.around.exception = exception;
    end_run(end, stage.around)
}

// Runs a page that sees this fault, where it is an error page.
fn run_with_exception<'a, W: World>(
    alloc: Global,
    asked: AskedPage<'a>,
    left: u32,
    exception: &'a Option<Raise>,
    world: &mut W,
) -> End
    requires covered { W.covered world.old }
    requires known { KnownSo W.reached W.stores asked.request.now exception.now world.old }
    ensures covered { W.covered world.new }
    ensures ran { Ran W.reached W.replies (SeesSo W.stores asked.entry.request.now exception.now) (λ serving s d.
        PageRuns serving (program_of asked.entry.program.now) asked.entry.params.now left s d)
        world.old world.new result }
{
    let seen = exception.as_ref();
    let served = Served {
        request: asked.request,
        exception: seen,
    };
    let params = Params::Listed(asked.params);
    let start = PageStart {
        program: asked.program,
        params: &params,
        left,
    };
    let mut records = RequestRecords::none();
    enter_page(alloc, &served, start, &mut records, world)
}

// The end of a run as its caller sees it, and the depth of a forward's target.
fn end_run(end: End, around: &mut Around) -> RunEnd
    ensures end { result ≡ end_of end }
    ensures around { around.new ≡ record around.old { depth = depth_behind around.old.depth end } }
{
    match end {
        End::Normal => RunEnd::Normal,
        End::Forward { path, params, left } => {
            around.depth = LEVEL_LIMIT.saturating_sub(left);
            RunEnd::Forward(path, params)
        }
        End::Redirect(address) => RunEnd::Redirect(address),
        End::Raised { fault, place } => RunEnd::Raised { fault, place },
        End::NoMemory => RunEnd::NoMemory,
    }
}
