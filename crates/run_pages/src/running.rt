// The run of a page, by what the page means.
ghost use Rattle.std.specs.Prelude.{◌≡◌, ◌+◌, ◌-◌, ◌≤◌, ℕ, List, Option};
ghost use Rattle.out_buffer.specs.Held.{Stands};
ghost use Rattle.out_buffer.specs.Writer.{Writer as Written};
ghost use Rattle.page_machine.specs.Run.{DepthSo, IsInOrder, StandsFor, level_limit};
ghost use Rattle.compiled_pages.specs.Made.{IsPageAt, IsProgramOf, TellsPages};
ghost use Rattle.page_meaning.specs.Page.{Page};
ghost use Rattle.page_meaning.specs.State.{State};
ghost use Rattle.run_pages.specs.Meant.{PageMeant, served_at};
ghost use Rattle.run_stage.specs.Keeping.{HasCharged, KeepsResponse, KeepsSession};
ghost use Rattle.run_world.specs.Origin.{Origin};

use code_lowering::programs;
use edges::Sink;
use out_buffer::Writer;
use page_machine::{AskedPage, RunEnd, run};
use run_stage::RUN_PROMISE;
use run_world::{Around, Program};
use scopes::Scopes;
use site_words::AppPort;
use std::alloc::Global;

/// Runs the program of a page, whose Fetch was charged before, over a port that tells the pages of
/// its tree.
pub fn run_program<P: AppPort<Program>, K: Sink>(
    alloc: Global,
    asked: AskedPage,
    scopes: &mut Scopes,
    writer: &mut Writer,
    sink: &mut K,
    around: &mut Around,
    port: &mut P,
) -> RunEnd
    requires tells { TellsPages P.made P.faulty }
    requires in_order { IsInOrder scopes.old around.old (P.asking port.old) }
    requires promise { RUN_PROMISE ≤ around.old.charge + (P.asking port.old).left }
    requires writer { (start : Option (List ℕ)) × (before : ℕ) × (written : Written) × Stands start
        before writer.old (K.taken sink.old) (K.faults sink.old) written }
    ensures meant { (path : List ℕ) → IsProgramOf asked.entry.program.now (P.tree port.old) path →
        (page : Page) → IsPageAt page (P.tree port.old) path
        → (origin : Origin) (s : State) → StandsFor origin scopes.old writer.old (K.taken sink.old)
        (K.faults sink.old) around.old (P.asking port.old) s
        → PageMeant (served_at (P.tree port.old) asked.entry.request.now around.old) page
        asked.entry.params.now (level_limit - around.old.depth) (StandsFor origin scopes.new writer.new
        (K.taken sink.new) (K.faults sink.new) around.new (P.asking port.new)) s
        (P.asking port.old).answers (P.asking port.new).answers around.new.depth result }
    ensures in_order { IsInOrder scopes.new around.new (P.asking port.new) }
    ensures charged { HasCharged around.old around.new (P.asking port.old) (P.asking port.new) }
    ensures depth { DepthSo around.old.depth around.new.depth result }
    ensures session { KeepsSession around.old around.new }
    ensures response { KeepsResponse writer.old writer.new around.old around.new }
    ensures exception { around.new.exception ≡ around.old.exception }
    ensures tree { P.tree port.new ≡ P.tree port.old }
    ensures leads { P.leads port.old port.new }
{
    programs();
    run(alloc, asked, scopes, writer, sink, around, port)
}
