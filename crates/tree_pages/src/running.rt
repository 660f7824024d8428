// The run of a page of a tree.
ghost use Rattle.std.specs.Prelude.{◌≡◌, ◌+◌, ◌-◌, ◌≤◌, ℕ, List, Option, IsSome};
ghost use Rattle.out_buffer.specs.Held.{Stands};
ghost use Rattle.out_buffer.specs.Writer.{Writer as Written};
ghost use Rattle.page_machine.specs.Run.{IsInOrder, StandsFor, level_limit};
ghost use Rattle.compiled_pages.specs.Made.{TellsPages};
ghost use Rattle.page_meaning.specs.State.{State};
ghost use Rattle.run_pages.specs.Meant.{PageMeant, served_at};
ghost use Rattle.run_stage.specs.Keeping.{HasCharged, KeepsResponse, KeepsSession};
ghost use Rattle.run_world.specs.Origin.{Origin};
ghost use Rattle.source_tree.specs.Limits.{IsWithinLimits};
ghost use Rattle.tree_pages.specs.Came.{ComesSo, IsUntouched, KeepsDepth, StepsSo};
ghost use Rattle.unit_source.specs.Files.{text_in};

use crate::making::make;
use crate::tree_page::TreePage;
use compiled_pages::{Made, MadeBody};
use edges::{Ledger, Sink, Steps};
use out_buffer::Writer;
use page_machine::{AskedPage, RunEnd};
use pg_text::PageFault;
use run_pages::run_program;
use run_stage::RUN_PROMISE;
use run_world::{Around, Program};
use scopes::Scopes;
use site_words::AppPort;
use std::alloc::Global;

/// What comes of the page at a path: it has a fault, it ran, or memory ran out before it could
/// run.
#[derive(Drop)]
pub enum TreeEnd {
    Faulty(PageFault),
    Ran(RunEnd),
    NoMemory,
}

/// Reads the page at a path of a tree where a file stands, translates it and runs it, over a port
/// of this tree. Its Fetch was charged before. `steps` counts the bytes of the files that the page
/// needs, each once.
pub fn run_at<P: AppPort<Program>, K: Sink, L: Ledger>(
    alloc: Global,
    asked: TreePage,
    scopes: &mut Scopes,
    writer: &mut Writer,
    sink: &mut K,
    around: &mut Around,
    port: &mut P,
    steps: &mut Steps<L>,
) -> TreeEnd
    requires limits { IsWithinLimits asked.tree.now }
    requires stands { IsSome (text_in asked.tree.now asked.path.now) }
    requires tree { P.tree port.old ≡ asked.tree.now }
    requires tells { TellsPages P.made P.faulty }
    requires in_order { IsInOrder scopes.old around.old (P.asking port.old) }
    requires promise { RUN_PROMISE ≤ around.old.charge + (P.asking port.old).left }
    requires writer { (start : Option (List ℕ)) × (before : ℕ) × (written : Written) × Stands start
        before writer.old (K.taken sink.old) (K.faults sink.old) written }
    ensures meant { ComesSo asked.entry.tree.now asked.entry.path.now (λ page end. (origin : Origin) (s : State) →
        StandsFor origin scopes.old writer.old (K.taken sink.old) (K.faults sink.old) around.old (P.asking port.old) s
        → PageMeant (served_at asked.entry.tree.now asked.entry.request.now around.old) page asked.entry.params.now
        (level_limit - around.old.depth) (StandsFor origin scopes.new writer.new (K.taken sink.new)
        (K.faults sink.new) around.new (P.asking port.new)) s (P.asking port.old).answers
        (P.asking port.new).answers around.new.depth end) result }
    ensures steps { StepsSo asked.entry.tree.now asked.entry.path.now steps.old steps.new result }
    ensures scopes { IsUntouched scopes.old scopes.new result }
    ensures writer { IsUntouched writer.old writer.new result }
    ensures sink { IsUntouched sink.old sink.new result }
    ensures around { IsUntouched around.old around.new result }
    ensures port { IsUntouched port.old port.new result }
    ensures in_order { IsInOrder scopes.new around.new (P.asking port.new) }
    ensures charged { HasCharged around.old around.new (P.asking port.old) (P.asking port.new) }
    ensures depth { KeepsDepth around.old.depth around.new.depth result }
    ensures session { KeepsSession around.old around.new }
    ensures response { KeepsResponse writer.old writer.new around.old around.new }
    ensures exception { around.new.exception ≡ around.old.exception }
    ensures tree { P.tree port.new ≡ asked.entry.tree.now }
    ensures leads { P.leads port.old port.new }
{
    let Ok(made) = make(alloc, asked.tree, asked.path, steps) else {
        return TreeEnd::NoMemory;
    };
    let Made { deps: _deps, body } = made;
    let program = match body {
        MadeBody::Program(program) => program,
        MadeBody::Fault(fault) => return TreeEnd::Faulty(fault),
    };
    let page = AskedPage {
        program: &program,
        request: asked.request,
        params: asked.params,
    };
    TreeEnd::Ran(run_program(alloc, page, scopes, writer, sink, around, port))
}
