// What stands at the target of an include. In contracts `covered` says that the request's promise
// still covers all that it may ask of the site.
ghost use Rattle.std.specs.Prelude.{◌≡◌, ◌+◌, ◌<◌, ◌^◌, Err};
ghost use Rattle.page_machine.specs.Found.{OnDone, OnPage, PageFound};
ghost use Rattle.page_machine.specs.Pages.{include_found};
ghost use Rattle.page_machine.specs.Turn.{Stepped};
ghost use Rattle.page_machine.specs.declared.found.Included.TheVariants as included;
ghost use Rattle.page_meaning.specs.Bodies.{put_text};
ghost use Rattle.page_table.specs.Landing.{land};
ghost use Rattle.page_table.specs.Move.{On};
ghost use Rattle.page_table.specs.Seat.{page_run_of};
ghost use Rattle.pg_text.specs.declared.failure.Failure.TheVariants as failure;
ghost use Rattle.run_moves.specs.Acted.{Acted};
ghost use Rattle.run_moves.specs.At.{seat_at};
ghost use Rattle.run_moves.specs.Opened.{open_of};
ghost use Rattle.run_moves.specs.declared.flow.End.TheVariants as end;
ghost use Rattle.run_moves.specs.declared.flow.Flow.TheVariants as flow;
ghost use Rattle.run_world.specs.Known.{Known, ServesSo};

use crate::targets::{Target, TargetParams};
use pg_text::{Failure, Text};
use pg_value::RunFault;
use run_moves::{At, Flow, Open, fail, throw};
use run_world::{Program, World};
use site_words::Paged;
use std::alloc::Global;
use std::sync::Arc;

/// A page that a target names, with its parameters and so many levels left below it.
#[derive(Drop)]
pub(crate) struct TargetPage {
    pub program: Arc<Program>,
    pub params: TargetParams,
    pub left: u32,
}

/// What an include finds at its target: a page, which is still to run, or where it leads at once.
#[derive(Drop)]
pub(crate) enum Included {
    Page(TargetPage),
    Done(Flow),
}

/// Asks what stands at a target, one level deeper: X17, then what isn't a page is included.
#[inline(never)]
pub(crate) fn included_at<W: World>(
    alloc: Global,
    at: &At,
    found: Result<Target, Failure<RunFault>>,
    opened: &mut Open,
    world: &mut W,
) -> Included
    requires covered { W.covered world.old }
    requires known { Known W.reached W.stores at.now.served.now world.old }
    requires within { at.now.pc + 1 < 2 ^ 64 }
    ensures covered { W.covered world.new }
    ensures page { OnPage result (PageFound W.reached W.replies W.stores at.now.served.now (seat_at at.now)
        at.now.cell.place found (at.now.pc + 1) world.old world.new (open_of opened.old) (open_of opened.new)) }
    ensures done { OnDone result (Stepped W.reached W.replies (ServesSo W.stores at.now.served.now) (seat_at at.now)
        (λ serving s. include_found (page_run_of (seat_at at.now)) serving at.now.cell.place found (at.now.pc + 1)
        s (open_of opened.old)) world.old world.new (open_of opened.new)) }
    ensures short { found ≡ Err failure.NoMemory → (result ≡ included.Done (flow.Over end.NoMemory)) × (world.new
        ≡ world.old) }
    ensures left { opened.new.left ≡ opened.old.left }
{
    let Target { path, params } = match found {
        Ok(target) => target,
        Err(failed) => {
            return Included::Done(fail(alloc, failed, &at.cell.place, opened, world));
        }
    };
    let Some(left) = opened.left.checked_sub(1) else {
        let place = &at.cell.place;
        return Included::Done(throw(alloc, RunFault::TooDeep, place, opened, world));
    };
    let paged = match world.page(&path) {
        Ok(paged) => paged,
        Err(failed) => {
            return Included::Done(fail(alloc, failed, &at.cell.place, opened, world));
        }
    };
    match paged {
        Paged::Page(program) => Included::Page(TargetPage {
            program,
            params,
            left,
        }),
        Paged::Plain(text) => Included::Done(include_text(alloc, at, &text, opened, world)),
        Paged::Absent => Included::Done(Flow::Go(at.pc + 1)),
        Paged::Bad(_) => Included::Done(Flow::Go(at.pc + 1)),
    }
}

// Includes a file that is no page.
fn include_text<W: World>(
    alloc: Global,
    at: &At,
    text: &Text,
    opened: &mut Open,
    world: &mut W,
) -> Flow
    requires covered { W.covered world.old }
    requires within { at.now.pc + 1 < 2 ^ 64 }
    ensures covered { W.covered world.new }
    ensures acted { Acted W.reached W.replies
        (λ s. On (land (at.now.pc + 1) (λ u. (open_of opened.old).stack) (open_of opened.old)
        (put_text at.now.cell.place text.now s))) world.old world.new (open_of opened.new) result }
    ensures left { opened.new.left ≡ opened.old.left }
{
    match world.put(text.as_str()) {
        Ok(()) => Flow::Go(at.pc + 1),
        Err(failed) => fail(alloc, failed, &at.cell.place, opened, world),
    }
}
