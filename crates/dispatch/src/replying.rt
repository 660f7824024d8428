// The reply of a request, as it is written.
ghost use Rattle.std.specs.Prelude.{◌≤◌, ℕ, List, [], false};
ghost use Rattle.std.specs.declared.option.Option.{Option};
ghost use Rattle.dispatch.specs.Replied.{Wrote, response_in};
ghost use Rattle.http_out.specs.Response.{whole, wire};
ghost use Rattle.out_buffer.specs.Held.{Stands, response_of};
ghost use Rattle.out_buffer.specs.Streamed.{HasTaken};
ghost use Rattle.out_buffer.specs.Writer.{Writer as Written};
ghost use Rattle.page_meaning.specs.Response.{closing};
ghost use Rattle.page_meaning.specs.State.{State};
ghost use Rattle.request_pages.specs.Closed.{IsReplyOpen, Reached};
ghost use Rattle.request_pages.specs.Headed.{IsHeaded};
ghost use Rattle.run_world.specs.Origin.{Origin};
ghost use Rattle.scopes.specs.Scopes.{ScopeState};
ghost use Rattle.site_words.specs.Running.{Asking};

use conversation::Outcome;
use edges::{Failed, Sink};
use http_out::{Head, write_whole};
use out_buffer::Writer;
use pg_text::Failure;
use request_pages::{Incoming, Reply, new_id};
use run_world::Around;
use std::alloc::{AllocError, Global};

/// Writes a reply to its end. Memory may run out only where nothing was committed, and then
/// nothing was written.
#[inline(always)]
pub(crate) fn write_reply<K: Sink>(
    alloc: Global,
    reply: Reply,
    writer: Writer,
    around: &Around,
    incoming: Incoming,
    sink: &mut K,
) -> Result<Outcome, AllocError>
    ensures wrote { (origin : Origin) (scopes : ScopeState) (asking : Asking) (s : State) →
        Reached origin scopes writer (K.taken sink.old) (K.faults sink.old) around.now asking s →
        IsHeaded incoming.entry.close incoming.entry.shown around.now writer →
        IsReplyOpen reply s.writer.pieces
        → Wrote origin.start origin.before (wire (closing incoming.entry.close (response_in writer reply
        s)) incoming.entry.shown) (response_in writer reply s).broken s.writer.pieces
        (K.taken sink.new) (K.faults sink.new) result }
    ensures later { K.faults sink.old ≤ K.faults sink.new }
{
    match reply {
        Reply::Written { broken } => write_rest(writer, broken, sink),
        Reply::Whole {
            status,
            content_type,
            location,
            body,
        } => {
            drop(writer);
            let head = Head {
                content_type,
                set_cookie: new_id(around)?,
                location,
                ..Head::of(status, incoming.close)
            };
            write_body(alloc, &head, body.as_slice(), incoming.shown, sink)
        }
    }
}

// Writes what a writer still holds to the end of the response, which may break off.
fn write_rest<K: Sink>(writer: Writer, broken: bool, sink: &mut K) -> Result<Outcome, AllocError>
    ensures wrote { (start : Option (List ℕ)) (before : ℕ) (written : Written) →
        Stands start before writer (K.taken sink.old) (K.faults sink.old) written
        → Wrote start before (wire (response_of writer.head written broken) writer.shown) broken
        written.pieces (K.taken sink.new) (K.faults sink.new) result }
    ensures later { K.faults sink.old ≤ K.faults sink.new }
{
    match writer.finish(sink, broken) {
        Ok(()) if broken => Ok(Outcome::Broken),
        Ok(()) => Ok(Outcome::Whole),
        Err(Failure::Fault(Failed)) => Ok(Outcome::WriteFault),
        Err(Failure::NoMemory) => Err(AllocError),
    }
}

// Writes a body of which nothing was committed, behind its head.
fn write_body<K: Sink>(
    alloc: Global,
    head: &Head,
    body: &[u8],
    shown: bool,
    sink: &mut K,
) -> Result<Outcome, AllocError>
    ensures wrote { (start : Option (List ℕ)) (before : ℕ) →
        HasTaken start before [] false (K.taken sink.old) (K.faults sink.old)
        → Wrote start before (whole head.now body.now shown) false [] (K.taken sink.new)
        (K.faults sink.new) result }
    ensures later { K.faults sink.old ≤ K.faults sink.new }
{
    let mut failed = false;
    write_whole(alloc, sink, &mut failed, head, body, shown)?;
    if failed {
        return Ok(Outcome::WriteFault);
    }
    Ok(Outcome::Whole)
}
