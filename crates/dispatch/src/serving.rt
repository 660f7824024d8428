// A request from its beginning to its end.
ghost use Rattle.std.specs.Prelude.{◌≡◌, ◌≤◌, [], ℕ, List, true, false, IsErr, OnOk};
ghost use Rattle.std.specs.Arc.{arc_value};
ghost use Rattle.std.specs.Option.{unwrap_or};
ghost use Rattle.std.specs.declared.option.Option.{Option};
ghost use Rattle.conversation.specs.declared.desk.Outcome.TheVariants as outcome;
ghost use Rattle.dispatch.specs.Begun.{IsBegun};
ghost use Rattle.dispatch.specs.Opened.{IsOpened};
ghost use Rattle.dispatch.specs.Started.{Came, HasBegun, IsAt, Ran, Replies, RunsSo, Start};
ghost use Rattle.dispatch.specs.Started.{Starves, started};
ghost use Rattle.edges.specs.Clock.{Moments};
ghost use Rattle.edges.specs.Faults.{Rose};
ghost use Rattle.edges.specs.declared.acted.Acted.TheVariants.{Did};
ghost use Rattle.http_out.specs.declared.head.Head.{Head};
ghost use Rattle.out_buffer.specs.Streamed.{HasTaken};
ghost use Rattle.page_answers.specs.Standing.{Standing, found};
ghost use Rattle.request_pages.specs.Run.{IsInOrder};
ghost use Rattle.compiled_pages.specs.Pages.{needs_at};
ghost use Rattle.page_meaning.specs.State.{State};
ghost use Rattle.pass_course.specs.Course.{IsIdle};
ghost use Rattle.pass_course.specs.Under.{Under};
ghost use Rattle.pg_value.specs.Datum.{Datum};
ghost use Rattle.request_pages.specs.declared.request_state.RequestState.{RequestState as RequestState'};
ghost use Rattle.request_pages.specs.Asked.{asking_of};
ghost use Rattle.site_words.specs.Answers.{IsSamePort, StartsWith};
ghost use Rattle.site_words.specs.Law.{May, own};
ghost use Rattle.site_words.specs.State.{after};
ghost use Rattle.site_words.specs.Weights.{attrs_limit, attrs_weight};
ghost use Rattle.site_words.specs.declared.words.Op.TheVariants as op;
ghost use Rattle.site_words.specs.declared.words.Run.{Run};

use crate::beginning::begin_state;
use crate::replying::write_reply;
use crate::under_way::UnderWay;
use compiled_pages::Made;
use conversation::Outcome;
use edges::{Ledger, Sink, Steps};
use http_out::write_no_memory;
use request_pages::{Incoming, Reply, RequestPort, RequestState, answer};
use site_words::{Begun, Port};
use std::alloc::{AllocError, Global};

/// Answers a request that has begun, and ends it. Where memory runs out the request is abandoned.
pub(crate) fn serve<Q: Port<Made>, K: Sink, L: Ledger>(
    alloc: Global,
    port: &mut Q,
    begun: Begun,
    incoming: Incoming,
    sink: &mut K,
    steps: &mut Steps<L>,
) -> Outcome
    requires starts { StartsWith (after needs_at (Q.opening port.old) (Q.seen port.old)) (Did begun) }
    requires opened { IsOpened (Q.opening port.old) (Q.pass port.old) (Q.seen port.old) begun.request
        begun.session (arc_value begun.tree) }
    ensures idle { IsIdle (Q.opening port.new) (Q.pass port.new) (Q.seen port.new) }
    ensures same { IsSamePort (Q.pass port.old) (Q.pass port.new) (Q.opening port.old) (Q.opening port.new)
        (Q.home port.old) (Q.home port.new) }
    ensures came { (old : Standing) (moments : Moments) →
        let p : Start = started incoming.entry.request.now incoming.entry.close incoming.entry.shown
        begun.request (arc_value begun.tree) (found incoming.entry.request.now.cookie begun.session
        begun.attrs) (Q.seen port.old) steps.old (K.taken sink.old) (K.faults sink.old) in
        HasBegun (Q.opening port.old) (Q.pass port.old) old moments p →
        Came (Q.opening port.old) (Q.pass port.old) old moments p (Q.seen port.new) steps.new
        (K.taken sink.new) (K.faults sink.new) result }
    ensures later { K.faults sink.old ≤ K.faults sink.new }
    ensures failed { result ≡ outcome.WriteFault → Rose (K.faults sink.old) (K.faults sink.new) }
{
    port.law();
    let Begun {
        request: number,
        session,
        tree,
        attrs,
        ..
    } = begun;
    let under_way = UnderWay {
        number,
        tree: &*tree,
        incoming,
    };
    let Ok(mut state) = begin_state(alloc, incoming, session, attrs) else {
        return abandon(port, under_way, sink);
    };
    match reply_from_pages(alloc, port, under_way, &mut state, sink, steps) {
        Ok(reply) => finish(alloc, port, under_way, reply, state, sink),
        Err(AllocError) => give_up(port, under_way, state.writer.committed(), sink),
    }
}

// Runs what stands at a request's path, over the port on which it was begun.
fn reply_from_pages<'a, Q: Port<Made>, K: Sink, L: Ledger>(
    alloc: Global,
    port: &'a mut Q,
    under_way: UnderWay<'a>,
    state: &mut RequestState,
    sink: &mut K,
    steps: &'a mut Steps<L>,
) -> Result<Reply, AllocError>
    requires opened { (session : Option ℕ) × (attrs : List (List ℕ × Datum)) × IsOpened
        (Q.opening port.old) (Q.pass port.old) (Q.seen port.old) under_way.number session
        under_way.tree.now × IsBegun under_way.incoming.request.now.cookie session attrs
        under_way.incoming.close under_way.incoming.shown state.old × (attrs_weight attrs ≤ attrs_limit) }
    ensures same { IsSamePort (Q.pass port.old) (Q.pass port.new) (Q.opening port.old) (Q.opening port.new)
        (Q.home port.old) (Q.home port.new) }
    ensures under { (now : Run) × Under (Q.opening port.new) (Q.pass port.new) (Q.seen port.new)
        under_way.entry.number under_way.entry.tree.now now }
    ensures ran { (session : Option ℕ) (attrs : List (List ℕ × Datum)) →
        IsBegun under_way.entry.incoming.request.now.cookie session attrs
        under_way.entry.incoming.close under_way.entry.incoming.shown state.old
        → RunsSo (Q.opening port.old) (Q.pass port.old) (started
        under_way.entry.incoming.request.now under_way.entry.incoming.close
        under_way.entry.incoming.shown under_way.entry.number under_way.entry.tree.now
        (found under_way.entry.incoming.request.now.cookie session attrs) (Q.seen port.old) steps.old
        (K.taken sink.old) (K.faults sink.old)) (Q.seen port.new) steps.new state.new
        (K.taken sink.new) (K.faults sink.new) result }
    ensures in_order { OnOk result (IsInOrder state.new.scopes state.new.around
        (asking_of (Q.opening port.new) (Q.pass port.new) (Q.seen port.new) under_way.entry.number
        under_way.entry.tree.now)) }
    ensures later { K.faults sink.old ≤ K.faults sink.new }
{
    port.law();
    let mut asked = RequestPort {
        alloc,
        port,
        steps,
        tree: under_way.tree,
        request: under_way.number,
        starved: false,
        last: None,
    };
    let replied = answer(alloc, under_way.incoming, state, sink, &mut asked);
    let RequestPort {
        port,
        steps,
        starved,
        last,
        ..
    } = asked;
    drop(last);
    come_back(port, steps, starved, replied)
}

// What was replied, unless memory ever ran out while a page was found. The port and the count of
// bytes aren't used: handing them to a call tells the prover that they are as they were once
// `asked`, which borrowed them and keeps a page, is taken apart.
fn come_back<Q: Port<Made>, L: Ledger>(
    port: &mut Q,
    steps: &mut Steps<L>,
    starved: bool,
    replied: Result<Reply, AllocError>,
) -> Result<Reply, AllocError>
    ensures port { port.new ≡ port.old }
    ensures steps { steps.new ≡ steps.old }
    ensures starved { starved ≡ true → IsErr result }
    ensures fed { starved ≡ false → result ≡ replied }
{
    if starved {
        return Err(AllocError);
    }
    replied
}

// Writes the reply of a request, and ends it; where memory for its head runs out the request is
// abandoned.
fn finish<Q: Port<Made>, K: Sink>(
    alloc: Global,
    port: &mut Q,
    under_way: UnderWay,
    reply: Reply,
    state: RequestState,
    sink: &mut K,
) -> Outcome
    requires ends { May (Q.opening port.old) (Q.seen port.old) (Q.pass port.old)
        (own (Q.pass port.old) (Q.seen port.old)) (op.End under_way.number
        (unwrap_or state.scopes.session [])) }
    requires drops { May (Q.opening port.old) (Q.seen port.old) (Q.pass port.old)
        (own (Q.pass port.old) (Q.seen port.old)) (op.Abandon under_way.number) }
    ensures idle { IsIdle (Q.opening port.new) (Q.pass port.new) (Q.seen port.new) }
    ensures same { IsSamePort (Q.pass port.old) (Q.pass port.new) (Q.opening port.old) (Q.opening port.new)
        (Q.home port.old) (Q.home port.new) }
    ensures came { (p : Start) (old : Standing) (moments : Moments) (now : ℕ) →
        IsAt p under_way.entry.number under_way.entry.incoming.close under_way.entry.incoming.shown →
        HasBegun (Q.opening port.old) (Q.pass port.old) old moments p
        → Replies (Q.opening port.old) (Q.pass port.old) p (Q.seen port.old) now state (K.taken sink.old)
        (K.faults sink.old) reply → Came (Q.opening port.old) (Q.pass port.old) old moments p
        (Q.seen port.new) now (K.taken sink.new) (K.faults sink.new) result }
    ensures failed { (p : Start) (now : ℕ) → IsAt p under_way.entry.number
        under_way.entry.incoming.close under_way.entry.incoming.shown →
        Replies (Q.opening port.old) (Q.pass port.old) p (Q.seen port.old) now state (K.taken sink.old)
        (K.faults sink.old) reply → result ≡ outcome.WriteFault → Rose p.faults (K.faults sink.new) }
    ensures later { K.faults sink.old ≤ K.faults sink.new }
{
    let RequestState {
        scopes,
        writer,
        around,
    } = state;
    match write_reply(alloc, reply, writer, &around, under_way.incoming, sink) {
        Ok(outcome) => {
            port.end(under_way.number, scopes.into_session());
            outcome
        }
        Err(AllocError) => abandon(port, under_way, sink),
    }
}

// Abandons a request whose pages were cut short. What was committed stands; else the answer says
// that memory ran out.
#[cold]
#[inline(never)]
fn give_up<Q: Port<Made>, K: Sink>(
    port: &mut Q,
    under_way: UnderWay,
    committed: bool,
    sink: &mut K,
) -> Outcome
    requires drops { May (Q.opening port.old) (Q.seen port.old) (Q.pass port.old)
        (own (Q.pass port.old) (Q.seen port.old)) (op.Abandon under_way.number) }
    ensures idle { IsIdle (Q.opening port.new) (Q.pass port.new) (Q.seen port.new) }
    ensures same { IsSamePort (Q.pass port.old) (Q.pass port.new) (Q.opening port.old) (Q.opening port.new)
        (Q.home port.old) (Q.home port.new) }
    ensures came { (p : Start) (old : Standing) (moments : Moments) (now : ℕ) (state : RequestState')
        (ran : Ran (Q.opening port.old) (Q.pass port.old) p (Q.seen port.old) state (K.taken sink.old)
        (K.faults sink.old)) → IsAt p under_way.entry.number under_way.entry.incoming.close
        under_way.entry.incoming.shown → HasBegun (Q.opening port.old) (Q.pass port.old) old moments p →
        committed ≡ state.writer.committed →
        Starves (Q.opening port.old) (Q.pass port.old) p (Q.seen port.old) now state.writer.head ran.after
        → Came (Q.opening port.old) (Q.pass port.old) old moments p (Q.seen port.new) now (K.taken sink.new)
        (K.faults sink.new) result }
    ensures outcome { result ≡ outcome.NoMemory }
    ensures later { K.faults sink.old ≤ K.faults sink.new }
{
    if committed {
        port.abandon(under_way.number);
        return Outcome::NoMemory;
    }
    abandon(port, under_way, sink)
}

// Abandons a request of which nothing was committed, and says that memory ran out.
#[cold]
#[inline(never)]
fn abandon<Q: Port<Made>, K: Sink>(port: &mut Q, under_way: UnderWay, sink: &mut K) -> Outcome
    requires drops { May (Q.opening port.old) (Q.seen port.old) (Q.pass port.old)
        (own (Q.pass port.old) (Q.seen port.old)) (op.Abandon under_way.number) }
    ensures idle { IsIdle (Q.opening port.new) (Q.pass port.new) (Q.seen port.new) }
    ensures same { IsSamePort (Q.pass port.old) (Q.pass port.new) (Q.opening port.old) (Q.opening port.new)
        (Q.home port.old) (Q.home port.new) }
    ensures came { (p : Start) (old : Standing) (moments : Moments) (now : ℕ) (head : Head)
        (reached : State) → IsAt p under_way.entry.number under_way.entry.incoming.close
        under_way.entry.incoming.shown → HasBegun (Q.opening port.old) (Q.pass port.old) old moments p
        → Starves (Q.opening port.old) (Q.pass port.old) p (Q.seen port.old) now head reached →
        reached.writer.pieces ≡ [] → HasTaken p.taken p.faults [] false (K.taken sink.old) (K.faults sink.old)
        → Came (Q.opening port.old) (Q.pass port.old) old moments p (Q.seen port.new) now (K.taken sink.new)
        (K.faults sink.new) result }
    ensures outcome { result ≡ outcome.NoMemory }
    ensures later { K.faults sink.old ≤ K.faults sink.new }
{
    port.abandon(under_way.number);
    let mut failed = false;
    write_no_memory(
        sink,
        &mut failed,
        under_way.incoming.close,
        under_way.incoming.shown,
    );
    Outcome::NoMemory
}
