ghost use Rattle.std.specs.Prelude.{◌≡◌, ◌≤◌, ◌<◌, length, false, true};
ghost use Rattle.edges.specs.Faults.{Rose};
ghost use Rattle.http_in.specs.declared.limits.TheConstants.{SESSION_ID_BYTES};
ghost use Rattle.http_out.specs.Methods.{takes_method};
ghost use Rattle.compiled_pages.specs.Pages.{needs_at};
ghost use Rattle.preview_words.specs.Previewed.{ServedPreview, preview_stand};
ghost use Rattle.site_words.specs.Answers.{IsSamePort};
ghost use Rattle.talk_words.specs.Said.{is_editors};

use crate::incoming::Incoming;
use crate::showing::show;
use crate::telling::tell_full;
use compiled_pages::Made;
use conversation::Outcome;
use edges::{Ledger, Sink, Steps};
use editor::Draft;
use preview_words::{own_sites, pictures};
use site_words::{Acted, Port};
use std::alloc::Global;

/// Answers a request for a page over a port, of which it asks one picture.
pub(crate) fn ask<P: Port<Made>, K: Sink, L: Ledger>(
    alloc: Global,
    draft: &Draft,
    port: &mut P,
    incoming: &mut Incoming,
    sink: &mut K,
    steps: &mut Steps<L>,
) -> Outcome
    requires pass { P.pass port.old < (P.opening port.old).passes }
    requires cookie { length incoming.old.request.cookie ≤ SESSION_ID_BYTES }
    requires pages { is_editors incoming.old.request.target ≡ false }
    requires taken { takes_method incoming.old.request.method ≡ true }
    ensures same { IsSamePort (P.pass port.old) (P.pass port.new) (P.opening port.old) (P.opening port.new)
        (P.home port.old) (P.home port.new) }
    ensures served { ServedPreview needs_at (P.opening port.old) (P.pass port.old) incoming.old.close
        incoming.old.request (preview_stand draft.now (P.seen port.old) steps.old)
        (preview_stand draft.now (P.seen port.new) steps.new) (K.faults sink.old) (K.faults sink.new)
        (K.taken sink.old) (K.taken sink.new) result }
    ensures later { K.faults sink.old ≤ K.faults sink.new }
    ensures failed { result ≡ Outcome.WriteFault → Rose (K.faults sink.old) (K.faults sink.new) }
{
    port.law();
    own_sites();
    pictures();
    match port.snapshot(&incoming.request.cookie) {
        Acted::Did(snapped) => show(alloc, draft, snapped, incoming, sink, steps),
        Acted::Refused(refusal) => tell_full(alloc, incoming, &refusal, sink),
        Acted::NoMemory => Outcome::NoMemory,
    }
}
