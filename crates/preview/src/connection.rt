ghost use Rattle.std.specs.Prelude.{◌≡◌, ◌≢◌, ◌<◌};
ghost use Rattle.conversation.specs.Refusal.{IsShown};
ghost use Rattle.edges.specs.Faults.{Rose};
ghost use Rattle.http_in.specs.declared.fault.HttpFault.{HttpFault};
ghost use Rattle.compiled_pages.specs.Pages.{needs_at};
ghost use Rattle.preview_words.specs.Laws.{GrewByPictures};
ghost use Rattle.preview_words.specs.Previewed.{HasPreviewed};
ghost use Rattle.site_words.specs.Answers.{IsSamePort};

use crate::desk::PreviewDesk;
use compiled_pages::Made;
use conversation::{Ended, walk};
use edges::{Ledger, Sink, Source, Steps};
use preview_words::pictures;
use site_words::Port;
use std::alloc::Global;

/// Answers the requests of one preview connection over a port to the live site, each before it
/// reads the next. It has a draft of its own, which nobody publishes, and asks the site for
/// pictures alone, so that nothing of it is seen elsewhere.
pub fn preview<P: Port<Made>, S: Source, K: Sink, L: Ledger>(
    alloc: Global,
    port: &mut P,
    source: &mut S,
    sink: &mut K,
    steps: &mut Steps<L>,
) -> Ended
    requires pass { P.pass port.old < (P.opening port.old).passes }
    ensures same { IsSamePort (P.pass port.old) (P.pass port.new) (P.opening port.old) (P.opening port.new)
        (P.home port.old) (P.home port.new) }

    // The sink took the answers to the requests that stand in the bytes that came, and nothing
    // else.
    ensures talk { HasPreviewed needs_at (P.opening port.old) (P.pass port.old) (P.seen port.old)
        (P.seen port.new) steps.old steps.new (S.left source.old) (S.left source.new) (K.faults sink.old)
        (K.faults sink.new) (K.taken sink.old) (K.taken sink.new) result }

    // The pass has seen more of one history, and its new entries are pictures alone.
    ensures alone { GrewByPictures (P.pass port.old) (P.seen port.old) (P.seen port.new) }
    ensures shown { (fault : HttpFault) → result ≡ Ended.Refused fault → IsShown fault }

    // A fault of the outside is told only where it was counted.
    ensures read { result ≡ Ended.ReadFault → Rose (S.faults source.old) (S.faults source.new) }
    ensures write { result ≡ Ended.WriteFault → Rose (K.faults sink.old) (K.faults sink.new) }
    ensures unfailing { S.unfailing source.old → (result ≢ Ended.ReadFault) × S.unfailing source.new }
{
    pictures();
    let mut desk = PreviewDesk::new(alloc);
    walk(alloc, &mut desk, port, &mut (), steps, source, sink)
}
