ghost use Rattle.std.specs.Prelude.{◌≡◌, ◌<◌};
ghost use Rattle.edges.specs.History.{IsFront};
ghost use Rattle.pass_course.specs.Course.{IsIdle};
ghost use Rattle.pages_serve.specs.Talked.{HasTalked};
ghost use Rattle.site_words.specs.Answers.{IsSamePort};

use compiled_pages::Made;
use edges::{Clock, Sink, Source, Steps, Unseen};
use pages_talk::{Role, talk};
use preview::preview;
use site_rounds::Talk;
use site_words::Port;
use std::alloc::Global;
use std::marker::Brand;
use std::sync::ledger;
use std::sync::ledger::Blank;

/// For whom connections are.
#[derive(Clone, Copy, Debug, PartialEq, Eq)]
pub enum Audience {
    /// They may not change the site.
    Readers,
    Editors,
    /// They are shown the site with edits that nobody publishes.
    Previews,
}

/// Answers connections by the pages of a site.
#[derive(Clone, Copy, Drop)]
pub struct Pages {
    pub alloc: Global,
    pub audience: Audience,
}

impl Talk<Made> for Pages {
    ghost talked = { λ pages. HasTalked pages.audience };

    fn talk<Q: Port<Made>, S: Source, K: Sink, C: Clock>(
        &self,
        port: &mut Q,
        source: &mut S,
        sink: &mut K,
        clock: &mut C,
    ) {
        talk_uncounted::<Brand, _, _, _, _>(*self, port, source, sink, clock, Blank::new(1));
    }
}

// Answers a connection, without a count of what its pages read. How it ended is nobody's concern.
fn talk_uncounted<N: ledger::Ledger, P: Port<Made>, S: Source, K: Sink, C: Clock>(
    pages: Pages,
    port: &mut P,
    source: &mut S,
    sink: &mut K,
    clock: &mut C,
    blank: Blank,
)
    requires name { blank.name ≡ N.name }
    requires parts { blank.parts ≡ N.parts }
    requires some { 0 < N.parts }
    requires idle { IsIdle (P.opening port.old) (P.pass port.old) (P.seen port.old) }
    ensures same { IsSamePort (P.pass port.old) (P.pass port.new) (P.opening port.old) (P.opening port.new)
        (P.home port.old) (P.home port.new) }
    ensures idle { IsIdle (P.opening port.new) (P.pass port.new) (P.seen port.new) }
    ensures longer { IsFront (P.seen port.old) (P.seen port.new) }
    ensures talked { HasTalked pages.audience (P.opening port.old) (P.pass port.old) (P.seen port.old)
        (P.seen port.new) }
{
    let Pages { alloc, audience } = pages;
    let mut steps = Steps::<Unseen<N>>::unseen(blank);
    match audience {
        Audience::Readers => talk(alloc, port, Role::Reader, source, sink, clock, &mut steps),
        Audience::Editors => talk(alloc, port, Role::Both, source, sink, clock, &mut steps),
        Audience::Previews => preview(alloc, port, source, sink, &mut steps),
    };
}
