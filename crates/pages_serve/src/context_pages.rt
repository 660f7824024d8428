ghost use Rattle.std.specs.Prelude.{◌≡◌, ◌<◌, All, length};
ghost use Rattle.pass_course.specs.Course.{IsIdle};
ghost use Rattle.pages_serve.specs.Numbers.{number_of};
ghost use Rattle.pages_serve.specs.Talked.{IsConversedAmong};

use compiled_pages::Made;
use context_names::{ContextNames, PortList};
use context_talk::talk_contexts;
use edges::{Clock, Clocks, OpenGate, Sink, Source, Steps, Unseen};
use pages_server::Handler;
use pages_talk::Role;
use site_shared::SharedPort;
use site_words::Port;
use std::alloc::Global;
use std::marker::{Brand, PhantomData};
use std::sync::Wait;
use std::sync::ledger::{Blank, Ledger};

/// Answers connections to several sites, over the ports that are a worker's token.
#[derive(Drop)]
pub struct ContextPages<'a, R, W> {
    pub alloc: Global,
    pub names: &'a ContextNames,
    pub role: Role,
    pub clocks: &'a W,
    pub turns: PhantomData<&'a R>,
}

impl<'a, R: Wait + Sync, W: Clocks> Handler for ContextPages<'a, R, W> {
    type Token = PortList<SharedPort<'a, Made, OpenGate, R>>;

    ghost fits = { λ handler list. (length list.ports.items ≡ length handler.names.now) × All
        (λ port. IsIdle port.actor.site.now.opening port.actor.pass.number port.actor.pass.seen) list.ports.items };

    ghost number = { λ list. number_of (λ port. port.actor.pass.number) list.ports.items };

    ghost handled = { λ handler old new. IsConversedAmong handler.names.now handler.role
        (λ port. port.actor.site.now.opening) (λ port. port.actor.pass.number) (λ port. port.actor.site.now)
        (λ port. port.actor.pass.seen) old.ports.items new.ports.items };

    fn handle<S: Source, K: Sink>(
        &self,
        token: &mut PortList<SharedPort<'a, Made, OpenGate, R>>,
        source: &mut S,
        sink: &mut K,
    ) {
        let mut clock = self.clocks.clock();
        let blank = Blank::new(1);
        talk_uncounted::<Brand, _, _, _, _, _, _>(self, token, source, sink, &mut clock, blank);
    }
}

// Answers a connection, without a count of what its pages read. How it ended is nobody's concern.
fn talk_uncounted<N: Ledger, R, W, P: Port<Made>, S: Source, K: Sink, C: Clock>(
    pages: &ContextPages<'_, R, W>,
    ports: &mut PortList<P>,
    source: &mut S,
    sink: &mut K,
    clock: &mut C,
    blank: Blank,
)
    requires name { blank.name ≡ N.name }
    requires parts { blank.parts ≡ N.parts }
    requires some { 0 < N.parts }
    requires count { length ports.old.ports.items ≡ length pages.now.names.now }
    requires idle { All (λ port. IsIdle (P.opening port) (P.pass port) (P.seen port)) ports.old.ports.items }
    ensures count { length ports.new.ports.items ≡ length pages.now.names.now }
    ensures idle { All (λ port. IsIdle (P.opening port) (P.pass port) (P.seen port)) ports.new.ports.items }
    ensures number { number_of P.pass ports.new.ports.items ≡ number_of P.pass ports.old.ports.items }
    ensures talked { IsConversedAmong pages.now.names.now pages.now.role P.opening P.pass P.home P.seen
        ports.old.ports.items ports.new.ports.items }
{
    let mut steps = Steps::<Unseen<N>>::unseen(blank);
    talk_contexts(
        pages.alloc,
        pages.names,
        ports,
        pages.role,
        source,
        sink,
        clock,
        &mut steps,
    );
}
