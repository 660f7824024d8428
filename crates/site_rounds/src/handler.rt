ghost use Rattle.std.specs.Prelude.{◌≡◌, ◌<◌};
ghost use Rattle.pass_course.specs.Course.{IsIdle};
ghost use Rattle.site_rounds.specs.Served.{IsTalk};

use crate::Talk;
use edges::{Clocks, Gate, Sink, Source};
use pages_server::Handler;
use site_shared::{SharedPort, SharedSite};
use site_words::Compiled;
use std::marker::PhantomData;
use std::sync::Wait;

/// Answers connections to a shared site, over the port that is a worker's token.
#[derive(Drop)]
pub struct PortHandler<'a, P: Compiled, G: Gate + Drop, R, T, W> {
    pub site: &'a SharedSite<P, G>,
    pub talk: &'a T,
    pub clocks: &'a W,
    pub turns: PhantomData<&'a R>,
}

impl<
    'a,
    P: Compiled + Send + Sync,
    G: Gate + Drop + Sync,
    R: Wait + Sync,
    T: Talk<P>,
    W: Clocks,
> Handler for PortHandler<'a, P, G, R, T, W> {
    type Token = SharedPort<'a, P, G, R>;

    ghost fits = { λ handler port. (port.actor.site.now ≡ handler.site.now)
        × IsIdle port.actor.site.now.opening port.actor.pass.number port.actor.pass.seen };

    ghost number = { λ port. port.actor.pass.number };

    ghost handled = { λ handler old new. IsTalk (T.talked handler.talk.now handler.site.now.opening)
        old.actor.pass new.actor.pass };

    fn handle<S: Source, K: Sink>(
        &self,
        token: &mut SharedPort<'a, P, G, R>,
        source: &mut S,
        sink: &mut K,
    ) {
        let mut clock = self.clocks.clock();
        self.talk.talk(token, source, sink, &mut clock);
    }
}
