ghost use Rattle.std.specs.Prelude.{◌≡◌, Some};

use crate::{PortHandler, Service};
use edges::Gate;
use pages_server::Endpoint;
use site_shared::SharedSite;
use site_words::Compiled;
use std::marker::PhantomData;

/// Where readers come in to this site, and how they are answered.
pub(crate) fn readers_of<'a, P: Compiled, G: Gate + Drop, R, T, A, W>(
    site: &'a SharedSite<P, G>,
    service: Service<'a, T, A, W>,
) -> Endpoint<'a, A, PortHandler<'a, P, G, R, T, W>>
    ensures site { result.handler.site.now ≡ site.now }
    ensures listener { result.listener.now ≡ service.entry.listeners.now.readers }
    ensures talk { result.handler.talk.now ≡ service.entry.talks.now.readers }
{
    Endpoint {
        listener: &service.listeners.readers,
        handler: handler_of(site, &service.talks.readers, service.clocks),
    }
}

/// Where editors come in to this site, and how they are answered.
pub(crate) fn editors_of<'a, P: Compiled, G: Gate + Drop, R, T, A, W>(
    site: &'a SharedSite<P, G>,
    service: Service<'a, T, A, W>,
) -> Endpoint<'a, A, PortHandler<'a, P, G, R, T, W>>
    ensures site { result.handler.site.now ≡ site.now }
    ensures listener { result.listener.now ≡ service.entry.listeners.now.editors }
    ensures talk { result.handler.talk.now ≡ service.entry.talks.now.editors }
{
    Endpoint {
        listener: &service.listeners.editors,
        handler: handler_of(site, &service.talks.editors, service.clocks),
    }
}

/// Where drafts of this site are shown, and how. Where they aren't, no worker is to stand there.
pub(crate) fn previews_of<'a, P: Compiled, G: Gate + Drop, R, T, A, W>(
    site: &'a SharedSite<P, G>,
    service: Service<'a, T, A, W>,
) -> Endpoint<'a, A, PortHandler<'a, P, G, R, T, W>>
    ensures site { result.handler.site.now ≡ site.now }
    ensures listener { (previews : A) → service.entry.listeners.now.previews ≡ Some previews
        → result.listener.now ≡ previews }
    ensures talk { result.handler.talk.now ≡ service.entry.talks.now.previews }
{
    Endpoint {
        listener: match &service.listeners.previews {
            Some(listener) => listener,
            None => &service.listeners.editors,
        },
        handler: handler_of(site, &service.talks.previews, service.clocks),
    }
}

// What answers connections to this site by this talk.
fn handler_of<'a, P: Compiled, G: Gate + Drop, R, T, W>(
    site: &'a SharedSite<P, G>,
    talk: &'a T,
    clocks: &'a W,
) -> PortHandler<'a, P, G, R, T, W>
    ensures site { result.site.now ≡ site.now }
    ensures talk { result.talk.now ≡ talk.now }
{
    PortHandler {
        site,
        talk,
        clocks,
        turns: PhantomData,
    }
}
