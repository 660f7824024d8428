ghost use Rattle.std.specs.Prelude.{◌≡◌};
ghost use Rattle.talk_words.specs.declared.role.Role.TheVariants.{Both, Reader};

use crate::context_pages::ContextPages;
use crate::platform::Platform;
use context_names::ContextNames;
use pages_server::Endpoint;
use pages_talk::Role;
use site_rounds::Listeners;
use std::marker::PhantomData;

/// Where readers come in, and what answers them by the sites of these names.
pub(crate) fn readers_of<'a, R, W, A>(
    platform: Platform<'a, R, W>,
    names: &'a ContextNames,
    listeners: &'a Listeners<A>,
) -> Endpoint<'a, A, ContextPages<'a, R, W>>
    ensures names { result.handler.names.now ≡ names.now }
    ensures listener { result.listener.now ≡ listeners.now.readers }
    ensures role { result.handler.role ≡ Reader }
{
    endpoint_of(platform, names, &listeners.readers, Role::Reader)
}

/// Where editors come in, and what answers them.
pub(crate) fn editors_of<'a, R, W, A>(
    platform: Platform<'a, R, W>,
    names: &'a ContextNames,
    listeners: &'a Listeners<A>,
) -> Endpoint<'a, A, ContextPages<'a, R, W>>
    ensures names { result.handler.names.now ≡ names.now }
    ensures listener { result.listener.now ≡ listeners.now.editors }
    ensures role { result.handler.role ≡ Both }
{
    endpoint_of(platform, names, &listeners.editors, Role::Both)
}

// What answers the connections of this listener in this role.
fn endpoint_of<'a, R, W, A>(
    platform: Platform<'a, R, W>,
    names: &'a ContextNames,
    listener: &'a A,
    role: Role,
) -> Endpoint<'a, A, ContextPages<'a, R, W>>
    ensures names { result.handler.names.now ≡ names.now }
    ensures listener { result.listener.now ≡ listener.now }
    ensures role { result.handler.role ≡ role }
{
    Endpoint {
        listener,
        handler: ContextPages {
            alloc: platform.alloc,
            names,
            role,
            clocks: platform.clocks,
            turns: PhantomData,
        },
    }
}
