ghost use Rattle.std.specs.Prelude.{◌≡◌, map};
ghost use Rattle.std.specs.Option.{option_map};
ghost use Rattle.jstl_tags.specs.Around.{host_of, in_choose, in_text, is_host};
ghost use Rattle.jstl_tags.specs.Hosts.{host_made};

use crate::core_name::CoreName;

/// An element in whose body something stands.
#[derive(Clone, Copy)]
pub enum Host<'a> {
    /// A core tag, and whether an `otherwise` stood in its body before.
    Core { core: CoreName, otherwise: bool },
    /// A standard action, by its name.
    Standard(&'a str),
    /// The call of a tag file.
    Call,
    Other,
}

// The host is `jsp:` and this name.
fn is_host(name: &str, host: Host) -> bool
    ensures { result ≡ is_host name.now (host_made host.entry) }
{
    match host {
        Host::Standard(other) => name == other,
        _ => false,
    }
}

// The element whose part something is: `jsp:body` stands for the element around it.
pub(crate) fn host_of<'a>(around: &[Host<'a>]) -> Option<Host<'a>>
    ensures { option_map host_made result ≡ host_of (map host_made around.now) }
{
    let (host, others) = around.split_first()?;
    if is_host("body", *host) {
        return others.first().copied();
    }
    Some(*host)
}

// Whether something stands in a choice, or in its `jsp:body`.
pub(crate) fn in_choose(around: &[Host]) -> bool
    ensures { result ≡ in_choose (map host_made around.now) }
{
    match host_of(around) {
        Some(
            Host::Core {
                core: CoreName::Choose,
                ..
            },
        ) => true,
        _ => false,
    }
}

// Whether something stands in a text.
pub(crate) fn in_text(around: &[Host]) -> bool
    ensures { result ≡ in_text (map host_made around.now) }
{
    match around.first() {
        Some(host) => is_host("text", *host),
        None => false,
    }
}
