ghost use Rattle.std.specs.Prelude.{◌≡◌, ◌∷◌, map, take, if◌then◌else◌, None, Some, IfOk};
ghost use Rattle.std.specs.Option.{option_map};
ghost use Rattle.jstl_tags.specs.Around.{after_otherwise, in_choose, is_choice, with_otherwise};
ghost use Rattle.jstl_tags.specs.Content.{takes_parts};
ghost use Rattle.jstl_tags.specs.Elements.{opened_of};
ghost use Rattle.jstl_tags.specs.Hosts.{host_made};
ghost use Rattle.jstl_tags.specs.Rows.{row_made};
ghost use Rattle.unit_words.specs.Elements.{host, outermost, row_in, within};
ghost use Rattle.unit_words.specs.Walk.{behind};
ghost use Rattle.unit_judges.specs.Made.{around_made, here_made, kind_made};

use crate::kind::Kind;
use jstl_tags::{CoreName, Host, Row, takes_parts};
use page_reader::Element;
use std::alloc::{AllocError, Global};
use unit_source::level_within;

/// The elements around a node, of which the two innermost count, the innermost first.
#[derive(Clone, Copy)]
pub enum Around<'n> {
    Outermost,
    One(Host<'n>),
    Two(Host<'n>, Host<'n>),
}

/// What stands around a node: elements; the row of the innermost, where that takes parts; and how
/// many there are, counted up to one more than there may be.
#[derive(Clone, Copy)]
pub struct Here<'n> {
    pub around: Around<'n>,
    pub row: Option<Row>,
    pub deep: usize,
}

// An element as one in whose body something stands.
fn host<'n>(kind: &Kind, head: &'n Element) -> Host<'n>
    ensures { host_made result ≡ host (kind_made kind.now) (opened_of head.now).tag }
{
    match kind {
        Kind::Core(core, _) => Host::Core {
            core: *core,
            otherwise: false,
        },
        Kind::Standard(_, _) => Host::Standard(head.name.as_str()),
        Kind::Call(_) => Host::Call,
        _ => Host::Other,
    }
}

fn row_in(kind: &Kind) -> Option<Row>
    ensures { option_map row_made result ≡ row_in (kind_made kind.now) }
{
    match kind {
        Kind::Core(_, row) => Some(*row),
        Kind::Standard(_, row) => Some(*row),
        _ => None,
    }
}

fn row_of(kind: &Kind, head: &Element) -> Option<Row>
    ensures { option_map row_made result ≡ (if takes_parts (opened_of head.now).tag then row_in
        (kind_made kind.now) else None) }
{
    if takes_parts(head) {
        row_in(kind)
    } else {
        None
    }
}

// A host in which an `otherwise` stood.
fn with_otherwise<'n>(host: Host<'n>) -> Host<'n>
    ensures { host_made result ≡ with_otherwise (host_made host.entry) }
{
    match host {
        Host::Core {
            core: CoreName::Choose,
            ..
        } => Host::Core {
            core: CoreName::Choose,
            otherwise: true,
        },
        _ => host,
    }
}

// Whether a host is a choice.
fn is_choice(host: Host) -> bool
    ensures { result ≡ is_choice (Some (host_made host.entry)) }
{
    match host {
        Host::Core {
            core: CoreName::Choose,
            ..
        } => true,
        _ => false,
    }
}

impl<'n> Around<'n> {
    // Whether something stands in a choice, or in its `jsp:body`.
    fn in_choose(self) -> bool
        ensures { result ≡ in_choose (around_made self.entry) }
    {
        match self {
            Around::Outermost => false,
            Around::One(host) => is_choice(host),
            Around::Two(Host::Standard("body"), outer) => is_choice(outer),
            Around::Two(host, _) => is_choice(host),
        }
    }

    // What stands around within one more element.
    fn within(self, host: Host<'n>) -> Self
        ensures { around_made result ≡ host_made host.entry ∷ take 1 (around_made self.entry) }
    {
        match self {
            Around::Outermost => Around::One(host),
            Around::One(outer) => Around::Two(host, outer),
            Around::Two(outer, _) => Around::Two(host, outer),
        }
    }

    // What stands around behind an `otherwise`.
    fn after_otherwise(self) -> Self
        ensures { around_made result ≡ after_otherwise (around_made self.entry) }
    {
        match self {
            Around::Outermost => Around::Outermost,
            Around::One(host) => Around::One(with_otherwise(host)),
            Around::Two(Host::Standard(name), outer) => {
                Around::Two(Host::Standard(name), with_otherwise(outer))
            }
            Around::Two(host, outer) => Around::Two(with_otherwise(host), outer),
        }
    }

    /// The elements in a list, the innermost first.
    pub(crate) fn hosts(self, alloc: Global) -> Result<Vec<Host<'n>>, AllocError>
        ensures { IfOk result (λ hosts. map host_made hosts.items ≡ around_made self.entry) }
    {
        let mut hosts = Vec::new(alloc);
        match self {
            Around::Outermost => {}
            Around::One(host) => hosts.push(host)?,
            Around::Two(host, outer) => {
                hosts.push(host)?;
                hosts.push(outer)?;
            }
        }
        Ok(hosts)
    }
}

impl<'n> Here<'n> {
    /// Around the outermost nodes nothing stands.
    pub fn outermost() -> Self
        ensures { here_made result ≡ outermost }
    {
        Here {
            around: Around::Outermost,
            row: None,
            deep: 0,
        }
    }

    /// Whether a node stands in a choice, or in its `jsp:body`.
    pub fn in_choose(self) -> bool
        ensures { result ≡ in_choose (here_made self.entry).around }
    {
        self.around.in_choose()
    }

    /// What stands around within an element.
    pub fn within(self, kind: &Kind, head: &'n Element) -> Self
        ensures { here_made result ≡ within (kind_made kind.now) (opened_of head.now).tag (here_made self.entry) }
    {
        Here {
            around: self.around.within(host(kind, head)),
            row: row_of(kind, head),
            deep: level_within(self.deep),
        }
    }

    /// What stands around behind an element.
    pub fn behind(self, kind: &Kind) -> Self
        ensures { here_made result ≡ behind (kind_made kind.now) (here_made self.entry) }
    {
        match kind {
            Kind::Core(CoreName::Otherwise, _) => Here {
                around: self.around.after_otherwise(),
                row: self.row,
                deep: self.deep,
            },
            _ => self,
        }
    }
}
