// A publication before a page is fetched.
ghost use Rattle.std.specs.Prelude.{◌<◌};

use crate::preceded::Before;
use compiled_pages::Made;
use site_words::{Acted, Port};
use source_tree::Edits;

/// Publishes the edits by the port of another pass when a page is fetched first, and notes the
/// version.
#[derive(Drop)]
pub struct Publishing<'a, Q: Port<Made>> {
    pub port: Q,
    pub edits: &'a Edits,
    pub published: Option<u64>,
    pub ghost may: { Q.pass port < (Q.opening port).passes },
}

/// The version that is published, where the edits are.
fn publish<Q: Port<Made>>(port: &mut Q, edits: &Edits) -> Option<u64>
    requires { Q.pass port.old < (Q.opening port.old).passes }
    ensures { Q.pass port.new < (Q.opening port.new).passes }
{
    match port.publish(None, edits) {
        Acted::Did(published) => Some(published.version),
        Acted::Refused(_) => None,
        Acted::NoMemory => None,
    }
}

impl<'a, Q: Port<Made>> Before for Publishing<'a, Q> {
    fn step(&mut self) {}

    fn fetch(&mut self) {
        if self.published.is_none() {
            self.published = publish(&mut self.port, self.edits);
        }
    }
}
