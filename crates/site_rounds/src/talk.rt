ghost use Rattle.std.specs.Prelude.{◌<◌, ℕ, List};
ghost use Rattle.edges.specs.History.{IsFront};
ghost use Rattle.pass_course.specs.Course.{IsIdle};
ghost use Rattle.site_words.specs.Answers.{IsSamePort};
ghost use Rattle.site_words.specs.declared.words.Entry.{Entry};
ghost use Rattle.site_words.specs.declared.words.Opening.{Opening};

use edges::{Clock, Sink, Source};
use site_words::{Compiled, Port};

/// What answers a connection over the port of a pass.
pub trait Talk<P: Compiled> {
    /// What a connection does to what a pass of this number has seen of a site with this opening.
    ghost talked: { Self → Opening → ℕ → List Entry → List Entry → Type 0 };

    /// Answers the requests of one connection. No request is under way before it, nor behind it.
    fn talk<Q: Port<P>, S: Source, K: Sink, C: Clock>(
        &self,
        port: &mut Q,
        source: &mut S,
        sink: &mut K,
        clock: &mut C,
    )
        requires { IsIdle (Q.opening port.old) (Q.pass port.old) (Q.seen port.old) }
        ensures same { IsSamePort (Q.pass port.old) (Q.pass port.new) (Q.opening port.old) (Q.opening port.new)
            (Q.home port.old) (Q.home port.new) }
        ensures idle { IsIdle (Q.opening port.new) (Q.pass port.new) (Q.seen port.new) }
        ensures longer { IsFront (Q.seen port.old) (Q.seen port.new) }
        ensures talked { talked self.now (Q.opening port.old) (Q.pass port.old) (Q.seen port.old) (Q.seen port.new) };
}
