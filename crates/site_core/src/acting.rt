ghost use Rattle.std.specs.Prelude.{◌≡◌};
ghost use Rattle.std.specs.Arc.{arc_value};
ghost use Rattle.edges.specs.Acted.{IsDid};
ghost use Rattle.site_words.specs.declared.words.Op.TheVariants as op;
ghost use Rattle.site_words.specs.Answers.{ForRun, IsSamePort, of_offered};
ghost use Rattle.site_words.specs.Calls.{Calls};
ghost use Rattle.site_words.specs.Law.{May, Sure, own, run_of};
ghost use Rattle.site_state.specs.Gifts.{IsMade};
ghost use Rattle.site_core.specs.Answered.{Answered, reply_in};

use crate::actor::Actor;
use crate::given::{begun, found, fresh, snapped};
use pg_text::{Path, Text};
use pg_value::Attrs;
use site_state::{Act, Given};
use site_words::{
    Acted, AppReply, AppStep, Begun, Compiled, Fresh, Op, Port, Published, Refusal, Reply, Snapped,
};
use source_tree::Edits;
use std::alloc::AllocError;
use std::marker::PhantomData;
use std::sync::Arc;

/// The port of a pass that acts.
#[derive(Drop)]
pub struct Acting<P, A> {
    actor: A,
    of: PhantomData<P>,
}

impl<P: Compiled, A: Actor<P>> Acting<P, A> {
    /// The port of this pass.
    pub fn new(actor: A) -> Self
        ensures { result.actor ≡ actor }
    {
        Acting {
            actor,
            of: PhantomData,
        }
    }

    /// The pass of the port.
    pub fn into_actor(self) -> A
        ensures { result ≡ self.actor }
    {
        self.actor
    }

    // Does an operation with which no value is offered.
    #[inline(always)]
    fn ask(&mut self, op: Op) -> Acted<Given<P>, Refusal>
        requires may { May (A.opening self.old.actor) (A.seen self.old.actor) (A.pass self.old.actor)
            (own (A.pass self.old.actor) (A.seen self.old.actor)) op }
        requires made { IsMade P.made (A.opening self.old.actor) (A.seen self.old.actor)
            (run_of (own (A.pass self.old.actor) (A.seen self.old.actor))) op None }
        ensures same { IsSamePort (A.pass self.old.actor) (A.pass self.new.actor) (A.opening self.old.actor)
            (A.opening self.new.actor) (A.home self.old.actor) (A.home self.new.actor) }
        ensures answer { Answered P.needs P.made (A.opening self.old.actor) (A.pass self.old.actor)
            (A.seen self.old.actor) (A.seen self.new.actor) op result }
        ensures call { Calls P.needs (A.opening self.old.actor) (A.pass self.old.actor) (A.seen self.old.actor)
            (A.seen self.new.actor) op (reply_in result) }
        ensures sure { Sure (A.opening self.old.actor) (A.seen self.old.actor) (A.pass self.old.actor)
            (own (A.pass self.old.actor) (A.seen self.old.actor)) op → IsDid result }
    {
        self.actor.act(Act { op, made: None })
    }
}

impl<P: Compiled, A: Actor<P>> Port<P> for Acting<P, A> {
    type Home = A::Home;

    ghost home = { λ s. A.home s.actor };

    ghost pass = { λ s. A.pass s.actor };

    ghost opening = { λ s. A.opening s.actor };

    ghost seen = { λ s. A.seen s.actor };

    fn law(&self) {
        self.actor.law();
    }

    fn publish(&mut self, base: Option<u64>, edits: &Edits) -> Acted<Published, Refusal> {
        self.actor.law();
        let Ok(edits) = edits.copy() else {
            return Acted::NoMemory;
        };
        match self.ask(Op::Publish { base, edits }) {
            Acted::Did(Given { reply, gift: _ }) => match reply {
                Reply::Published { version, dirty } => Acted::Did(Published { version, dirty }),
                _ => unreachable!(),
            },
            Acted::Refused(refusal) => Acted::Refused(refusal),
            Acted::NoMemory => Acted::NoMemory,
        }
    }

    fn begin(&mut self, cookie: &Text, moment: u64) -> Acted<Begun, Refusal> {
        match self.actor.begin(cookie, moment) {
            Acted::Did(given) => Acted::Did(begun(given)),
            Acted::Refused(refusal) => Acted::Refused(refusal),
            Acted::NoMemory => Acted::NoMemory,
        }
    }

    fn app(&mut self, request: u64, step: AppStep) -> Result<AppReply, AllocError> {
        match self.ask(Op::App { request, step }) {
            Acted::Did(Given { reply, gift: _ }) => match reply {
                Reply::App(answer) => Ok(answer),
                _ => unreachable!(),
            },
            Acted::Refused(_) => unreachable!(),
            Acted::NoMemory => Err(AllocError),
        }
    }

    fn fresh(&mut self, request: u64) -> Result<Fresh, AllocError> {
        match self.ask(Op::Fresh { request }) {
            Acted::Did(given) => Ok(fresh(given)),
            Acted::Refused(_) => unreachable!(),
            Acted::NoMemory => Err(AllocError),
        }
    }

    fn fetch(&mut self, request: u64, path: &Path) -> Result<Option<Arc<P>>, AllocError> {
        self.actor.law();
        let Ok(path) = path.copy() else {
            return Err(AllocError);
        };
        match self.ask(Op::Fetch { request, path }) {
            Acted::Did(given) => Ok(found(given)),
            Acted::Refused(_) => unreachable!(),
            Acted::NoMemory => Err(AllocError),
        }
    }

    fn offer(&mut self, request: u64, path: &Path, made: Arc<P>) -> Result<bool, AllocError>
        requires may { May (A.opening self.old.actor) (A.seen self.old.actor) (A.pass self.old.actor)
            (own (A.pass self.old.actor) (A.seen self.old.actor)) (op.Offer request path.now) }
        requires made { ForRun (A.opening self.old.actor) (A.seen self.old.actor)
            (run_of (own (A.pass self.old.actor) (A.seen self.old.actor)))
            (λ tree. P.made (arc_value made) tree path.now) }
        ensures same { IsSamePort (A.pass self.old.actor) (A.pass self.new.actor) (A.opening self.old.actor)
            (A.opening self.new.actor) (A.home self.old.actor) (A.home self.new.actor) }
        ensures call { Calls P.needs (A.opening self.old.actor) (A.pass self.old.actor) (A.seen self.old.actor)
            (A.seen self.new.actor) (op.Offer request path.now) (of_offered result) }
    {
        self.actor.law();
        let Ok(path) = path.copy() else {
            return Err(AllocError);
        };
        match self.actor.act(Act {
            op: Op::Offer { request, path },
            made: Some(made),
        }) {
            Acted::Did(Given { reply, gift: _ }) => match reply {
                Reply::Offered { kept } => Ok(kept),
                _ => unreachable!(),
            },
            Acted::Refused(_) => unreachable!(),
            Acted::NoMemory => Err(AllocError),
        }
    }

    fn end(&mut self, request: u64, attrs: Attrs) {
        match self.ask(Op::End { request, attrs }) {
            Acted::Did(_) => {}
            _ => unreachable!(),
        }
    }

    fn abandon(&mut self, request: u64) {
        match self.ask(Op::Abandon { request }) {
            Acted::Did(_) => {}
            _ => unreachable!(),
        }
    }

    fn snapshot(&mut self, cookie: &Text) -> Acted<Snapped, Refusal> {
        self.actor.law();
        let Ok(cookie) = cookie.copy() else {
            return Acted::NoMemory;
        };
        match self.ask(Op::Snapshot { cookie }) {
            Acted::Did(given) => Acted::Did(snapped(given)),
            Acted::Refused(refusal) => Acted::Refused(refusal),
            Acted::NoMemory => Acted::NoMemory,
        }
    }
}
