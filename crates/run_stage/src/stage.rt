// What a page run is lent, as the machine's world.
ghost use Rattle.std.specs.Prelude.{◌≡◌, ◌<◌, ◌≤◌, ℕ, length, take};
ghost use Rattle.scopes.specs.Scopes.{ScopeState};

use crate::charges::{entry_weight, is_refused, is_spent, look_charge};
use edges::Sink;
use out_buffer::Writer;
use page_meaning::VISIT_LIMIT;
use pg_text::{Failure, Path, Text};
use pg_value::{Attrs, RunFault, Value};
use run_world::{Around, Program, World};
use scopes::{HeldScope, Scopes};
use site_words::{AppPort, AppReply, AppStep, Paged, answer_weight};
use std::alloc::AllocError;

/// What a page run is lent: its variables, its writer with the sink, what its request keeps across
/// page runs, and the port to the site.
#[derive(Drop)]
pub struct Stage<'a, P, K> {
    pub scopes: &'a mut Scopes,
    pub writer: &'a mut Writer,
    pub sink: &'a mut K,
    pub around: &'a mut Around,
    pub port: &'a mut P,
}

impl<'a, P: AppPort<Program>, K: Sink> World for Stage<'a, P, K> {
    ghost use Rattle.std.specs.Prelude.{length};
    ghost use Rattle.run_stage.specs.Stage.{Covered, Reached, StoresSo};

    ghost reached = { λ first origin w s. Reached K.taken K.faults P.leads P.asking P.tree first origin w s };

    ghost replies = { λ w. (P.asking w.port.now).answers };

    ghost variables = { λ w. w.scopes.now };

    ghost kept = { λ w. length w.writer.now.kept };

    ghost visits = { λ w. w.around.now.visits };

    ghost committed = { λ w. w.writer.now.committed };

    ghost stores = { λ w stored. StoresSo P.made P.faulty (P.tree w.port.now) stored };

    ghost covered = { λ w. Covered w.scopes.now.session w.around.now.id w.around.now.visits
        w.around.now.charge (P.asking w.port.now) };

    fn scopes(&self) -> &Scopes {
        self.scopes
    }

    fn bodies(&self) -> usize {
        self.writer.bodies()
    }

    fn id(&self) -> Option<&Text> {
        self.around.id.as_ref()
    }

    fn has_session(&self) -> bool {
        self.around.id.is_some()
    }

    fn has_committed(&self) -> bool {
        self.writer.committed()
    }

    fn put(&mut self, text: &str) -> Result<(), Failure<RunFault>> {
        self.writer.put(self.sink, text)
    }

    fn flush(&mut self) -> Result<(), AllocError> {
        self.writer.flush(self.sink)
    }

    fn start_body(&mut self) -> Result<(), AllocError> {
        self.writer.start_body()
    }

    fn take_body(&mut self) -> Result<Text, Failure<RunFault>> {
        self.writer.take_body()
    }

    fn drop_bodies(&mut self, left: usize) {
        self.writer.drop_bodies(left);
    }

    fn clear(&mut self) {
        let _ = self.writer.clear();
    }

    fn visit(&mut self) -> bool {
        if self.around.visits >= VISIT_LIMIT {
            return false;
        }
        self.around.visits += 1;
        true
    }

    fn set(
        &mut self,
        scope: HeldScope,
        name: &Text,
        value: Value,
    ) -> Result<(), Failure<RunFault>> {
        self.scopes.set(scope, name, value)
    }

    fn remove(&mut self, scope: HeldScope, name: &str) {
        self.scopes.remove(scope, name);
    }

    fn push_frame(&mut self) -> Result<(), AllocError> {
        self.scopes.push_frame()
    }

    fn push_frame_of(&mut self, entries: Attrs) -> Result<(), AllocError> {
        self.scopes.push_frame_of(entries)
    }

    fn frame(&self) -> u32 {
        self.scopes.current()
    }

    fn turn_to(&mut self, frame: u32) {
        let _ = self.scopes.turn_to(frame);
    }

    fn go_back(&mut self, frames: u64, current: u32) {
        drop_frames(self.scopes, frames);
        let _ = self.scopes.turn_to(current);
    }

    fn ask(&mut self, step: AppStep) -> Result<AppReply, Failure<RunFault>> {
        if is_spent(self.around.charge) {
            return Err(Failure::Fault(RunFault::AppTooMuch));
        }
        let asked = entry_weight(&step);
        let reply = self.port.app(step)?;
        let told = answer_weight(&reply);
        self.around.charge += asked + told;
        Ok(reply)
    }

    // Gives the request a session. The session stands also where memory for the cookie that names
    // it runs out; no other failure comes.
    fn fresh(&mut self) -> Result<(), Failure<RunFault>> {
        let made = self.port.fresh()?;
        self.scopes.start_session();
        let Ok(cookie) = made.id.copy() else {
            self.around.id = Some(made.id);
            self.around.fresh = false;
            return Err(Failure::NoMemory);
        };
        self.around.id = Some(made.id);
        self.around.fresh = true;
        self.writer.set_cookie(cookie);
        Ok(())
    }

    // A page is charged also where memory runs out while it is made, since it was fetched.
    fn page(&mut self, path: &Path) -> Result<Paged<Program>, Failure<RunFault>> {
        if is_refused(path, self.around.charge) {
            return Err(Failure::Fault(RunFault::AppTooMuch));
        }
        let charge = look_charge(path);
        let Ok(found) = self.port.page(path) else {
            self.around.charge += charge;
            return Err(Failure::NoMemory);
        };
        match found {
            Paged::Absent => Err(Failure::Fault(RunFault::NoSuchPage)),
            Paged::Plain(text) => Ok(Paged::Plain(text)),
            Paged::Bad(_) => {
                self.around.charge += charge;
                Err(Failure::Fault(RunFault::BadPage))
            }
            Paged::Page(program) => {
                self.around.charge += charge;
                Ok(Paged::Page(program))
            }
        }
    }

    ghost use Rattle.run_stage.specs.StageLaws.{stage_again, stage_stores_on, stage_tells};

    ghost stores_on = { λ first world origin s stored h stores. stage_stores_on P.made P.faulty first world
        origin s stored h stores };

    ghost again = { λ first world origin s h. stage_again P.leads_here first world origin s h };

    ghost tells = { λ first world origin s h. stage_tells first world origin s h };
}

// Drops the frames behind the first so many.
fn drop_frames(scopes: &mut Scopes, frames: u64)
    requires { (0 < frames) × (frames ≤ length scopes.old.frames) }
    ensures { (current : ℕ) × (scopes.new ≡ record {
      frames = take frames scopes.old.frames;
      current =
          current;
      request = scopes.old.request;
      session = scopes.old.session;
    }) }
{
    while scopes.frames() > frames {
        scopes.pop_frame();
    }
}
