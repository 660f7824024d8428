ghost use Rattle.std.specs.Prelude.{◌≡◌, ◌+◌, ◌<◌, ◌≤◌, ℕ, Bool, List, length, take, nat_lt, true};
ghost use Rattle.std.specs.Prelude.{false, is_some, IsNone, option_map, OnOk, OnErr, IfOk};
ghost use Rattle.out_buffer.specs.Writer.{cleared, flush, has_committed, with_bodies, with_body};
ghost use Rattle.page_meaning.specs.Bodies.{put_text, taken};
ghost use Rattle.page_meaning.specs.Includes.{ask_page, session_started};
ghost use Rattle.page_meaning.specs.State.{State, in_scopes, in_writer};
ghost use Rattle.page_meaning.specs.Variables.{set_held};
ghost use Rattle.page_meaning.specs.Work.{ask, visit_limit};
ghost use Rattle.page_table.specs.Program.{Serving, Stored, paged_of, served_of};
ghost use Rattle.pg_value.specs.Value.{datum_of};
ghost use Rattle.run_world.specs.Asking.{IsAskable};
ghost use Rattle.run_world.specs.Origin.{Origin};
ghost use Rattle.run_world.specs.Part.{Changes, Doing};
ghost use Rattle.run_world.specs.Programs.{stored_of};
ghost use Rattle.scopes.specs.Scopes.{ScopeState, turned_to, with_frame, with_frame_of};
ghost use Rattle.scopes.specs.Scopes.{without_variable};
ghost use Rattle.site_words.specs.Law.{Answer, told};
ghost use Rattle.site_words.specs.Running.{fits_step_reply};

use crate::program::Program;
use pg_text::{Failure, Path, Text};
use pg_value::{Attrs, RunFault, Value};
use scopes::{HeldScope, Scopes};
use site_words::{AppReply, AppStep, Paged};
use std::alloc::AllocError;

/// What a running page stands in: its variables, its writer, its counts, and what it may ask of the
/// site.
pub trait World {
    /// The second world was reached from the first, and stands for the state of a response that is
    /// counted from this origin.
    ghost reached: { Self → Origin → Self → State → Type 0 };

    /// The answers to the steps that were asked so far.
    ghost replies: { Self → List Answer };

    /// The variables.
    ghost variables: { Self → ScopeState };

    /// The number of kept bodies.
    ghost kept: { Self → ℕ };

    ghost visits: { Self → ℕ };

    /// Whether something was committed.
    ghost committed: { Self → Bool };

    /// What stands at each path, as far as the world may tell.
    ghost stores: { Self → ((path : List ℕ) → Stored) → Type 0 };

    /// What is left of the request's promise covers what its charge lets it ask.
    ghost covered: { Self → Type 0 };

    /// The variables.
    fn scopes(&self) -> &Scopes
        ensures { result.now ≡ variables self.now };

    /// The number of kept bodies.
    fn bodies(&self) -> usize
        ensures { result ≡ kept self.now };

    /// The id of the session, where there is one.
    fn id(&self) -> Option<&Text>
        ensures { (first : Self) (origin : Origin) (s : State) → reached first origin self.now s →
            option_map (λ id. id.now) result ≡ s.id };

    /// Whether the request has a session.
    fn has_session(&self) -> bool
        requires covered { covered self.now }
        ensures { result ≡ is_some (variables self.now).session };

    /// The number of the current frame.
    fn frame(&self) -> u32
        ensures current { result ≡ (variables self.now).current }
        ensures there { result < length (variables self.now).frames };

    /// Whether something was committed, so that the head stands.
    fn has_committed(&self) -> bool
        ensures { result ≡ committed self.now };

    /// Writes a text: X10, X19.
    fn put(&mut self, text: &str) -> Result<(), Failure<RunFault>>
        requires covered { covered self.old }
        ensures covered { covered self.new }
        ensures does { Doing reached replies (λ u. u) (λ place. put_text place text.now) self.old self.new result };

    /// Commits what is buffered, unless a body is kept.
    fn flush(&mut self) -> Result<(), AllocError>
        requires covered { covered self.old }
        ensures covered { covered self.new }
        ensures ok { OnOk result (Changes reached (λ s. in_writer (flush s.writer) s) self.old self.new) }
        ensures err { OnErr result (Changes reached (λ s. s) self.old self.new) }
        ensures replies { replies self.new ≡ replies self.old };

    /// Keeps what is written from here on.
    fn start_body(&mut self) -> Result<(), AllocError>
        requires covered { covered self.old }
        ensures covered { covered self.new }
        ensures ok { OnOk result (Changes reached (λ s. in_writer (with_body s.writer) s) self.old self.new) }
        ensures err { OnErr result (Changes reached (λ s. s) self.old self.new) }
        ensures replies { replies self.new ≡ replies self.old };

    /// Takes the innermost kept body: X20.
    fn take_body(&mut self) -> Result<Text, Failure<RunFault>>
        requires covered { covered self.old }
        requires some { 0 < kept self.old }
        ensures covered { covered self.new }
        ensures does { Doing reached replies (λ t. t) taken self.old self.new result };

    /// Drops the kept bodies inside the outermost so many.
    fn drop_bodies(&mut self, left: usize)
        requires covered { covered self.old }
        ensures covered { covered self.new }
        ensures left { Changes reached (λ s. in_writer (with_bodies left s.writer) s) self.old self.new }
        ensures replies { replies self.new ≡ replies self.old };

    /// Empties the buffer and drops the kept bodies, where nothing was committed.
    fn clear(&mut self)
        requires covered { covered self.old }
        requires uncommitted { committed self.old ≡ false }
        ensures covered { covered self.new }
        ensures cleared { Changes reached (λ s. in_writer (cleared s.writer) s) self.old self.new }
        ensures replies { replies self.new ≡ replies self.old };

    /// Counts a visit, or tells that there are no more.
    fn visit(&mut self) -> bool
        requires covered { covered self.old }
        ensures covered { covered self.new }
        ensures counts { result ≡ nat_lt (visits self.old) visit_limit }
        ensures counted { result ≡ true →
            Changes reached (λ s. record s { visits = s.visits + 1 }) self.old self.new }
        ensures same { result ≡ false → Changes reached (λ s. s) self.old self.new }
        ensures replies { replies self.new ≡ replies self.old };

    /// Sets a variable: X13, X21.
    fn set(&mut self, scope: HeldScope, name: &Text, value: Value) -> Result<(), Failure<RunFault>>
        requires covered { covered self.old }
        ensures covered { covered self.new }
        ensures does { Doing reached replies (λ u. u) (λ place. set_held place scope name.now
            (datum_of value)) self.old self.new result }
        ensures frames { length (variables self.new).frames ≡ length (variables self.old).frames };

    /// Removes a variable, where it is there.
    fn remove(&mut self, scope: HeldScope, name: &str)
        requires covered { covered self.old }
        ensures covered { covered self.new }
        ensures removed { Changes reached (λ s. in_scopes (without_variable s.scopes scope name.now) s)
            self.old self.new }
        ensures replies { replies self.new ≡ replies self.old }
        ensures frames { length (variables self.new).frames ≡ length (variables self.old).frames };

    /// Puts an empty frame behind the others, and makes it current.
    fn push_frame(&mut self) -> Result<(), AllocError>
        requires covered { covered self.old }
        ensures covered { covered self.new }
        ensures ok { OnOk result (Changes reached (λ s. in_scopes (with_frame s.scopes) s) self.old self.new) }
        ensures err { OnErr result (Changes reached (λ s. s) self.old self.new) }
        ensures replies { replies self.new ≡ replies self.old };

    /// Puts a frame with these variables behind the others, and makes it current.
    fn push_frame_of(&mut self, entries: Attrs) -> Result<(), AllocError>
        requires covered { covered self.old }
        ensures covered { covered self.new }
        ensures ok { OnOk result (Changes reached (λ s. in_scopes (with_frame_of entries s.scopes) s)
            self.old self.new) }
        ensures err { OnErr result (Changes reached (λ s. s) self.old self.new) }
        ensures replies { replies self.new ≡ replies self.old };

    /// Makes another frame current.
    fn turn_to(&mut self, frame: u32)
        requires covered { covered self.old }
        requires there { frame < length (variables self.old).frames }
        ensures covered { covered self.new }
        ensures turned { Changes reached (λ s. in_scopes (turned_to s.scopes frame) s) self.old self.new }
        ensures replies { replies self.new ≡ replies self.old }
        ensures frames { length (variables self.new).frames ≡ length (variables self.old).frames };

    /// Drops the frames behind the first so many, and makes one of these current.
    fn go_back(&mut self, frames: u64, current: u32)
        requires covered { covered self.old }
        requires there { (current < frames) × (frames ≤ length (variables self.old).frames) }
        ensures covered { covered self.new }
        ensures back { Changes reached (λ s.
            in_scopes (record s.scopes { frames = take frames s.scopes.frames; current = current }) s)
            self.old self.new }
        ensures replies { replies self.new ≡ replies self.old };

    /// Asks a step on the application's attributes: X22.
    fn ask(&mut self, step: AppStep) -> Result<AppReply, Failure<RunFault>>
        requires covered { covered self.old }
        requires askable { IsAskable step }
        ensures covered { covered self.new }
        ensures does { Doing reached replies told (λ place. ask place step) self.old self.new result }
        ensures fits { IfOk result (λ reply. fits_step_reply step reply ≡ true) };

    /// Gives the request a session, which the head names.
    fn fresh(&mut self) -> Result<(), Failure<RunFault>>
        requires covered { covered self.old }
        requires none { IsNone (variables self.old).session }
        requires uncommitted { committed self.old ≡ false }
        ensures covered { covered self.new }
        ensures does { Doing reached replies (λ u. u) (λ place s. session_started s.answers s)
            self.old self.new result };

    /// What stands at a path: X22, X11, X12.
    fn page(&mut self, path: &Path) -> Result<Paged<Program>, Failure<RunFault>>
        requires covered { covered self.old }
        ensures covered { covered self.new }
        ensures does { (serving : Serving) → stores self.old serving.stored →
            Doing reached replies (λ found. paged_of (stored_of found))
            (λ place. ask_page (served_of serving) place path.now) self.old self.new result }
        ensures committed { committed self.new ≡ committed self.old }
        ensures found { (serving : Serving) → stores self.old serving.stored →
            IfOk result (λ found. stored_of found ≡ serving.stored path.now) };

    /// What stands at each path is the same for all worlds that are reached.
    ghost stores_on: { (first world : Self) (origin : Origin) (s : State) (stored : (path : List ℕ) → Stored)
        → reached first origin world s → stores first stored → stores world stored };

    /// A world that was reached is reached from itself.
    ghost again: { (first world : Self) (origin : Origin) (s : State) → reached first origin world s
        → reached world origin world s };

    /// What is told of a world is true of the state that it stands for.
    ghost tells: { (first world : Self) (origin : Origin) (s : State) → reached first origin world s
        → (variables world ≡ s.scopes) × (kept world ≡ length s.writer.kept) × (visits world ≡ s.visits)
        × (committed world ≡ has_committed s.writer) };
}
