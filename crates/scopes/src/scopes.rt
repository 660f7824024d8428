ghost use Rattle.std.specs.Prelude.{◌≡◌, ◌<◌, [], length, option_map, unwrap_or, IsNone, OnOk};
ghost use Rattle.std.specs.Prelude.{OnErr, IfOk};
ghost use Rattle.pg_text.specs.Failure.{Answers};
ghost use Rattle.pg_value.specs.Value.{datum_of};
ghost use Rattle.scopes.specs.Scopes.{starting, entries_in, found_in, found, with_variable};
ghost use Rattle.scopes.specs.Scopes.{without_variable, set_answer, record_answer, restarted};
ghost use Rattle.scopes.specs.Scopes.{with_frame, with_frame_of, without_frame, turned_to};
ghost use Rattle.scopes.specs.Scopes.{with_session};

use crate::attributes::Attributes;
use crate::frame::Frame;
use crate::held_scope::HeldScope;
use pg_value::{Attrs, Failure, Record, RunFault, Text, Value, is_too_large};
use std::alloc::{AllocError, Global};
use std::marker::Model;

/// The variables of a page run: the frames of page scope, one of which is current, request scope,
/// and the attributes of the session where the request has one. Contracts see a record of them.
#[derive(Drop)]
pub struct Scopes {
    frames: Vec<Frame>,
    current: u32,
    request: Frame,
    session: Option<Attributes>,
}

impl Model for Scopes {
    ghost use Rattle.std.specs.Prelude.{◌<◌, ◌≤◌, ◌^◌, length};
    ghost use Rattle.scopes.specs.Scopes.{ScopeState};

    ghost Value = { ScopeState };

    ghost use Rattle.scopes.specs.StateCode.{state_code};

    ghost coded = { state_code };

    ghost view = { λ s. record { frames = s.frames.items; current = s.current; request = s.request; session = s.session } };

    ghost invariant = { λ s. (s.current < length s.frames.items) × (length s.frames.items ≤ 2 ^ 32) };
}

impl Scopes {
    /// One empty frame, nothing in request scope, and this session.
    #[inline(always)]
    pub fn new(alloc: Global, session: Option<Attrs>) -> Result<Self, AllocError>
        ensures { IfOk result (λ scopes. scopes ≡ starting session) }
    {
        let mut frames = Vec::with_capacity(alloc, 1)?;
        frames.push(Frame::empty(alloc))?;
        Ok(Scopes {
            frames,
            current: 0,
            request: Frame::empty(alloc),
            session: session.map(Attributes::of),
        })
    }

    /// What stands under the name in page, request or session scope, in this order.
    pub fn find(&self, name: &str) -> Option<&Value>
        ensures { option_map (λ value. datum_of value.now) result ≡ found self.now name.now }
    {
        self.find_in(HeldScope::Page, name)
            .or_else(|| self.find_in(HeldScope::Request, name))
            .or_else(|| self.find_in(HeldScope::Session, name))
    }

    /// What stands under the name in this scope.
    pub fn find_in(&self, scope: HeldScope, name: &str) -> Option<&Value>
        ensures { option_map (λ value. datum_of value.now) result ≡ found_in self.now scope name.now }
    {
        match scope {
            HeldScope::Page => self.frames[self.current as usize].get(name),
            HeldScope::Request => self.request.get(name),
            HeldScope::Session => self.session.as_ref()?.get(name),
        }
    }

    /// Puts the value under the name, in the place of what stood there. X13 in session scope
    /// without a session, and X21 where the session's attributes would weigh over
    /// [`MAX_SESSION_WEIGHT`](pg_value::MAX_SESSION_WEIGHT).
    pub fn set(
        &mut self,
        scope: HeldScope,
        name: &Text,
        value: Value,
    ) -> Result<(), Failure<RunFault>>
        ensures answer { Answers (set_answer self.old scope name.now (datum_of value)) result }
        ensures ok { OnOk result (self.new ≡ with_variable self.old scope name.now (datum_of value)) }
        ensures err { OnErr result (self.new ≡ self.old) }
    {
        match scope {
            HeldScope::Page => {
                let frame = &mut self.frames[self.current as usize];
                frame.set(name, value)?;
            }
            HeldScope::Request => self.request.set(name, value)?,
            HeldScope::Session => {
                let Some(session) = &mut self.session else {
                    return Err(Failure::Fault(RunFault::NoSession));
                };
                session.set(name, value)?;
            }
        }
        Ok(())
    }

    /// Takes out what stands under the name in this scope.
    pub fn remove(&mut self, scope: HeldScope, name: &str)
        ensures { self.new ≡ without_variable self.old scope name.now }
    {
        match scope {
            HeldScope::Page => {
                let frame = &mut self.frames[self.current as usize];
                frame.remove(name);
            }
            HeldScope::Request => self.request.remove(name),
            HeldScope::Session => {
                if let Some(session) = self.session.take() {
                    self.session = Some(session.without(name));
                }
            }
        }
    }

    /// The scope as a record, which is empty for an absent session. X20 where it is too heavy or
    /// too deep.
    pub fn as_rec(&self, scope: HeldScope) -> Result<Value, Failure<RunFault>>
        ensures { Answers (record_answer (unwrap_or (entries_in self.now scope) [])) result }
    {
        let record = Value::Rec(Record::new(self.entries(scope)?)?);
        if is_too_large(&record) {
            return Err(Failure::Fault(RunFault::ValueTooLarge));
        }
        Ok(record)
    }

    /// The number of frames.
    pub fn frames(&self) -> u64
        ensures { result ≡ length self.now.frames }
    {
        self.frames.len() as u64
    }

    /// The number of the current frame, counted from 0.
    pub fn current(&self) -> u32
        ensures current { result ≡ self.now.current }
        ensures there { result < length self.now.frames }
    {
        self.current
    }

    /// Puts an empty frame behind the others, and makes it current. A frame whose number is over
    /// the greatest `u32` is refused as if memory ran out.
    pub fn push_frame(&mut self) -> Result<(), AllocError>
        ensures ok { OnOk result (self.new ≡ with_frame self.old) }
        ensures err { OnErr result (self.new ≡ self.old) }
    {
        let entries = Attrs::empty(*self.frames.allocator());
        self.push_frame_of(entries)
    }

    /// Puts a frame with these entries behind the others, as [`push_frame`](Self::push_frame) does
    /// an empty one.
    pub fn push_frame_of(&mut self, entries: Attrs) -> Result<(), AllocError>
        ensures ok { OnOk result (self.new ≡ with_frame_of entries self.old) }
        ensures err { OnErr result (self.new ≡ self.old) }
    {
        let Ok(number) = u32::try_from(self.frames.len()) else {
            return Err(AllocError);
        };
        self.frames.push(Frame::of(entries))?;
        self.current = number;
        Ok(())
    }

    /// Drops the last frame, and makes the one before it current.
    pub fn pop_frame(&mut self)
        requires { 1 < length self.old.frames }
        ensures { self.new ≡ without_frame self.old }
    {
        let last = self.frames.len() - 1;
        self.frames.truncate(last);
        self.current = (last - 1) as u32;
    }

    /// Leaves one frame, an empty one, as at the beginning of a page run.
    pub fn restart(&mut self)
        ensures { self.new ≡ restarted self.old }
    {
        let frame = Frame::empty(*self.frames.allocator());
        self.frames.truncate(1);
        self.frames[0] = frame;
        self.current = 0;
    }

    /// Makes the frame of this number current, counted from 0, and answers the number of the one
    /// that was.
    pub fn turn_to(&mut self, frame: u32) -> u32
        requires { frame < length self.old.frames }
        ensures turned { self.new ≡ turned_to self.old frame }
        ensures was { result ≡ self.old.current }
        ensures there { result < length self.old.frames }
    {
        let was = self.current;
        self.current = frame;
        was
    }

    /// Starts a session without attributes.
    pub fn start_session(&mut self)
        requires { IsNone self.old.session }
        ensures { self.new ≡ with_session self.old }
    {
        let none = Attrs::empty(*self.frames.allocator());
        self.session = Some(Attributes::of(none));
    }

    /// The attributes of the session, without a copy: none where there is no session.
    pub fn into_session(self) -> Attrs
        ensures { result ≡ unwrap_or self.session [] }
    {
        let Scopes {
            frames,
            session,
            ..
        } = self;
        match session {
            Some(session) => session.into_attrs(),
            None => Attrs::empty(*frames.allocator()),
        }
    }

    // A copy of the entries of a scope: none where the session is absent.
    fn entries(&self, scope: HeldScope) -> Result<Attrs, AllocError>
        ensures { IfOk result (λ entries. entries ≡ unwrap_or (entries_in self.now scope) []) }
    {
        match scope {
            HeldScope::Page => self.frames[self.current as usize].to_attrs(),
            HeldScope::Request => self.request.to_attrs(),
            HeldScope::Session => match &self.session {
                Some(session) => session.to_attrs(),
                None => Ok(Attrs::empty(*self.frames.allocator())),
            },
        }
    }
}
