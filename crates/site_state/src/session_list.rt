ghost use Rattle.std.specs.Prelude.{◌≡◌, ◌<◌, ◌^◌, ◌∷◌, ◌++◌, [], true, false, map, All, IfOk};
ghost use Rattle.std.specs.Prelude.{IfSome, OnOk, OnErr};
ghost use Rattle.site_state.specs.Parts.{under_in};
ghost use Rattle.site_state.specs.LastUses.{session_with, sessions_in};
ghost use Rattle.site_state.specs.Sources.{sessions_of};
ghost use Rattle.site_state.specs.ReadSessions.{first_unheld, has_named, named, others, others_if};
ghost use Rattle.site_state.specs.ReadSessions.{roomy, touched};

use crate::attributes::attributes;
use crate::request::Request;
use crate::session::{LastUse, Session};
use crate::sessions::holder_of;
use lru::LruCache;
use packed_entries::History;
use site_words::{KeptSession, MAX_SESSIONS};
use std::alloc::{AllocError, Global};
use std::marker::Model;

/// The sessions in their order. Contracts see the list of sessions. Finding a session by its
/// number, taking it out and moving it to the end cost the same whatever the length.
#[derive(Drop)]
pub struct SessionList {
    // By number. The session at the end of the list is the most recently used.
    uses: LruCache<u64, LastUse>,
}

impl Model for SessionList {
    ghost use Rattle.std.specs.Prelude.{List};
    ghost use Rattle.site_state.specs.declared.session.Session.{Session};
    ghost use Rattle.site_state.specs.LastUses.{AreListed, sessions_in};

    ghost Value = { List Session };

    ghost view = { λ l. sessions_in l.uses.entries };

    ghost invariant = { λ l. AreListed l.uses };
}

impl SessionList {
    /// No sessions.
    pub(crate) fn new(alloc: Global) -> Result<Self, AllocError>
        ensures { IfOk result (λ sessions. sessions ≡ []) }
    {
        Ok(SessionList {
            uses: LruCache::unbounded(alloc)?,
        })
    }

    /// The session with this number.
    pub(crate) fn get(&self, number: u64) -> Option<Session>
        ensures session { result ≡ named number self.now }
        ensures numbers { All (λ session. session.number < 2 ^ 64) self.now }
    {
        match self.uses.peek(&number) {
            Some(last) => Some(session_with(number, *last)),
            None => None,
        }
    }

    /// The sessions with their attributes.
    pub(crate) fn kept(
        &self,
        alloc: Global,
        opened: &[KeptSession],
        history: &History,
    ) -> Result<Vec<KeptSession>, AllocError>
        ensures { IfOk result (λ kept. kept.items ≡ sessions_of opened.now history.now.items self.now) }
    {
        kept_of(alloc, opened, history, &self.uses)
    }

    /// The session with this number is used at this moment, and stays where it is.
    pub(crate) fn touch(&mut self, number: u64, moment: u64)
        ensures { self.new ≡ touched number moment self.old }
    {
        match self.uses.peek_mut(&number) {
            Some(last) => last.moment = moment,
            None => {}
        }
    }

    /// Takes out the session with this number.
    pub(crate) fn remove(&mut self, number: u64)
        ensures { self.new ≡ others number self.old }
    {
        self.uses.pop(&number);
    }

    /// The session comes to the end of the list, in place of the one with its number. It takes no
    /// memory, since it has the room of that one.
    pub(crate) fn free(&mut self, session: Session)
        requires { has_named session.number self.old ≡ true }
        ensures { self.new ≡ others session.number self.old ++ session ∷ [] }
    {
        let Ok(_) = self.uses.put(session.number, last_use(session)) else {
            unreachable!()
        };
    }

    /// One session more, at the end.
    pub(crate) fn push(&mut self, session: Session) -> Result<(), AllocError>
        requires { has_named session.number self.old ≡ false }
        ensures ok { OnOk result (self.new ≡ self.old ++ session ∷ []) }
        ensures err { OnErr result (self.new ≡ self.old) }
    {
        // So the map pushes none out.
        prove!(self.uses.len() < usize::MAX);
        self.uses.put(session.number, last_use(session))?;
        Ok(())
    }

    /// One session more, at the end. Where there are as many as there may be, the first free one is
    /// dropped.
    pub(crate) fn add(
        &mut self,
        session: Session,
        runs: &[Option<Request>],
    ) -> Result<(), AllocError>
        requires { has_named session.number self.old ≡ false }
        ensures ok { OnOk result (self.new ≡ roomy (map under_in runs.now) self.old ++ session ∷ []) }
        ensures err { OnErr result (self.new ≡ self.old) }
    {
        let surplus = self.surplus(runs);
        self.push(session)?;
        self.remove_found(surplus);
        Ok(())
    }

    // Takes out the session with this number, where there is one.
    fn remove_found(&mut self, number: Option<u64>)
        ensures { self.new ≡ others_if number self.old }
    {
        if let Some(number) = number {
            self.remove(number);
        }
    }

    // The first free session, where there are as many as there may be.
    fn surplus(&self, runs: &[Option<Request>]) -> Option<u64>
        ensures rest { others_if result self.now ≡ roomy (map under_in runs.now) self.now }
        ensures there { IfSome result (λ number. has_named number self.now ≡ true) }
    {
        if self.uses.len() < MAX_SESSIONS {
            return None;
        }
        first_free(runs, &self.uses)
    }
}

// The first session that no request holds.
fn first_free(runs: &[Option<Request>], uses: &LruCache<u64, LastUse>) -> Option<u64>
    ensures { result ≡ first_unheld (map under_in runs.now) (sessions_in uses.now.entries) }
{
    for (number, _) in uses.iter().rev() {
        if holder_of(*number, runs).is_none() {
            return Some(*number);
        }
    }
    None
}

// The sessions with their attributes.
fn kept_of(
    alloc: Global,
    opened: &[KeptSession],
    history: &History,
    uses: &LruCache<u64, LastUse>,
) -> Result<Vec<KeptSession>, AllocError>
    ensures { IfOk result (λ kept. kept.items ≡ sessions_of opened.now history.now.items
        (sessions_in uses.now.entries)) }
{
    let mut kept = Vec::with_capacity(alloc, uses.len())?;
    for (number, last) in uses.iter().rev() {
        kept.push(KeptSession {
            number: *number,
            used: last.moment,
            attrs: attributes(alloc, opened, history, last.source)?,
        })?;
    }
    Ok(kept)
}

// The session with this number and last use.
fn session_with(number: u64, last: LastUse) -> Session
    ensures { result ≡ session_with number last }
{
    Session {
        number,
        used: last.moment,
        source: last.source,
    }
}

// What is kept under the session's number.
fn last_use(session: Session) -> LastUse
    ensures { session_with session.number result ≡ session }
{
    LastUse {
        moment: session.used,
        source: session.source,
    }
}
