ghost use Rattle.std.specs.Prelude.{◌≡◌, None, [], true, replicate, IfOk};
ghost use Rattle.site_words.specs.Opening.{are_distinct};
ghost use Rattle.site_words.specs.State.{start_of};
ghost use Rattle.site_state.specs.Parts.{parts_of, state_of};
ghost use Rattle.site_state.specs.Sources.{AreThere, sessions_of};

use crate::held::Held;
use crate::known_ids::KnownIds;
use crate::request::Request;
use crate::session::{Session, Source};
use crate::session_list::SessionList;
use pg_value::Record;
use program_store::Store;
use site_words::{Compiled, KeptSession, Opening};
use std::alloc::{AllocError, Global};
use std::sync::Arc;

impl<P: Compiled> Held<P> {
    /// What an opening begins with.
    pub fn start(alloc: Global, opening: &Opening) -> Result<Self, AllocError>
        requires { are_distinct opening.now.sessions ≡ true }
        ensures state { IfOk result (λ held. state_of opening.now [] (parts_of held) ≡ start_of opening.now) }
        ensures kept { IfOk result (λ held. (parts_of held).kept ≡ []) }
        ensures there { IfOk result (λ held. AreThere 0 (parts_of held).sessions) }
    {
        let sessions = opened_sessions(alloc, opening.sessions.as_slice())?;
        let runs = no_runs(alloc, opening.passes)?;
        let app = Record::new(opening.app.copy()?)?;
        let tree = Arc::new(alloc, opening.tree.copy()?)?;
        Ok(Held {
            alloc,
            tree,
            version: opening.version,
            app,
            sessions,
            ids: KnownIds::none(alloc),
            runs,
            store: Store::new(alloc),
            begins: opening.begins,
            freshes: opening.freshes,
            moment: opening.moment,
            weight: 0,
        })
    }
}

// No request under way in any pass.
fn no_runs(alloc: Global, passes: u8) -> Result<Vec<Option<Request>>, AllocError>
    ensures { IfOk result (λ runs. runs.items ≡ replicate passes None) }
{
    let mut runs = Vec::new(alloc);
    for _pass in 0..passes {
        runs.push(None)?;
    }
    Ok(runs)
}

// The opening's sessions, whose attributes stay there.
fn opened_sessions(alloc: Global, opened: &[KeptSession]) -> Result<SessionList, AllocError>
    requires { are_distinct opened.now ≡ true }
    ensures sessions { IfOk result (λ sessions. sessions_of opened.now [] sessions ≡ opened.now) }
    ensures there { IfOk result (λ sessions. AreThere 0 sessions) }
{
    let mut sessions = SessionList::new(alloc)?;
    for index in 0..opened.len() {
        let kept = &opened[index];
        sessions.push(Session {
            number: kept.number,
            used: kept.used,
            source: Source::Opened(index),
        })?;
    }
    Ok(sessions)
}
