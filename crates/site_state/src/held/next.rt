ghost use Rattle.std.specs.Prelude.{◌≡◌, IfOk};
ghost use Rattle.site_words.specs.Opening.{next_opening};
ghost use Rattle.site_state.specs.Parts.{parts_of, state_of};

use crate::held::Held;
use packed_entries::History;
use site_words::{Compiled, KeptSessions, Opening};
use std::alloc::AllocError;

impl<P: Compiled> Held<P> {
    /// The opening that goes on from what is held.
    pub fn next_opening(&self, opening: &Opening, history: &History) -> Result<Opening, AllocError>
        ensures { IfOk result (λ next. next ≡ next_opening opening.now
            (state_of opening.now history.now.items (parts_of self.now))) }
    {
        let opened = opening.sessions.as_slice();
        let sessions = self.sessions.kept(self.alloc, opened, history)?;
        Ok(Opening {
            seed: opening.seed,
            limit: opening.limit,
            passes: opening.passes,
            idle: opening.idle,
            version: self.version,
            begins: self.begins,
            freshes: self.freshes,
            moment: self.moment,
            app: self.app.copy()?.into_attrs()?,
            tree: self.tree.copy()?,
            sessions: KeptSessions::new(sessions),
        })
    }
}
