// The site of its own on which a preview runs.
ghost use Rattle.std.specs.Prelude.{◌≡◌, ◌<◌, ◌+◌, ◌^◌, [], true, IfOk};
ghost use Rattle.preview_words.specs.Own.{own_cookie, own_freshes, own_opening, own_seed};
ghost use Rattle.preview_words.specs.Own.{own_sessions};
ghost use Rattle.preview_words.specs.Own.{picture_in};
ghost use Rattle.site_words.specs.Opening.{is_sound};

use compiled_pages::Made;
use edges::Clock;
use pg_text::Text;
use pg_value::Attrs;
use site_core::{Site, SoloPort, solo};
use site_words::{IDLE_SECONDS, JOURNAL_LIMIT, KeptSession, KeptSessions, Opening, Snapped};
use source_tree::Tree;
use std::alloc::{AllocError, Global};

/// The seed of the site.
const SEED: [u8; 32] = [255; 32];

/// The clock of the site, which always answers 0.
#[derive(Drop)]
pub(crate) struct NoTime;

impl Clock for NoTime {
    ghost use Rattle.preview_words.specs.Shown.{no_time};

    ghost moments = { λ clock. no_time };

    fn now(&mut self) -> u64 {
        0
    }
}

/// The port of the site with this tree, and the id of its session, or no bytes.
pub(crate) fn own_site(
    alloc: Global,
    snapped: Snapped,
    tree: Tree,
) -> Result<(SoloPort<Made>, Text), AllocError>
    requires version { snapped.version + 1 < 2 ^ 63 }
    requires sound { is_sound (own_opening tree (picture_in snapped)) ≡ true }
    ensures opening { IfOk result (λ own. own.0.actor.site.opening ≡ own_opening tree (picture_in snapped)) }
    ensures history { IfOk result (λ own. own.0.actor.site.history ≡ []) }
    ensures cookie { IfOk result (λ own. own.1 ≡ own_cookie snapped.session) }
{
    let session = snapped.session;
    let opening = own_opening(alloc, snapped, tree)?;
    let site = Site::resume(alloc, opening)?;
    let cookie = own_cookie(alloc, &site, session)?;
    Ok((solo(site), cookie))
}

// The opening of the preview's own site: its tree, under the version after the picture's, and of
// the live site what the picture holds. A version must be below 2^63 for an opening to be sound.
fn own_opening(alloc: Global, snapped: Snapped, tree: Tree) -> Result<Opening, AllocError>
    requires version { snapped.version + 1 < 2 ^ 63 }
    ensures { IfOk result (λ opening. opening ≡ own_opening tree (picture_in snapped)) }
{
    let freshes = freshes_of(snapped.session);
    let sessions = own_sessions(alloc, snapped.session, snapped.attrs)?;
    Ok(Opening {
        seed: SEED,
        limit: JOURNAL_LIMIT,
        passes: 1,
        idle: IDLE_SECONDS,
        version: snapped.version + 1,
        begins: 0,
        freshes,
        moment: 0,
        app: snapped.app,
        tree,
        sessions,
    })
}

// How many sessions were made on the site.
fn freshes_of(session: Option<u64>) -> u64
    ensures { result ≡ own_freshes session }
{
    match session {
        Some(_) => 1,
        None => 0,
    }
}

// The sessions of the site: that of the picture, where there is one.
fn own_sessions(
    alloc: Global,
    session: Option<u64>,
    attrs: Attrs,
) -> Result<KeptSessions, AllocError>
    ensures { IfOk result (λ sessions. sessions ≡ own_sessions session attrs) }
{
    let mut sessions = KeptSessions::empty(alloc);
    if let Some(_) = session {
        sessions.push(KeptSession {
            number: 0,
            used: 0,
            attrs,
        })?;
    }
    Ok(sessions)
}

// The id of its session, or no bytes.
fn own_cookie(alloc: Global, site: &Site<Made>, session: Option<u64>) -> Result<Text, AllocError>
    requires seed { site.now.opening.seed ≡ own_seed }
    ensures { IfOk result (λ cookie. cookie ≡ own_cookie session) }
{
    match session {
        Some(_) => site.session_id(0),
        None => Text::copy_of(alloc, ""),
    }
}
