ghost use Rattle.std.specs.Prelude.{◌≡◌, ◌==◌, ◌^◌, ◌<◌, not, map, nat_le};
ghost use Rattle.std.specs.List.{list_all, list_any};
ghost use Rattle.pg_value.specs.Limits.{is_over};
ghost use Rattle.pg_value.specs.Value.{entry_of};
ghost use Rattle.site_words.specs.declared.words.KeptSession.{KeptSession as TheSession};
ghost use Rattle.site_words.specs.Opening.{are_distinct, is_sound, is_sound_session, sound_app};
ghost use Rattle.site_words.specs.Opening.{sound_counts, sound_sessions, sound_tree};
ghost use Rattle.site_words.specs.Trees.{every};

use pg_text::Text;
use pg_value::{MAX_SESSION_WEIGHT, Value, is_too_large};
use site_words::{COUNT_END, KeptSession, MAX_PASSES, MAX_SESSIONS, Opening};
use source_tree::Tree;

/// Whether a site may have the opening. It takes no memory.
pub fn sound(opening: &Opening) -> bool
    ensures { result ≡ is_sound opening.now }
{
    sound_counts(opening) && sound_tree(opening) && sound_app(opening) && sound_sessions(opening)
}

/// For proofs: the limit is a number of 64 bits.
pub(crate) fn know_limit(opening: &Opening)
    ensures { opening.now.limit < 2 ^ 64 }
{
    let _limit = opening.limit;
}

// Whether there are 1 to 64 passes, and the counts leave room.
fn sound_counts(opening: &Opening) -> bool
    ensures { result ≡ sound_counts opening.now }
{
    opening.passes >= 1
        && opening.passes <= MAX_PASSES
        && opening.version < COUNT_END
        && opening.begins < COUNT_END
        && opening.freshes < COUNT_END
}

// Whether the tree keeps its limits, and no stamp is later than the version.
fn sound_tree(opening: &Opening) -> bool
    ensures { result ≡ sound_tree opening.now }
{
    opening.tree.fault().is_none() && stamps_up_to(&opening.tree, opening.version)
}

// Whether no stamp is later than the version.
fn stamps_up_to(tree: &Tree, version: u64) -> bool
    ensures { result ≡ list_all (λ file. nat_le file.stamp version) tree.now }
{
    tree.iter().all(|file| file.stamp <= version)
}

// Whether each application value keeps the limits of a value.
fn sound_app(opening: &Opening) -> bool
    ensures { result ≡ sound_app opening.now }
{
    are_light(opening.app.as_slice())
}

// Whether each value keeps the limits of a value.
fn are_light(entries: &[(Text, Value)]) -> bool
    ensures { result ≡ list_all (λ e. not (is_over e.1)) (map entry_of entries.now) }
{
    for (_, value) in entries {
        if is_too_large(value) {
            return false;
        }
    }
    true
}

// Whether the sessions are few enough, distinct, and each as it should be.
fn sound_sessions(opening: &Opening) -> bool
    ensures { result ≡ sound_sessions opening.now }
{
    let sessions = opening.sessions.as_slice();
    sessions.len() <= MAX_SESSIONS && are_distinct(sessions) && are_sound(opening, sessions)
}

// Whether each session is as it should be.
fn are_sound(opening: &Opening, sessions: &[KeptSession]) -> bool
    ensures { result ≡ every (is_sound_session opening.now) sessions.now }
{
    for session in sessions {
        if !is_sound_session(opening, session) {
            return false;
        }
    }
    true
}

// Whether no two sessions have one number.
fn are_distinct(sessions: &[KeptSession]) -> bool
    ensures { result ≡ are_distinct sessions.now }
{
    for index in 0..sessions.len() {
        if has_number(&sessions[index + 1..], sessions[index].number) {
            return false;
        }
    }
    true
}

fn has_number(sessions: &[KeptSession], number: u64) -> bool
    ensures { result ≡ list_any (λ (other : TheSession). other.number == number) sessions.now }
{
    sessions.iter().any(|session| session.number == number)
}

// Whether the session's number was given out, its last use isn't later than the opening's moment,
// and its attributes keep their limit.
fn is_sound_session(opening: &Opening, session: &KeptSession) -> bool
    ensures { result ≡ is_sound_session opening.now session.now }
{
    session.number < opening.freshes
        && session.used <= opening.moment
        && session.attrs.weight() <= MAX_SESSION_WEIGHT
}
