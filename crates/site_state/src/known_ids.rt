ghost use Rattle.std.specs.Prelude.{◌≡◌, ◌<◌, true};
ghost use Rattle.site_words.specs.Ids.{is_id};

use crate::ids::is_id;
use pg_text::Text;
use site_words::MAX_SESSIONS;
use std::alloc::Global;

/// Texts that were found to be ids of sessions, by the numbers of these: as many as there may be
/// sessions. So an id that comes with each request of a visitor is worked out once.
#[derive(Drop)]
pub struct KnownIds {
    places: Vec<Option<KnownId>>,
}

// An id that was worked out.
#[derive(Drop)]
struct KnownId {
    seed: [u8; 32],
    number: u64,
    text: Text,
    ghost right: { is_id seed number text ≡ true },
}

impl KnownId {
    // Whether this is the id of the session with the number, by the seed, and the text has its
    // bytes.
    fn is(&self, seed: [u8; 32], number: u64, text: &Text) -> bool
        ensures { result ≡ true → is_id seed number text.now ≡ true }
    {
        if self.number != number || self.seed != seed {
            return false;
        }
        self.text.as_bytes() == text.as_bytes()
    }
}

impl KnownIds {
    /// None is known.
    pub(crate) fn none(alloc: Global) -> Self {
        KnownIds {
            places: Vec::new(alloc),
        }
    }

    /// Whether the text is the session's id, which is then known.
    pub(crate) fn is_id(&mut self, seed: [u8; 32], number: u64, text: &Text) -> bool
        ensures { result ≡ is_id seed number text.now }
    {
        if self.knows(seed, number, text) {
            return true;
        }
        if !is_id(seed, number, text) {
            return false;
        }
        self.note(seed, number, text);
        true
    }

    // Whether the text is known to be the session's id.
    fn knows(&self, seed: [u8; 32], number: u64, text: &Text) -> bool
        ensures { result ≡ true → is_id seed number text.now ≡ true }
    {
        let Some(Some(known)) = self.places.get(place_of(number)) else {
            return false;
        };
        known.is(seed, number, text)
    }

    // Keeps the text in the place of its number, unless memory runs out.
    fn note(&mut self, seed: [u8; 32], number: u64, text: &Text)
        requires { is_id seed number text.now ≡ true }
    {
        let place = place_of(number);
        let Ok(text) = text.copy() else {
            return;
        };
        for _place in self.places.len()..place + 1 {
            let Ok(()) = self.places.push(None) else {
                return;
            };
        }
        if let Some(at) = self.places.get_mut(place) {
            *at = Some(KnownId { seed, number, text });
        }
    }
}

// The place of the id with this number. Ids share a place if their numbers are apart by a multiple
// of the count of places.
fn place_of(number: u64) -> usize
    ensures { result < MAX_SESSIONS }
{
    (number % MAX_SESSIONS as u64) as usize
}
