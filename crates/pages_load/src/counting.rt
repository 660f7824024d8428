ghost use Rattle.std.specs.Prelude.{◌≡◌, ◌≤◌, nat_eq, if◌then◌else◌};
ghost use Rattle.std.specs.List.{slice_get, starts_with};
ghost use Rattle.pages_load.specs.Load.{count, good_mark, is_hit, is_publishing, one_if, places};

use packed_entries::{History, OpRef, PackedEntry, ReplyRef};

const GOOD_MARK: &[u8] = b"HTTP/1.1 200 OK\r\nContent-Type: text/html";

/// How many entries publish.
pub(crate) fn publishings(history: &History) -> usize
    ensures { result ≡ count is_publishing history.now.items }
{
    let mut count = 0;
    for place in 0..history.len() {
        count += publishing_at(history, place);
    }
    count
}

// One where the entry at a place publishes, else none.
fn publishing_at(history: &History, place: usize) -> usize
    ensures value { result ≡ one_if is_publishing (slice_get history.now.items place) }
    ensures small { result ≤ 1 }
{
    match history.get(place) {
        Some(entry) if is_publishing(entry) => 1,
        _ => 0,
    }
}

fn is_publishing(entry: &PackedEntry) -> bool
    ensures { result ≡ is_publishing entry.now }
{
    matches!(entry.op(), OpRef::Publish { .. })
}

/// How many entries fetch a page of which what is kept was taken.
pub(crate) fn hits(history: &History) -> usize
    ensures { result ≡ count is_hit history.now.items }
{
    let mut count = 0;
    for place in 0..history.len() {
        count += hit_at(history, place);
    }
    count
}

// One where the entry at a place is such, else none.
fn hit_at(history: &History, place: usize) -> usize
    ensures value { result ≡ one_if is_hit (slice_get history.now.items place) }
    ensures small { result ≤ 1 }
{
    match history.get(place) {
        Some(entry) if is_hit(entry) => 1,
        _ => 0,
    }
}

fn is_hit(entry: &PackedEntry) -> bool
    ensures { result ≡ is_hit entry.now }
{
    match entry.reply() {
        ReplyRef::Fetched { hit } => hit,
        _ => false,
    }
}

/// How many answers in a text are pages that went well.
pub(crate) fn good_answers(text: &[u8]) -> usize
    ensures { result ≡ places good_mark text.now }
{
    let mut count = 0;
    for at in 0..text.len() {
        count += good_here(&text[at..]);
    }
    count
}

// One where a text begins as such an answer does, else none.
fn good_here(text: &[u8]) -> usize
    ensures value { result ≡ (if starts_with nat_eq text.now good_mark then 1 else 0) }
    ensures small { result ≤ 1 }
{
    if text.starts_with(GOOD_MARK) { 1 } else { 0 }
}
