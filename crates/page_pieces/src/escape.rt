ghost use Rattle.std.specs.Prelude.{◌≡◌, ◌≤◌, length};
ghost use Rattle.std.specs.Option.{option_map};
ghost use Rattle.page_pieces.specs.Values.{escape, escape_at};
ghost use Rattle.page_pieces.specs.ReadSigns.{escape_of, plain_len};

// An escape: how many bytes it takes, what it means, and whether it shields that, so that it is no
// mark.
#[derive(Clone, Copy)]
pub(crate) struct Escape {
    pub len: usize,
    pub means: &'static str,
    pub shields: bool,
}

// An escape of so many bytes, as the answer that one stands there.
fn meaning(len: usize, means: &'static str, shields: bool) -> Option<Escape>
    ensures { option_map escape_of result ≡ escape len means.now shields }
{
    Some(Escape {
        len,
        means,
        shields,
    })
}

// The escape that stands at the front of a value.
#[tactic(auto, unfolding(crate::specs::Values::escape_at))]
pub(crate) fn escape_at(el: bool, text: &[u8]) -> Option<Escape>
    ensures { option_map escape_of result ≡ escape_at el text.now }
{
    if text.starts_with(b"\\'") {
        meaning(2, "'", false)
    } else if text.starts_with(b"\\\"") {
        meaning(2, "\"", false)
    } else if text.starts_with(b"\\\\") {
        meaning(2, "\\", false)
    } else if text.starts_with(b"<\\%") {
        meaning(3, "<%", false)
    } else if text.starts_with(b"%\\>") {
        meaning(3, "%>", false)
    } else if text.starts_with(b"&apos;") {
        meaning(6, "'", false)
    } else if text.starts_with(b"&quot;") {
        meaning(6, "\"", false)
    } else if el && text.starts_with(b"\\$") {
        meaning(2, "$", true)
    } else if el && text.starts_with(b"\\#") {
        meaning(2, "#", true)
    } else {
        None
    }
}

// How many bytes stand before the first escape.
#[tactic(auto, using(crate::proofs::AttributeValues::Escapes::plain_more, crate::proofs::AttributeValues::Escapes::plain_here))]
pub(crate) fn plain_len(el: bool, text: &[u8]) -> usize
    ensures value { result ≡ plain_len el text.now }
    ensures within { result ≤ length text.now }
{
    for i in 0..text.len() {
        match escape_at(el, text.split_at(i).1) {
            Some(_) => return i,
            None => {}
        }
    }
    text.len()
}
