ghost use Rattle.std.specs.Prelude.{◌≡◌, ◌≤◌, false, length};
ghost use Rattle.page_pieces.specs.Values.{sign, value_mark_of, value_mark_at};
ghost use Rattle.page_pieces.specs.ReadSigns.{signs_with, unmarked_len};

use crate::setting::Setting;

// The marks in a value: `${` begins an expression, and `#{` is no text.
#[derive(Clone, Copy)]
pub(crate) enum ValueMark {
    Expression,
    Hash,
}

// The mark that two bytes are, of which the first may be shielded.
fn value_mark_of(setting: &Setting, shielded: bool, first: u8, second: u8) -> Option<ValueMark>
    ensures { result ≡ value_mark_of setting.now (sign shielded first) (sign false second) }
{
    if shielded || second != b'{' || !setting.el {
        None
    } else if first == b'$' {
        Some(ValueMark::Expression)
    } else if !setting.hash_is_text && first == b'#' {
        Some(ValueMark::Hash)
    } else {
        None
    }
}

// The mark at the front of a text.
#[tactic(auto, using(crate::proofs::AttributeValues::Marks::opens_at, crate::proofs::AttributeValues::Marks::too_short))]
pub(crate) fn value_mark_at(setting: &Setting, text: &[u8], shields: &[bool]) -> Option<ValueMark>
    ensures { result ≡ value_mark_at setting.now (signs_with text.now shields.now) }
{
    let [first, second, ..] = text else {
        return None;
    };
    let shielded = shields.first().copied().unwrap_or(false);
    value_mark_of(setting, shielded, *first, *second)
}

// How many bytes stand before the first mark.
#[tactic(auto, using(crate::proofs::AttributeValues::Marks::unmarked_more, crate::proofs::AttributeValues::Marks::unmarked_here))]
pub(crate) fn unmarked_len(setting: &Setting, text: &[u8], shields: &[bool]) -> usize
    requires { length text.now ≡ length shields.now }
    ensures value { result ≡ unmarked_len setting.now (signs_with text.now shields.now) }
    ensures within { result ≤ length text.now }
{
    for i in 0..text.len() {
        match value_mark_at(setting, text.split_at(i).1, shields.split_at(i).1) {
            Some(_) => return i,
            None => {}
        }
    }
    text.len()
}
