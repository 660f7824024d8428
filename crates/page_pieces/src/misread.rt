ghost use Rattle.std.specs.Prelude.{◌≡◌, ◌<◌, ◌+◌, if◌then◌else◌, length, IfOk};
ghost use Rattle.page_pieces.specs.declared.head.Misread.TheVariants.{CutOff, Malformed};
ghost use Rattle.page_pieces.specs.Texts.{begins};
ghost use Rattle.page_pieces.specs.ReadSpelled.{seen};
ghost use Rattle.page_pieces.specs.ReadHead.{misread, or_misread, name_read, behind_mark};

use crate::head::Misread;
use crate::names::name_at;
use crate::texts::{after, begins};

// Why nothing is read at the front of a text: it ends, or another byte stands there.
pub(crate) fn misread(text: &str) -> Misread
    ensures { result ≡ misread text.now }
{
    if text.is_empty() {
        Misread::CutOff
    } else {
        Misread::Malformed
    }
}

// A name, and what follows it.
pub(crate) fn name_read(text: &str) -> Result<(&str, &str), Misread>
    ensures value { seen (λ x. (x.0.now, x.1.now)) result ≡ name_read text.now }
    ensures within { IfOk result (λ x. length x.1.now < length text.now) }
{
    match name_at(text) {
        Some(found) => Ok(found),
        None => Err(misread(text)),
    }
}

// What follows a mark that has to stand there.
#[tactic(auto, unfolding(crate::specs::ReadHead::behind_mark))]
pub(crate) fn behind_mark<'a>(mark: &str, text: &'a str) -> Result<&'a str, Misread>
    ensures value { seen (λ rest. rest.now) result ≡ behind_mark mark.now text.now }
    ensures within { IfOk result (λ rest. length rest.now + length mark.now ≡ length text.now) }
{
    match after(mark, text) {
        Some(rest) => Ok(rest),
        None => Err(not_behind(mark, text)),
    }
}

// Why the mark doesn't stand there: the text ends within it, or another byte stands there.
fn not_behind(mark: &str, text: &str) -> Misread
    ensures { result ≡ (if begins text.now mark.now then CutOff else Malformed) }
{
    if begins(text, mark) {
        Misread::CutOff
    } else {
        Misread::Malformed
    }
}
