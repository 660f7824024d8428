ghost use Rattle.std.specs.Prelude.{◌≡◌, ◌<◌, true, length, codes, IfOk, IfSome};
ghost use Rattle.std.specs.Option.{option_map};
ghost use Rattle.pg_text.specs.Failure.{AnswersAs};
ghost use Rattle.page_pieces.specs.declared.piece.Piece.TheVariants as pieces;
ghost use Rattle.page_pieces.specs.Texts.{begins};
ghost use Rattle.page_pieces.specs.Tags.{CouldEnd};
ghost use Rattle.page_pieces.specs.ReadEnd.{left_behind, left_behind_name};
ghost use Rattle.page_pieces.specs.ReadHead.{end_behind, end_at};

use crate::names::{behind_white, tag_name};
use crate::piece::{Break, Piece};
use crate::spot::Spot;
use crate::texts::{after, begins, behind};
use pg_text::{Failure, Text};
use std::alloc::Global;

// The prefix and the name of an end, whose `</` stands before this text, and what follows that end.
#[tactic(auto, unfolding(crate::specs::ReadHead::end_behind))]
fn end_behind(text: &str) -> Option<(&str, &str, &str)>
    ensures value { option_map (λ x. (pieces.End x.0.now x.1.now, x.2.now)) result ≡ end_behind text.now }
    ensures within { IfSome result (λ x. length x.2.now < length text.now) }
{
    let tag = tag_name(text)?;
    let rest = after(">", behind_white(tag.rest))?;
    Some((tag.prefix, tag.name, rest))
}

// The end of an element at the front of a text, and what follows it.
#[tactic(auto, unfolding(crate::specs::ReadHead::end_at))]
pub(crate) fn end_at<'a>(
    alloc: Global,
    spot: Spot,
    text: &'a str,
) -> Result<(Piece, &'a str), Failure<Break>>
    requires { begins (codes "</") text.now ≡ true }
    ensures value { AnswersAs (λ x. (x.0, x.1.now)) (end_at spot text.now) result }
    ensures within { IfOk result (λ x. length x.1.now < length text.now) }
{
    match end_behind(behind("</", text)) {
        Some((prefix, name, rest)) => {
            let prefix = Text::copy_of(alloc, prefix)?;
            let name = Text::copy_of(alloc, name)?;
            Ok((Piece::End(prefix, name), rest))
        }
        None => Err(Failure::Fault(Break::BadEnd(spot))),
    }
}

// What is left of a text that this mark begins, or that begins the mark.
#[tactic(auto, unfolding(crate::specs::ReadEnd::left_behind))]
fn left_behind<'a>(mark: &str, text: &'a str) -> Option<&'a str>
    ensures { option_map (λ rest. rest.now) result ≡ left_behind mark.now text.now }
{
    if let Some(rest) = after(mark, text) {
        return Some(rest);
    }
    if begins(text, mark) {
        return Some("");
    }
    None
}

// What is left of a text behind `</`, this prefix, a colon and this name, or behind as much of them
// as it has.
fn left_behind_name<'a>(prefix: &str, name: &str, text: &'a str) -> Option<&'a str>
    ensures { option_map (λ rest. rest.now) result ≡ left_behind_name prefix.now name.now text.now }
{
    let rest = left_behind("</", text)?;
    let rest = left_behind(prefix, rest)?;
    let rest = left_behind(":", rest)?;
    left_behind(name, rest)
}

/// Whether the text could still become the end of the element with this prefix and name, if more
/// bytes followed it.
pub fn could_end(text: &str, prefix: &str, name: &str) -> bool
    ensures yes { result ≡ true → CouldEnd prefix.now name.now text.now }
    ensures no { CouldEnd prefix.now name.now text.now → result ≡ true }
{
    match left_behind_name(prefix, name, text) {
        Some(rest) => behind_white(rest).is_empty(),
        None => false,
    }
}
