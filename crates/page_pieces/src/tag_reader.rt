ghost use Rattle.std.specs.Prelude.{◌≡◌, ◌<◌, ◌≤◌, ◌+◌, ◌^◌, true, length, codes, IfOk};
ghost use Rattle.pg_text.specs.Failure.{AnswersAs};
ghost use Rattle.page_pieces.specs.ReadSpelled.{seen};
ghost use Rattle.page_pieces.specs.Texts.{begins};
ghost use Rattle.page_pieces.specs.Marks.{tag_name};
ghost use Rattle.page_pieces.specs.ReadHead.{or_misread, start_piece, directive_at, start_at};

use crate::head::{Head, HeadEnd, HeadKind, Misread};
use crate::head_reader::{attributes_at, unread};
use crate::misread::{misread, name_read};
use crate::names::{TagName, behind_white, tag_name};
use crate::piece::{Break, Leaf, Piece, Tag};
use crate::setting::Setting;
use crate::spot::Spot;
use crate::texts::{before_last, behind};
use pg_text::{Failure, Path, Text};
use std::alloc::Global;

// The directive at the front of a text, and what follows it.
#[tactic(auto, unfolding(crate::specs::ReadHead::directive_at))]
pub(crate) fn directive_at<'a>(
    alloc: Global,
    setting: &Setting,
    file: &Path,
    spot: Spot,
    text: &'a str,
) -> Result<(Piece, &'a str), Failure<Break>>
    requires begins { begins (codes "<%@") text.now ≡ true }
    requires byte { spot.byte + length text.now < 2 ^ 31 }
    requires line { spot.line ≤ spot.byte + 1 }
    requires column { spot.column ≤ spot.byte + 1 }
    ensures value { AnswersAs (λ x. (x.0, x.1.now)) (directive_at setting.now file.now spot text.now) result }
    ensures within { IfOk result (λ x. length x.1.now < length text.now) }
{
    let (name, rest) = match name_read(behind_white(behind("<%@", text))) {
        Ok(found) => found,
        Err(fault) => return Err(Failure::Fault(unread(spot, fault))),
    };
    let head = Head {
        kind: HeadKind::Directive,
        spot,
    };
    let from = spot.after_bytes(before_last(text, rest.len()));
    let (attributes, _, rest) = attributes_at(alloc, setting, file, head, from, rest)?;
    let name = Text::copy_of(alloc, name)?;
    Ok((Piece::Leaf(Leaf::Directive(name, attributes)), rest))
}

// The prefix and the name that have to stand at the front of a text.
fn tag_read(text: &str) -> Result<TagName<'_>, Misread>
    ensures value { seen (λ t. record { prefix = t.prefix.now; name = t.name.now; rest = t.rest.now }) result
        ≡ or_misread text.now (tag_name text.now) }
    ensures within { IfOk result (λ t. length t.rest.now < length text.now) }
{
    match tag_name(text) {
        Some(tag) => Ok(tag),
        None => Err(misread(text)),
    }
}

// What a tag is by the end of its head: an element without a body where that is `/>`, else a start.
fn start_piece(end: HeadEnd, tag: Tag) -> Piece
    ensures { result ≡ start_piece end tag }
{
    match end {
        HeadEnd::Empty => Piece::Empty(tag),
        _ => Piece::Start(tag),
    }
}

// The start of an element at the front of a text, and what follows it.
#[tactic(auto, unfolding(crate::specs::ReadHead::start_at))]
pub(crate) fn start_at<'a>(
    alloc: Global,
    setting: &Setting,
    file: &Path,
    spot: Spot,
    text: &'a str,
) -> Result<(Piece, &'a str), Failure<Break>>
    requires begins { begins (codes "<") text.now ≡ true }
    requires byte { spot.byte + length text.now < 2 ^ 31 }
    requires line { spot.line ≤ spot.byte + 1 }
    requires column { spot.column ≤ spot.byte + 1 }
    ensures value { AnswersAs (λ x. (x.0, x.1.now)) (start_at setting.now file.now spot text.now) result }
    ensures within { IfOk result (λ x. length x.1.now < length text.now) }
{
    let tag = match tag_read(behind("<", text)) {
        Ok(tag) => tag,
        Err(fault) => return Err(Failure::Fault(unread(spot, fault))),
    };
    let head = Head {
        kind: HeadKind::Element,
        spot,
    };
    let from = spot.after_bytes(before_last(text, tag.rest.len()));
    let (attributes, end, rest) = attributes_at(alloc, setting, file, head, from, tag.rest)?;
    let tag = Tag {
        prefix: Text::copy_of(alloc, tag.prefix)?,
        name: Text::copy_of(alloc, tag.name)?,
        attributes,
    };
    Ok((start_piece(end, tag), rest))
}
