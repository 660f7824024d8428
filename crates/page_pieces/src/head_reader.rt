ghost use Rattle.std.specs.Prelude.{◌≡◌, ◌<◌, ◌≤◌, ◌+◌, ◌^◌, ◌++◌, length, IfOk};
ghost use Rattle.pg_text.specs.Failure.{AnswersAs};
ghost use Rattle.page_pieces.specs.ReadSpelled.{seen, written, unless_cut_off};
ghost use Rattle.page_pieces.specs.Spots.{spot_after};
ghost use Rattle.page_pieces.specs.Tags.{before_value, attribute_bytes};
ghost use Rattle.page_pieces.specs.ReadValue.{attribute_with, attribute_of, value_parts};
ghost use Rattle.page_pieces.specs.ReadHead.{attribute_at, end_read, unread, attributes_at};

use crate::attribute::{Attribute, Attributes};
use crate::attribute_reader::{Spelled, attribute_at};
use crate::head::{Head, HeadEnd, HeadKind, Misread};
use crate::misread::behind_mark;
use crate::names::behind_white;
use crate::piece::Break;
use crate::setting::Setting;
use crate::spot::Spot;
use crate::texts::{after, before_last};
use crate::value::value_parts;
use pg_text::{Failure, Listed, Path, Text, TranslationFault};
use std::alloc::Global;

// What closes a head of this kind, and what follows it.
#[tactic(auto, unfolding(crate::specs::ReadHead::end_read))]
fn end_read(kind: HeadKind, text: &str) -> Result<(HeadEnd, &str), Misread>
    ensures value { seen (λ x. (x.0, x.1.now)) result ≡ end_read kind text.now }
    ensures within { IfOk result (λ x. length x.1.now < length text.now) }
{
    match kind {
        HeadKind::Directive => {
            let rest = behind_mark("%>", text)?;
            Ok((HeadEnd::Directive, rest))
        }
        HeadKind::Element => {
            if let Some(rest) = after(">", text) {
                return Ok((HeadEnd::Start, rest));
            }
            let rest = behind_mark("/>", text)?;
            Ok((HeadEnd::Empty, rest))
        }
    }
}

// The attribute at a place where no head ends, unless the text is at its end there.
fn attribute_unless_cut_off(fault: Misread, text: &str) -> Result<Spelled<'_>, Misread>
    ensures value { seen written result ≡ unless_cut_off fault (attribute_at text.now) }
    ensures within { IfOk result (λ a. length a.rest.now < length text.now) }
{
    match fault {
        Misread::CutOff => Err(Misread::CutOff),
        Misread::Malformed => attribute_at(text),
    }
}

// The fault of a head that is not read.
pub(crate) fn unread(spot: Spot, fault: Misread) -> Break
    ensures { result ≡ unread spot fault }
{
    match fault {
        Misread::CutOff => Break::Fault(TranslationFault::Unclosed, spot),
        Misread::Malformed => Break::Fault(TranslationFault::BadAttribute, spot),
    }
}

// An attribute whose value begins at this place.
fn attribute_with(
    alloc: Global,
    setting: &Setting,
    file: &Path,
    spot: Spot,
    a: Spelled<'_>,
) -> Result<Attribute, Failure<Break>>
    ensures { AnswersAs (λ attribute. attribute) (attribute_with file.now a.entry.name.now spot
        (value_parts setting.now a.entry.value.now)) result }
{
    match value_parts(alloc, setting, a.value) {
        Ok(parts) => Ok(Attribute {
            name: Text::copy_of(alloc, a.name)?,
            parts,
            place: spot.place(file)?,
        }),
        Err(Failure::Fault(fault)) => Err(Failure::Fault(Break::Fault(fault, spot))),
        Err(Failure::NoMemory) => Err(Failure::NoMemory),
    }
}

// The place at which the value of an attribute begins, where the text begins at this place.
fn value_spot(at: Spot, text: &str, a: Spelled<'_>) -> Spot
    requires cut { text.now ≡ attribute_bytes (written a).0 ++ a.rest.now }
    requires byte { at.byte + length text.now < 2 ^ 31 }
    requires line { at.line ≤ at.byte + 1 }
    requires column { at.column ≤ at.byte + 1 }
    ensures { result ≡ spot_after at (before_value (written a.entry).0) }
{
    at.after_bytes(before_last(text, a.value.len() + 1 + a.rest.len()))
}

// The attributes of a head in this file, what closes it, and what follows that. The text begins
// behind the head's name, at this spot.
pub(crate) fn attributes_at<'a>(
    alloc: Global,
    setting: &Setting,
    file: &Path,
    head: Head,
    from: Spot,
    text: &'a str,
) -> Result<(Attributes, HeadEnd, &'a str), Failure<Break>>
    requires byte { from.byte + length text.now < 2 ^ 31 }
    requires line { from.line ≤ from.byte + 1 }
    requires column { from.column ≤ from.byte + 1 }
    ensures value { AnswersAs (λ x. (x.0, (x.1, x.2.now)))
        (attributes_at setting.now file.now head.spot from head.kind text.now) result }
    ensures within { IfOk result (λ x. length x.2.now < length text.now) }
{
    let mut found = Listed::empty(alloc);
    let mut at = from;
    let mut rest = text;
    'attributes: loop {
        let fault = match end_read(head.kind, behind_white(rest)) {
            Ok((end, behind)) => return Ok((Attributes::new(alloc, found)?, end, behind)),
            Err(fault) => fault,
        };
        let a = match attribute_unless_cut_off(fault, rest) {
            Ok(a) => a,
            Err(fault) => return Err(Failure::Fault(unread(head.spot, fault))),
        };
        found.push(attribute_with(alloc, setting, file, value_spot(at, rest, a), a)?)?;
        at = at.after_bytes(before_last(rest, a.rest.len()));
        rest = a.rest;
    }
}
