ghost use Rattle.std.specs.Prelude.{◌≡◌, ◌≤◌, ◌<◌, ◌++◌, ◌∷◌, [], length, OnOk, IfOk, is_some};
ghost use Rattle.std.specs.Prelude.{codes};
ghost use Rattle.pg_text.specs.Failure.{AnswersAs};
ghost use Rattle.page_pieces.specs.Values.{value_mark_at};
ghost use Rattle.page_pieces.specs.ReadValue.{parts_of, value_parts};
ghost use Rattle.page_pieces.specs.ReadSigns.{signs_with, part_behind, text_added};

use crate::attribute::{Part, Parts};
use crate::expression::around_brace;
use crate::setting::Setting;
use crate::texts::around;
use crate::unescaped::Unescaped;
use crate::value_mark::{ValueMark, unmarked_len, value_mark_at};
use pg_text::{Failure, Text, TranslationFault};
use std::alloc::{AllocError, Global};

// The parts of a value as it is written.
pub(crate) fn value_parts(
    alloc: Global,
    setting: &Setting,
    value: &str,
) -> Result<Parts, Failure<TranslationFault>>
    ensures { AnswersAs (λ parts. parts) (value_parts setting.now value.now) result }
{
    let unescaped = Unescaped::of(alloc, setting.el, value)?;
    let (text, shields) = unescaped.signs();
    let parts = parts_of(alloc, setting, text, shields)?;
    match around("<%=", value) {
        Some(_) => Err(Failure::Fault(TranslationFault::Scripting)),
        None => Ok(parts),
    }
}

// The parts of a text whose bytes are shielded or not.
fn parts_of(
    alloc: Global,
    setting: &Setting,
    text: &str,
    shields: &[bool],
) -> Result<Parts, Failure<TranslationFault>>
    requires { length text.now ≡ length shields.now }
    ensures { AnswersAs (λ parts. parts) (parts_of setting.now (signs_with text.now shields.now)) result }
{
    let mut parts = Parts::empty(alloc);
    let mut rest = text;
    let mut flags = shields;
    loop {
        let len = unmarked_len(setting, rest.as_bytes(), flags);
        let (plain, behind) = rest.split_at(len);
        let (_, flags_behind) = flags.split_at(len);
        push_text(alloc, &mut parts, plain)?;
        let Some(mark) = value_mark_at(setting, behind.as_bytes(), flags_behind) else {
            return Ok(parts);
        };
        let (_, inside) = behind.split_at(2);
        let (part, more) = part_behind(alloc, mark, inside)?;
        parts.push(part)?;
        let (_, flags_more) = flags_behind.split_at(behind.len() - more.len());
        rest = more;
        flags = flags_more;
    }
}

// Adds a text, unless it is empty.
fn push_text(alloc: Global, parts: &mut Parts, text: &str) -> Result<(), AllocError>
    ensures { OnOk result (parts.new ≡ text_added parts.old text.now) }
{
    if !text.is_empty() {
        parts.push(Part::Text(Text::copy_of(alloc, text)?))?;
    }
    Ok(())
}

// The part whose mark stands before this text, and what follows it.
fn part_behind(
    alloc: Global,
    mark: ValueMark,
    text: &str,
) -> Result<(Part, &str), Failure<TranslationFault>>
    ensures value { AnswersAs (λ found. (found.0, found.1.now)) (part_behind mark text.now) result }
    ensures within { IfOk result (λ found. length found.1.now ≤ length text.now) }
{
    match mark {
        ValueMark::Hash => Ok((Part::Hash, text)),
        ValueMark::Expression => match around_brace(text) {
            None => Err(Failure::Fault(TranslationFault::Unclosed)),
            Some((inside, rest)) => Ok((Part::Expr(Text::copy_of(alloc, inside)?), rest)),
        },
    }
}
