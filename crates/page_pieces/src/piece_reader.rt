ghost use Rattle.std.specs.Prelude.{◌≡◌, ◌<◌, ◌≤◌, ◌+◌, ◌^◌, true, length, codes, Some, IfOk};
ghost use Rattle.std.specs.Result.{IfErr};
ghost use Rattle.page_pieces.specs.declared.mark.Mark.TheVariants as marks;
ghost use Rattle.pg_text.specs.Failure.{AnswersAs};
ghost use Rattle.page_pieces.specs.Texts.{begins};
ghost use Rattle.page_pieces.specs.Pieces.{Stands};
ghost use Rattle.page_pieces.specs.Breaks.{BreaksOff};
ghost use Rattle.page_pieces.specs.ReadPiece.{text_piece, piece_by, piece_at};

use crate::end_reader::end_at;
use crate::expression::around_brace;
use crate::mark::{Mark, mark_at};
use crate::piece::{Break, Leaf, Piece};
use crate::setting::Setting;
use crate::spot::Spot;
use crate::tag_reader::{directive_at, start_at};
use crate::template::text_at;
use crate::texts::{around, behind};
use pg_text::{Failure, Path, Text, TranslationFault};
use std::alloc::Global;

// The comment at the front of a text, and what follows it.
#[tactic(auto, unfolding(crate::specs::ReadPiece::piece_by))]
fn comment_at<'a>(
    setting: &Setting,
    file: &Path,
    spot: Spot,
    text: &'a str,
) -> Result<(Piece, &'a str), Failure<Break>>
    requires { begins (codes "<%--") text.now ≡ true }
    ensures value { AnswersAs (λ x. (x.0, x.1.now))
        (piece_by (Some marks.Comment) setting.now file.now spot text.now) result }
    ensures within { IfOk result (λ x. length x.1.now < length text.now) }
{
    match around("--%>", behind("<%--", text)) {
        Some((_, rest)) => Ok((Piece::Leaf(Leaf::Comment), rest)),
        None => Err(Failure::Fault(Break::Fault(TranslationFault::Unclosed, spot))),
    }
}

// The expression at the front of a text, and what follows it.
#[tactic(auto, unfolding(crate::specs::ReadPiece::piece_by))]
fn expression_at<'a>(
    alloc: Global,
    setting: &Setting,
    file: &Path,
    spot: Spot,
    text: &'a str,
) -> Result<(Piece, &'a str), Failure<Break>>
    requires { begins (codes "${") text.now ≡ true }
    ensures value { AnswersAs (λ x. (x.0, x.1.now))
        (piece_by (Some marks.Expression) setting.now file.now spot text.now) result }
    ensures within { IfOk result (λ x. length x.1.now < length text.now) }
{
    match around_brace(behind("${", text)) {
        Some((inside, rest)) => {
            let inside = Text::copy_of(alloc, inside)?;
            Ok((Piece::Leaf(Leaf::Expr(inside)), rest))
        }
        None => Err(Failure::Fault(Break::Fault(TranslationFault::Unclosed, spot))),
    }
}

// Text of this meaning, and what follows it.
fn text_piece<'a>(
    alloc: Global,
    means: &str,
    rest: &'a str,
) -> Result<(Piece, &'a str), Failure<Break>>
    ensures value { AnswersAs (λ x. (x.0, x.1.now)) (text_piece means.now 0 rest.now) result }
    ensures within { IfOk result (λ x. length x.1.now ≡ length rest.now) }
{
    let means = Text::copy_of(alloc, means)?;
    Ok((Piece::Leaf(Leaf::Text(means)), rest))
}

// The piece at the front of a text that is not empty, read by the mark that stands there, and what
// follows it.
#[tactic(auto, unfolding(crate::specs::ReadPiece::piece_at, crate::specs::ReadPiece::piece_by))]
fn piece_at<'a>(
    alloc: Global,
    setting: &Setting,
    file: &Path,
    spot: Spot,
    text: &'a str,
) -> Result<(Piece, &'a str), Failure<Break>>
    requires some { 0 < length text.now }
    requires byte { spot.byte + length text.now < 2 ^ 31 }
    requires line { spot.line ≤ spot.byte + 1 }
    requires column { spot.column ≤ spot.byte + 1 }
    ensures value { AnswersAs (λ x. (x.0, x.1.now)) (piece_at setting.now file.now spot text.now) result }
    ensures within { IfOk result (λ x. length x.1.now < length text.now) }
{
    match mark_at(setting, text) {
        Some(Mark::Comment) => comment_at(setting, file, spot, text),
        Some(Mark::Directive) => directive_at(alloc, setting, file, spot, text),
        Some(Mark::Scripting) => Err(Failure::Fault(Break::Fault(
            TranslationFault::Scripting,
            spot,
        ))),
        Some(Mark::EscapedScripting) => text_piece(alloc, "<%", behind("<\\%", text)),
        Some(Mark::EscapedDollar) => text_piece(alloc, "$", behind("\\$", text)),
        Some(Mark::EscapedHash) => text_piece(alloc, "#", behind("\\#", text)),
        Some(Mark::Expression) => expression_at(alloc, setting, file, spot, text),
        Some(Mark::Hash) => Ok((Piece::Leaf(Leaf::Hash), behind("#{", text))),
        Some(Mark::Start) => start_at(alloc, setting, file, spot, text),
        Some(Mark::End) => end_at(alloc, spot, text),
        None => {
            let (front, rest) = text_at(setting, text);
            text_piece(alloc, front, rest)
        }
    }
}

/// The piece at the front of a text that is not empty, and what follows it, or why none stands
/// there. The text begins at this place of the file.
pub fn read_piece<'a>(
    alloc: Global,
    setting: &Setting,
    file: &Path,
    spot: Spot,
    text: &'a str,
) -> Result<(Piece, &'a str), Failure<Break>>
    requires some { 0 < length text.now }
    requires byte { spot.byte + length text.now < 2 ^ 31 }
    requires line { spot.line ≤ spot.byte + 1 }
    requires column { spot.column ≤ spot.byte + 1 }
    ensures piece { IfOk result (λ x. Stands setting.now file.now spot text.now x.0 x.1.now) }
    ensures fault { IfErr result (λ fault. BreaksOff setting.now file.now spot text.now fault) }
    ensures within { IfOk result (λ x. length x.1.now < length text.now) }
{
    piece_at(alloc, setting, file, spot, text)
}
