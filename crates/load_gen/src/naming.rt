ghost use Rattle.std.specs.Prelude.{◌≡◌, ◌++◌, decimal, IfOk};
ghost use Rattle.load_gen.specs.Messages.{page_path, page_target, page_text, part_path, part_text};

use pg_text::Text;
use std::alloc::{AllocError, Global};

/// How many parts there are that the pages share.
pub(crate) const PARTS: u32 = 10;

/// The path of a page.
#[tactic(auto, unfolding(crate::specs::Messages::page_path))]
pub(crate) fn page_path(alloc: Global, page: u32) -> Result<Text, AllocError>
    ensures { IfOk result (λ path. path ≡ page_path page) }
{
    numbered(alloc, "/p", page, ".jsp")
}

/// The text of a page, which has one of the parts and then a sum.
#[tactic(auto, unfolding(crate::specs::Messages::page_text))]
pub(crate) fn page_text(alloc: Global, page: u32) -> Result<Text, AllocError>
    ensures { IfOk result (λ text. text ≡ page_text page) }
{
    let front = "<%@ page session=\"false\" %><%@ include file=\"/inc";
    let mut text = numbered(alloc, front, page % PARTS, ".jspf\" %>${param.n + ")?;
    text.push_str(page.to_string(alloc)?.as_str())?;
    text.push_str("}")?;
    Ok(text)
}

/// The path of a part.
#[tactic(auto, unfolding(crate::specs::Messages::part_path))]
pub(crate) fn part_path(alloc: Global, part: u32) -> Result<Text, AllocError>
    ensures { IfOk result (λ path. path ≡ part_path part) }
{
    numbered(alloc, "/inc", part, ".jspf")
}

/// The text of a part, which says how often it was changed.
#[tactic(auto, unfolding(crate::specs::Messages::part_text))]
pub(crate) fn part_text(alloc: Global, change: u32) -> Result<Text, AllocError>
    ensures { IfOk result (λ text. text ≡ part_text change) }
{
    numbered(alloc, "v", change, ";")
}

/// The target that asks for a page with this parameter.
#[tactic(auto, unfolding(crate::specs::Messages::page_target))]
pub(crate) fn page_target(alloc: Global, page: u32, parameter: u32) -> Result<Text, AllocError>
    ensures { IfOk result (λ target. target ≡ page_target page parameter) }
{
    let mut target = numbered(alloc, "/p", page, ".jsp?n=")?;
    target.push_str(parameter.to_string(alloc)?.as_str())?;
    Ok(target)
}

// A number between two texts.
fn numbered(alloc: Global, front: &str, number: u32, back: &str) -> Result<Text, AllocError>
    ensures { IfOk result (λ text. text ≡ front.now ++ decimal number ++ back.now) }
{
    let mut text = String::from_str(alloc, front)?;
    text.push_str(number.to_string(alloc)?.as_str())?;
    text.push_str(back)?;
    Text::new(text)
}
