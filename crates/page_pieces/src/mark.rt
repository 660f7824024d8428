ghost use Rattle.std.specs.Prelude.{◌≡◌, codes};
ghost use Rattle.page_pieces.specs.Texts.{after};
ghost use Rattle.page_pieces.specs.Marks.{is_known, is_scripting, start_mark, end_mark};
ghost use Rattle.page_pieces.specs.Marks.{tag_name_after, mark_at};

use crate::names::tag_name;
use crate::setting::Setting;
use crate::texts::{after, begins};

// The rows of the table of marks.
#[derive(Clone, Copy)]
pub(crate) enum Mark {
    Comment,
    Directive,
    Scripting,
    EscapedScripting,
    EscapedDollar,
    EscapedHash,
    Expression,
    Hash,
    Start,
    End,
}

// Whether the prefix is registered or `jsp`.
fn is_known(setting: &Setting, prefix: &str) -> bool
    ensures { result ≡ is_known setting.now prefix.now }
{
    prefix == "jsp" || setting.prefixes.contains(prefix)
}

// Whether the element holds Java.
#[tactic(auto, unfolding(crate::specs::Marks::is_scripting))]
fn is_scripting(prefix: &str, name: &str) -> bool
    ensures { result ≡ is_scripting prefix.now name.now }
{
    prefix == "jsp" && (name == "declaration" || name == "scriptlet" || name == "expression")
}

// The mark of an element that starts here.
fn start_mark(setting: &Setting, text: &str) -> Option<Mark>
    ensures { result ≡ start_mark setting.now (tag_name_after (after (codes "<") text.now)) }
{
    let tag = tag_name(after("<", text)?)?;
    if is_scripting(tag.prefix, tag.name) {
        return Some(Mark::Scripting);
    }
    if is_known(setting, tag.prefix) {
        return Some(Mark::Start);
    }
    None
}

// The mark of an element's end that stands here.
fn end_mark(setting: &Setting, text: &str) -> Option<Mark>
    ensures { result ≡ end_mark setting.now (tag_name_after (after (codes "</") text.now)) }
{
    let tag = tag_name(after("</", text)?)?;
    if is_known(setting, tag.prefix) {
        return Some(Mark::End);
    }
    None
}

// The first row of the table that stands here.
#[tactic(auto, unfolding(crate::specs::Marks::mark_at))]
pub(crate) fn mark_at(setting: &Setting, text: &str) -> Option<Mark>
    ensures { result ≡ mark_at setting.now text.now }
{
    if begins("<%--", text) {
        return Some(Mark::Comment);
    }
    if begins("<%@", text) {
        return Some(Mark::Directive);
    }
    if begins("<%", text) {
        return Some(Mark::Scripting);
    }
    if begins("<\\%", text) {
        return Some(Mark::EscapedScripting);
    }
    if setting.el && begins("\\$", text) {
        return Some(Mark::EscapedDollar);
    }
    if setting.el && begins("\\#", text) {
        return Some(Mark::EscapedHash);
    }
    if setting.el && begins("${", text) {
        return Some(Mark::Expression);
    }
    if setting.el && !setting.hash_is_text && begins("#{", text) {
        return Some(Mark::Hash);
    }
    match start_mark(setting, text) {
        Some(mark) => Some(mark),
        None => end_mark(setting, text),
    }
}
