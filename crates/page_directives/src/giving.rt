ghost use Rattle.std.specs.Prelude.{◌≡◌, ◌++◌, ◌&&◌, None, IfOk, if◌then◌else◌};
ghost use Rattle.std.specs.Option.{option_and_then, option_map, unwrap_or};
ghost use Rattle.page_pieces.specs.Repeats.{has_name};
ghost use Rattle.page_pieces.specs.Settings.{value_of};
ghost use Rattle.page_directives.specs.Directive.{is_named};
ghost use Rattle.page_directives.specs.Checks.{buffer_size, by_row};
ghost use Rattle.page_directives.specs.Faults.{in_order, is_good};
ghost use Rattle.page_directives.specs.Rows.{check_of, rows_of};
ghost use Rattle.page_directives.specs.Settings.{decided, decided_by, differs, given, giver};
ghost use Rattle.page_directives.specs.Settings.{has_clash, is_value, setting_faults, settings_of};
ghost use Rattle.page_directives.specs.Settings.{truth_or};

use crate::before::Before;
use crate::buffers::buffer_size;
use crate::charset::content_type;
use crate::checks::{Check, Table, attribute_faults, by_row, row_of};
use crate::directive::Directive;
use crate::faults::Faults;
use crate::first_reading::FirstReading;
use crate::tables::{giver, giver_table, is_repeatable};
use page_pieces::{Attribute, Attributes, has_name, plain_text};
use pg_text::{Text, TranslationFault};
use pg_value::PageSettings;
use std::alloc::{AllocError, Global};

const DEFAULT_BUFFER: u32 = 8_192;

// The text of the first attribute of that name, of those that directives of this name give and of
// others behind them.
pub(crate) fn value_given<'a>(
    giver: &str,
    before: &[Directive<'a>],
    own: &'a Attributes,
    name: &str,
) -> Option<&'a str>
    ensures { option_map (λ text. text.now) result ≡ value_of name.now (given giver.now before.now ++ own.now) }
{
    for directive in before {
        if gives(giver, directive, name) {
            return directive.attributes().plain(name);
        }
    }
    own.plain(name)
}

// Whether a directive is called `giver`, and has an attribute called `name`.
fn gives(giver: &str, directive: &Directive, name: &str) -> bool
    ensures { result ≡ (is_named giver.now directive.now && has_name name.now directive.now.attributes) }
{
    directive.is_named(giver) && has_name(directive.attributes().as_slice(), name)
}

// Whether a value differs from the first one that its attribute was given.
fn differs(value: Option<&str>, first: Option<&str>) -> bool
    ensures { result ≡ differs (option_map (λ text. text.now) value.entry)
        (option_map (λ text. text.now) first.entry) }
{
    match (value, first) {
        (Some(value), Some(first)) => value != first,
        _ => false,
    }
}

// Whether an attribute that was given before has another value.
fn has_clash<'a>(in_tag: bool, before: &Before<'a>, own: &'a Attributes) -> bool
    ensures { result ≡ has_clash (given (giver in_tag) before.now.directives ++ own.now) own.now }
{
    for attribute in own.as_slice() {
        let name = attribute.name.as_str();
        let value = plain_text(attribute.parts.as_slice());
        if !is_repeatable(name) && differs(value, before.value(in_tag, own, name)) {
            return true;
        }
    }
    false
}

/// Whether a value is this text.
pub fn is_value(text: &str, value: Option<&str>) -> bool
    ensures { result ≡ is_value text.now (option_map (λ value. value.now) value.entry) }
{
    match value {
        Some(value) => value == text,
        None => false,
    }
}

// What the directives that give settings decide of an attribute.
fn decided_by<'a>(in_tag: bool, directives: &[Directive<'a>], name: &str) -> Option<&'a str>
    ensures { option_map (λ text. text.now) result ≡ decided_by in_tag directives.now name.now }
{
    decided(giver_table(in_tag), giver(in_tag), directives, name)
}

/// The faults of a directive that gives settings, behind those that stand before it. `first` is the
/// first reading of the page or tag file.
#[tactic(auto, unfolding(crate::specs::Settings::setting_faults))]
pub fn setting_faults<'a>(
    in_tag: bool,
    first: &FirstReading,
    before: &Before<'a>,
    directive: &Directive<'a>,
) -> Faults
    ensures { result ≡ in_order (setting_faults in_tag first.now before.now.directives directive.now) }
{
    let own = directive.attributes();
    let clashes = has_clash(in_tag, before, own);
    let unbuffers = first.unbuffers(in_tag, directive);
    attribute_faults(giver_table(in_tag), own.as_slice()).and(Faults::one_if(
        clashes,
        TranslationFault::Clash,
    ).and(Faults::one_if(unbuffers, TranslationFault::UnbufferedNoFlush)))
}

// Whether an attribute's value has no fault by the row of its name.
fn is_taken(row: Option<Check>, attribute: &Attribute) -> bool
    ensures { result ≡ is_good (by_row (option_map check_of row) attribute.now) }
{
    by_row(row, attribute).is_empty()
}

// The first value of an attribute that isn't refused.
fn decided_in<'a>(table: Table, name: &str, attributes: &'a [Attribute]) -> Option<&'a str>
    ensures { option_map (λ text. text.now) result ≡ decided (rows_of table.now) name.now attributes.now }
{
    let row = row_of(name, table);
    for attribute in attributes {
        if attribute.name.as_str() == name && is_taken(row, attribute) {
            return plain_text(attribute.parts.as_slice());
        }
    }
    None
}

// The first value of an attribute that isn't refused, where a directive of this name gives it.
pub(crate) fn decided_by_one<'a>(
    table: Table,
    giver: &str,
    directive: &Directive<'a>,
    name: &str,
) -> Option<&'a str>
    ensures { option_map (λ text. text.now) result
        ≡ (if is_named giver.now directive.now then decided (rows_of table.now)
        name.now directive.now.attributes else None) }
{
    if directive.is_named(giver) {
        decided_in(table, name, directive.attributes().as_slice())
    } else {
        None
    }
}

/// What directives named `giver` decide of the attribute `name`: the first of its values that its
/// row in `table` doesn't refuse.
pub fn decided<'a>(
    table: Table,
    giver: &str,
    directives: &[Directive<'a>],
    name: &str,
) -> Option<&'a str>
    ensures { option_map (λ text. text.now) result ≡ decided (rows_of table.now) name.now
        (given giver.now directives.now) }
{
    for directive in directives {
        if let Some(value) = decided_by_one(table, giver, directive, name) {
            return Some(value);
        }
    }
    None
}

/// A truth value, or else this one.
pub fn truth_or(other: bool, value: Option<&str>) -> bool
    ensures { result ≡ truth_or other (option_map (λ text. text.now) value.entry) }
{
    match value {
        Some(text) => text == "true",
        None => other,
    }
}

// The size of a buffer, or else the one that a page has by itself.
fn buffer_or_default(value: Option<&str>) -> Option<u32>
    ensures { result ≡ unwrap_or (option_and_then buffer_size (option_map (λ text. text.now) value.entry))
        (Some 8192) }
{
    match value {
        Some(text) => buffer_size(text).unwrap_or(Some(DEFAULT_BUFFER)),
        None => Some(DEFAULT_BUFFER),
    }
}

// A copy of a text, where there is one.
fn text_of(alloc: Global, value: Option<&str>) -> Result<Option<Text>, AllocError>
    ensures { IfOk result (λ text. text ≡ option_map (λ text. text.now) value.entry) }
{
    match value {
        Some(text) => Ok(Some(Text::copy_of(alloc, text)?)),
        None => Ok(None),
    }
}

/// The settings that the directives of the first reading of a page or a tag file decide.
#[tactic(auto, unfolding(crate::specs::Settings::settings_of))]
pub fn settings(
    alloc: Global,
    directives: &[Directive],
    in_tag: bool,
) -> Result<PageSettings, AllocError>
    ensures { IfOk result (λ settings. settings ≡ settings_of in_tag directives.now) }
{
    let session = decided_by(in_tag, directives, "session");
    let buffer = decided_by(in_tag, directives, "buffer");
    let auto_flush = decided_by(in_tag, directives, "autoFlush");
    let error_page = decided_by(in_tag, directives, "errorPage");
    let content = decided_by(in_tag, directives, "contentType");
    let el_ignored = decided_by(in_tag, directives, "isELIgnored");
    let hash_is_text = decided_by(in_tag, directives, "deferredSyntaxAllowedAsLiteral");
    let trim = decided_by(in_tag, directives, "trimDirectiveWhitespaces");
    let not_found = decided_by(in_tag, directives, "errorOnELNotFound");
    Ok(PageSettings {
        session: truth_or(true, session),
        buffer: buffer_or_default(buffer),
        auto_flush: truth_or(true, auto_flush),
        error_page: text_of(alloc, error_page)?,
        content_type: content_type(alloc, content)?,
        el: !truth_or(false, el_ignored),
        hash_is_text: truth_or(false, hash_is_text),
        trim: truth_or(false, trim),
        not_found_is_fault: truth_or(false, not_found),
    })
}
