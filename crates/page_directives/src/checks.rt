ghost use Rattle.std.specs.Prelude.{◌≡◌, codes};
ghost use Rattle.std.specs.Str.{bytes_eq, str_to_ascii_lowercase};
ghost use Rattle.std.specs.Option.{option_map};
ghost use Rattle.page_directives.specs.Checks.{attribute_faults, by_row, true_alone, refused};
ghost use Rattle.page_directives.specs.Checks.{value_faults};
ghost use Rattle.page_directives.specs.Directive.{row_of};
ghost use Rattle.page_directives.specs.Faults.{in_order};
ghost use Rattle.page_directives.specs.Rows.{check_of, rows_of};

use crate::buffers::buffer_size;
use crate::charset::tokens;
use crate::faults::Faults;
use crate::words::is_among;
use page_pieces::{Attribute, plain_text};
use pg_text::TranslationFault;

/// What the value of a directive's attribute may be.
#[derive(Clone, Copy)]
pub enum Check {
    Anything,
    /// Any text but the empty one.
    Something,
    /// One of these texts.
    OneOf(&'static [&'static str]),
    /// One of these texts, others being left out of the language.
    LeftOutBut(&'static [&'static str]),
    /// `true`; `false` is left out.
    TrueAlone,
    BufferSize,
    ContentType,
    Encoding,
}

/// The attributes that a directive may have.
pub type Table = &'static [(&'static str, Check)];

// The row of a name.
pub(crate) fn row_of(name: &str, table: Table) -> Option<Check>
    ensures { option_map check_of result ≡ row_of name.now (rows_of table.now) }
{
    for (row, check) in table {
        if *row == name {
            return Some(*check);
        }
    }
    None
}

// The fault that a text has as the value of an attribute of which this is checked.
#[tactic(auto, unfolding(crate::specs::Checks::refused))]
fn refused(check: Check, text: &str) -> Faults
    ensures { result ≡ in_order (refused (check_of check) text.now) }
{
    match check {
        Check::Anything => Faults::none(),
        Check::Something => Faults::one_if(text.is_empty(), TranslationFault::BadDirective),
        Check::OneOf(texts) => {
            Faults::one_if(!is_among(text, texts), TranslationFault::BadDirective)
        }
        Check::LeftOutBut(texts) => {
            Faults::one_if(!is_among(text, texts), TranslationFault::LeftOut)
        }
        Check::TrueAlone => untrue(text),
        Check::BufferSize => {
            Faults::one_if(buffer_size(text).is_none(), TranslationFault::BadDirective)
        }
        Check::ContentType => {
            Faults::one_if(tokens(text).is_none(), TranslationFault::BadDirective)
        }
        Check::Encoding => Faults::one_if(!is_utf_8(text), TranslationFault::BadDirective),
    }
}

// The fault of a text that has to be `true`.
#[tactic(auto, unfolding(crate::specs::Checks::refused))]
fn untrue(text: &str) -> Faults
    ensures { result ≡ in_order (refused true_alone text.now) }
{
    if text == "true" {
        return Faults::none();
    }
    if text == "false" {
        return Faults::one(TranslationFault::LeftOut);
    }
    Faults::one(TranslationFault::BadDirective)
}

// Whether a text names the encoding UTF-8.
fn is_utf_8(text: &str) -> bool
    ensures { result ≡ bytes_eq (str_to_ascii_lowercase text.now) (codes "utf-8") }
{
    text.eq_ignore_ascii_case("utf-8")
}

// The fault of an attribute by the row of its name.
pub(crate) fn by_row(row: Option<Check>, attribute: &Attribute) -> Faults
    ensures { result ≡ in_order (by_row (option_map check_of row) attribute.now) }
{
    let Some(check) = row else {
        return Faults::one(TranslationFault::BadDirective);
    };
    match plain_text(attribute.parts.as_slice()) {
        Some(text) => refused(check, text),
        None => Faults::one(TranslationFault::BadDirective),
    }
}

/// The faults of a directive's attributes, each by itself.
pub fn attribute_faults(table: Table, attributes: &[Attribute]) -> Faults
    ensures { result ≡ in_order (attribute_faults (rows_of table.now) attributes.now) }
{
    let mut faults = Faults::none();
    for attribute in attributes {
        faults = faults.and(by_row(row_of(attribute.name.as_str(), table), attribute));
    }
    faults
}
