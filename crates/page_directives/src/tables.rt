ghost use Rattle.std.specs.Prelude.{◌≡◌};
ghost use Rattle.page_pieces.specs.Settings.{contains_text};
ghost use Rattle.page_directives.specs.Rows.{rows_of};
ghost use Rattle.page_directives.specs.Settings.{giver, giver_table};
ghost use Rattle.page_directives.specs.Tables.{include_table, page_table, repeatable, tag_table};
ghost use Rattle.page_directives.specs.Tables.{taglib_table};

use crate::checks::{Check, Table};

/// The truth values.
pub const TRUTHS: &[&str] = &["true", "false"];

static PAGE: [(&str, Check); 16] = [
    ("language", Check::LeftOutBut(&["java"])),
    ("import", Check::Anything),
    ("info", Check::Anything),
    ("isThreadSafe", Check::TrueAlone),
    ("session", Check::OneOf(TRUTHS)),
    ("buffer", Check::BufferSize),
    ("autoFlush", Check::OneOf(TRUTHS)),
    ("errorPage", Check::Anything),
    ("isErrorPage", Check::OneOf(TRUTHS)),
    ("contentType", Check::ContentType),
    ("pageEncoding", Check::Encoding),
    ("isELIgnored", Check::OneOf(TRUTHS)),
    ("deferredSyntaxAllowedAsLiteral", Check::OneOf(TRUTHS)),
    ("trimDirectiveWhitespaces", Check::OneOf(TRUTHS)),
    ("errorOnELNotFound", Check::OneOf(TRUTHS)),
    ("extends", Check::LeftOutBut(&[])),
];

static TAG: [(&str, Check); 14] = [
    (
        "body-content",
        Check::OneOf(&["scriptless", "empty", "tagdependent"]),
    ),
    ("dynamic-attributes", Check::Something),
    ("pageEncoding", Check::Encoding),
    ("isELIgnored", Check::OneOf(TRUTHS)),
    ("deferredSyntaxAllowedAsLiteral", Check::OneOf(TRUTHS)),
    ("trimDirectiveWhitespaces", Check::OneOf(TRUTHS)),
    ("errorOnELNotFound", Check::OneOf(TRUTHS)),
    ("language", Check::LeftOutBut(&["java"])),
    ("import", Check::Anything),
    ("description", Check::Anything),
    ("display-name", Check::Anything),
    ("example", Check::Anything),
    ("small-icon", Check::Anything),
    ("large-icon", Check::Anything),
];

static INCLUDE: [(&str, Check); 1] = [("file", Check::Anything)];

static TAGLIB: [(&str, Check); 3] = [
    ("prefix", Check::Something),
    ("uri", Check::Anything),
    ("tagdir", Check::Anything),
];

// The attributes of `page`.
#[tactic(auto, unfolding(crate::specs::Tables::page_table))]
fn page_table() -> Table
    ensures { rows_of result.now ≡ page_table }
{
    &PAGE
}

/// The attributes of `tag`.
#[tactic(auto, unfolding(crate::specs::Tables::tag_table))]
pub fn tag_table() -> Table
    ensures { rows_of result.now ≡ tag_table }
{
    &TAG
}

// The attributes of `include`.
#[tactic(auto, unfolding(crate::specs::Tables::include_table))]
pub(crate) fn include_table() -> Table
    ensures { rows_of result.now ≡ include_table }
{
    &INCLUDE
}

// The attributes of `taglib`.
#[tactic(auto, unfolding(crate::specs::Tables::taglib_table))]
pub(crate) fn taglib_table() -> Table
    ensures { rows_of result.now ≡ taglib_table }
{
    &TAGLIB
}

// The attributes of the directives that give settings.
#[tactic(auto, unfolding(crate::specs::Settings::giver_table))]
pub(crate) fn giver_table(in_tag: bool) -> Table
    ensures { rows_of result.now ≡ giver_table in_tag }
{
    if in_tag { tag_table() } else { page_table() }
}

// The name of the directives that give settings.
pub(crate) fn giver(in_tag: bool) -> &'static str
    ensures { result.now ≡ giver in_tag }
{
    if in_tag { "tag" } else { "page" }
}

// Whether an attribute may be given again with another value.
#[tactic(auto, unfolding(crate::specs::Tables::repeatable))]
pub(crate) fn is_repeatable(name: &str) -> bool
    ensures { result ≡ contains_text name.now repeatable }
{
    name == "import" || name == "pageEncoding"
}
