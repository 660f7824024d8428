ghost use Rattle.std.specs.Prelude.{◌≡◌};
ghost use Rattle.std.specs.Option.{option_map};
ghost use Rattle.page_directives.specs.Directive.{row_of};
ghost use Rattle.unit_words.specs.Standard.{standard_table};
ghost use Rattle.unit_judges.specs.Made.{standard_made, standards_made};

use jstl_tags::{Holds, Row, Stands, Takes};
use unit_nodes::JspName;

static STANDARD: [(&str, (JspName, Row)); 11] = [
    (
        "include",
        (
            JspName::Include,
            Row {
                attributes: &[("page", Takes::AnyValue), ("flush", Takes::TruthValue)],
                required: &["page"],
                holds: Holds::Params,
                stands: Stands::Anywhere,
            },
        ),
    ),
    (
        "forward",
        (
            JspName::Forward,
            Row {
                attributes: &[("page", Takes::AnyValue)],
                required: &["page"],
                holds: Holds::Params,
                stands: Stands::Anywhere,
            },
        ),
    ),
    (
        "param",
        (
            JspName::Param,
            Row {
                attributes: &[("name", Takes::PlainText), ("value", Takes::AnyValue)],
                required: &["name", "value"],
                holds: Holds::Nothing,
                stands: Stands::StandardParam,
            },
        ),
    ),
    (
        "useBean",
        (
            JspName::UseBean,
            Row {
                attributes: &[
                    ("id", Takes::PlainText),
                    ("scope", Takes::ScopeName),
                    ("class", Takes::PlainText),
                ],
                required: &["id", "class"],
                holds: Holds::Anything,
                stands: Stands::Anywhere,
            },
        ),
    ),
    (
        "getProperty",
        (
            JspName::GetProperty,
            Row {
                attributes: &[("name", Takes::PlainText), ("property", Takes::PlainText)],
                required: &["name", "property"],
                holds: Holds::Nothing,
                stands: Stands::Anywhere,
            },
        ),
    ),
    (
        "setProperty",
        (
            JspName::SetProperty,
            Row {
                attributes: &[
                    ("name", Takes::PlainText),
                    ("property", Takes::PlainText),
                    ("value", Takes::AnyValue),
                    ("param", Takes::PlainText),
                ],
                required: &["name", "property"],
                holds: Holds::Nothing,
                stands: Stands::Anywhere,
            },
        ),
    ),
    (
        "attribute",
        (
            JspName::Attribute,
            Row {
                attributes: &[("name", Takes::PlainText), ("trim", Takes::TruthValue)],
                required: &["name"],
                holds: Holds::Anything,
                stands: Stands::Part,
            },
        ),
    ),
    (
        "body",
        (
            JspName::Body,
            Row {
                attributes: &[],
                required: &[],
                holds: Holds::Anything,
                stands: Stands::Part,
            },
        ),
    ),
    (
        "text",
        (
            JspName::Text,
            Row {
                attributes: &[],
                required: &[],
                holds: Holds::Anything,
                stands: Stands::Anywhere,
            },
        ),
    ),
    (
        "doBody",
        (
            JspName::DoBody,
            Row {
                attributes: &[
                    ("var", Takes::PlainText),
                    ("scope", Takes::ScopeName),
                    ("varReader", Takes::LeftOut),
                ],
                required: &[],
                holds: Holds::Nothing,
                stands: Stands::InTagFile,
            },
        ),
    ),
    (
        "invoke",
        (
            JspName::Invoke,
            Row {
                attributes: &[
                    ("fragment", Takes::PlainText),
                    ("var", Takes::PlainText),
                    ("scope", Takes::ScopeName),
                    ("varReader", Takes::LeftOut),
                ],
                required: &["fragment"],
                holds: Holds::Nothing,
                stands: Stands::InTagFile,
            },
        ),
    ),
];

// The standard actions.
#[tactic(auto, unfolding(unit_words::specs::Standard::standard_table))]
fn standard_table() -> &'static [(&'static str, (JspName, Row))]
    ensures { standards_made result.now ≡ standard_table }
{
    &STANDARD
}

// The row of a name.
fn row_of(name: &str, table: &[(&str, (JspName, Row))]) -> Option<(JspName, Row)>
    ensures { option_map standard_made result ≡ row_of name.now (standards_made table.now) }
{
    for (row, found) in table {
        if *row == name {
            return Some(*found);
        }
    }
    None
}

/// The standard action of a name, and what the table says of it.
pub(crate) fn standard_row(name: &str) -> Option<(JspName, Row)>
    ensures { option_map standard_made result ≡ row_of name.now standard_table }
{
    row_of(name, standard_table())
}
