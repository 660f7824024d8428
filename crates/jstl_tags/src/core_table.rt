ghost use Rattle.std.specs.Prelude.{◌≡◌};
ghost use Rattle.std.specs.Option.{option_map};
ghost use Rattle.page_directives.specs.Directive.{row_of};
ghost use Rattle.jstl_tags.specs.Core.{core_table};
ghost use Rattle.jstl_tags.specs.Rows.{row_made, rows_made};

use crate::core_name::CoreName;
use crate::rows::{Holds, Row, Stands, Takes};

static CORE: [(&str, (CoreName, Row)); 14] = [
    (
        "out",
        (
            CoreName::Out,
            Row {
                attributes: &[
                    ("value", Takes::AnyValue),
                    ("default", Takes::AnyValue),
                    ("escapeXml", Takes::AnyValue),
                ],
                required: &["value"],
                holds: Holds::Anything,
                stands: Stands::Anywhere,
            },
        ),
    ),
    (
        "set",
        (
            CoreName::Set,
            Row {
                attributes: &[
                    ("var", Takes::PlainText),
                    ("scope", Takes::ScopeName),
                    ("value", Takes::AnyValue),
                    ("target", Takes::OneName),
                    ("property", Takes::AnyValue),
                ],
                required: &[],
                holds: Holds::Anything,
                stands: Stands::Anywhere,
            },
        ),
    ),
    (
        "remove",
        (
            CoreName::Remove,
            Row {
                attributes: &[("var", Takes::PlainText), ("scope", Takes::ScopeName)],
                required: &["var"],
                holds: Holds::Nothing,
                stands: Stands::Anywhere,
            },
        ),
    ),
    (
        "catch",
        (
            CoreName::Catch,
            Row {
                attributes: &[("var", Takes::PlainText)],
                required: &[],
                holds: Holds::Anything,
                stands: Stands::Anywhere,
            },
        ),
    ),
    (
        "if",
        (
            CoreName::If,
            Row {
                attributes: &[
                    ("test", Takes::AnyValue),
                    ("var", Takes::PlainText),
                    ("scope", Takes::ScopeName),
                ],
                required: &["test"],
                holds: Holds::Anything,
                stands: Stands::Anywhere,
            },
        ),
    ),
    (
        "choose",
        (
            CoreName::Choose,
            Row {
                attributes: &[],
                required: &[],
                holds: Holds::Branches,
                stands: Stands::Anywhere,
            },
        ),
    ),
    (
        "when",
        (
            CoreName::When,
            Row {
                attributes: &[("test", Takes::AnyValue)],
                required: &["test"],
                holds: Holds::Anything,
                stands: Stands::Branch,
            },
        ),
    ),
    (
        "otherwise",
        (
            CoreName::Otherwise,
            Row {
                attributes: &[],
                required: &[],
                holds: Holds::Anything,
                stands: Stands::Branch,
            },
        ),
    ),
    (
        "forEach",
        (
            CoreName::ForEach,
            Row {
                attributes: &[
                    ("items", Takes::AnyValue),
                    ("begin", Takes::AnyValue),
                    ("end", Takes::AnyValue),
                    ("step", Takes::AnyValue),
                    ("var", Takes::PlainText),
                    ("varStatus", Takes::PlainText),
                ],
                required: &[],
                holds: Holds::Anything,
                stands: Stands::Anywhere,
            },
        ),
    ),
    (
        "forTokens",
        (
            CoreName::ForTokens,
            Row {
                attributes: &[
                    ("delims", Takes::AnyValue),
                    ("items", Takes::AnyValue),
                    ("begin", Takes::AnyValue),
                    ("end", Takes::AnyValue),
                    ("step", Takes::AnyValue),
                    ("var", Takes::PlainText),
                    ("varStatus", Takes::PlainText),
                ],
                required: &["items", "delims"],
                holds: Holds::Anything,
                stands: Stands::Anywhere,
            },
        ),
    ),
    (
        "import",
        (
            CoreName::Import,
            Row {
                attributes: &[
                    ("url", Takes::AnyValue),
                    ("var", Takes::PlainText),
                    ("scope", Takes::ScopeName),
                    ("varReader", Takes::LeftOut),
                    ("context", Takes::LeftOut),
                    ("charEncoding", Takes::LeftOut),
                ],
                required: &["url"],
                holds: Holds::Params,
                stands: Stands::Anywhere,
            },
        ),
    ),
    (
        "url",
        (
            CoreName::Url,
            Row {
                attributes: &[
                    ("value", Takes::AnyValue),
                    ("var", Takes::PlainText),
                    ("scope", Takes::ScopeName),
                    ("context", Takes::LeftOut),
                ],
                required: &["value"],
                holds: Holds::Params,
                stands: Stands::Anywhere,
            },
        ),
    ),
    (
        "redirect",
        (
            CoreName::Redirect,
            Row {
                attributes: &[("url", Takes::AnyValue), ("context", Takes::LeftOut)],
                required: &["url"],
                holds: Holds::Params,
                stands: Stands::Anywhere,
            },
        ),
    ),
    (
        "param",
        (
            CoreName::Param,
            Row {
                attributes: &[("name", Takes::AnyValue), ("value", Takes::AnyValue)],
                required: &["name"],
                holds: Holds::Anything,
                stands: Stands::CoreParam,
            },
        ),
    ),
];

// The tags of the core library.
#[tactic(auto, unfolding(crate::specs::Core::core_table))]
fn core_table() -> &'static [(&'static str, (CoreName, Row))]
    ensures { rows_made result.now ≡ core_table }
{
    &CORE
}

// The row of a name.
fn row_of(name: &str, table: &[(&str, (CoreName, Row))]) -> Option<(CoreName, Row)>
    ensures { option_map (λ found. (found.0, row_made found.1)) result ≡ row_of name.now (rows_made table.now) }
{
    for (row, found) in table {
        if *row == name {
            return Some(*found);
        }
    }
    None
}

/// The core tag of a name, and what the table says of it.
pub fn core_row(name: &str) -> Option<(CoreName, Row)>
    ensures { option_map (λ found. (found.0, row_made found.1)) result ≡ row_of name.now core_table }
{
    row_of(name, core_table())
}
