ghost use Rattle.std.specs.Prelude.{◌≡◌, IfOk, Ok};
ghost use Rattle.std.specs.Option.{option_map};
ghost use Rattle.el_reader.specs.El.{tree_of};
ghost use Rattle.el_reader.specs.ExpressionOf.{expression_of};
ghost use Rattle.page_directives.specs.Faults.{in_order};
ghost use Rattle.page_directives.specs.Rows.{words};
ghost use Rattle.jstl_tags.specs.Check.{is_one_name, is_text_in, may_be_name, taken_faults};

use crate::rows::Takes;
use el_reader::{El, read_el};
use page_directives::{Faults, TRUTHS, is_among};
use page_pieces::{Part, plain_text};
use pg_text::{Failure, TranslationFault};
use std::alloc::{AllocError, Global};

const SCOPES: [&str; 4] = ["page", "request", "session", "application"];

// Whether a value is one of these texts.
fn is_text_in(texts: &[&str], value: Option<&str>) -> bool
    ensures { result ≡ is_text_in (words texts.now) (option_map (λ text. text.now) value.entry) }
{
    match value {
        Some(text) => is_among(text, texts),
        None => false,
    }
}

// Whether an expression is a name.
fn is_name(expression: &El) -> bool
    ensures { result ≡ may_be_name (Ok (tree_of expression.now)) }
{
    match expression {
        El::Name(_) => true,
        _ => false,
    }
}

// Whether an expression is a name, or has a fault of its own.
fn may_be_name(alloc: Global, text: &str) -> Result<bool, AllocError>
    ensures { IfOk result (λ may. may ≡ may_be_name (expression_of text.now)) }
{
    match read_el(alloc, text) {
        Ok(expression) => Ok(is_name(&expression)),
        Err(Failure::Fault(_)) => Ok(true),
        Err(Failure::NoMemory) => Err(AllocError),
    }
}

// Whether a value is one `${name}`, or one expression with a fault of its own.
fn is_one_name(alloc: Global, value: &[Part]) -> Result<bool, AllocError>
    ensures { IfOk result (λ is. is ≡ is_one_name value.now) }
{
    match value {
        [Part::Expr(text)] => may_be_name(alloc, text.as_str()),
        _ => Ok(false),
    }
}

/// The faults of a value by what its attribute takes. The faults of an expression in the value
/// aren't told here.
#[tactic(auto, unfolding(crate::specs::Check::taken_faults))]
pub fn taken_faults(
    alloc: Global,
    takes: Option<Takes>,
    value: &[Part],
) -> Result<Faults, AllocError>
    ensures { IfOk result (λ faults. faults ≡ in_order (taken_faults takes value.now)) }
{
    let is_bad = match takes {
        Some(Takes::PlainText) => plain_text(value).is_none(),
        Some(Takes::TruthValue) => !is_text_in(TRUTHS, plain_text(value)),
        Some(Takes::ScopeName) => !is_text_in(&SCOPES, plain_text(value)),
        Some(Takes::OneName) => {
            let is_name = is_one_name(alloc, value)?;
            return Ok(Faults::one_if(!is_name, TranslationFault::LeftOut));
        }
        _ => false,
    };
    Ok(Faults::one_if(is_bad, TranslationFault::BadAttribute))
}
