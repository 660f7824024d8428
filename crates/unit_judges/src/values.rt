ghost use Rattle.std.specs.Prelude.{◌≡◌, ◌∷◌, [], IfOk};
ghost use Rattle.page_directives.specs.Faults.{in_order};
ghost use Rattle.unit_words.specs.Kinds.{is_function_prefix};
ghost use Rattle.unit_words.specs.Values.{expression_faults, part_faults};

use crate::functions::are_functions;
use crate::readings::Readings;
use el_reader::read_el;
use page_directives::{Before, Faults};
use page_pieces::Part;
use pg_text::{Failure, Text, TranslationFault};
use std::alloc::{AllocError, Global};

/// The faults of an expression. Where its text has none, its tree is kept.
pub fn expression_faults(
    alloc: Global,
    before: &Before,
    text: &Text,
    readings: &mut Readings,
) -> Result<Faults, AllocError>
    ensures { IfOk result (λ faults. faults ≡ in_order
        (expression_faults (is_function_prefix before.now.directives) text.now)) }
{
    match read_el(alloc, text.as_str()) {
        Ok(el) => {
            let faults = Faults::one_if(!are_functions(before, &el), TranslationFault::NoFunction);
            readings.keep(text, el)?;
            Ok(faults)
        }
        Err(Failure::Fault(fault)) => Ok(Faults::one(fault.translation_fault())),
        Err(Failure::NoMemory) => Err(AllocError),
    }
}

// The faults of one part of an attribute's value: none of a text, those of its expression, or E16.
fn part_fault(
    alloc: Global,
    before: &Before,
    part: &Part,
    readings: &mut Readings,
) -> Result<Faults, AllocError>
    ensures { IfOk result (λ faults. faults ≡ in_order
        (part_faults (is_function_prefix before.now.directives) (part.now ∷ []))) }
{
    match part {
        Part::Text(_) => Ok(Faults::none()),
        Part::Expr(text) => expression_faults(alloc, before, text, readings),
        Part::Hash => Ok(Faults::one(TranslationFault::ElNotHere)),
    }
}

/// The faults of the parts of a value.
pub fn part_faults(
    alloc: Global,
    before: &Before,
    parts: &[Part],
    readings: &mut Readings,
) -> Result<Faults, AllocError>
    ensures { IfOk result (λ faults. faults ≡ in_order
        (part_faults (is_function_prefix before.now.directives) parts.now)) }
{
    let mut faults = Faults::none();
    for part in parts {
        faults = faults.and(part_fault(alloc, before, part, readings)?);
    }
    Ok(faults)
}
