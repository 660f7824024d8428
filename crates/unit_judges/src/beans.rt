ghost use Rattle.std.specs.Prelude.{◌≡◌, IfOk};
ghost use Rattle.unit_words.specs.Beans.{bean_of, bean_path, json_fault};
ghost use Rattle.unit_judges.specs.Made.{bean_made};

use pg_text::{Failure, Path, TranslationFault, resolve};
use pg_value::{JsonFault, Value, record_from_json};
use std::alloc::{AllocError, Global};

/// The bean of a class, or the fault of its file.
pub type Bean = Result<Value, TranslationFault>;

// The fault of a bean's file whose text is no record for this reason: E12, E18 or E20.
fn json_fault(fault: JsonFault) -> TranslationFault
    ensures { result ≡ json_fault fault }
{
    match fault {
        JsonFault::NotJson | JsonFault::NotRecord => TranslationFault::BadAttribute,
        JsonFault::Decimal => TranslationFault::Decimal,
        JsonFault::TooDeep | JsonFault::TooLarge => TranslationFault::TooLarge,
    }
}

/// The bean that a text is, or its fault.
pub fn bean_of(alloc: Global, text: &[u8]) -> Result<Bean, AllocError>
    ensures { IfOk result (λ bean. bean_made bean ≡ bean_of text.now) }
{
    match record_from_json(alloc, text) {
        Ok(value) => Ok(Ok(value)),
        Err(Failure::Fault(fault)) => Ok(Err(json_fault(fault))),
        Err(Failure::NoMemory) => Err(AllocError),
    }
}

/// The path of the file of a class.
pub fn bean_path(alloc: Global, class: &str) -> Result<Option<Path>, AllocError>
    ensures { IfOk result (λ path. path ≡ bean_path class.now) }
{
    let mut text = String::from_str(alloc, "/WEB-INF/beans/")?;
    text.push_str(class)?;
    text.push_str(".json")?;
    match resolve(alloc, None, text.as_str()) {
        Ok(path) => Ok(Some(path)),
        Err(Failure::NoMemory) => Err(AllocError),
        Err(Failure::Fault(_)) => Ok(None),
    }
}
