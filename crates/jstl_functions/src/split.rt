ghost use Rattle.std.specs.Prelude.{◌≡◌, ◌++◌, [], string_bytes, IfOk, OnOk};
ghost use Rattle.jstl_functions.specs.Functions.{texts_list};
ghost use Rattle.jstl_functions.specs.Texts.{kept, split_at, tokens};
ghost use Rattle.pg_value.specs.Value.{datum_of};

use crate::marks::{is_mark, marks_of};
use pg_value::{Text, Value, Values};
use std::alloc::{AllocError, Global};

/// The parts of a text between the delimiters, each of which is one character, without the empty
/// parts.
pub fn tokens(alloc: Global, text: &str, delimiters: &str) -> Result<Vec<Text>, AllocError>
    ensures { IfOk result (λ found. found.items ≡ tokens delimiters.now text.now) }
{
    let marks = marks_of(alloc, delimiters)?;
    let mut found = Vec::new(alloc);
    let mut token = String::new(alloc);
    for c in text.chars() {
        if is_mark(&marks, c) {
            end_token(&mut found, &mut token)?;
        } else {
            token.push(c)?;
        }
    }
    end_token(&mut found, &mut token)?;
    Ok(found)
}

// Takes a token out, unless it is empty.
fn end_token(found: &mut Vec<Text>, token: &mut String) -> Result<(), AllocError>
    ensures found { OnOk result (found.new.items ≡ found.old.items ++ kept (string_bytes token.old)) }
    ensures token { OnOk result (string_bytes token.new ≡ []) }
{
    if !token.is_empty() {
        found.push(Text::copy_of(*token.allocator(), token.as_str())?)?;
        token.clear();
    }
    Ok(())
}

// The tokens of a text. The empty text is its one token, and so is a text where there are no
// delimiters.
fn split_texts(alloc: Global, text: &str, delimiters: &str) -> Result<Vec<Text>, AllocError>
    ensures { IfOk result (λ found. found.items ≡ split_at delimiters.now text.now) }
{
    if text.is_empty() || delimiters.is_empty() {
        let mut whole = Vec::new(alloc);
        whole.push(Text::copy_of(alloc, text)?)?;
        return Ok(whole);
    }
    tokens(alloc, text, delimiters)
}

// The same as a list.
pub(crate) fn split(alloc: Global, text: &str, delimiters: &str) -> Result<Value, AllocError>
    ensures { IfOk result (λ list. datum_of list ≡ texts_list (split_at delimiters.now text.now)) }
{
    let mut items = Vec::new(alloc);
    for text in split_texts(alloc, text, delimiters)? {
        items.push(Value::Text(text))?;
    }
    Ok(Value::List(Values::new(items)?))
}
