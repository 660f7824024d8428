ghost use Rattle.std.specs.Prelude.{◌≡◌, ◌<◌, ◌≤◌, ◌+◌, length, IfOk};
ghost use Rattle.page_pieces.specs.ReadSpelled.{seen, written, quoted_as};
ghost use Rattle.page_pieces.specs.Names.{white_len, white_front, behind_white};
ghost use Rattle.pg_text.specs.Literals.{is_quote};
ghost use Rattle.page_pieces.specs.Tags.{attribute_bytes};
ghost use Rattle.page_pieces.specs.ReadHead.{attribute_name_at, quoted_at, attribute_behind};
ghost use Rattle.page_pieces.specs.ReadHead.{attribute_at};

use crate::head::Misread;
use crate::misread::{behind_mark, misread, name_read};
use crate::names::white_len;
use crate::quote::around_quote;
use crate::texts::after;

// A value between quotes, and what follows it.
#[derive(Clone, Copy)]
pub(crate) struct Quoted<'a> {
    pub quote: u8,
    pub value: &'a str,
    pub rest: &'a str,
}

// An attribute as it is written, and what follows it.
#[derive(Clone, Copy)]
pub(crate) struct Spelled<'a> {
    pub gap: &'a str,
    pub name: &'a str,
    pub before_sign: &'a str,
    pub after_sign: &'a str,
    pub quote: u8,
    pub value: &'a str,
    pub rest: &'a str,
}

// The white space at the front of a text, and what follows it.
fn around_white(text: &str) -> (&str, &str)
    ensures front { result.0.now ≡ white_front text.now }
    ensures behind { result.1.now ≡ behind_white text.now }
    ensures within { length result.0.now + length result.1.now ≡ length text.now }
{
    text.split_at(white_len(text))
}

// The name of an attribute, which may have a prefix, and what follows it.
#[tactic(auto, unfolding(crate::specs::ReadHead::attribute_name_at))]
fn attribute_name_at(text: &str) -> Result<(&str, &str), Misread>
    ensures value { seen (λ x. (x.0.now, x.1.now)) result ≡ attribute_name_at text.now }
    ensures within { IfOk result (λ x. length x.1.now < length text.now) }
{
    let (first, rest) = name_read(text)?;
    let Some(local) = after(":", rest) else {
        return Ok((first, rest));
    };
    let (local, rest) = name_read(local)?;
    let (name, _) = text.split_at(first.len() + 1 + local.len());
    Ok((name, rest))
}

fn is_quote(b: u8) -> bool
    ensures { result ≡ is_quote b }
{
    b == b'"' || b == b'\''
}

// The value between quotes that has to stand at the front of a text.
#[tactic(auto, unfolding(crate::specs::ReadHead::quoted_at))]
fn quoted_at(text: &str) -> Result<Quoted<'_>, Misread>
    ensures value { seen quoted_as result ≡ quoted_at text.now }
    ensures within { IfOk result (λ found. length found.rest.now < length text.now) }
{
    let Some(quote) = text.as_bytes().first() else {
        return Err(Misread::CutOff);
    };
    if !is_quote(*quote) {
        return Err(Misread::Malformed);
    }
    let (_, behind) = text.split_at(1);
    match around_quote(*quote, behind) {
        Some((value, rest)) => Ok(Quoted {
            quote: *quote,
            value,
            rest,
        }),
        None => Err(Misread::CutOff),
    }
}

// An attribute whose name begins a text, with the white space before it.
#[tactic(auto, unfolding(crate::specs::ReadHead::attribute_behind))]
fn attribute_behind<'a>(gap: &'a str, text: &'a str) -> Result<Spelled<'a>, Misread>
    ensures value { seen written result ≡ attribute_behind gap.now text.now }
    ensures within { IfOk result (λ a. length a.rest.now < length text.now) }
{
    let (name, rest) = attribute_name_at(text)?;
    let (before_sign, rest) = around_white(rest);
    let rest = behind_mark("=", rest)?;
    let (after_sign, rest) = around_white(rest);
    let found = quoted_at(rest)?;
    Ok(Spelled {
        gap,
        name,
        before_sign,
        after_sign,
        quote: found.quote,
        value: found.value,
        rest: found.rest,
    })
}

// The attribute at the front of a text.
#[tactic(auto, unfolding(crate::specs::ReadHead::attribute_at))]
pub(crate) fn attribute_at(text: &str) -> Result<Spelled<'_>, Misread>
    ensures value { seen written result ≡ attribute_at text.now }
    ensures within { IfOk result (λ a. length a.rest.now < length text.now) }
{
    let (gap, behind) = around_white(text);
    if gap.is_empty() {
        return Err(misread(text));
    }
    attribute_behind(gap, behind)
}
