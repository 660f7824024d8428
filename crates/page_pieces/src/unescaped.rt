ghost use Rattle.std.specs.Prelude.{◌≡◌, [], ◌++◌, length, IfOk, OnOk, replicate};
ghost use Rattle.page_pieces.specs.Values.{signs, signs_of, bytes_of};
ghost use Rattle.page_pieces.specs.ReadSigns.{signs_with};

use crate::escape::{escape_at, plain_len};
use std::alloc::{AllocError, Global};
use std::marker::Model;

// A value whose escapes are replaced, and for each of its bytes whether it is shielded: what comes
// of `\$` or `\#` is, so that it opens no expression. Contracts see the list of its signs.
#[derive(Drop)]
pub(crate) struct Unescaped {
    text: String,
    shields: Vec<bool>,
}

impl Model for Unescaped {
    ghost use Rattle.std.specs.Prelude.{◌≡◌, List, length, string_bytes};
    ghost use Rattle.page_pieces.specs.Values.{Sign};
    ghost use Rattle.page_pieces.specs.ReadSigns.{signs_with};

    ghost Value = { List Sign };

    ghost view = { λ u. signs_with (string_bytes u.text) u.shields.items };

    ghost invariant = { λ u. length (string_bytes u.text) ≡ length u.shields.items };
}

impl Unescaped {
    fn new(alloc: Global) -> Self
        ensures { result ≡ [] }
    {
        Unescaped {
            text: String::new(alloc),
            shields: Vec::new(alloc),
        }
    }

    // With a text more, its bytes shielded or not.
    #[tactic(auto, using(crate::proofs::AttributeValues::Signs::signs_more))]
    fn with(self, more: &str, shielded: bool) -> Result<Self, AllocError>
        ensures { IfOk result (λ unescaped. unescaped ≡ self ++ signs shielded more.now) }
    {
        let mut text = self.text;
        let mut shields = self.shields;
        text.push_str(more)?;
        push_times(&mut shields, more.len(), shielded)?;
        Ok(Unescaped { text, shields })
    }

    // The bytes, and for each of them whether it is shielded.
    pub fn signs(&self) -> (&str, &[bool])
        ensures signs { signs_with result.0.now result.1.now ≡ self.now }
        ensures same { length result.0.now ≡ length result.1.now }
    {
        (self.text.as_str(), &self.shields)
    }

    // The signs of a value as it is written.
    pub fn of(alloc: Global, el: bool, value: &str) -> Result<Self, AllocError>
        ensures { IfOk result (λ unescaped. unescaped ≡ signs_of el value.now) }
    {
        let mut unescaped = Unescaped::new(alloc);
        let mut rest = value;
        loop {
            let (plain, behind) = rest.split_at(plain_len(el, rest.as_bytes()));
            unescaped = unescaped.with(plain, false)?;
            let Some(escape) = escape_at(el, behind.as_bytes()) else {
                return Ok(unescaped);
            };
            unescaped = unescaped.with(escape.means, escape.shields)?;
            let (_, more) = behind.split_at(escape.len);
            rest = more;
        }
    }
}

// Adds so many of these flags.
fn push_times(flags: &mut Vec<bool>, times: usize, flag: bool) -> Result<(), AllocError>
    ensures { OnOk result (flags.new.items ≡ flags.old.items ++ replicate times flag) }
{
    for _time in 0..times {
        flags.push(flag)?;
    }
    Ok(())
}
