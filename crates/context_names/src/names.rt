ghost use Rattle.std.specs.Prelude.{◌≡◌, ◌<◌, ◌≤◌, length, slice_index, Some, IfOk, IfSome};
ghost use Rattle.std.specs.List.{position};
ghost use Rattle.std.specs.Str.{bytes_eq};
ghost use Rattle.context_names.specs.Names.{names_in};
ghost use Rattle.context_names.specs.declared.limits.TheConstants.{MAX_CONTEXTS};
ghost use Rattle.context_names.specs.Targets.{among, context_of};

use crate::reading::{are_names, words_of};
use crate::targets::named;
use pg_text::Text;
use std::alloc::{AllocError, Global};
use std::marker::Model;

/// The names of contexts: 1 to 16 different ones, each of 1 to 32 lower-case letters and digits.
/// Contracts see them in their order.
#[derive(Drop)]
pub struct ContextNames {
    names: Vec<Text>,
}

impl Model for ContextNames {
    ghost use Rattle.std.specs.Prelude.{◌≡◌, ℕ, List, true};
    ghost use Rattle.context_names.specs.Names.{are_names};

    ghost Value = { List (List ℕ) };

    ghost view = { λ n. n.names.items };

    ghost invariant = { λ n. are_names n.names.items ≡ true };
}

/// The names that a word tells, joined by commas, where it tells such.
pub fn read_names(alloc: Global, word: &str) -> Result<Option<ContextNames>, AllocError>
    ensures { IfOk result (λ names. names ≡ names_in word.now) }
{
    let names = words_of(alloc, word)?;
    if !are_names(&names) {
        return Ok(None);
    }
    Ok(Some(ContextNames { names }))
}

impl ContextNames {
    /// How many there are.
    pub fn len(&self) -> usize
        ensures count { result ≡ length self.now }
        ensures some { 1 ≤ result }
        ensures few { result ≤ MAX_CONTEXTS }
    {
        self.names.len()
    }

    /// The context whose name stands between the first slash of a target and the second, and where
    /// the second stands.
    pub fn context_of(&self, target: &[u8]) -> Option<(usize, usize)>
        ensures context { result ≡ context_of self.now target.now }
        ensures within { IfSome result (λ found. found.0 < length self.now) }
        ensures slash { IfSome result (λ found. (found.1 < length target.now) ×
            (slice_index target.now found.1 ≡ 47)) }
    {
        match named(target) {
            Some((name, cut)) => place_of(&self.names, name, cut),
            None => None,
        }
    }
}

// The place of a name, beside where a target goes on behind it.
fn place_of(names: &[Text], name: &[u8], cut: usize) -> Option<(usize, usize)>
    ensures context { result ≡ among names.now (Some (name.now, cut)) }
    ensures within { IfSome result (λ found. found.0 < length names.now) }
    ensures same { IfSome result (λ found. found.1 ≡ cut) }
{
    match position_of(names, name) {
        Some(place) => Some((place, cut)),
        None => None,
    }
}

// The place of a name.
fn position_of(names: &[Text], name: &[u8]) -> Option<usize>
    ensures place { result ≡ position (λ other. bytes_eq other name.now) names.now }
    ensures within { IfSome result (λ place. place < length names.now) }
{
    names.iter().position(|other| other.as_bytes() == name)
}
