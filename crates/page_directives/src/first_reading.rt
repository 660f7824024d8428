ghost use Rattle.std.specs.Prelude.{◌≡◌, ◌∷◌, ◌++◌, ◌&&◌, [], List, codes};
ghost use Rattle.std.specs.Option.{option_map};
ghost use Rattle.page_directives.specs.Directive.{Directive as Seen};
ghost use Rattle.page_directives.specs.ReadKnown.{IsTurn};
ghost use Rattle.page_directives.specs.Settings.{decided_by, is_value, unbuffers};

use crate::directive::Directive;
use crate::giving::{decided_by_one, is_value};
use crate::tables::{giver, giver_table};
use std::marker::Model;

/// The directives of the first reading of a page or a tag file, in order. Contracts see the list of
/// them.
#[derive(Drop)]
pub struct FirstReading<'a> {
    directives: Vec<Directive<'a>>,
    // Behind how many of the directives those with the name `page` have decided that there is
    // neither a buffer nor flushing, and the same of `tag`.
    page_turn: usize,
    tag_turn: usize,
}

impl<'a> Model for FirstReading<'a> {
    ghost use Rattle.std.specs.Prelude.{List, true, false};
    ghost use Rattle.page_directives.specs.Directive.{Directive as Seen};
    ghost use Rattle.page_directives.specs.ReadKnown.{IsTurn};

    ghost Value = { List Seen };

    ghost view = { λ f. f.directives.items };

    ghost invariant = { λ f. IsTurn false f.directives.items f.page_turn
        × IsTurn true f.directives.items f.tag_turn };
}

impl<'a> FirstReading<'a> {
    /// The first reading with these directives. Where they decide that there is neither a buffer
    /// nor flushing is found here, once.
    pub fn new(directives: Vec<Directive<'a>>) -> Self
        ensures { result ≡ directives.entry.items }
    {
        FirstReading {
            page_turn: turn_of(false, &directives),
            tag_turn: turn_of(true, &directives),
            directives,
        }
    }

    // Behind how many directives it is decided that there is neither a buffer nor flushing.
    fn turn(&self, in_tag: bool) -> usize
        ensures { IsTurn in_tag self.now result }
    {
        if in_tag {
            self.tag_turn
        } else {
            self.page_turn
        }
    }

    // Whether with this directive the first reading has decided that there is neither a buffer nor
    // flushing, and before it hadn't.
    pub(crate) fn unbuffers(&self, in_tag: bool, directive: &Directive) -> bool
        ensures { result ≡ unbuffers in_tag self.now directive.now }
    {
        unbuffers_at(in_tag, self.turn(in_tag), &self.directives, directive)
    }
}

// The same, where the directives have decided so behind `turn` of them.
#[tactic(auto, using(crate::proofs::FirstLemmas::never, crate::proofs::FirstLemmas::away, crate::proofs::FirstLemmas::unbuffers_is))]
fn unbuffers_at(in_tag: bool, turn: usize, first: &[Directive], directive: &Directive) -> bool
    requires { IsTurn in_tag first.now turn }
    ensures { result ≡ unbuffers in_tag first.now directive.now }
{
    if turn == first.len() {
        return false;
    }
    if !directive.is_at_same(&first[turn]) {
        return false;
    }
    directive.before_in(first) == turn
}

// What a directive decides of an attribute, where it gives settings.
fn decided_here<'a>(in_tag: bool, directive: &Directive<'a>, name: &str) -> Option<&'a str>
    ensures { option_map (λ text. text.now) result ≡ decided_by in_tag (directive.now ∷ []) name.now }
{
    decided_by_one(giver_table(in_tag), giver(in_tag), directive, name)
}

// What directives decide of an attribute with one more behind them.
fn decided_with<'a>(
    in_tag: bool,
    decided: Option<&'a str>,
    directive: &Directive<'a>,
    name: &str,
) -> Option<&'a str>
    ensures { (before : List Seen) → option_map (λ text. text.now) decided.entry
        ≡ decided_by in_tag before name.now
        → option_map (λ text. text.now) result ≡ decided_by in_tag (before ++ directive.now ∷ []) name.now }
{
    match decided {
        Some(text) => Some(text),
        None => decided_here(in_tag, directive, name),
    }
}

// Whether there is neither a buffer nor flushing.
fn lacks_both(buffer: Option<&str>, auto_flush: Option<&str>) -> bool
    ensures { result ≡ (is_value (codes "none") (option_map (λ text. text.now) buffer.entry) && is_value
        (codes "false") (option_map (λ text. text.now) auto_flush.entry)) }
{
    is_value("none", buffer) && is_value("false", auto_flush)
}

// Behind how many of these directives they have decided that there is neither a buffer nor
// flushing: behind all where they don't.
fn turn_of(in_tag: bool, directives: &[Directive]) -> usize
    ensures { IsTurn in_tag directives.now result }
{
    let mut buffer = None;
    let mut auto_flush = None;
    for (i, directive) in directives.iter().enumerate() {
        buffer = decided_with(in_tag, buffer, directive, "buffer");
        auto_flush = decided_with(in_tag, auto_flush, directive, "autoFlush");
        if lacks_both(buffer, auto_flush) {
            return i;
        }
    }
    directives.len()
}
