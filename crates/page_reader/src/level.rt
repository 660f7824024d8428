ghost use Rattle.std.specs.Prelude.{◌≡◌, ◌&&◌, ◌-◌, length, take, IfOk};
ghost use Rattle.std.specs.Str.{bytes_eq};
ghost use Rattle.page_reader.specs.PageText.{open_in, spot_of, is_named, could_end, could_end_in};
ghost use Rattle.page_reader.specs.PageText.{closed_own, closed_level};
ghost use Rattle.page_reader.specs.ReadStack.{own_of, level_of, IsEndOf, EndsIn};
ghost use Rattle.page_reader.specs.Trees.{trees_of};

use crate::node::{Closing, Node};
use crate::tree::{add, element_node};
use page_pieces::{Spot, Tag, could_end};
use pg_text::{Path, Text};
use std::alloc::{AllocError, Global};

// An open element with a body of its own: the nodes before it, its tag and its place, and what
// follows its start.
#[derive(Drop)]
pub(crate) struct Own<'a> {
    pub before: Vec<Node>,
    pub tag: Tag,
    pub spot: Spot,
    pub body: &'a str,
}

// An open element whose head is among the nodes, since no level is left for its body.
#[derive(Drop)]
pub(crate) struct Flat {
    pub prefix: Text,
    pub name: Text,
    pub spot: Spot,
}

// An element that is open.
#[derive(Drop)]
pub(crate) enum Level<'a> {
    Own(Own<'a>),
    Flat(Flat),
}

impl Level<'_> {
    // Whether the element has this name.
    pub fn is_named(&self, prefix: &str, name: &str) -> bool
        ensures { result ≡ is_named (open_in (level_of self.now)) prefix.now name.now }
    {
        match self {
            Level::Own(own) => is_same(&own.tag.prefix, &own.tag.name, prefix, name),
            Level::Flat(flat) => is_same(&flat.prefix, &flat.name, prefix, name),
        }
    }

    // Whether a text would be the end of the element with more bytes behind it.
    pub fn could_end(&self, text: &str) -> bool
        ensures { result ≡ could_end_in (level_of self.now) text.now }
    {
        match self {
            Level::Own(own) => is_begun(text, &own.tag.prefix, &own.tag.name),
            Level::Flat(flat) => is_begun(text, &flat.prefix, &flat.name),
        }
    }

    // Where the element begins.
    pub fn spot(&self) -> Spot
        ensures { result ≡ spot_of (level_of self.now) }
    {
        match self {
            Level::Own(own) => own.spot,
            Level::Flat(flat) => flat.spot,
        }
    }

    // The nodes before the element and the element itself, whose body has these nodes and ends
    // where `rest` begins. Where no level was left they are these nodes, with its head among them.
    pub fn close(
        self,
        alloc: Global,
        file: &Path,
        closing: Closing,
        rest: &str,
        nodes: Vec<Node>,
    ) -> Result<Vec<Node>, AllocError>
        requires { EndsIn rest.now (level_of self) }
        ensures { IfOk result (λ all. trees_of all.items
            ≡ closed_level file.now (level_of self.entry) closing rest.now (trees_of nodes.items)) }
    {
        match self {
            Level::Own(own) => close_own(alloc, file, own, closing, rest, nodes),
            Level::Flat(_) => Ok(nodes),
        }
    }
}

fn is_same(outer_prefix: &Text, outer_name: &Text, prefix: &str, name: &str) -> bool
    ensures { result ≡ (bytes_eq outer_prefix.now prefix.now && bytes_eq outer_name.now name.now) }
{
    outer_prefix.as_str() == prefix && outer_name.as_str() == name
}

// Whether a text could be the end of an element with this name, if more bytes came.
fn is_begun(text: &str, prefix: &Text, name: &Text) -> bool
    ensures { result ≡ could_end prefix.now name.now text.now }
{
    could_end(text, prefix.as_str(), name.as_str())
}

// The part of a text before the rest of it that is left: the source of an element's body.
#[tactic(auto, using(crate::proofs::StackLemmas::end_cut))]
fn source<'a>(body: &'a str, rest: &str) -> &'a str
    requires { IsEndOf rest.now body.now }
    ensures { result.now ≡ take (length body.now - length rest.now) body.now }
{
    body.split_at(body.len() - rest.len()).0
}

// The nodes before an element with a body of its own, and behind them the element with that body.
fn close_own(
    alloc: Global,
    file: &Path,
    own: Own<'_>,
    closing: Closing,
    rest: &str,
    nodes: Vec<Node>,
) -> Result<Vec<Node>, AllocError>
    requires { IsEndOf rest.now own.body.now }
    ensures { IfOk result (λ all. trees_of all.items
        ≡ closed_own file.now (own_of own.entry) closing rest.now (trees_of nodes.items)) }
{
    let source = Text::copy_of(alloc, source(own.body, rest))?;
    let place = own.spot.place(file)?;
    let mut before = own.before;
    add(
        &mut before,
        element_node(own.tag, closing, nodes, source, place),
    )?;
    Ok(before)
}
