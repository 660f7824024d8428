ghost use Rattle.std.specs.Prelude.{◌≡◌, ◌≤◌, ◌++◌, length, IfOk, OnOk};
ghost use Rattle.page_reader.specs.PageText.{page_text};
ghost use Rattle.page_reader.specs.Trees.{page_of, tree_of, trees_of};
ghost use Rattle.page_pieces.specs.Settings.{first_setting};
ghost use Rattle.unit_source.specs.First.{directives_in, own_directives};

use crate::WrittenDirective;
use page_reader::{Node, PageTree, one_page, read_page};
use pg_text::{Listed, Path};
use source_tree::MAX_FILE_BYTES;
use std::alloc::{AllocError, Global};

// The page of a first reading.
fn first_page(alloc: Global, path: &Path, text: &str) -> Result<PageTree, AllocError>
    requires { length text.now ≤ MAX_FILE_BYTES }
    ensures { IfOk result (λ tree. page_of tree ≡ page_text first_setting path.now text.now) }
{
    one_page();
    read_page(alloc, path, text)
}

// The directives of a file by itself.
#[tactic(auto, unfolding(crate::specs::First::own_directives))]
pub(crate) fn read_own(
    alloc: Global,
    path: &Path,
    text: &str,
) -> Result<Listed<WrittenDirective>, AllocError>
    requires { length text.now ≤ MAX_FILE_BYTES }
    ensures { IfOk result (λ own. own ≡ own_directives path.now text.now) }
{
    let tree = first_page(alloc, path, text)?;
    let mut own = Listed::empty(alloc);
    add_directives(alloc, tree.nodes, &mut own)?;
    Ok(own)
}

// Adds the directives of nodes, in order.
#[cycle(own)]
#[tactic(auto, using(crate::proofs::OwnLemmas::one_node))]
fn add_directives(
    alloc: Global,
    nodes: Vec<Node>,
    found: &mut Listed<WrittenDirective>,
) -> Result<(), AllocError>
    ensures { OnOk result (found.new ≡ found.old ++ directives_in (trees_of nodes.items)) }
{
    for node in nodes {
        add_node_directives(alloc, node, found)?;
    }
    Ok(())
}

// The same of one node: a directive, or an element by its body.
#[cycle(own)]
#[tactic(auto, using(crate::proofs::OwnLemmas::element_directives))]
fn add_node_directives(
    alloc: Global,
    node: Node,
    found: &mut Listed<WrittenDirective>,
) -> Result<(), AllocError>
    ensures { OnOk result (found.new ≡ found.old ++ directives_in (tree_of node)) }
{
    match node {
        Node::Directive {
            name,
            attributes,
            place,
        } => found.push(WrittenDirective::new(alloc, name, attributes, place)?),
        Node::Element(element) => add_directives(alloc, element.body, found),
        _ => Ok(()),
    }
}
