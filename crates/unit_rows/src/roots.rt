// The root of a page: its nodes in place, and the names on which it depends.
use page_pieces::Leaf;
use pg_text::Path;
use source_tree::Tree;
use std::alloc::{AllocError, Global};
use unit_source::{Entry, PlacedNode, Root, UnitFiles};

/// The nodes of the root at a path where a file stands.
pub fn root_told(alloc: Global, tree: &Tree, path: &Path) -> Result<String, AllocError> {
    match tree.fault() {
        Some(_) => String::from_str(alloc, "the tree is too large"),
        None => {
            let mut files = UnitFiles::new(alloc, tree);
            match files.read_root(path, false)? {
                Some(root) => shown(alloc, &root),
                None => String::from_str(alloc, "no file stands there"),
            }
        }
    }
}

// The nodes of a root, and the names on which it depends.
fn shown(alloc: Global, root: &Root) -> Result<String, AllocError> {
    let mut out = String::new(alloc);
    show_nodes(alloc, &root.nodes, &mut out)?;
    for name in root.names.as_slice() {
        out.push_str(name.as_str())?;
        out.push_str(" ")?;
    }
    Ok(out)
}

// A leaf.
fn show_leaf(kind: &Leaf, out: &mut String) -> Result<(), AllocError> {
    match kind {
        Leaf::Text(text) => {
            out.push_str("'")?;
            out.push_str(text.as_str())?;
            out.push_str("'")
        }
        Leaf::Comment => out.push_str("--"),
        Leaf::Expr(text) => {
            out.push_str("$")?;
            out.push_str(text.as_str())
        }
        Leaf::Hash => out.push_str("#"),
        Leaf::Directive(name, _) => {
            out.push_str("@")?;
            out.push_str(name.as_str())
        }
    }
}

// What an include directive came to.
fn show_entry(alloc: Global, entry: Entry, out: &mut String) -> Result<(), AllocError> {
    match entry {
        Entry::Unnamed => out.push_str("unnamed"),
        Entry::Absent => out.push_str("absent"),
        Entry::Cycle => out.push_str("cycle"),
        Entry::Unread(_) => out.push_str("unread"),
        Entry::Entered(bytes) => {
            let bytes = format!(in alloc; "{bytes}")?;
            out.push_str(bytes.as_str())
        }
    }
}

// Nodes in place, each with a space behind it.
#[cycle(show)]
fn show_nodes(alloc: Global, nodes: &[PlacedNode], out: &mut String) -> Result<(), AllocError> {
    for node in nodes {
        show_node(alloc, node, out)?;
        out.push_str(" ")?;
    }
    Ok(())
}

#[cycle(show)]
fn show_node(alloc: Global, node: &PlacedNode, out: &mut String) -> Result<(), AllocError> {
    match node {
        PlacedNode::Leaf(kind, _) => show_leaf(kind, out),
        PlacedNode::Broken(fault) => out.push_str(fault.fault.name()),
        PlacedNode::Element(element) => {
            out.push_str(element.head.name.as_str())?;
            out.push_str("( ")?;
            show_nodes(alloc, &element.body, out)?;
            out.push_str(")")
        }
        PlacedNode::Included(include) => {
            show_entry(alloc, include.entry, out)?;
            out.push_str("{ ")?;
            show_nodes(alloc, &include.body, out)?;
            out.push_str("}")
        }
    }
}
