// The nodes of a page.
use crate::settings::add_attribute;
use page_reader::{Closing, Element, Node, PageTree, Place};
use std::alloc::{AllocError, Global};

pub fn show_place(out: &mut String, place: &Place) -> Result<(), AllocError> {
    let (line, column) = (place.line, place.column);
    write!(out, "{line}:{column}")
}

// Nodes, each behind its line and column: 'text', ${expression}, a comment as --, @directive and
// <element> with its body in brackets, which stay open where its end was not read, and are left out
// where there is then no body.
#[cycle(show)]
fn show(out: &mut String, node: &Node) -> Result<(), AllocError> {
    match node {
        Node::Text { text, place } => {
            show_place(out, place)?;
            write!(out, "'{}'", text.as_str())
        }
        Node::Comment { place } => {
            show_place(out, place)?;
            out.push_str("--")
        }
        Node::Expr { text, place } => {
            show_place(out, place)?;
            write!(out, "${{{}}}", text.as_str())
        }
        Node::Hash { place } => {
            show_place(out, place)?;
            out.push_str("#{")
        }
        Node::Directive {
            name,
            attributes,
            place,
        } => {
            show_place(out, place)?;
            write!(out, "@{}", name.as_str())?;
            for attribute in attributes.as_slice() {
                add_attribute(out, attribute)?;
            }
            Ok(())
        }
        Node::Element(element) => show_element(out, element),
    }
}

#[cycle(show)]
fn show_element(out: &mut String, element: &Element) -> Result<(), AllocError> {
    show_place(out, &element.place)?;
    write!(
        out,
        "<{}:{}",
        element.prefix.as_str(),
        element.name.as_str()
    )?;
    for attribute in element.attributes.as_slice() {
        add_attribute(out, attribute)?;
    }
    match element.closing {
        Closing::Empty => out.push_str("/>"),
        Closing::Ended => {
            out.push_str(">[")?;
            show_all(out, &element.body)?;
            write!(out, "]{}", element.source.as_str())
        }
        Closing::Open if element.body.is_empty() => out.push_str(">"),
        Closing::Open => {
            out.push_str(">[")?;
            show_all(out, &element.body)
        }
    }
}

#[cycle(show)]
fn show_all(out: &mut String, nodes: &Vec<Node>) -> Result<(), AllocError> {
    for node in nodes {
        out.push(' ')?;
        show(out, node)?;
    }
    Ok(())
}

/// A page on a line: its nodes, and behind them the number and the place of the fault that broke
/// the reading off.
pub fn shown(alloc: Global, tree: &PageTree) -> Result<String, AllocError> {
    let mut out = String::new(alloc);
    show_all(&mut out, &tree.nodes)?;
    if let Some(fault) = &tree.stop {
        let number = fault.fault.number();
        write!(out, " E{number} ")?;
        show_place(&mut out, &fault.place)?;
    }
    Ok(out)
}
