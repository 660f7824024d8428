ghost use Rattle.std.specs.Prelude.{◌≡◌, ◌+◌, ℕ, List, Some, IfOk, IsSome, OnErr};
ghost use Rattle.source_tree.specs.declared.file.File.{File};
ghost use Rattle.source_tree.specs.Limits.{IsWithinLimits};
ghost use Rattle.source_tree.specs.Stamps.{stamp_of};
ghost use Rattle.unit_source.specs.Files.{text_in};
ghost use Rattle.unit_source.specs.Placed.{root_view};
ghost use Rattle.unit_nodes.specs.Views.{body_view};
ghost use Rattle.unit_words.specs.Needs.{bytes_in, bytes_of, needs_of};
ghost use Rattle.unit_words.specs.Unit.{is_xml, unit_of, unit_read, xml_unit};
ghost use Rattle.unit_words.specs.Views.{unit_view};
ghost use Rattle.unit_build.specs.ReadWalk.{IsPageMet};

use crate::found::Found;
use crate::page::page_of;
use crate::site::Site;
use crate::walk::read_page;
use edges::{Ledger, Steps};
use pg_text::{Listed, Names, PageFault, Path, Place, TranslationFault};
use source_tree::{Need, Stamps, Tree};
use std::alloc::{AllocError, Global};
use unit_nodes::{Unit, UnitBody};
use unit_source::Root;

const XML: &[u8] = b".jspx";

/// The unit of the page at a path. `steps` counts the bytes of the dependencies that are there,
/// each once.
#[tactic(auto, using(crate::proofs::BuildingLemmas::names_needed))]
pub fn build<L: Ledger>(
    alloc: Global,
    tree: &Tree,
    path: &Path,
    steps: &mut Steps<L>,
) -> Result<Unit, AllocError>
    requires limits { IsWithinLimits tree.now }
    requires stands { IsSome (text_in tree.now path.now) }
    ensures unit { IfOk result (λ unit. (text : List ℕ) → text_in tree.now path.now ≡ Some text →
        unit_view unit ≡ unit_of (text_in tree.now) path.now text) }
    ensures needs { IfOk result (λ unit. unit.deps ≡ needs_of tree.now (unit_view unit).deps) }
    ensures steps { IfOk result (λ unit. steps.new ≡ steps.old + bytes_of (text_in tree.now) (unit_view unit).deps) }
    ensures untouched { OnErr result (steps.new ≡ steps.old) }
{
    let (names, body) = read_unit(alloc, tree, path)?;
    let deps = stamps(alloc, tree, names.as_slice())?;
    count_bytes(tree, names.as_slice(), steps);
    Ok(Unit { deps, body })
}

// The names on which the page at a path depends, and the page or its fault.
fn read_unit(alloc: Global, tree: &Tree, path: &Path) -> Result<(Names, UnitBody), AllocError>
    requires limits { IsWithinLimits tree.now }
    requires stands { IsSome (text_in tree.now path.now) }
    ensures { (text : List ℕ) → text_in tree.now path.now ≡ Some text
        → IfOk result (λ read. unit_of (text_in tree.now) path.now text
        ≡ record { deps = read.0; body = body_view read.1 }) }
{
    if is_xml(path) {
        return xml_unit(alloc, path);
    }
    let mut site = Site::new(alloc, tree);
    let Some(root) = site.root(path, false)? else {
        unreachable!();
    };
    let found = read_page(alloc, site, &root)?;
    read_body(alloc, &root, found)
}

// What was found in a page, as its dependencies and its page or fault.
fn read_body(alloc: Global, root: &Root, found: Found) -> Result<(Names, UnitBody), AllocError>
    ensures { (files : List File) → IsPageMet files (root_view root.now) found.entry
        → IfOk result (λ read. unit_read (text_in files) (root_view root.now)
        ≡ record { deps = read.0; body = body_view read.1 }) }
{
    let names = found.names.copy()?;
    if let Some(fault) = &found.fault {
        return Ok((names, UnitBody::Bad(fault.copy()?)));
    }
    Ok((names, UnitBody::Good(page_of(alloc, root, found)?)))
}

// Whether a page is in XML syntax.
fn is_xml(path: &Path) -> bool
    ensures { result ≡ is_xml path.now }
{
    path.as_bytes().ends_with(XML)
}

// The unit of a page in XML syntax, which isn't read.
fn xml_unit(alloc: Global, path: &Path) -> Result<(Names, UnitBody), AllocError>
    ensures { IfOk result (λ read. xml_unit path.now ≡ record { deps = read.0; body = body_view read.1 }) }
{
    let mut names = Names::empty(alloc);
    names.insert(path.copy()?)?;
    let place = Place {
        file: path.copy()?,
        byte: 0,
        line: 1,
        column: 1,
    };
    Ok((
        names,
        UnitBody::Bad(PageFault {
            fault: TranslationFault::XmlSyntax,
            place,
        }),
    ))
}

// Names with their stamps in a tree.
fn stamps(alloc: Global, tree: &Tree, names: &[Path]) -> Result<Stamps, AllocError>
    ensures { IfOk result (λ stamps. stamps ≡ needs_of tree.now names.now) }
{
    let mut stamps = Listed::empty(alloc);
    for name in names {
        stamps.push(Need {
            name: name.copy()?,
            stamp: stamp_of(tree, name),
        })?;
    }
    Ok(stamps)
}

// The stamp of a name, where a file has it.
fn stamp_of(tree: &Tree, name: &Path) -> Option<u64>
    ensures { result ≡ stamp_of name.now tree.now }
{
    match tree.get(name) {
        Some(file) => Some(file.stamp),
        None => None,
    }
}

// Counts the bytes of the files that are there.
fn count_bytes<L: Ledger>(tree: &Tree, names: &[Path], steps: &mut Steps<L>)
    ensures { steps.new ≡ steps.old + bytes_of (text_in tree.now) names.now }
{
    for name in names {
        steps.tick(bytes_in(tree, name));
    }
}

// The bytes of the file of a name, where it is there.
fn bytes_in(tree: &Tree, name: &Path) -> u64
    ensures { result ≡ bytes_in (text_in tree.now name.now) }
{
    match tree.get(name) {
        Some(file) => file.text.len() as u64,
        None => 0,
    }
}
