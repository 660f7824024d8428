ghost use Rattle.std.specs.Prelude.{◌≡◌, ◌∷◌, [], true, Some, map, IfOk, OnOk};
ghost use Rattle.unit_source.specs.Files.{text_in};
ghost use Rattle.unit_source.specs.Placed.{in_place};
ghost use Rattle.unit_source.specs.ReadSplice.{behind_file, behind_inner, found_of, reads, spliced_in};
ghost use Rattle.unit_source.specs.ReadSplice.{step_of, taken_of};
ghost use Rattle.unit_source.specs.ReadSteps.{both_taken, filled, found_in, taken};
ghost use Rattle.unit_source.specs.Splice.{nodes_read, room_read, target_read, text_read};

use crate::chain::{Chain, included_path};
use crate::files::UnitFiles;
use crate::fill::fill_file;
use crate::found::{FoundNodes, push_found};
use crate::progress::{MAX_NESTING, Progress};
use crate::second::read_alone;
use crate::source_file::SourceFile;
use crate::steps::{Step, add_steps};
use crate::within::Within;
use crate::{Entry, PlacedNode, WrittenDirective};
use page_pieces::Brought;
use pg_text::Path;
use std::alloc::AllocError;
use std::collections::VecDeque;

// A file that is read: within what its includes are read, and what its include directives bring.
#[derive(Clone, Copy)]
pub(crate) struct InFile<'f> {
    within: Within<'f>,
    brought: &'f Brought,
}

// Reads a file with its includes in place, within others and so many open elements.
#[cycle(splicing)]
#[tactic(auto, using(crate::proofs::SpliceLemmas::file_end_nodes, crate::proofs::SpliceLemmas::file_end_gone))]
pub(crate) fn read_file(
    files: &mut UnitFiles,
    within: Within,
    around: usize,
    source: &SourceFile,
    progress: &mut Progress,
) -> Result<Vec<PlacedNode>, AllocError>
    ensures nodes { IfOk result (λ nodes. in_place nodes.items
        ≡ (spliced_in (text_in files.old) within.entry around source.now.path source.now.text
        progress.old.going).nodes) }
    ensures progress { OnOk result (progress.new
        ≡ behind_file progress.old (spliced_in (text_in files.old) within.entry around source.now.path
        source.now.text progress.old.going)) }
    ensures files { files.new ≡ files.old }
{
    let alloc = files.alloc();
    if within.deep == 0 {
        return Ok(Vec::new(alloc));
    }
    let longer = Chain::entered(source.path(), &*within.chain);
    let alone = read_alone(files, within.settings, &longer, source, progress)?;
    let file = InFile {
        within: Within {
            settings: &*within.settings,
            chain: &longer,
            deep: within.deep - 1,
        },
        brought: &alone.brought,
    };
    let found = find_nodes(files, &file, around, &alone.nodes, progress);
    fill_file(alloc, alone, found)
}

// What the include directives among the nodes of a file come to, in reading order.
#[cycle(splicing)]
fn find_nodes(
    files: &mut UnitFiles,
    file: &InFile,
    around: usize,
    nodes: &[PlacedNode],
    progress: &mut Progress,
) -> Result<VecDeque<FoundNodes>, AllocError>
    ensures found { IfOk result (λ found. (filled (in_place nodes.now) (map found_of found.items)).nodes
        ≡ (nodes_read (reads (text_in files.old) file.now) file.now.brought.now around (in_place nodes.now)
        progress.old.going).nodes) }
    ensures progress { OnOk result (progress.new
        ≡ behind_file progress.old (nodes_read (reads (text_in files.old) file.now) file.now.brought.now around
        (in_place nodes.now) progress.old.going)) }
    ensures files { files.new ≡ files.old }
{
    let alloc = files.alloc();
    let mut steps = Vec::new(alloc);
    add_steps(alloc, nodes, around, &mut steps)?;
    let mut found = VecDeque::new(alloc);
    take_steps(files, file, &steps, progress, &mut found)?;
    Ok(found)
}

// Takes steps of a file.
#[cycle(splicing)]
fn take_steps(
    files: &mut UnitFiles,
    file: &InFile,
    steps: &[Step],
    progress: &mut Progress,
    found: &mut VecDeque<FoundNodes>,
) -> Result<(), AllocError>
    ensures taken { OnOk result (taken_of found.new.items progress.new
        ≡ both_taken (taken_of found.old.items progress.old)
        (taken (reads (text_in files.old) file.now) file.now.brought.now (map step_of steps.now)
        progress.old.going)) }
    ensures files { files.new ≡ files.old }
{
    for step in steps {
        take_step(files, file, step, progress, found)?;
    }
    Ok(())
}

// Takes one step. What an include directive comes to goes to the back of `found`, and the prefixes
// that it brings to this file are registered.
#[cycle(splicing)]
#[tactic(auto, using(crate::proofs::StepLemmas::registers_taken, crate::proofs::StepLemmas::includes_taken))]
fn take_step(
    files: &mut UnitFiles,
    file: &InFile,
    step: &Step,
    progress: &mut Progress,
    found: &mut VecDeque<FoundNodes>,
) -> Result<(), AllocError>
    ensures taken { OnOk result (taken_of found.new.items progress.new
        ≡ both_taken (taken_of found.old.items progress.old)
        (taken (reads (text_in files.old) file.now) file.now.brought.now (step_of step.now ∷ [])
        progress.old.going)) }
    ensures files { files.new ≡ files.old }
{
    match step {
        Step::Registers(prefixes) => progress.register(prefixes.as_slice()),
        Step::Includes(around, directive) => {
            let inner = enter(files, file, *around, directive, progress)?;
            push_found(found, inner)?;
            progress.register_brought(file.brought, directive.place().byte)
        }
    }
}

// What an include directive comes to within so many open elements.
#[cycle(splicing)]
fn enter(
    files: &mut UnitFiles,
    file: &InFile,
    around: usize,
    directive: &WrittenDirective,
    progress: &mut Progress,
) -> Result<FoundNodes, AllocError>
    ensures found { IfOk result (λ found. found_of found
        ≡ found_in (reads (text_in files.old) file.now around directive.now progress.old.going)) }
    ensures progress { OnOk result (progress.new
        ≡ behind_inner progress.old (reads (text_in files.old) file.now around directive.now progress.old.going)) }
    ensures files { files.new ≡ files.old }
{
    let alloc = files.alloc();
    if directive.attributes().plain("file").is_none() {
        return Ok(FoundNodes::nothing(alloc, Entry::Unnamed));
    }
    match included_path(alloc, directive)? {
        Some(path) => enter_path(files, file, around, &path, progress),
        None => Ok(FoundNodes::nothing(alloc, Entry::Absent)),
    }
}

// The same of an include directive that names this path.
#[cycle(splicing)]
fn enter_path(
    files: &mut UnitFiles,
    file: &InFile,
    around: usize,
    path: &Path,
    progress: &mut Progress,
) -> Result<FoundNodes, AllocError>
    ensures found { IfOk result (λ found. found_of found
        ≡ found_in (target_read (spliced_in (text_in files.old) file.now.within) (text_in files.old)
        file.now.within.chain.now around true (Some path.now) progress.old.going)) }
    ensures progress { OnOk result (progress.new
        ≡ behind_inner progress.old (target_read (spliced_in (text_in files.old) file.now.within)
        (text_in files.old) file.now.within.chain.now around true (Some path.now) progress.old.going)) }
    ensures files { files.new ≡ files.old }
{
    let alloc = files.alloc();
    if file.within.chain.contains(path) {
        progress.push_name(path)?;
        return Ok(FoundNodes::nothing(alloc, Entry::Cycle));
    }
    match files.file(path)? {
        Some(source) => enter_source(files, file, around, &source, progress),
        None => {
            progress.push_name(path)?;
            Ok(FoundNodes::nothing(alloc, Entry::Absent))
        }
    }
}

// The same of an include directive that names this file, which isn't being read.
#[cycle(splicing)]
fn enter_source(
    files: &mut UnitFiles,
    file: &InFile,
    around: usize,
    source: &SourceFile,
    progress: &mut Progress,
) -> Result<FoundNodes, AllocError>
    ensures found { IfOk result (λ found. found_of found
        ≡ found_in (text_read (spliced_in (text_in files.old) file.now.within) around source.now.path
        (Some source.now.text) progress.old.going)) }
    ensures progress { OnOk result (progress.new
        ≡ behind_inner progress.old (text_read (spliced_in (text_in files.old) file.now.within) around
        source.now.path (Some source.now.text) progress.old.going)) }
    ensures files { files.new ≡ files.old }
{
    if around > MAX_NESTING {
        progress.push_name(source.path())?;
        return Ok(FoundNodes::nothing(files.alloc(), Entry::Unread(source.text().len())));
    }
    enter_within(files, file, around, source, progress)
}

// The same where no more elements are open around the directive than may be.
#[cycle(splicing)]
fn enter_within(
    files: &mut UnitFiles,
    file: &InFile,
    around: usize,
    source: &SourceFile,
    progress: &mut Progress,
) -> Result<FoundNodes, AllocError>
    ensures found { IfOk result (λ found. found_of found
        ≡ found_in (room_read (spliced_in (text_in files.old) file.now.within) around source.now.path
        source.now.text progress.old.going)) }
    ensures progress { OnOk result (progress.new
        ≡ behind_inner progress.old (room_read (spliced_in (text_in files.old) file.now.within) around
        source.now.path source.now.text progress.old.going)) }
    ensures files { files.new ≡ files.old }
{
    let bytes = source.text().len();
    progress.push_name(source.path())?;
    if !progress.has_room(bytes) {
        progress.fill();
        return Ok(FoundNodes::nothing(files.alloc(), Entry::Unread(bytes)));
    }
    progress.count_file(bytes);
    let prefixes = progress.shared_prefixes()?;
    let nodes = read_file(files, file.within, around, source, progress);
    progress.set_prefixes(prefixes);
    Ok(FoundNodes {
        entry: Entry::Entered(bytes),
        nodes: nodes?,
    })
}
