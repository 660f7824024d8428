ghost use Rattle.std.specs.Prelude.{◌≡◌, ◌≢◌, ◌≤◌, ◌+◌, ◌++◌, ℕ, List, Some, None, codes, map};
ghost use Rattle.std.specs.Prelude.{string_bytes, IfOk, OnOk};
ghost use Rattle.std.specs.Option.{option_map};
ghost use Rattle.edges.specs.Faults.{Rose};
ghost use Rattle.fault_line.specs.FaultLine.{page_fault_line};
ghost use Rattle.pages_check.specs.Check.{Tells, check_steps, exit_status, report, verdict};
ghost use Rattle.pages_check.specs.Page.{page_fault};
ghost use Rattle.pages_check.specs.Words.{path_asked, path_word};

use crate::checked::Checked;
use crate::page::page_fault;
use edges::{Ledger, Sink, Source, Steps};
use fault_line::page_fault_line;
use http_out::write;
use pg_text::{Failure, PageFault, Path, resolve};
use source_tree::MAX_FILE_BYTES;
use std::alloc::{AllocError, Global};
use whole_input::read_up_to;

/// Reads a page from the source, and writes `ok` or the line of its fault to the sink, with a line
/// feed. The words are `check` and the page's path, which is resolved in the root folder; the page
/// is the only file of its site. The answer is the program's status: 0 for a good page, 6 for a
/// fault, 1 for other words, 3 and 4 where reading or writing failed, and 5 where memory ran out.
pub fn check<S: Source, K: Sink, L: Ledger>(
    alloc: Global,
    words: &[String],
    source: &mut S,
    sink: &mut K,
    steps: &mut Steps<L>,
) -> u8
    ensures told { (path : List ℕ) → path_asked (map string_bytes words.now) ≡ Some path →
        (ended : Checked) × (result ≡ exit_status ended)
        × Tells path (S.left source.old) (S.left source.new) (K.taken sink.old) (K.taken sink.new)
        steps.old steps.new ended }
    ensures words { path_asked (map string_bytes words.now) ≡ None → result ≢ 5 → result ≡ 1 }
    ensures only_words { result ≡ 1 → path_asked (map string_bytes words.now) ≡ None }
    ensures silent { path_asked (map string_bytes words.now) ≡ None →
        (source.new ≡ source.old) × (sink.new ≡ sink.old) × (steps.new ≡ steps.old) }

    ensures read { result ≡ 3 → Rose (S.faults source.old) (S.faults source.new) }
    ensures write { result ≡ 4 → Rose (K.faults sink.old) (K.faults sink.new) }
    ensures unfailing { S.unfailing source.old → (result ≢ 3) × S.unfailing source.new }
{
    let path = match path_asked(alloc, words) {
        Ok(Some(path)) => path,
        Ok(None) => return 1,
        Err(AllocError) => return 5,
    };
    match check_page(alloc, &path, source, sink, steps) {
        Checked::Good => 0,
        Checked::Bad => 6,
        Checked::ReadFault => 3,
        Checked::WriteFault => 4,
        Checked::NoMemory => 5,
    }
}

// The path that the words ask for, where they are those of this command.
fn path_asked(alloc: Global, words: &[String]) -> Result<Option<Path>, AllocError>
    ensures { IfOk result (λ path. path ≡ path_asked (map string_bytes words.now)) }
{
    let Some(word) = path_word(words) else {
        return Ok(None);
    };
    match resolve(alloc, None, word) {
        Ok(path) => Ok(Some(path)),
        Err(Failure::NoMemory) => Err(AllocError),
        Err(Failure::Fault(_)) => Ok(None),
    }
}

fn path_word(words: &[String]) -> Option<&str>
    ensures { option_map (λ word. word.now) result ≡ path_word (map string_bytes words.entry.now) }
{
    match words {
        [word, path] if word.as_str() == "check" && !path.as_str().starts_with('-') => {
            Some(path.as_str())
        }
        _ => None,
    }
}

// Checks the page at a path.
fn check_page<S: Source, K: Sink, L: Ledger>(
    alloc: Global,
    path: &Path,
    source: &mut S,
    sink: &mut K,
    steps: &mut Steps<L>,
) -> Checked
    ensures told { Tells path.now (S.left source.old) (S.left source.new) (K.taken sink.old) (K.taken sink.new)
        steps.old steps.new result }
    ensures read { result ≡ Checked.ReadFault → Rose (S.faults source.old) (S.faults source.new) }
    ensures write { result ≡ Checked.WriteFault → Rose (K.faults sink.old) (K.faults sink.new) }
    ensures unfailing { S.unfailing source.old → (result ≢ Checked.ReadFault) × S.unfailing source.new }
{
    let bytes = match read_up_to(alloc, source, MAX_FILE_BYTES) {
        Ok(bytes) => bytes,
        Err(Failure::NoMemory) => return Checked::NoMemory,
        Err(Failure::Fault(_)) => return Checked::ReadFault,
    };
    let Ok((answer, line)) = report(alloc, path, &bytes, steps) else {
        return Checked::NoMemory;
    };
    let mut failed = false;
    write(sink, &mut failed, &line);
    if failed { Checked::WriteFault } else { answer }
}

// How the check of a page with these bytes ends, and what is told of it.
fn report<L: Ledger>(
    alloc: Global,
    path: &Path,
    bytes: &[u8],
    steps: &mut Steps<L>,
) -> Result<(Checked, Vec<u8>), AllocError>
    ensures answer { IfOk result (λ told. (told.0 ≡ verdict (page_fault path.now bytes.now)) × (told.1.items
        ≡ report (page_fault path.now bytes.now))) }
    ensures steps { OnOk result (steps.new ≡ steps.old + check_steps path.now bytes.now) }
    ensures later { steps.old ≤ steps.new }
{
    match page_fault(alloc, path, bytes, steps)? {
        Some(fault) => Ok((Checked::Bad, fault_text(alloc, &fault)?)),
        None => Ok((Checked::Good, Vec::from_slice(alloc, b"ok\n")?)),
    }
}

// The line of a fault, with a line feed.
fn fault_text(alloc: Global, fault: &PageFault) -> Result<Vec<u8>, AllocError>
    ensures { IfOk result (λ text. text.items ≡ page_fault_line fault.now ++ codes "\n") }
{
    let mut text = page_fault_line(alloc, fault)?;
    text.push(b'\n')?;
    Ok(text)
}
