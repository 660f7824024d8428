// What is told of a run.
use edges::MemSink;
use el_coercion::to_text;
use http_in::Param;
use out_buffer::Writer;
use page_machine::RunEnd;
use pg_text::{Failure, PageFault, Path, Place};
use pg_value::{Attrs, RunFault, Value};
use run_world::Around;
use site_words::AppStep;
use std::alloc::{AllocError, Global};
use tree_pages::TreeEnd;
use tree_site::Asked;

/// What came of a run and what it left; the bytes are those that were read for its pages.
#[derive(Clone, Copy)]
pub struct Ran<'a> {
    pub end: &'a TreeEnd,
    pub writer: &'a Writer,
    pub sink: &'a MemSink,
    pub around: &'a Around,
    pub attributes: &'a Attrs,
    pub asked: &'a [Asked],
    pub bytes: u64,
}

/// What these words ask: `end` for how a run ended, `rest` between brackets for what stands in the
/// buffer, behind a star where something was committed, `asked` for the steps, `sent` for what the
/// sink has; or counts.
pub fn words_told(alloc: Global, words: &str, ran: Ran<'_>) -> Result<String, AllocError> {
    let mut told = String::new(alloc);
    for word in words.split(' ') {
        add_part(alloc, &mut told, word, ran)?;
    }
    told.replace(alloc, "\n", "¶")
}

fn add_part(alloc: Global, told: &mut String, word: &str, ran: Ran<'_>) -> Result<(), AllocError> {
    let part = part_told(alloc, word, ran)?;
    add(told, part.as_str())
}

// Adds a part, behind a blank where something stands before it.
fn add(told: &mut String, part: &str) -> Result<(), AllocError> {
    if !told.is_empty() && !part.is_empty() {
        told.push(' ')?;
    }
    told.push_str(part)
}

fn part_told(alloc: Global, word: &str, ran: Ran<'_>) -> Result<String, AllocError> {
    match word {
        "end" => tree_end_told(alloc, ran.end),
        "rest" => rest_told(alloc, ran.writer),
        "asked" => all_asked_told(alloc, ran.asked),
        "sent" => String::from_utf8_lossy(alloc, ran.sink.taken())?.replace(alloc, "\r\n", "\n"),
        "session" => session_told(alloc, ran.around, ran.attributes),
        _ => count_told(alloc, word, ran),
    }
}

fn count_told(alloc: Global, word: &str, ran: Ran<'_>) -> Result<String, AllocError> {
    let count = match word {
        "depth" => ran.around.depth as u64,
        "visits" => ran.around.visits as u64,
        "charge" => ran.around.charge,
        "bytes" => ran.bytes,
        "steps" => ran.asked.len() as u64,
        _ => ran.writer.rest().len() as u64,
    };
    format!(in alloc; "{word} {count}")
}

fn session_told(alloc: Global, around: &Around, attributes: &Attrs) -> Result<String, AllocError> {
    let id = match &around.id {
        Some(id) => id.as_str(),
        None => "none",
    };
    let fresh = if around.fresh { "fresh" } else { "old" };
    let count = attributes.len();
    format!(in alloc; "session {id} {fresh} {count}")
}

fn rest_told(alloc: Global, writer: &Writer) -> Result<String, AllocError> {
    let star = if writer.committed() { "*" } else { "" };
    let rest = String::from_utf8_lossy(alloc, writer.rest())?;
    format!(in alloc; "[{star}{rest}]")
}

fn tree_end_told(alloc: Global, end: &TreeEnd) -> Result<String, AllocError> {
    match end {
        TreeEnd::Faulty(fault) => fault_told(alloc, fault),
        TreeEnd::Ran(end) => end_told(alloc, end),
        TreeEnd::NoMemory => String::from_str(alloc, "no memory"),
    }
}

fn fault_told(alloc: Global, fault: &PageFault) -> Result<String, AllocError> {
    let number = fault.fault.number();
    let name = fault.fault.name();
    let place = place_told(alloc, &fault.place)?;
    format!(in alloc; "E{number} {name} {place}")
}

fn end_told(alloc: Global, end: &RunEnd) -> Result<String, AllocError> {
    match end {
        RunEnd::Normal => format!(in alloc; "normal"),
        RunEnd::Forward(path, params) => forward_told(alloc, path, params.as_slice()),
        RunEnd::Redirect(address) => format!(in alloc; "redirect {}", address.as_str()),
        RunEnd::Raised { fault, place } => raised_told(alloc, *fault, place),
        RunEnd::NoMemory => format!(in alloc; "no memory"),
    }
}

fn forward_told(alloc: Global, path: &Path, params: &[Param]) -> Result<String, AllocError> {
    let mut told = format!(in alloc; "forward {}", path.as_str())?;
    for param in params {
        write!(told, " {}={}", param.name.as_str(), param.value.as_str())?;
    }
    Ok(told)
}

fn raised_told(alloc: Global, fault: RunFault, place: &Place) -> Result<String, AllocError> {
    let number = fault.number();
    let place = place_told(alloc, place)?;
    format!(in alloc; "X{number} {place}")
}

// A file, and the line and column.
fn place_told(alloc: Global, place: &Place) -> Result<String, AllocError> {
    let file = place.file.as_str();
    let (line, column) = (place.line, place.column);
    format!(in alloc; "{file}:{line}:{column}")
}

fn all_asked_told(alloc: Global, asked: &[Asked]) -> Result<String, AllocError> {
    let mut told = String::new(alloc);
    for step in asked {
        add_asked(alloc, &mut told, step)?;
    }
    Ok(told)
}

fn add_asked(alloc: Global, told: &mut String, asked: &Asked) -> Result<(), AllocError> {
    let asked = asked_told(alloc, asked)?;
    add(told, asked.as_str())
}

fn asked_told(alloc: Global, asked: &Asked) -> Result<String, AllocError> {
    match asked {
        Asked::Fresh => format!(in alloc; "Fresh"),
        Asked::Fetch(path) => format!(in alloc; "Fetch {}", path.as_str()),
        Asked::App(step) => step_told(alloc, step),
    }
}

fn step_told(alloc: Global, step: &AppStep) -> Result<String, AllocError> {
    match step {
        AppStep::Get(name) => format!(in alloc; "Get {}", name.as_str()),
        AppStep::Set(name, value) => named_told(alloc, "Set", name.as_str(), value),
        AppStep::Remove(name) => format!(in alloc; "Remove {}", name.as_str()),
        AppStep::Ensure(name, value) => named_told(alloc, "Ensure", name.as_str(), value),
        AppStep::All => format!(in alloc; "All"),
    }
}

fn named_told(alloc: Global, step: &str, name: &str, value: &Value) -> Result<String, AllocError> {
    match to_text(alloc, value) {
        Ok(text) => format!(in alloc; "{step} {name}={}", text.as_str()),
        Err(Failure::NoMemory) => Err(AllocError),
        Err(Failure::Fault(_)) => format!(in alloc; "{step} {name}"),
    }
}
