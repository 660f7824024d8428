// Pages that are written act by act, and what is told of them.
use edges::MemSink;
use http_out::{ContentType, Head, Status};
use out_buffer::{Failure, RunFault, Writer};
use pg_text::Text;
use row_text::written_out;
use std::alloc::{AllocError, Global};

/// What is done with the writer of a page, or asked of it.
#[derive(Clone, Copy)]
pub enum Act<'a> {
    /// A text is put, which `written_out` makes of this.
    Put(&'a str),
    Flush,
    /// A body is kept from here on.
    Keep,
    /// The innermost body is taken, and told behind how many there were.
    Take,
    /// So many bodies are left.
    Leave(usize),
    Clear,
    /// The head becomes that of a page that isn't there, with the id of a session.
    NotFound,
    /// How many bodies are kept, and whether something was committed.
    State,
    /// What stands in the buffer.
    Rest,
    /// What the sink took.
    Sink,
}

/// A page, and what is told of it: a bar behind each answer and each fault, and at last what the
/// sink took.
#[derive(Clone, Copy)]
pub struct Row<'a> {
    /// The size of the buffer in kilobytes, or 0 where there is none.
    pub kilobytes: u8,
    pub autoflush: bool,
    /// Whether the body is shown.
    pub shown: bool,
    /// The number of the call of the sink that fails.
    pub fails: Option<u64>,
    pub acts: &'a [Act<'a>],
    /// Whether the page ends broken, where it ends.
    pub end: Option<bool>,
    pub told: &'a str,
}

/// What is told of a page.
pub fn row_told(alloc: Global, row: &Row) -> Result<String, AllocError> {
    let mut sink = MemSink::new(alloc, fails(alloc, row.fails)?);
    let mut told = String::new(alloc);
    run(alloc, row, &mut sink, &mut told)?;
    told.push_str(text_of(sink.taken()))?;
    Ok(told)
}

// Does what a row says, and ends the page.
fn run(alloc: Global, row: &Row, sink: &mut MemSink, told: &mut String) -> Result<(), AllocError> {
    let mut writer = page(alloc, row.kilobytes, row.autoflush, row.shown);
    for act in row.acts {
        done(alloc, act, &mut writer, sink, told)?;
    }
    ended(writer, sink, row.end, told)
}

fn fails(alloc: Global, call: Option<u64>) -> Result<Vec<u64>, AllocError> {
    let mut fails = Vec::new(alloc);
    if let Some(call) = call {
        fails.push(call)?;
    }
    Ok(fails)
}

fn page(alloc: Global, kilobytes: u8, autoflush: bool, shown: bool) -> Writer {
    let head = Head {
        status: Status::Ok,
        content_type: Some(ContentType::known("text/html;charset=UTF-8")),
        set_cookie: None,
        location: None,
        allow: false,
        close: false,
    };
    if kilobytes == 0 {
        return Writer::new(alloc, head, None, autoflush, shown);
    }
    let size = kilobytes as u32 * 1_024;
    Writer::new(alloc, head, Some(size), autoflush, shown)
}

fn done(
    alloc: Global,
    act: &Act,
    writer: &mut Writer,
    sink: &mut MemSink,
    told: &mut String,
) -> Result<(), AllocError> {
    match *act {
        Act::Put(text) => put(alloc, writer, sink, text, told),
        Act::Flush => writer.flush(sink),
        Act::Keep => writer.start_body(),
        Act::Take => take(writer, told),
        Act::Leave(left) => {
            writer.drop_bodies(left);
            Ok(())
        }
        Act::Clear => clear(writer, told),
        Act::NotFound => not_found(alloc, writer),
        Act::State => state(writer, told),
        Act::Rest => tell(told, text_of(writer.rest())),
        Act::Sink => tell(told, text_of(sink.taken())),
    }
}

fn text_of(bytes: &[u8]) -> &str {
    str::from_utf8(bytes).unwrap_or("no text")
}

fn tell(told: &mut String, text: &str) -> Result<(), AllocError> {
    told.push_str(text)?;
    told.push('|')
}

fn put(
    alloc: Global,
    writer: &mut Writer,
    sink: &mut MemSink,
    text: &str,
    told: &mut String,
) -> Result<(), AllocError> {
    let text = written_out(alloc, text, &[])?;
    match writer.put(sink, text.as_str()) {
        Ok(()) => Ok(()),
        Err(Failure::Fault(fault)) => tell(told, fault.name()),
        Err(Failure::NoMemory) => Err(AllocError),
    }
}

fn take(writer: &mut Writer, told: &mut String) -> Result<(), AllocError> {
    let count = writer.bodies();
    write!(told, "{count} ")?;
    if writer.bodies() > 0 {
        taken(writer.take_body(), told)
    } else {
        tell(told, "none")
    }
}

fn taken(body: Result<Text, Failure<RunFault>>, told: &mut String) -> Result<(), AllocError> {
    match body {
        Ok(body) => tell(told, body.as_str()),
        Err(Failure::Fault(fault)) => tell(told, fault.name()),
        Err(Failure::NoMemory) => Err(AllocError),
    }
}

fn clear(writer: &mut Writer, told: &mut String) -> Result<(), AllocError> {
    match writer.clear() {
        Ok(()) => Ok(()),
        Err(fault) => tell(told, fault.name()),
    }
}

fn not_found(alloc: Global, writer: &mut Writer) -> Result<(), AllocError> {
    let head = Head::plain(Status::NotFound, false);
    let id = Text::copy_of(alloc, "00ff")?;
    if !writer.committed() {
        writer.set_head(head);
        writer.set_cookie(id);
    }
    Ok(())
}

fn state(writer: &Writer, told: &mut String) -> Result<(), AllocError> {
    let count = writer.bodies();
    write!(told, "{count} ")?;
    tell(
        told,
        if writer.committed() {
            "committed"
        } else {
            "open"
        },
    )
}

fn ended(
    writer: Writer,
    sink: &mut MemSink,
    end: Option<bool>,
    told: &mut String,
) -> Result<(), AllocError> {
    match end {
        None => Ok(()),
        Some(broken) => match writer.finish(sink, broken) {
            Ok(()) => Ok(()),
            Err(Failure::Fault(_)) => tell(told, "Failed"),
            Err(Failure::NoMemory) => Err(AllocError),
        },
    }
}
