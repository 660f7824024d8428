// Codes in writing: cells between semicolons, each with what stands open before it, and its
// instruction. What stands open is a digit for values, and k, l, t for a body that is kept, a loop
// and a catch, in the order in which they were opened; z drops all values.
use crate::operations::{operation, scoped};
use code_check::CheckedCode;
use page_code::{
    Bean, CallBody, CallOut, Code, Fragment, Instr, Leave, LoopKind, Name, Over, Shape, Shared,
    TagCall,
};
use pg_text::{Listed, Place, Text, resolve};
use pg_value::Value;
use std::alloc::{AllocError, Global};
use std::test::Fail;

/// Whether the code can be run.
pub fn is_accepted(alloc: Global, cells: &str) -> Result<bool, Fail> {
    let place = place(alloc)?;
    let mut code = Code::new(alloc);
    if !cells.is_empty() {
        for cell in cells.split(';') {
            put(alloc, &mut code, &place, cell)?;
        }
    }
    Ok(CheckedCode::new(code)?.is_some())
}

fn put(alloc: Global, code: &mut Code, place: &Place, cell: &str) -> Result<(), Fail> {
    let Some((open, instruction)) = cell.split_once(' ') else {
        return Err(Fail::new("a cell has no instruction"));
    };
    let shape = shape(alloc, open)?;
    let instr = instruction_of(alloc, instruction)?;
    code.put(&shape, place, instr)?;
    Ok(())
}

fn shape(alloc: Global, letters: &str) -> Result<Shape, AllocError> {
    let mut shape = Shape::empty(alloc)?;
    for letter in letters.as_bytes() {
        shape = opened(&shape, *letter)?;
    }
    Ok(shape)
}

fn opened(shape: &Shape, letter: u8) -> Result<Shape, AllocError> {
    match letter {
        b'k' => shape.keeping(),
        b'l' => shape.looping(),
        b't' => shape.trying(),
        b'z' => {
            let mut low = shape.copy()?;
            low.values = 0;
            Ok(low)
        }
        digit => shape.up((digit % 16) as usize),
    }
}

fn instruction_of(alloc: Global, words: &str) -> Result<Instr, Fail> {
    match words.split_once(' ') {
        Some((word, count)) => jump(alloc, word, count.parse::<usize>().unwrap_or(0)),
        None => jump(alloc, words, 0),
    }
}

// The jump of this word, or what else the word stands for.
fn jump(alloc: Global, word: &str, count: usize) -> Result<Instr, Fail> {
    match word {
        "Take" => Ok(Instr::Take(count)),
        "Jump" => Ok(Instr::Jump(count)),
        "JumpIf" => Ok(Instr::JumpIf(true, count)),
        "JumpNull" => Ok(Instr::JumpNull(count)),
        "End" => Ok(Instr::Leave(Leave::End)),
        "Forward" => Ok(Instr::Leave(Leave::Forward(count))),
        "Redirect" => Ok(Instr::Leave(Leave::Redirect)),
        _ => opening(alloc, word, count),
    }
}

// What opens or closes something, or else a call or an operation.
fn opening(alloc: Global, word: &str, count: usize) -> Result<Instr, Fail> {
    match word {
        "StartBody" => Ok(Instr::StartBody),
        "TakeBody" => Ok(Instr::TakeBody),
        "CatchStart" => Ok(Instr::CatchStart(count)),
        "CatchEnd" => Ok(Instr::CatchEnd),
        "LoopStart" => loop_start(alloc, count),
        "LoopNext" => Ok(Instr::LoopNext(count)),
        "Ensure" => ensure(alloc, count),
        _ => match call(alloc, word, count)? {
            Some(what) => Ok(Instr::CallOut(what)),
            None => Ok(Instr::Op(operation(alloc, word)?)),
        },
    }
}

// A loop over items with so many names.
fn loop_start(alloc: Global, names: usize) -> Result<Instr, Fail> {
    let kind = LoopKind {
        over: Over::Items,
        names: texts(alloc, names)?,
        variable: Some(name(alloc)?),
        status: None,
    };
    Ok(Instr::LoopStart(Shared::new(alloc, kind)?))
}

// A bean, with so many cells behind it that are passed over where it stands.
fn ensure(alloc: Global, size: usize) -> Result<Instr, Fail> {
    let bean = bean(alloc)?;
    let variable = scoped(alloc)?;
    Ok(Instr::Ensure {
        variable,
        bean,
        size,
    })
}

fn bean(alloc: Global) -> Result<Shared<Bean>, Fail> {
    match Bean::new(Value::Null) {
        Some(bean) => Ok(Shared::new(alloc, bean)?),
        None => Err(Fail::new("the value is too large")),
    }
}

fn call(alloc: Global, word: &str, count: usize) -> Result<Option<CallOut>, Fail> {
    match word {
        "Body" => Ok(Some(CallOut::Body)),
        "Fragment" => Ok(Some(CallOut::Fragment(text(alloc)?))),
        "Include" => Ok(Some(CallOut::Include {
            flush: true,
            params: count,
        })),
        "Import" => Ok(Some(CallOut::Import)),
        _ => tag(alloc, word, count),
    }
}

// The call of a tag file with one attribute, and a fragment of so many cells.
fn tag(alloc: Global, word: &str, size: usize) -> Result<Option<CallOut>, Fail> {
    match body_of(alloc, word)? {
        Some(body) => Ok(Some(tag_call(alloc, body, size)?)),
        None => Ok(None),
    }
}

// What the body of a call of a tag file is.
fn body_of(alloc: Global, word: &str) -> Result<Option<CallBody>, AllocError> {
    match word {
        "TagWithout" => Ok(Some(CallBody::Absent)),
        "TagOfText" => Ok(Some(CallBody::Source(text(alloc)?))),
        "TagOfOne" => Ok(Some(CallBody::Cells(1))),
        "TagOfTwo" => Ok(Some(CallBody::Cells(2))),
        "TagOfThree" => Ok(Some(CallBody::Cells(3))),
        "TagOfAll" => Ok(Some(CallBody::Cells(usize::MAX))),
        _ => Ok(None),
    }
}

fn tag_call(alloc: Global, body: CallBody, size: usize) -> Result<CallOut, Fail> {
    let mut call = call_without(alloc, size)?;
    call.body = body;
    Ok(CallOut::Tag(Shared::new(alloc, call)?))
}

// Such a call without a body.
fn call_without(alloc: Global, size: usize) -> Result<TagCall, Fail> {
    let path = resolve(alloc, None, "/WEB-INF/tags/t.tag")?;
    let names = texts(alloc, 1)?;
    let fragments = fragment(alloc, size)?;
    Ok(TagCall {
        path,
        names,
        body: CallBody::Absent,
        fragments,
    })
}

fn fragment(alloc: Global, size: usize) -> Result<Listed<Fragment>, AllocError> {
    let name = text(alloc)?;
    let mut fragments = Listed::empty(alloc);
    fragments.push(Fragment { name, size })?;
    Ok(fragments)
}

pub fn place(alloc: Global) -> Result<Place, Fail> {
    Ok(Place {
        file: resolve(alloc, None, "/p.jsp")?,
        byte: 0,
        line: 1,
        column: 1,
    })
}

pub fn text(alloc: Global) -> Result<Text, AllocError> {
    Text::copy_of(alloc, "a")
}

fn texts(alloc: Global, count: usize) -> Result<Listed<Text>, AllocError> {
    let mut texts = Listed::empty(alloc);
    for _ in 0..count {
        texts.push(text(alloc)?)?;
    }
    Ok(texts)
}

pub fn name(alloc: Global) -> Result<Name, Fail> {
    match Name::new(text(alloc)?) {
        Some(name) => Ok(name),
        None => Err(Fail::new("the name is too long")),
    }
}
