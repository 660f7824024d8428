// Whether what cells consist of is equal. What is large or rare is said to differ, so that no
// answer takes long: where two are equal they may be kept once, and needn't.
ghost use Rattle.std.specs.Prelude.{◌≡◌, IsTrue};
ghost use Rattle.page_code.specs.Tables.{bare_call};

use crate::call::{CallBody, CallOut, TagCall};
use crate::instr::Instr;
use crate::op::Op;
use crate::shape::{Level, Shape};
use pg_text::{Place, Text};
use pg_value::Value;

// Whether the places are equal.
pub(crate) fn is_same_place(a: &Place, b: &Place) -> bool
    ensures { IsTrue result → a.now ≡ b.now }
{
    a.byte == b.byte
        && a.line == b.line
        && a.column == b.column
        && a.file.as_bytes() == b.file.as_bytes()
}

// Whether the shapes are equal.
pub(crate) fn is_same_shape(a: &Shape, b: &Shape) -> bool
    ensures { IsTrue result → a.now ≡ b.now }
{
    a.values == b.values
        && a.bodies == b.bodies
        && a.loops == b.loops
        && are_same(a.catches.as_slice(), b.catches.as_slice())
}

// Whether the levels are equal, one by one.
fn are_same(a: &[Level], b: &[Level]) -> bool
    ensures { IsTrue result → a.now ≡ b.now }
{
    a == b
}

// Whether the instructions are equal, where they are small.
pub(crate) fn is_same_instr(a: &Instr, b: &Instr) -> bool
    ensures { IsTrue result → a.now ≡ b.now }
{
    match a {
        Instr::Op(a) => matches!(b, Instr::Op(b) if is_same_op(a, b)),
        Instr::Take(a) => matches!(b, Instr::Take(b) if *a == *b),
        Instr::StartBody => matches!(b, Instr::StartBody),
        Instr::TakeBody => matches!(b, Instr::TakeBody),
        Instr::Jump(a) => matches!(b, Instr::Jump(b) if *a == *b),
        Instr::JumpIf(truth, a) => {
            matches!(b, Instr::JumpIf(other, b) if *truth == *other && *a == *b)
        }
        Instr::JumpNull(a) => matches!(b, Instr::JumpNull(b) if *a == *b),
        Instr::LoopNext(a) => matches!(b, Instr::LoopNext(b) if *a == *b),
        Instr::CatchStart(a) => matches!(b, Instr::CatchStart(b) if *a == *b),
        Instr::CatchEnd => matches!(b, Instr::CatchEnd),
        Instr::Leave(a) => matches!(b, Instr::Leave(b) if *a == *b),
        Instr::Ensure { .. } => false,
        Instr::LoopStart(_) => false,
        Instr::CallOut(a) => matches!(b, Instr::CallOut(b) if is_same_call_out(a, b)),
    }
}

// Whether the calls are equal, where they are small.
fn is_same_call_out(a: &CallOut, b: &CallOut) -> bool
    ensures { IsTrue result → a.now ≡ b.now }
{
    match a {
        CallOut::Tag(a) => matches!(b, CallOut::Tag(b) if is_same_call(a.get(), b.get())),
        CallOut::Body => matches!(b, CallOut::Body),
        CallOut::Fragment(_) => false,
        CallOut::Include { .. } => false,
        CallOut::Import => matches!(b, CallOut::Import),
    }
}

// Whether the calls of tag files are equal, where they hand down nothing and have one attribute at
// most.
fn is_same_call(a: &TagCall, b: &TagCall) -> bool
    ensures { IsTrue result → a.now ≡ b.now }
{
    is_bare(a)
        && is_bare(b)
        && are_same_names(a.names.as_slice(), b.names.as_slice())
        && a.path.as_bytes() == b.path.as_bytes()
}

// Whether a call hands down neither a body nor fragments.
fn is_bare(call: &TagCall) -> bool
    ensures { IsTrue result → call.now ≡ bare_call call.now.path call.now.names }
{
    call.fragments.is_empty() && matches!(call.body, CallBody::Absent)
}

// Whether the names are equal, where there is one at most.
fn are_same_names(a: &[Text], b: &[Text]) -> bool
    ensures { IsTrue result → a.now ≡ b.now }
{
    let (Some((a, others)), Some((b, rest))) = (a.split_first(), b.split_first()) else {
        return a.is_empty() && b.is_empty();
    };
    others.is_empty() && rest.is_empty() && is_same_name(a, b)
}

fn is_same_name(a: &Text, b: &Text) -> bool
    ensures { IsTrue result → a.now ≡ b.now }
{
    a.as_bytes() == b.as_bytes()
}

// Whether the operations are equal, where they are small.
fn is_same_op(a: &Op, b: &Op) -> bool
    ensures { IsTrue result → a.now ≡ b.now }
{
    match a {
        Op::Write(a) => matches!(b, Op::Write(b) if a.as_bytes() == b.as_bytes()),
        Op::Put => matches!(b, Op::Put),
        Op::PutEscaped => matches!(b, Op::PutEscaped),
        Op::Visit(a) => matches!(b, Op::Visit(b) if *a == *b),
        Op::Const(a) => matches!(b, Op::Const(b) if is_same_constant(a, b)),
        Op::Find(a) => matches!(b, Op::Find(b) if a.as_text().as_bytes() == b.as_text().as_bytes()),
        Op::Implicit(a) => matches!(b, Op::Implicit(b) if *a == *b),
        Op::Index => matches!(b, Op::Index),
        Op::HeaderIndex(a) => matches!(b, Op::HeaderIndex(b) if *a == *b),
        Op::ScopeIndex(a) => matches!(b, Op::ScopeIndex(b) if *a == *b),
        Op::Unary(a) => matches!(b, Op::Unary(b) if *a == *b),
        Op::Binary(a) => matches!(b, Op::Binary(b) if *a == *b),
        Op::Coerce(a) => matches!(b, Op::Coerce(b) if *a == *b),
        Op::MakeList(a) => matches!(b, Op::MakeList(b) if *a == *b),
        Op::MakeMap(a) => matches!(b, Op::MakeMap(b) if *a == *b),
        Op::Concat(a) => matches!(b, Op::Concat(b) if *a == *b),
        Op::Call(a) => matches!(b, Op::Call(b) if *a == *b),
        Op::Url(a) => matches!(b, Op::Url(b) if *a == *b),
        Op::Pop => matches!(b, Op::Pop),
        _ => false,
    }
}

// Whether the constants are equal, where they are no lists and records.
fn is_same_constant(a: &Value, b: &Value) -> bool
    ensures { IsTrue result → a.now ≡ b.now }
{
    match a {
        Value::Null => matches!(b, Value::Null),
        Value::Bool(a) => matches!(b, Value::Bool(b) if *a == *b),
        Value::Int(a) => matches!(b, Value::Int(b) if *a == *b),
        Value::Text(a) => matches!(b, Value::Text(b) if a.as_bytes() == b.as_bytes()),
        Value::List(_) => false,
        Value::Rec(_) => false,
    }
}
