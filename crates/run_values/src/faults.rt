ghost use Rattle.std.specs.Prelude.{◌≡◌, ◌++◌, decimal, IfOk, OnOk, string_bytes};
ghost use Rattle.page_meaning.specs.Faults.{code_of, fault_record, place_text, run_fault_line};
ghost use Rattle.pg_value.specs.Value.{datum_of};

use crate::records::{put, record};
use pg_text::{Place, Text};
use pg_value::{Attrs, RunFault, Value};
use std::alloc::{AllocError, Global};

/// The record of a fault: its code, as `X3`, and its line as the message.
pub fn fault_record(alloc: Global, fault: RunFault, place: &Place) -> Result<Value, AllocError>
    ensures { IfOk result (λ made. datum_of made ≡ fault_record (record { fault = fault; place = place.now })) }
{
    let mut entries = Attrs::empty(alloc);
    put(
        alloc,
        &mut entries,
        "code",
        Value::Text(fault_code(alloc, fault)?),
    )?;
    put(
        alloc,
        &mut entries,
        "message",
        Value::Text(run_fault_line(alloc, fault, place)?),
    )?;
    record(entries)
}

// The code of a fault, as `X3`.
fn fault_code(alloc: Global, fault: RunFault) -> Result<Text, AllocError>
    ensures { IfOk result (λ made. made ≡ code_of fault) }
{
    Text::new(format!(in alloc; "X{}", fault.number())?)
}

/// The line of a fault, as `X3 ZeroDivisor /p.jsp:1:7`.
pub fn run_fault_line(alloc: Global, fault: RunFault, place: &Place) -> Result<Text, AllocError>
    ensures { IfOk result (λ made. made ≡ run_fault_line (record { fault = fault; place = place.now })) }
{
    let mut line = fault_code(alloc, fault)?.into_string()?;
    line.push_str(" ")?;
    line.push_str(fault.name())?;
    line.push_str(" ")?;
    push_place(alloc, &mut line, place)?;
    Text::new(line)
}

// Adds a place as `/p.jsp:1:7`.
fn push_place(alloc: Global, line: &mut String, place: &Place) -> Result<(), AllocError>
    ensures { OnOk result (string_bytes line.new ≡ string_bytes line.old ++ place_text place.now) }
{
    line.push_str(place.file.as_str())?;
    line.push_str(":")?;
    push_number(alloc, line, place.line)?;
    line.push_str(":")?;
    push_number(alloc, line, place.column)
}

fn push_number(alloc: Global, line: &mut String, number: u32) -> Result<(), AllocError>
    ensures { OnOk result (string_bytes line.new ≡ string_bytes line.old ++ decimal number) }
{
    line.push_str(&number.to_string(alloc)?)
}
