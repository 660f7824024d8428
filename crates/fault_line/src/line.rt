ghost use Rattle.std.specs.Prelude.{◌≡◌, ◌++◌, decimal, codes, IfOk, OnOk};
ghost use Rattle.fault_line.specs.FaultLine.{page_fault_line, place_text};

use pg_text::{PageFault, Place};
use std::alloc::{AllocError, Global};

/// A fault as `E8 NoFile /p.jsp:1:1`: its number and name, and the file, line and column of its
/// place, all without a line end.
pub fn page_fault_line(alloc: Global, fault: &PageFault) -> Result<Vec<u8>, AllocError>
    ensures { IfOk result (λ line. line.items ≡ page_fault_line fault.now) }
{
    let mut line = Vec::from_slice(alloc, b"E")?;
    push_number(alloc, &mut line, u32::from(fault.fault.number()))?;
    line.extend_from_slice(b" ")?;
    line.extend_from_slice(fault.fault.name().as_bytes())?;
    line.extend_from_slice(b" ")?;
    push_place(alloc, &mut line, &fault.place)?;
    Ok(line)
}

// Adds a place as `/p.jsp:1:7`.
fn push_place(alloc: Global, line: &mut Vec<u8>, place: &Place) -> Result<(), AllocError>
    ensures { OnOk result (line.new.items ≡ line.old.items ++ place_text place.now) }
{
    line.extend_from_slice(place.file.as_bytes())?;
    line.extend_from_slice(b":")?;
    push_number(alloc, line, place.line)?;
    line.extend_from_slice(b":")?;
    push_number(alloc, line, place.column)
}

fn push_number(alloc: Global, line: &mut Vec<u8>, number: u32) -> Result<(), AllocError>
    ensures { OnOk result (line.new.items ≡ line.old.items ++ decimal number) }
{
    line.extend_from_slice(number.to_string(alloc)?.as_bytes())
}
