// Each page is told as its row says.
use crate::acts::{Row, row_told};
use crate::{committing, keeping};
use row_text::written_out;
use std::alloc::{AllocError, Global};
use std::test::Fail;

// What is told of the first page of which something else is told; nothing where there is none.
fn first_wrong(alloc: Global, rows: &[Row]) -> Result<String, AllocError> {
    for row in rows {
        let told = row_told(alloc, row)?;
        let wanted = written_out(alloc, row.told, &[])?;
        if told.as_str() != wanted.as_str() {
            return Ok(told);
        }
    }
    Ok(String::new(alloc))
}

#[test]
fn only_what_is_over_the_buffer_is_committed(rt: HostRuntime) -> Result<(), Fail> {
    assert_eq!(rt; first_wrong(rt.alloc(), &committing::ROWS)?.as_str(), "");
    Ok(())
}

#[test]
fn bodies_are_kept_and_measured(rt: HostRuntime) -> Result<(), Fail> {
    assert_eq!(rt; first_wrong(rt.alloc(), &keeping::ROWS)?.as_str(), "");
    Ok(())
}
