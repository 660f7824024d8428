use load_gen::{MAX_PAGES, make};
use std::alloc::{AllocError, Global};

/// The messages for so many pages, or none where that is no number of pages.
pub fn made(alloc: Global, number: u32) -> Result<String, AllocError> {
    if number < 1 || number > MAX_PAGES {
        return Ok(String::new(alloc));
    }
    let bytes = make(alloc, number)?;
    String::from_str(alloc, str::from_utf8(&bytes).unwrap_or("no text"))
}
