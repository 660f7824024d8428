// Bytes in writing.
use std::alloc::{AllocError, Global};

/// The bytes of these lines, one behind the other.
pub fn input_of(alloc: Global, said: &[String]) -> Result<Vec<u8>, AllocError> {
    let mut input = Vec::new(alloc);
    for line in said {
        let line = written_out(alloc, line.as_str())?;
        input.extend_from_slice(line.as_bytes())?;
    }
    Ok(input)
}

/// A line as it is meant.
pub fn written_out(alloc: Global, line: &str) -> Result<String, AllocError> {
    row_text::written_out(alloc, line, &[("¶", "\r\n"), ("↵", "\n")])
}

/// A status and answers, each answer on a line.
pub fn shown(alloc: Global, status: u8, answers: &[u8]) -> Result<String, AllocError> {
    let text = String::from_utf8_lossy(alloc, answers)?.replace(alloc, "\r\n", "¶")?;
    let text = text.replace(alloc, "\n", "↵")?;
    let text = text.replace(alloc, "HTTP/1.1 ", "\nHTTP/1.1 ")?;
    format!(in alloc; "{status}{text}")
}
