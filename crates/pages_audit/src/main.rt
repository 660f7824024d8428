//! The program `pages_audit`: says of the journals that stand one behind the other on standard
//! input whether each is right. It writes one line: `yes` with how many journals and entries there
//! are; or `no` with how many right journals stand before and which part of the next is wrong
//! first; or `notjournal` or `toolong` with how many right ones stand before. Its status is 0 for
//! yes and 6 for the other lines, 1 where there is any word, 3 and 4 where reading or writing
//! failed, and 5 where memory ran out.
#![tactic(auto)]

use edges::{ReadSource, WriteSink};
use journal_audit::audit_words;
use std::io::{BufReader, ErrorKind};
use std::process::ExitCode;
use std::{env, io};

fn main(rt: HostRuntime) -> ExitCode {
    let status = match audited(&rt) {
        Ok(status) => status,
        Err(status) => status,
    };
    ExitCode::from(status)
}

// Audits standard input, and answers the status: that of the audit, or one for why there was none.
fn audited(rt: &HostRuntime) -> Result<u8, u8> {
    let words = words(rt)?;
    let Ok(input) = BufReader::new(rt.alloc(), rt.reader()) else {
        return Err(5);
    };
    let mut source = ReadSource::new(input);
    let mut sink = WriteSink::new(io::writer(rt));
    Ok(audit_words(rt.alloc(), &words, &mut source, &mut sink))
}

// The words, without the program's name; or else the status: 5 where memory ran out, 1 where
// one of them is no text.
fn words(rt: &HostRuntime) -> Result<Vec<String>, u8> {
    let given = match env::args(rt) {
        Ok(given) => given,
        Err(error) if error.kind() == ErrorKind::OutOfMemory => return Err(5),
        Err(_) => return Err(1),
    };
    let mut words = Vec::new(rt.alloc());
    for word in given.skip(1) {
        let Ok(()) = words.push(word) else {
            return Err(5);
        };
    }
    Ok(words)
}
