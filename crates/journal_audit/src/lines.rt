ghost use Rattle.std.specs.Prelude.{◌≡◌, string_bytes, IfOk};
ghost use Rattle.std.specs.Option.{option_map};
ghost use Rattle.journal_audit.specs.Lines.{line_of, no_line};

use crate::verdict::{AuditFault, Verdict, Why};
use std::alloc::{AllocError, Global};

/// The line that tells an answer. None does where the source failed or memory ran out.
pub(crate) fn line_of(
    alloc: Global,
    answer: &Result<Verdict, AuditFault>,
) -> Result<Option<String>, AllocError>
    ensures { IfOk result (λ line. option_map string_bytes line ≡ line_of answer.now) }
{
    match answer {
        Ok(Verdict::Yes { journals, entries }) => {
            Ok(Some(format!(in alloc; "yes {journals} {entries}\n")?))
        }
        Ok(Verdict::No { journal, why }) => Ok(Some(no_line(alloc, *journal, *why)?)),
        Err(AuditFault::NotJournal { journal }) => {
            Ok(Some(format!(in alloc; "notjournal {journal}\n")?))
        }
        Err(AuditFault::TooLong { journal }) => Ok(Some(format!(in alloc; "toolong {journal}\n")?)),
        Err(AuditFault::ReadFault | AuditFault::NoMemory) => Ok(None),
    }
}

// The line that begins with `no`: how many right journals come before a wrong one, and which part of
// that is wrong first.
fn no_line(alloc: Global, journal: u64, why: Why) -> Result<String, AllocError>
    ensures { IfOk result (λ line. string_bytes line ≡ no_line journal why) }
{
    match why {
        Why::Opening => format!(in alloc; "no {journal} opening\n"),
        Why::Entry(place) => format!(in alloc; "no {journal} entry {place}\n"),
        Why::Talk => format!(in alloc; "no {journal} talk\n"),
    }
}
