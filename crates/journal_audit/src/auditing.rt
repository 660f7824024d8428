ghost use Rattle.std.specs.Prelude.{◌≡◌};
ghost use Rattle.compiled_pages.specs.Pages.{needs_at};
ghost use Rattle.journal_audit.specs.Audit.{Audited, fault_of};
ghost use Rattle.journal_audit.specs.declared.verdict.Verdict.TheVariants as TheVerdict;

use crate::judging::{Judged, judge};
use crate::verdict::{AuditFault, Verdict, Why};
use edges::Source;
use journal_reader::{Unread, next_journal};
use pg_text::Failure;
use std::alloc::{AllocError, Global};

/// The most bytes that are read.
const MAX_BYTES: u64 = 4_294_967_296;

/// Reads journals, one behind the other, to the first that is wrong, and says whether each is
/// right. At most 4,294,967,296 bytes are read, and one journal at a time is in memory.
///
/// Errors: `NotJournal` and `TooLong` where something else stands behind right journals;
/// `ReadFault` where the source failed; `NoMemory` where memory ran out. Then the source has given
/// some of the bytes.
pub fn audit<S: Source>(alloc: Global, source: &mut S) -> Result<Verdict, AuditFault>
    ensures { Audited needs_at (S.left source.old) (S.faults source.old) (S.faults source.new)
        result }
{
    let mut room = MAX_BYTES;
    let mut before = None;
    let mut journals = 0;
    let mut entries = 0;
    'journals: loop {
        let journal = match next_journal(alloc, source, &mut room) {
            Ok(Some(journal)) => journal,
            Ok(None) => return Ok(Verdict::Yes { journals, entries }),
            Err(failure) => return Err(fault_of(failure, journals)),
        };
        let count = journal.history.len() as u64;
        match judge(alloc, &before, journal) {
            Ok(Judged::Right(opening)) => before = Some(opening),
            Ok(Judged::Wrong(why)) => return Ok(wrong(journals, why)),
            Err(AllocError) => return Err(AuditFault::NoMemory),
        }
        journals += 1;
        entries += count;
    }
}

// A wrong journal, behind so many right ones.
fn wrong(journal: u64, why: Why) -> Verdict
    ensures { result ≡ TheVerdict.No journal why }
{
    Verdict::No { journal, why }
}

// Why nothing more is said, behind so many right journals.
fn fault_of(failure: Failure<Unread>, journal: u64) -> AuditFault
    ensures { result ≡ fault_of failure journal }
{
    match failure {
        Failure::Fault(Unread::NotThere) => AuditFault::NotJournal { journal },
        Failure::Fault(Unread::TooLong) => AuditFault::TooLong { journal },
        Failure::Fault(Unread::Failed) => AuditFault::ReadFault,
        Failure::NoMemory => AuditFault::NoMemory,
    }
}
