ghost use Rattle.std.specs.Prelude.{◌≡◌, ◌≢◌, [], Some};
ghost use Rattle.compiled_pages.specs.Pages.{needs_at};
ghost use Rattle.edges.specs.Faults.{Rose};
ghost use Rattle.journal_audit.specs.Command.{IsShown, Told};
ghost use Rattle.journal_audit.specs.Lines.{line_of, status_of};

use crate::auditing::audit;
use crate::lines::line_of;
use crate::verdict::{AuditFault, Verdict};
use edges::{Sink, Source};
use http_out::write;
use std::alloc::Global;

/// Audits the journals that the source gives, and writes one line to the sink: `yes` with how many
/// journals and entries there are; `no` with how many right journals stand before a wrong one, and
/// `opening`, `entry` and its place, or `talk`; `notjournal` or `toolong` with how many right
/// journals stand before what is none. There are no words.
///
/// The answer is the program's status: 0 for yes, 6 for the other lines, 1 where there is a word, 3
/// and 4 where reading or writing failed, and 5 where memory ran out.
pub fn audit_words<S: Source, K: Sink>(
    alloc: Global,
    words: &[String],
    source: &mut S,
    sink: &mut K,
) -> u8
    ensures words { words.now ≢ [] → (result ≡ 1) × (source.new ≡ source.old)
        × (sink.new ≡ sink.old) }
    ensures only_words { result ≡ 1 → words.now ≢ [] }
    ensures told { words.now ≡ [] → Told needs_at (S.left source.old) (S.faults source.old)
        (S.faults source.new) (K.taken sink.old) (K.taken sink.new) result }
    ensures read { result ≡ 3 → Rose (S.faults source.old) (S.faults source.new) }
    ensures write { result ≡ 4 → Rose (K.faults sink.old) (K.faults sink.new) }
{
    if !words.is_empty() {
        return 1;
    }
    let answer = audit(alloc, source);
    match line_of(alloc, &answer) {
        Ok(Some(line)) => tell(&answer, line.as_bytes(), sink),
        Ok(None) => status_of(&answer),
        Err(_) => 5,
    }
}

// Writes the line that tells an answer, and gives the status.
fn tell<K: Sink>(answer: &Result<Verdict, AuditFault>, line: &[u8], sink: &mut K) -> u8
    requires { line_of answer.now ≡ Some line.now }
    ensures shown { IsShown answer.now (K.taken sink.old) (K.taken sink.new) result }
    ensures write { result ≡ 4 → Rose (K.faults sink.old) (K.faults sink.new) }
    ensures other { (result ≢ 1) × (result ≢ 3) }
{
    let mut failed = false;
    write(sink, &mut failed, line);
    if failed { 4 } else { status_of(answer) }
}

// The status of the program for an answer.
fn status_of(answer: &Result<Verdict, AuditFault>) -> u8
    ensures { result ≡ status_of answer.now }
{
    match answer {
        Ok(Verdict::Yes { .. }) => 0,
        Err(AuditFault::ReadFault) => 3,
        Err(AuditFault::NoMemory) => 5,
        _ => 6,
    }
}
