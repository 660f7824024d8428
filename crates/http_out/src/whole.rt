ghost use Rattle.std.specs.Prelude.{◌≡◌, ◌≤◌, ◌++◌, ℕ, List, [], true, length, Some, IfOk, OnOk};
ghost use Rattle.std.specs.Prelude.{OnErr, if◌then◌else◌};
ghost use Rattle.std.specs.declared.option.Option.{Option};
ghost use Rattle.edges.specs.Faults.{Rose};
ghost use Rattle.http_out.specs.Head.{head_text, sized};
ghost use Rattle.http_out.specs.Response.{opening, plain, whole};
ghost use Rattle.http_out.specs.Sent.{Sent};

use crate::sending::write;
use crate::text::head_text;
use crate::{Head, Status};
use edges::Sink;
use std::alloc::{AllocError, Global};

/// A body of at most so many bytes goes out in one piece with its head. It is the size of a page's
/// buffer where the page names none.
const MOST_JOINED: usize = 8_192;

/// Writes a response of one piece, at once. The body is left out where it isn't to be shown, as for
/// HEAD. Where memory runs out nothing is written.
pub fn write_whole<K: Sink>(
    alloc: Global,
    sink: &mut K,
    failed: &mut bool,
    head: &Head,
    body: &[u8],
    shown: bool,
) -> Result<(), AllocError>
    ensures sent { (old : Option (List ℕ)) (text : List ℕ) →
        Sent old (K.taken sink.old) text failed.old →
        OnOk result (Sent old (K.taken sink.new) (text ++ whole head.now body.now shown) failed.new) }
    ensures err { OnErr result ((sink.new ≡ sink.old) × (failed.new ≡ failed.old)) }
    ensures over { failed.old ≡ true → (sink.new ≡ sink.old) × (failed.new ≡ true) }
    ensures later { K.faults sink.old ≤ K.faults sink.new }
    ensures rose { (before : ℕ) → before ≤ K.faults sink.old →
        (failed.old ≡ true → Rose before (K.faults sink.old)) → failed.new ≡ true →
        Rose before (K.faults sink.new) }
{
    let (joined, apart) = parts(body, shown);
    let text = front_text(alloc, head, body.len(), joined)?;
    write(sink, failed, &text);
    write(sink, failed, apart);
    Ok(())
}

/// Writes the head of a response in chunks. Where memory runs out nothing is written.
pub fn write_head<K: Sink>(
    alloc: Global,
    sink: &mut K,
    failed: &mut bool,
    head: &Head,
) -> Result<(), AllocError>
    ensures sent { (old : Option (List ℕ)) (text : List ℕ) →
        Sent old (K.taken sink.old) text failed.old →
        OnOk result (Sent old (K.taken sink.new) (text ++ opening head.now) failed.new) }
    ensures err { OnErr result ((sink.new ≡ sink.old) × (failed.new ≡ failed.old)) }
    ensures over { failed.old ≡ true → (sink.new ≡ sink.old) × (failed.new ≡ true) }
    ensures later { K.faults sink.old ≤ K.faults sink.new }
    ensures rose { (before : ℕ) → before ≤ K.faults sink.old →
        (failed.old ≡ true → Rose before (K.faults sink.old)) → failed.new ≡ true →
        Rose before (K.faults sink.new) }
{
    let text = head_text(alloc, head, None, 0)?;
    write(sink, failed, &text);
    Ok(())
}

/// Writes a plain answer of one line as all of a response, and says whether the sink failed. Where
/// memory runs out nothing is written.
pub fn tell_plain<K: Sink>(
    alloc: Global,
    sink: &mut K,
    status: Status,
    close: bool,
    line: &[u8],
    shown: bool,
) -> Result<bool, AllocError>
    ensures sent { IfOk result (λ failed. Sent (K.taken sink.old) (K.taken sink.new)
        (plain status close line.now shown) failed) }
    ensures err { OnErr result (sink.new ≡ sink.old) }
    ensures later { K.faults sink.old ≤ K.faults sink.new }
    ensures rose { IfOk result (λ failed. failed ≡ true → Rose (K.faults sink.old) (K.faults sink.new)) }
{
    let head = Head::plain(status, close);
    let mut body = Vec::with_capacity(alloc, line.len().saturating_add(1))?;
    body.extend_from_slice(line)?;
    body.extend_from_slice(b"\n")?;
    let mut failed = false;
    write_whole(alloc, sink, &mut failed, &head, &body, shown)?;
    Ok(failed)
}

// What goes out of a body, where it is shown: with the head, or behind it and without a copy.
fn parts(body: &[u8], shown: bool) -> (&[u8], &[u8])
    ensures { result.0.now ++ result.1.now ≡ (if shown then body.now else []) }
{
    if !shown {
        return (b"", b"");
    }
    if body.len() <= MOST_JOINED {
        (body, b"")
    } else {
        (b"", body)
    }
}

// The head of a response of one piece whose body has so many bytes, and what goes out with it.
fn front_text(
    alloc: Global,
    head: &Head,
    length: usize,
    joined: &[u8],
) -> Result<Vec<u8>, AllocError>
    ensures { IfOk result (λ text. text.items ≡ head_text head.now (sized length) ++ joined.now) }
{
    let mut text = head_text(alloc, head, Some(length), joined.len())?;
    text.extend_from_slice(joined)?;
    Ok(text)
}
