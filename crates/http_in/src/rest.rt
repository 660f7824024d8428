ghost use Rattle.std.specs.Prelude.{◌≡◌, ◌+◌, ◌==◌, ◌≤◌, ◌<◌, [], length, drop, IfOk, IfSome};
ghost use Rattle.std.specs.Prelude.{IsTrue, false};
ghost use Rattle.std.specs.Io.KnownBytes.{IsAtEnd};
ghost use Rattle.edges.specs.Faults.{Rose};
ghost use Rattle.http_in.specs.Faults.{IfFault};
ghost use Rattle.http_in.specs.HeadEnd.{front_of, head_len};

use crate::HttpFault;
use crate::head_end::front_of;
use crate::limits::{MAX_HEAD_BYTES, MAX_PIECE_BYTES};
use crate::read_buffer::ReadBuffer;
use crate::scan::Scan;
use edges::Source;
use pg_text::Failure;
use std::alloc::Global;
use std::marker::Model;

/// The bytes that were read from a source and not used yet. Contracts see the list of them.
#[derive(Drop)]
pub struct Rest {
    bytes: ReadBuffer,
    // How far they were looked through for the end of the first head.
    scan: Scan,
}

impl Model for Rest {
    ghost use Rattle.std.specs.Prelude.{List, ℕ};
    ghost use Rattle.http_in.specs.HeadEnd.{front_of};
    ghost use Rattle.http_in.specs.Scan.{HasLooked};

    ghost Value = { List ℕ };

    ghost view = { λ r. r.bytes };

    ghost invariant = { λ r. HasLooked r.scan (front_of r.bytes) };
}

impl Rest {
    ghost use Rattle.http_in.specs.Reading.{Moves};

    /// No bytes.
    pub fn new(alloc: Global) -> Self
        ensures { result ≡ [] }
    {
        Rest {
            bytes: ReadBuffer::new(alloc),
            scan: Scan::Pairs(0),
        }
    }

    pub fn as_slice(&self) -> &[u8]
        ensures { result.now ≡ self.now }
    {
        self.bytes.as_slice()
    }

    pub fn len(&self) -> usize
        ensures { result ≡ length self.now }
    {
        self.bytes.len()
    }

    pub fn is_empty(&self) -> bool
        ensures { result ≡ (length self.now == 0) }
    {
        self.bytes.len() == 0
    }

    // The length of the head that ends among the first bytes. What was looked through before isn't
    // looked at again.
    pub(crate) fn head_len(&mut self) -> Option<usize>
        ensures value { result ≡ head_len (front_of self.old) }
        ensures within { IfSome result (λ len. (len ≤ MAX_HEAD_BYTES) × (len ≤ length self.old)) }
        ensures same { self.new ≡ self.old }
    {
        self.scan.head_len(front_of(self.bytes.as_slice()))
    }

    // Drops the first bytes. The others count as not looked through.
    pub(crate) fn drop_front(&mut self, count: usize)
        requires { count ≤ length self.old }
        ensures { self.new ≡ drop count self.old }
    {
        self.bytes.drop_front(count);
        self.scan = Scan::Pairs(0);
    }

    // Reads the next piece. The answer says whether any came: if none did, the input has ended.
    // Where memory runs out nothing was read.
    pub(crate) fn fill<S: Source>(&mut self, source: &mut S) -> Result<bool, Failure<HttpFault>>
        ensures more { IfOk result (λ came. IsTrue came → length self.old < length self.new) }
        ensures ended { IfOk result (λ came. came ≡ false →
            (self.new ≡ self.old) × IsAtEnd (S.left source.new)) }
        ensures bytes { Moves (S.left source.old) (S.left source.new) self.old self.new }
        ensures failed { IfFault result (λ fault. (fault ≡ HttpFault.ReadFault) × (self.new ≡ self.old)
            × Rose (S.faults source.old) (S.faults source.new)) }
        ensures little { length self.new ≤ length self.old + MAX_PIECE_BYTES }
        ensures later { S.faults source.old ≤ S.faults source.new }
        ensures unfailing { S.unfailing source.old → IfFault result (λ _. ⊥) × S.unfailing source.new }
    {
        Ok(self.bytes.fill(source)? > 0)
    }
}
