ghost use Rattle.std.specs.Prelude.{◌≡◌, ◌+◌, ◌≤◌, [], length, drop, take, IfOk, OnOk};
ghost use Rattle.std.specs.Io.KnownBytes.{IsAtEnd};
ghost use Rattle.edges.specs.Faults.{Rose};
ghost use Rattle.http_in.specs.Faults.{IfFault};
ghost use Rattle.http_in.specs.Reading.{Moves};

use crate::HttpFault;
use crate::limits::MAX_PIECE_BYTES;
use edges::Source;
use pg_text::Failure;
use std::alloc::{AllocError, Global};
use std::marker::Model;

/// Bytes that were read and not used. Contracts see the list of them.
#[derive(Drop)]
pub struct ReadBuffer {
    bytes: Vec<u8>,
    // How many of them were used.
    used: usize,
    // How many were read. What stands behind them is room.
    read: usize,
}

impl Model for ReadBuffer {
    ghost use Rattle.std.specs.Prelude.{List, ℕ, ◌≤◌, drop, take, length};

    ghost Value = { List ℕ };

    ghost view = { λ b. drop b.used (take b.read b.bytes.items) };

    ghost invariant = { λ b. (b.used ≤ b.read) × (b.read ≤ length b.bytes.items) };
}

impl ReadBuffer {
    pub fn new(alloc: Global) -> Self
        ensures { result ≡ [] }
    {
        ReadBuffer {
            bytes: Vec::new(alloc),
            used: 0,
            read: 0,
        }
    }

    pub fn as_slice(&self) -> &[u8]
        ensures { result.now ≡ self.now }
    {
        &self.bytes[..self.read][self.used..]
    }

    pub fn len(&self) -> usize
        ensures { result ≡ length self.now }
    {
        self.read - self.used
    }

    // Drops the first bytes. They stand there until their room is needed.
    pub fn drop_front(&mut self, count: usize)
        requires { count ≤ length self.old }
        ensures { self.new ≡ drop count self.old }
    {
        self.used += count;
    }

    // Reads the next piece, and answers how many bytes it has: none where the input has ended.
    // Where memory runs out nothing was read.
    pub fn fill<S: Source>(&mut self, source: &mut S) -> Result<usize, Failure<HttpFault>>
        ensures more { IfOk result (λ count. length self.new ≡ length self.old + count) }
        ensures ended { IfOk result (λ count. count ≡ 0 → (self.new ≡ self.old) × IsAtEnd (S.left source.new)) }
        ensures bytes { Moves (S.left source.old) (S.left source.new) self.old self.new }
        ensures failed { IfFault result (λ fault. (fault ≡ HttpFault.ReadFault) × (self.new ≡ self.old)
            × Rose (S.faults source.old) (S.faults source.new)) }
        ensures little { length self.new ≤ length self.old + MAX_PIECE_BYTES }
        ensures later { S.faults source.old ≤ S.faults source.new }
        ensures unfailing { S.unfailing source.old → IfFault result (λ _. ⊥) × S.unfailing source.new }
    {
        self.move_to_front();
        let end = self.read + MAX_PIECE_BYTES;
        lengthen(&mut self.bytes, end)?;
        let Ok(count) = source.read(&mut self.bytes[self.read..end]) else {
            return Err(Failure::Fault(HttpFault::ReadFault));
        };
        self.read += count;
        Ok(count)
    }

    // What wasn't used comes to the front where a piece has no room behind it.
    fn move_to_front(&mut self)
        ensures { self.new ≡ self.old }
    {
        if self.used == 0 || self.bytes.len() - self.read >= MAX_PIECE_BYTES {
            return;
        }
        self.bytes.copy_within(self.used..self.read, 0);
        self.read -= self.used;
        self.used = 0;
    }
}

// Makes the list at least so many bytes long, by zeros at its end.
fn lengthen(bytes: &mut Vec<u8>, len: usize) -> Result<(), AllocError>
    ensures front { take (length bytes.old.items) bytes.new.items ≡ bytes.old.items }
    ensures long { OnOk result (len ≤ length bytes.new.items) }
{
    if len <= bytes.len() {
        return Ok(());
    }
    bytes.resize(len, 0)?;
    Ok(())
}
