ghost use Rattle.std.specs.Prelude.{◌≡◌, ◌==◌, ◌+◌, ◌-◌, ◌≤◌, ◌<◌, ◌++◌, ◌∷◌, [], length};
ghost use Rattle.std.specs.Prelude.{slice_get, option_copied, IfOk, OnOk};
ghost use Rattle.block_list.specs.Blocks.{AreBlocks, block, joined, room_of};

use crate::Items;
use std::alloc::{AllocError, Global};
use std::marker::Model;
use std::mem;

/// How many items a block holds.
pub const BLOCK: usize = 4_096;

// The first number of blocks whose items a `usize` doesn't count.
const BLOCKS_END: usize = 1 << 52;

/// A list in blocks. Contracts see its items, and for how many more there is room.
#[derive(Drop)]
pub struct BlockList<T> {
    alloc: Global,
    full: Vec<Vec<T>>,
    last: Vec<T>,
    free: Vec<Vec<T>>,
}

impl<T> Model for BlockList<T> {
    ghost use Rattle.std.specs.Prelude.{◌++◌};
    ghost use Rattle.block_list.specs.Blocks.{AreBlocks, Roomy, joined, room_of, roomy, roomy_code};

    ghost Value = { Roomy T };

    ghost coded = { roomy_code T.code };

    ghost view = { λ l. roomy (joined l.full.items ++ l.last.items) (room_of l.last l.free) };

    ghost invariant = { λ l. AreBlocks l.full l.last l.free };
}

impl<T> BlockList<T> {
    /// No items, with room for a block of them.
    pub fn new(alloc: Global) -> Result<Self, AllocError>
    where
        T: Drop,
        ensures items { IfOk result (λ list. list.items ≡ []) }
    {
        Ok(BlockList {
            alloc,
            full: Vec::new(alloc),
            last: Vec::with_capacity(alloc, BLOCK)?,
            free: Vec::new(alloc),
        })
    }

    pub fn len(&self) -> usize
        ensures { result ≡ length self.now.items }
    {
        BLOCK * self.full.len() + self.last.len()
    }

    pub fn is_empty(&self) -> bool
        ensures { result ≡ (length self.now.items == 0) }
    {
        self.len() == 0
    }

    /// The item at a place, in a time that doesn't grow with the list.
    pub fn get(&self, place: usize) -> Option<&T>
        ensures { option_copied result ≡ slice_get self.now.items place }
    {
        match self.full.get(place / BLOCK) {
            Some(block) => block.get(place % BLOCK),
            None => self.last.get(place - BLOCK * self.full.len()),
        }
    }

    /// The items in their order.
    pub fn iter(&self) -> Items<'_, T>
        ensures { result ≡ self.now.items }
    {
        Items::new(&self.full, &self.last)
    }

    /// Makes room for so many items more, block by block. What is there doesn't move.
    pub fn try_reserve(&mut self, count: usize) -> Result<(), AllocError>
    where
        T: Drop,
        ensures items { self.new.items ≡ self.old.items }
        ensures room { self.old.room ≤ self.new.room }
        ensures ok { OnOk result (count ≤ self.new.room) }
    {
        if count <= self.room() {
            return Ok(());
        }
        for _more in 0..count.div_ceil(BLOCK) {
            self.add_block()?;
        }
        Ok(())
    }

    // For how many items more there is room.
    fn room(&self) -> usize
        ensures { result ≡ self.now.room }
    {
        BLOCK - self.last.len() + BLOCK * self.free.len()
    }

    // Room for a block more.
    fn add_block(&mut self) -> Result<(), AllocError>
    where
        T: Drop,
        ensures items { self.new.items ≡ self.old.items }
        ensures room { self.old.room ≤ self.new.room }
        ensures ok { OnOk result (self.new.room ≡ self.old.room + block) }
    {
        if self.full.len() + self.free.len() + 2 >= BLOCKS_END {
            return Err(AllocError);
        }
        let block = Vec::with_capacity(self.alloc, BLOCK)?;
        self.full.try_reserve(self.free.len() + 1)?;
        self.free.push(block)?;
        Ok(())
    }

    /// One item more, for which there is room. It takes no memory.
    pub fn push_reserved(&mut self, item: T)
        requires { 0 < self.old.room }
        ensures items { self.new.items ≡ self.old.items ++ item ∷ [] }
        ensures room { self.new.room ≡ self.old.room - 1 }
    {
        open_block(&mut self.full, &mut self.last, &mut self.free);
        self.last.push_reserved(item);
    }
}

// Where the last block is full, a free one comes in its place.
fn open_block<T>(full: &mut Vec<Vec<T>>, last: &mut Vec<T>, free: &mut Vec<Vec<T>>)
    requires blocks { AreBlocks full.old last.old free.old }
    requires room { 0 < room_of last.old free.old }
    ensures blocks { AreBlocks full.new last.new free.new }
    ensures items { joined full.new.items ++ last.new.items ≡ joined full.old.items ++ last.old.items }
    ensures room { room_of last.new free.new ≡ room_of last.old free.old }
    ensures fits { length last.new.items < block }
{
    if last.len() < BLOCK {
        return;
    }
    let Some(block) = free.pop() else {
        unreachable!()
    };
    let filled = mem::replace(last, block);
    full.push_reserved(filled);
}
