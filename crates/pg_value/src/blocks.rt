ghost use Rattle.std.specs.Prelude.{◌≡◌, ◌<◌, ◌-◌, ◌^◌, ℕ, List, [], get_or, length, map, min};
ghost use Rattle.std.specs.Prelude.{take, drop, option_map, IfOk, IfSome, IsNone, OnOk, OnErr};
ghost use Rattle.pg_value.specs.Attrs.{AreInOrder, entry_at, with_entry, with_value_at};
ghost use Rattle.pg_value.specs.Attrs.{without_entry};
ghost use Rattle.pg_value.specs.Datum.{Datum, rec, entries_of};
ghost use Rattle.pg_value.specs.Depth.{depth_of};
ghost use Rattle.pg_value.specs.ReadEntries.{AreBlocks, joined};
ghost use Rattle.pg_value.specs.ReadPlace.{IsPlaceOf};
ghost use Rattle.pg_value.specs.Value.{datum_of, entry_of};
ghost use Rattle.pg_value.specs.Weight.{weight_of};

use crate::attrs;
use crate::block::Block;
use crate::value::Value;
use pg_text::Text;
use std::alloc::{AllocError, Global};

// A block of so many entries is halved before one more comes.
const FULL: usize = 256;

// So many entries, which no memory holds, can be counted, but not one more.
const MOST: usize = usize::MAX / 2;

// The entries in blocks, which leave room for as many again.
pub fn cut(alloc: Global, entries: &[(Text, Value)]) -> Result<Vec<Block>, AllocError>
    requires { AreInOrder (map entry_of entries.now) }
    ensures same { IfOk result (λ blocks. joined blocks.items ≡ map entry_of entries.now) }
    ensures kept { IfOk result (λ blocks. AreBlocks blocks.items) }
{
    let mut blocks = Vec::new(alloc);
    let mut rest = entries;
    'parts: while !rest.is_empty() {
        let (front, back) = rest.split_at(rest.len().min(FULL / 2));
        blocks.push(Block::new(attrs::copied(alloc, front)?)?)?;
        rest = back;
    }
    Ok(blocks)
}

// The same blocks, which share their entries.
pub fn copied(alloc: Global, blocks: &[Block]) -> Result<Vec<Block>, AllocError>
    ensures { IfOk result (λ copy. copy.items ≡ blocks.now) }
{
    let mut copy = Vec::with_capacity(alloc, blocks.len())?;
    for block in blocks {
        copy.push(block.copy()?)?;
    }
    Ok(copy)
}

// The entries of all blocks in one list.
pub fn listed(alloc: Global, blocks: &[Block]) -> Result<Vec<(Text, Value)>, AllocError>
    ensures { IfOk result (λ listed. map entry_of listed.items ≡ joined blocks.now) }
{
    let mut listed = Vec::new(alloc);
    for block in blocks {
        attrs::push_copies(&mut listed, block.as_slice())?;
    }
    Ok(listed)
}

// How many entries there are.
pub fn count(blocks: &[Block]) -> usize
    requires { AreBlocks blocks.now }
    ensures { result ≡ length (joined blocks.now) }
{
    let mut count = 0;
    for block in blocks {
        count += block.len();
    }
    count
}

// The weight and the depth of a record of all entries.
pub fn measures(blocks: &[Block]) -> (u64, u32)
    ensures weight { result.0 ≡ min (weight_of (rec (entries_of (joined blocks.now)))) (2 ^ 64 - 1) }
    ensures depth { result.1 ≡ min (depth_of (rec (entries_of (joined blocks.now)))) (2 ^ 32 - 1) }
{
    let mut sum: u64 = 16;
    let mut deepest: u32 = 1;
    for block in blocks {
        sum = sum.saturating_add(block.weight() - 16);
        deepest = deepest.max(block.depth());
    }
    (sum, deepest)
}

// In which block the key stands, or would.
fn place(blocks: &[Block], key: &str) -> usize
    requires { 0 < length blocks.now }
    ensures { IsPlaceOf key.now blocks.now result }
{
    let mut low = 1;
    let mut high = blocks.len();
    while low < high {
        let middle = low + (high - low) / 2;
        if blocks[middle].is_behind(key) {
            high = middle;
        } else {
            low = middle + 1;
        }
    }
    low - 1
}

// The block in which the key stands, or would, and its place, where there are blocks.
fn nearest<'a>(blocks: &'a [Block], key: &str) -> Option<(usize, &'a Block)>
    ensures place { IfSome result (λ found. IsPlaceOf key.now blocks.now found.0) }
    ensures block { IfSome result (λ found. found.1.now ≡ get_or blocks.now found.0 []) }
    ensures none { IsNone result → blocks.now ≡ [] }
{
    if blocks.is_empty() {
        return None;
    }
    let at = place(blocks, key);
    Some((at, &blocks[at]))
}

// What stands under the key.
pub fn find<'a>(blocks: &'a [Block], key: &str) -> Option<&'a Value>
    requires { AreBlocks blocks.now }
    ensures { option_map (λ value. datum_of value.now) result ≡ entry_at key.now (joined blocks.now) }
{
    let (_at, block) = nearest(blocks, key)?;
    block.get(key)
}

// The entries from this place on that stand in its block.
pub fn from(blocks: &[Block], place: usize) -> &[(Text, Value)]
    ensures same { map entry_of result.now ≡ take (length result.now) (drop place (joined blocks.now)) }
    ensures some { place < length (joined blocks.now) → 0 < length result.now }
{
    let mut left = place;
    for block in blocks {
        let count = block.len();
        if left < count {
            return attrs::from(block.as_slice(), left);
        }
        left -= count;
    }
    &[]
}

// Halves the block of the key, where it is full.
fn make_room(blocks: &mut Vec<Block>, key: &str) -> Result<(), AllocError>
    requires { AreBlocks blocks.old.items }
    ensures same { joined blocks.new.items ≡ joined blocks.old.items }
    ensures kept { AreBlocks blocks.new.items }
{
    let Some((at, block)) = nearest(blocks, key) else {
        return Ok(());
    };
    if block.len() < FULL {
        return Ok(());
    }
    let (front, back) = block.halves()?;
    blocks.insert(at + 1, back)?;
    blocks[at] = front;
    Ok(())
}

// Puts the value under the key, in the place of what stood there: copies one block. More entries
// than can be counted are refused as if memory ran out.
pub fn put(blocks: &mut Vec<Block>, key: Text, value: Value) -> Result<(), AllocError>
    requires { AreBlocks blocks.old.items }
    ensures ok { OnOk result (joined blocks.new.items
        ≡ with_entry (joined blocks.old.items) key (datum_of value)) }
    ensures err { OnErr result (joined blocks.new.items ≡ joined blocks.old.items) }
    ensures kept { AreBlocks blocks.new.items }
{
    if count(blocks) >= MOST {
        return Err(AllocError);
    }
    make_room(blocks, key.as_str())?;
    let Some((at, block)) = nearest(blocks, key.as_str()) else {
        return push_first(blocks, key, value);
    };
    let changed = block.with(key, value)?;
    blocks[at] = changed;
    Ok(())
}

// Puts the value in the place of the one at this place.
#[inline(never)]
pub fn set_at(blocks: &mut Vec<Block>, at: usize, value: Value) -> Result<(), AllocError>
    requires within { at < length (joined blocks.old.items) }
    requires kept { AreBlocks blocks.old.items }
    ensures ok { OnOk result (joined blocks.new.items
        ≡ with_value_at (joined blocks.old.items) at (datum_of value)) }
    ensures err { OnErr result (joined blocks.new.items ≡ joined blocks.old.items) }
    ensures kept { AreBlocks blocks.new.items }
{
    let key = key_at(blocks, at)?;
    put(blocks, key, value)
}

// A copy of the key at this place.
fn key_at(blocks: &[Block], at: usize) -> Result<Text, AllocError>
    requires { at < length (joined blocks.now) }
    ensures { IfOk result (λ key. (e : List ℕ × Datum) → key ≡ (get_or (joined blocks.now) at e).0) }
{
    from(blocks, at)[0].0.copy()
}

// Puts the value under the key, where there is no block.
fn push_first(blocks: &mut Vec<Block>, key: Text, value: Value) -> Result<(), AllocError>
    requires { blocks.old.items ≡ [] }
    ensures ok { OnOk result (joined blocks.new.items ≡ with_entry [] key (datum_of value)) }
    ensures err { OnErr result (blocks.new.items ≡ blocks.old.items) }
    ensures kept { AreBlocks blocks.new.items }
{
    let mut entries = Vec::new(*blocks.allocator());
    entries.push((key, value))?;
    blocks.push(Block::new(entries)?)?;
    Ok(())
}

// Takes out what stands under the key: copies one block.
pub fn take_out(blocks: &mut Vec<Block>, key: &str) -> Result<(), AllocError>
    requires { AreBlocks blocks.old.items }
    ensures ok { OnOk result (joined blocks.new.items ≡ without_entry (joined blocks.old.items) key.now) }
    ensures err { OnErr result (blocks.new.items ≡ blocks.old.items) }
    ensures kept { AreBlocks blocks.new.items }
{
    let Some((at, block)) = nearest(blocks, key) else {
        return Ok(());
    };
    let rest = block.without(key)?;
    if rest.len() == 0 {
        blocks.remove(at);
    } else {
        blocks[at] = rest;
    }
    Ok(())
}
