ghost use Rattle.std.specs.Prelude.{◌≡◌, ◌++◌, []};
ghost use Rattle.std.specs.Iterator.{YieldsFirstRef, item_count};
ghost use Rattle.block_list.specs.Blocks.{joined};

use std::marker::Model;

/// The items of a list in blocks, in their order. Contracts see those that are left.
#[derive(Drop)]
pub struct Items<'a, T> {
    block: &'a [T],
    full: &'a [Vec<T>],
    last: &'a [T],
}

impl<'a, T> Model for Items<'a, T> {
    ghost use Rattle.std.specs.Prelude.{List, ◌++◌};
    ghost use Rattle.block_list.specs.Blocks.{joined};

    ghost Value = { List T };

    ghost view = { λ i. i.block.now ++ joined i.full.now ++ i.last.now };
}

impl<'a, T> Items<'a, T> {
    /// Those of these blocks, and of the last.
    pub(crate) fn new(full: &'a [Vec<T>], last: &'a [T]) -> Self
        ensures { result ≡ joined full.now ++ last.now }
    {
        Items {
            block: &[],
            full,
            last,
        }
    }
}

impl<'a, T> Iterator for Items<'a, T> {
    type Item = &'a T;

    ghost next_gives = { YieldsFirstRef (λ i. i) };

    ghost remaining = { item_count (λ i. i) };

    fn next(&mut self) -> Option<&'a T> {
        let (block, full) = next_block(self.block, self.full);
        self.full = full;
        self.block = block;
        if let Some((first, others)) = block.split_first() {
            self.block = others;
            return Some(first);
        }
        let (first, others) = self.last.split_first()?;
        self.last = others;
        Some(first)
    }
}

// The first of these blocks that has items, and the full ones behind it; no items where there are
// none.
fn next_block<'a, T>(block: &'a [T], full: &'a [Vec<T>]) -> (&'a [T], &'a [Vec<T>])
    ensures items { result.0.now ++ joined result.1.now ≡ block.now ++ joined full.now }
    ensures none { result.0.now ≡ [] → result.1.now ≡ [] }
{
    if !block.is_empty() {
        return (block, full);
    }
    match full.split_first() {
        Some((block, full)) => next_block(block, full),
        None => (block, full),
    }
}
