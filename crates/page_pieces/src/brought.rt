ghost use Rattle.std.specs.Prelude.{◌≡◌, ◌<◌, ◌≤◌, ◌-◌, true, [], ◌∷◌, ◌++◌, length};
ghost use Rattle.std.specs.Prelude.{slice_index_or, IfOk, OnErr, OnOk};
ghost use Rattle.std.specs.List.Sorted.{IsNonDecreasingBy};
ghost use Rattle.page_pieces.specs.declared.setting.BroughtPrefixes.{BroughtPrefixes as Bringing};
ghost use Rattle.page_pieces.specs.Settings.{brought_at};

use crate::setting::{BroughtPrefixes, Prefixes};
use pg_text::Listed;
use std::alloc::{AllocError, Global};
use std::marker::Model;

/// What the include directives of a file bring. Contracts see the list of it.
#[derive(Drop)]
pub struct Brought {
    items: Listed<BroughtPrefixes>,
    // Whether they stand in the order of their bytes, as what is read does.
    is_in_order: bool,
}

impl Model for Brought {
    ghost use Rattle.std.specs.Prelude.{◌≡◌, true, List};
    ghost use Rattle.std.specs.List.Sorted.{IsNonDecreasingBy};
    ghost use Rattle.page_pieces.specs.declared.setting.BroughtPrefixes.{BroughtPrefixes};

    ghost Value = { List BroughtPrefixes };

    ghost view = { λ b. b.items };

    ghost invariant = { λ b. b.is_in_order ≡ true → IsNonDecreasingBy (λ bringing. bringing.byte) b.items };
}

impl Brought {
    /// Nothing.
    #[tactic(auto, using(crate::proofs::BroughtLemmas::order_none))]
    pub fn empty(alloc: Global) -> Self
        ensures { result ≡ [] }
    {
        Brought {
            items: Listed::empty(alloc),
            is_in_order: true,
        }
    }

    pub fn push(&mut self, bringing: BroughtPrefixes) -> Result<(), AllocError>
        ensures ok { OnOk result (self.new ≡ self.old ++ bringing ∷ []) }
        ensures err { OnErr result (self.new ≡ self.old) }
    {
        let stays = stays_in_order(self.is_in_order, self.items.as_slice(), bringing.byte);
        self.items.push(bringing)?;
        self.is_in_order = stays;
        Ok(())
    }

    pub fn as_slice(&self) -> &[BroughtPrefixes]
        ensures { result.now ≡ self.now }
    {
        self.items.as_slice()
    }

    /// The same list.
    pub fn copy(&self) -> Result<Self, AllocError>
        ensures { IfOk result (λ copy. copy ≡ self.now) }
    {
        Ok(Brought {
            items: self.items.copy()?,
            is_in_order: self.is_in_order,
        })
    }

    /// The prefixes that the include directive with this first byte brings come behind those that
    /// are there.
    pub fn register(&self, byte: u32, prefixes: &mut Prefixes) -> Result<(), AllocError>
        ensures { OnOk result (prefixes.new ≡ prefixes.old ++ brought_at byte self.now) }
    {
        for bringing in self.near(byte) {
            if bringing.byte == byte {
                prefixes.append(&bringing.prefixes)?;
            }
        }
        Ok(())
    }

    // Some of the list, among them all that an include directive with this first byte brings.
    fn near(&self, byte: u32) -> &[BroughtPrefixes]
        ensures { brought_at byte result.now ≡ brought_at byte self.now }
    {
        let all = self.items.as_slice();
        if self.is_in_order {
            at_byte(all, byte)
        } else {
            all
        }
    }
}

// Whether what is brought is still in order with one more behind it that begins at this byte.
fn stays_in_order(is_in_order: bool, brought: &[BroughtPrefixes], byte: u32) -> bool
    ensures before { result ≡ true → is_in_order ≡ true }
    ensures last { result ≡ true → (d : Bringing) → 0 < length brought.now →
        (slice_index_or brought.now (length brought.now - 1) d).byte ≤ byte }
{
    match brought.last() {
        Some(last) => is_in_order && last.byte <= byte,
        None => is_in_order,
    }
}

// Those with this byte, among some in the order of their bytes.
fn at_byte(brought: &[BroughtPrefixes], byte: u32) -> &[BroughtPrefixes]
    requires { IsNonDecreasingBy (λ bringing. bringing.byte) brought.now }
    ensures { brought_at byte result.now ≡ brought_at byte brought.now }
{
    let to = brought.partition_point(|bringing| bringing.byte <= byte);
    let front = &brought[..to];
    let from = front.partition_point(|bringing| bringing.byte < byte);
    &front[from..]
}
