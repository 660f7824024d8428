ghost use Rattle.std.specs.Prelude.{◌≡◌, ◌==◌, List, [], ◌∷◌, ◌++◌};
ghost use Rattle.std.specs.Int.{bit_at};
ghost use Rattle.pg_text.specs.Faults.{number_of};
ghost use Rattle.std.specs.List.{find, slice_get};
ghost use Rattle.page_directives.specs.Faults.{fault_if, has_fault, in_order, is_good};

use pg_text::TranslationFault;
use std::marker::Model;

/// The faults at one place. Contracts see them in the order of their numbers, each once.
#[derive(Drop)]
pub struct Faults {
    bits: u32,
}

impl Model for Faults {
    ghost use Rattle.std.specs.Prelude.{List};
    ghost use Rattle.pg_text.specs.declared.translation_fault.TranslationFault.{TranslationFault};
    ghost use Rattle.page_directives.specs.Faults.{at_bits};

    ghost Value = { List TranslationFault };

    ghost view = { λ f. at_bits f.bits };
}

impl Faults {
    /// No fault.
    #[tactic(auto, unfolding(crate::specs::Faults::at_bits, crate::specs::Faults::in_order))]
    pub fn none() -> Self
        ensures { result ≡ in_order [] }
    {
        Faults { bits: 0 }
    }

    /// One fault.
    pub fn one(fault: TranslationFault) -> Self
        ensures { result ≡ in_order (fault ∷ []) }
    {
        Faults {
            bits: 1 << fault.number(),
        }
    }

    /// This fault, where it comes.
    pub fn one_if(comes: bool, fault: TranslationFault) -> Self
        ensures { result ≡ in_order (fault_if comes fault) }
    {
        if comes {
            Faults::one(fault)
        } else {
            Faults::none()
        }
    }

    /// These faults and others.
    pub fn and(self, others: Faults) -> Self
        ensures both { result ≡ in_order (self ++ others) }
        ensures of { (xs ys : List TranslationFault) → self ≡ in_order xs → others ≡ in_order ys →
            result ≡ in_order (xs ++ ys) }
    {
        Faults {
            bits: self.bits | others.bits,
        }
    }

    pub fn contains(&self, fault: TranslationFault) -> bool
        ensures { result ≡ has_fault self.now fault }
    {
        has_bit(self.bits, fault)
    }

    /// The one with the least number.
    pub fn least(&self) -> Option<TranslationFault>
        ensures { result ≡ slice_get self.now 0 }
    {
        least_of(self.bits, &ALL)
    }

    pub fn is_empty(&self) -> bool
        ensures { result ≡ is_good self.now }
    {
        self.least().is_none()
    }
}

// Whether the bit at a fault's number is set.
fn has_bit(bits: u32, fault: TranslationFault) -> bool
    ensures { result ≡ (bit_at bits (number_of fault) == 1) }
{
    (bits >> fault.number()) % 2 == 1
}

// The first of these faults whose bit is set.
fn least_of(bits: u32, faults: &[TranslationFault]) -> Option<TranslationFault>
    ensures { result ≡ find (λ fault. bit_at bits (number_of fault) == 1) faults.now }
{
    for fault in faults {
        if has_bit(bits, *fault) {
            return Some(*fault);
        }
    }
    None
}

// All faults in the order of their numbers.
static ALL: [TranslationFault; 21] = [
    TranslationFault::NotUtf8,
    TranslationFault::Unclosed,
    TranslationFault::WrongEnd,
    TranslationFault::Scripting,
    TranslationFault::XmlSyntax,
    TranslationFault::BadDirective,
    TranslationFault::Clash,
    TranslationFault::NoFile,
    TranslationFault::IncludeCycle,
    TranslationFault::BadTaglib,
    TranslationFault::NoTag,
    TranslationFault::BadAttribute,
    TranslationFault::BadNesting,
    TranslationFault::BadBody,
    TranslationFault::ElSyntax,
    TranslationFault::ElNotHere,
    TranslationFault::NoFunction,
    TranslationFault::Decimal,
    TranslationFault::LeftOut,
    TranslationFault::TooLarge,
    TranslationFault::UnbufferedNoFlush,
];
