ghost use Rattle.unit_words.specs.Laws.{HasFirstFault, HasNamesOfReading, HasRisingNumbers};
ghost use Rattle.unit_words.specs.Laws.{HasSameUnit};

use unit_source::same_root;

/// The fault of a unit is the first that reading meets, and the numbers of faults at one place
/// rise. A unit depends on all names that reading meets and on no others, and sites that hold the
/// same at these have the same unit.
#[tactic(auto, using(crate::proofs::Least::first_is_least, crate::proofs::Rising::rising, crate::proofs::AgreeUnit::same_unit))]
pub fn unit_laws()
    ensures first { HasFirstFault }
    ensures rising { HasRisingNumbers }
    ensures names { HasNamesOfReading }
    ensures same { HasSameUnit }
{
    same_root();
}
