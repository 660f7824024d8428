ghost use Rattle.unit_source.specs.Laws.{HasSameRoot};

/// Sites that hold the same at the names of a page or a tag file that was read, the same text or no
/// file, have the same one.
#[tactic(auto, using(crate::proofs::AgreeSplice::root_same))]
pub fn same_root()
    ensures { HasSameRoot }
{}
