use crate::word::Word;
use pg_text::Failure;
use pg_value::Attrs;
use site_core::{Site, sound};
use site_words::{KeptSessions, Opening};
use source_tree::Tree;
use std::alloc::Global;

/// The limit of a journal that never gets full here.
pub const AMPLE: u64 = 2_147_483_648;

/// No site may have the opening.
#[derive(Debug, Drop)]
pub struct Unsound;

/// A site of this seed, whose journal weighs at most `limit`, for so many passes, with an idle time
/// of 1,800 seconds.
pub fn seeded(
    alloc: Global,
    seed: [u8; 32],
    limit: u64,
    passes: u8,
) -> Result<Site<Word>, Failure<Unsound>> {
    let opening = Opening {
        seed,
        limit,
        passes,
        idle: 1_800,
        version: 0,
        begins: 0,
        freshes: 0,
        moment: 0,
        app: Attrs::empty(alloc),
        tree: Tree::new(alloc),
        sessions: KeptSessions::empty(alloc),
    };
    if !sound(&opening) {
        return Err(Failure::Fault(Unsound));
    }
    Ok(Site::resume(alloc, opening)?)
}

/// Such a site, whose seed is all noughts.
pub fn opened(alloc: Global, limit: u64, passes: u8) -> Result<Site<Word>, Failure<Unsound>> {
    seeded(alloc, [0; 32], limit, passes)
}
