ghost use Rattle.std.specs.Prelude.{◌<◌};
ghost use Rattle.journal_reader.specs.Reads.{Sorts};

use crate::numbers::array;
use crate::part::Part;
use crate::unread::Unread;
use edges::Source;
use pg_text::Failure;
use pg_value::Attrs;
use site_words::{KeptSession, KeptSessions, Opening};
use source_tree::Tree;
use std::alloc::Global;

/// The seed of a site.
pub(crate) type Seed = [u8; 32];

/// The counts of an opening: limit, passes, idle time, version, Begins, Freshes, moment.
type Counts = ((((((u64, Passes), u64), u64), u64), u64), u64);

/// How many passes there are. A journal has it as a number.
#[derive(Clone, Copy)]
struct Passes {
    count: u8,
}

impl Part for Seed {
    ghost use Rattle.std.specs.Prelude.{◌≡◌, length};

    ghost is = { λ seed. length seed ≡ 32 };

    ghost text = { λ seed. seed };

    fn read<S: Source>(
        alloc: Global,
        source: &mut S,
        room: &mut u64,
    ) -> Result<Self, Failure<Unread>> {
        let seed = array::<S, 32>(alloc, source, room)?;
        Ok(seed)
    }
}

impl Part for Passes {
    ghost use Rattle.site_journal.specs.Codes.{of_number};

    ghost is = { λ passes. passes.count < 256 };

    ghost text = { λ passes. of_number passes.count };

    fn read<S: Source>(
        alloc: Global,
        source: &mut S,
        room: &mut u64,
    ) -> Result<Self, Failure<Unread>> {
        let number = u64::read(alloc, source, room)?;
        passes_of(number)
    }
}

// This number of passes, where it is one of a byte.
fn passes_of(number: u64) -> Result<Passes, Failure<Unread>>
    ensures { Sorts (λ passes. passes.count) (λ number. number < 256) number result }
{
    if number < 256 {
        Ok(Passes {
            count: number as u8,
        })
    } else {
        Err(Failure::Fault(Unread::NotThere))
    }
}

impl Part for KeptSession {
    ghost use Rattle.site_journal.specs.Journal.{of_session};
    ghost use Rattle.site_journal.specs.Reading.{IsSession};

    ghost is = { λ session. IsSession session };

    ghost text = { λ session. of_session session };

    fn read<S: Source>(
        alloc: Global,
        source: &mut S,
        room: &mut u64,
    ) -> Result<Self, Failure<Unread>> {
        let parts = <((u64, u64), Attrs)>::read(alloc, source, room)?;
        let ((number, used), attrs) = parts;
        Ok(KeptSession {
            number,
            used,
            attrs,
        })
    }
}

impl Part for Opening {
    ghost use Rattle.site_journal.specs.Journal.{of_opening};
    ghost use Rattle.site_journal.specs.Reading.{IsOpening};

    ghost is = { λ opening. IsOpening opening };

    ghost text = { λ opening. of_opening opening };

    fn read<S: Source>(
        alloc: Global,
        source: &mut S,
        room: &mut u64,
    ) -> Result<Self, Failure<Unread>> {
        let parts = <((((Seed, Counts), Attrs), Tree), KeptSessions)>::read(alloc, source, room)?;
        let ((((seed, counts), app), tree), sessions) = parts;
        let ((((((limit, passes), idle), version), begins), freshes), moment) = counts;
        Ok(Opening {
            seed,
            limit,
            passes: passes.count,
            idle,
            version,
            begins,
            freshes,
            moment,
            app,
            tree,
            sessions,
        })
    }
}
