use crate::parts::Parts;
use conversation::{Ended, walk};
use edges::{Failed, Sink, Source};
use std::cell::Cell;
use std::test::Fail;

const REQUEST: &[u8] = b"GET / HTTP/1.1\r\nHost: h\r\n\r\n";

// Gives one request at each read, three in all, and ends the input where one that it gave wasn't
// answered yet.
#[derive(Drop)]
struct Waiting<'a> {
    answered: &'a Cell<u64>,
    given: u64,
}

impl<'a> Source for Waiting<'a> {
    ghost use Rattle.std.specs.Prelude.{None};

    ghost left = { λ s. None };

    ghost faults = { λ s. 0 };

    ghost unfailing = { λ s. ⊥ };

    fn read(&mut self, into: &mut [u8]) -> Result<usize, Failed> {
        if self.given == 3 || self.answered.get() < self.given {
            return Ok(0);
        }
        self.given = self.given.saturating_add(1);
        let count = into.len().min(REQUEST.len());
        into[..count].copy_from_slice(&REQUEST[..count]);
        Ok(count)
    }
}

// Counts the responses that are whole.
#[derive(Drop)]
struct Noting<'a> {
    answered: &'a Cell<u64>,
}

impl<'a> Sink for Noting<'a> {
    ghost use Rattle.std.specs.Prelude.{None};

    ghost taken = { λ s. None };

    ghost faults = { λ s. 0 };

    fn write(&mut self, from: &[u8]) -> Result<usize, Failed> {
        if from == b">".as_slice() {
            self.answered.set(self.answered.get().saturating_add(1));
        }
        Ok(from.len())
    }
}

#[test]
fn a_request_is_answered_before_the_next_is_read(rt: HostRuntime) -> Result<(), Fail> {
    let answered = Cell::new(0);
    let mut source = Waiting {
        answered: &answered,
        given: 0,
    };
    let mut sink = Noting {
        answered: &answered,
    };
    let (mut port, mut clock, mut count) = (0, 0, 0);
    let ended = walk(
        rt.alloc(),
        &mut Parts,
        &mut port,
        &mut clock,
        &mut count,
        &mut source,
        &mut sink,
    );
    assert!(rt; ended == Ended::Done && answered.get() == 3);
    Ok(())
}
