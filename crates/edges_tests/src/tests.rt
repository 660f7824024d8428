ghost use Rattle.std.specs.Prelude.{◌≡◌, ◌<◌, IfOk};

use edges::{
    Accept, Accepted, Bind, Clock, Clocks, Counting, Failed, Gate, MemClock, MemSink, MemSource,
    NotedClock, OpenGate, ReadSource, Sink, Source, Steps, StillClock, Unseen, WallClocks,
    WriteSink,
};
use std::alloc::AllocError;
use std::io;
use std::io::{Cursor, Read, Write};
use std::marker::Brand;
use std::sync::ledger::{Blank, Ledger};
use std::test::Fail;

// How many bytes were read or written at a call.
type Count = Result<usize, Failed>;

// Whether a source answers reads so, one after the other.
fn gives<S: Source>(source: &mut S, counts: &[Count]) -> bool {
    let mut piece = [0u8; 8];
    let mut is_so = true;
    for wanted in counts {
        is_so = is_so && source.read(&mut piece) == *wanted;
    }
    is_so
}

// Whether a sink answers writes of this piece so, one after the other.
fn takes<S: Sink>(sink: &mut S, piece: &[u8], counts: &[Count]) -> bool {
    let mut is_so = true;
    for wanted in counts {
        is_so = is_so && sink.write(piece) == *wanted;
    }
    is_so
}

// Whether a clock answers so, one moment after the other.
fn tells<C: Clock>(clock: &mut C, moments: &[u64]) -> bool {
    let mut is_so = true;
    for wanted in moments {
        is_so = is_so && clock.now() == *wanted;
    }
    is_so
}

#[test]
fn a_source_in_memory_gives_pieces_and_fails_by_number(rt: HostRuntime) -> Result<(), Fail> {
    let bytes = b"abc".to_vec(rt.alloc())?;
    let mut source = MemSource::new(bytes, 2, vec![in rt.alloc(); 1]?);
    assert!(rt; gives(&mut source, &[Ok(2), Err(Failed), Ok(1), Ok(0)]));
    Ok(())
}

#[test]
fn a_sink_in_memory_takes_all_and_fails_by_number(rt: HostRuntime) -> Result<(), Fail> {
    let mut sink = MemSink::new(rt.alloc(), vec![in rt.alloc(); 1]?);
    let takes_all = takes(&mut sink, b"hi", &[Ok(2), Err(Failed), Ok(2)]);
    assert!(rt; takes_all && sink.taken() == b"hihi".as_slice());
    Ok(())
}

#[test]
fn readers_and_writers_of_the_library_serve(rt: HostRuntime) {
    let mut source = ReadSource::new(Cursor::new(b"abc".as_slice()));
    let gives_all = gives(&mut source, &[Ok(3), Ok(0)]);
    let mut sink = WriteSink::new(Vec::<u8>::new(rt.alloc()));
    assert!(rt; gives_all && takes(&mut sink, b"abc", &[Ok(3)]));
}

// A reader and a writer that fail once, and a writer that then takes nothing.
#[derive(Drop)]
struct Halting {
    failed: bool,
}

impl Halting {
    fn answer(&mut self) -> io::Result<usize>
        ensures { IfOk result (λ n. n ≡ 0) }
    {
        if self.failed {
            return Ok(0);
        }
        self.failed = true;
        Err(io::Error::from(io::ErrorKind::Interrupted))
    }
}

impl Read for Halting {
    fn read(&mut self, _into: &mut [u8]) -> io::Result<usize> {
        self.answer()
    }
}

impl Write for Halting {
    fn write(&mut self, _from: &[u8]) -> io::Result<usize> {
        self.answer()
    }

    fn flush(&mut self) -> io::Result<()> {
        Ok(())
    }
}

// An interruption is an error too, and so is a 0 for a piece that isn't empty.
#[test]
fn errors_and_pieces_that_are_not_taken_are_failures(rt: HostRuntime) {
    let mut source = ReadSource::new(Halting { failed: false });
    let gives_none = gives(&mut source, &[Err(Failed), Ok(0)]);
    let mut sink = WriteSink::new(Halting { failed: false });
    let takes_none = takes(&mut sink, b"ab", &[Err(Failed), Err(Failed)]);
    assert!(rt; gives_none && takes_none && takes(&mut sink, b"", &[Ok(0)]));
}

#[test]
fn a_clock_in_memory_keeps_its_last_moment(rt: HostRuntime) -> Result<(), Fail> {
    let mut clock = MemClock::new(Vec::from_array(rt.alloc(), [5, 3])?);
    assert!(rt; tells(&mut clock, &[5, 3, 3]) && clock.left() == 1);
    OpenGate.pass(0);
    Ok(())
}

#[test]
fn a_clock_notes_what_another_answers(rt: HostRuntime) -> Result<(), Fail> {
    let moments = Vec::from_array(rt.alloc(), [5, 3])?;
    let mut clock = NotedClock::new(rt.alloc(), MemClock::new(moments));
    let is_new = matches!(clock.noted(), Some([]));
    let is_told = tells(&mut clock, &[5, 3, 3]);
    assert!(rt; is_new && is_told && matches!(clock.noted(), Some([5, 3, 3])));
    Ok(())
}

// The moment of a clock that was made.
fn first_moment<W: Clocks>(clocks: &W) -> u64 {
    clocks.clock().now()
}

#[test]
fn a_clock_that_stands_makes_such_clocks(rt: HostRuntime) {
    assert_eq!(rt; first_moment(&StillClock { moment: 7 }), 7);
}

// The first moment is in one of the years 2024 to 2099.
#[test]
fn the_clock_of_the_system_tells_seconds_since_1970(rt: HostRuntime) {
    let moment = first_moment(&WallClocks { rt: &rt });
    assert!(rt; (1_704_067_200..4_102_444_800).contains(&moment));
}

// A listener whose rounds are over at once.
#[derive(Clone, Copy, Drop)]
struct Quiet {
    port: u16,
}

impl Accept for Quiet {
    type From = MemSource;

    type Into = MemSink;

    type Closing = u64;

    fn accept(&self, _faults: &mut u64) -> Result<Accepted<MemSource, MemSink, u64>, Failed> {
        Ok(Accepted::Closed(1))
    }

    fn renew(&mut self) {}
}

// Binds each port but 0.
#[derive(Drop)]
struct Ports {
    faults: u64,
}

impl Bind for Ports {
    type On = Quiet;

    ghost faults = { λ ports. ports.faults };

    ghost bound_to = { λ on. on.port };

    fn bind(&mut self, port: u16, _round: Option<u32>) -> Result<Quiet, Failed> {
        if port == 0 {
            self.faults = self.faults.saturating_add(1);
            return Err(Failed);
        }
        Ok(Quiet { port })
    }
}

// Binds a port, and says whether its round was over at once, and then again in a new one.
fn is_quiet<B: Bind>(ports: &mut B, port: u16) -> Result<bool, Failed> {
    let mut listener = ports.bind(port, Some(0))?;
    let mut faults = 0;
    let first = listener.accept(&mut faults)?;
    listener.renew();
    let second = listener.accept(&mut faults)?;
    Ok(matches!(first, Accepted::Closed(_)) && matches!(second, Accepted::Closed(_)))
}

#[test]
fn a_listener_gives_its_mark(rt: HostRuntime) {
    let mut ports = Ports { faults: 0 };
    for &(port, wanted) in &[(80, Ok(true)), (0, Err(Failed))] {
        assert_eq!(rt; is_quiet(&mut ports, port), wanted);
    }
}

// Counts 2 and 3, and tells what is kept.
fn counted<N: Ledger>(blank: Blank) -> u64
    requires name { blank.name ≡ N.name }
    requires parts { blank.parts ≡ N.parts }
    requires some { 0 < N.parts }
{
    let mut steps = Steps::<Counting<N>>::counting(blank);
    steps.tick(2);
    steps.tick(3);
    steps.count()
}

fn unseen<N: Ledger>(blank: Blank)
    requires name { blank.name ≡ N.name }
    requires parts { blank.parts ≡ N.parts }
    requires some { 0 < N.parts }
{
    let mut steps = Steps::<Unseen<N>>::unseen(blank);
    steps.tick(2);
}

#[test]
fn a_count_is_kept_where_asked(rt: HostRuntime) {
    assert_eq!(rt; counted::<Brand>(Blank::new(1)), 5);
    unseen::<Brand>(Blank::new(1));
}
