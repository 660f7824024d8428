use edges::{Accept, Accepted, Bind, Sink, Source};
use std::alloc::Global;
use std::io::{ErrorKind, Read, Write};
use std::net::{Ipv4Addr, Net, SocketAddr, SocketAddrV4, TcpListener, TcpStream};
use std::sync::Wait;
use std::test::Fail;
use std::thread::join;
use std::time::Clock;
use tcp_edges::{TcpAccept, TcpBind, TcpSink, TcpSource};

const LOCAL: Ipv4Addr = Ipv4Addr::LOCALHOST;

/// The system whose sockets are tried.
#[derive(Drop)]
struct System<'a, R> {
    rt: &'a R,
    alloc: Global,
}

/// The listeners of readers and of editors, and their ports.
#[derive(Drop)]
struct Listeners<'a, R: Clock> {
    readers: TcpAccept<'a, R>,
    editors: TcpAccept<'a, R>,
    readers_port: u16,
    editors_port: u16,
}

impl<'a, R: Net<Listener = TcpListener, Stream = TcpStream> + Clock + Wait + Sync> System<'a, R> {
    // A port that nobody has now.
    fn free_port(&self) -> Result<u16, Fail> {
        let listener = TcpListener::bind(self.rt, SocketAddr::V4(SocketAddrV4::new(LOCAL, 0)))?;
        Ok(listener.local_addr()?.port())
    }

    // A listener of a free port, and its port.
    fn bound(&self, round: Option<u32>) -> Result<(TcpAccept<'a, R>, u16), Fail> {
        let port = self.free_port()?;
        match TcpBind::new(self.rt, self.alloc).bind(port, round) {
            Ok(listener) => Ok((listener, port)),
            Err(_) => Err(Fail::new("the port can't be had")),
        }
    }

    // Readers' and editors' listeners, whose rounds have one number each.
    fn both_bound(&self) -> Result<Listeners<'a, R>, Fail> {
        let readers_port = self.free_port()?;
        let editors_port = self.free_port()?;
        let mut bind = TcpBind::new(self.rt, self.alloc);
        Ok(Listeners {
            readers: bound_by(&mut bind, readers_port)?,
            editors: bound_by(&mut bind, editors_port)?,
            readers_port,
            editors_port,
        })
    }

    fn connected(&self, port: u16) -> Result<TcpStream, Fail> {
        let address = SocketAddr::V4(SocketAddrV4::new(LOCAL, port));
        Ok(TcpStream::connect(self.rt, address)?)
    }

    // A peer that asks.
    fn asking(&self, port: u16) -> Result<TcpStream, Fail> {
        let mut peer = self.connected(port)?;
        peer.write(b"ask")?;
        Ok(peer)
    }

    // A peer that doesn't wait for what comes.
    fn looking(&self, port: u16) -> Result<TcpStream, Fail> {
        let peer = self.connected(port)?;
        peer.set_nonblocking(true)?;
        Ok(peer)
    }

    fn is_had(&self, port: u16) -> bool {
        TcpBind::new(self.rt, self.alloc).bind(port, None).is_err()
    }

    // Whether a peer is heard and told, and it is seen that it has gone.
    fn goes_both_ways(&self) -> Result<bool, Fail> {
        let (listener, port) = self.bound(None)?;
        let mut peer = self.asking(port)?;
        let (mut source, mut sink) = next(&listener)?;
        let are_both = is_asked(&mut source) && is_told(&mut peer, &mut sink);
        drop(peer);
        Ok(are_both && is_ended(&mut source))
    }

    // Whether a chunk comes to a peer as a whole.
    fn goes_out_whole(&self) -> Result<bool, Fail> {
        let (listener, port) = self.bound(None)?;
        let mut peer = self.looking(port)?;
        let (_source, mut sink) = next(&listener)?;
        comes_whole(&mut peer, &mut sink)
    }

    // Whether a port is had once.
    fn has_once(&self) -> Result<bool, Fail> {
        let (_listener, port) = self.bound(None)?;
        Ok(self.is_had(port))
    }

    // Whether the round is over after its connection, and is there again once it is renewed.
    fn is_renewed(&self) -> Result<bool, Fail> {
        let (mut listener, port) = self.bound(Some(1))?;
        let _first = self.connected(port)?;
        let _second = self.connected(port)?;
        drop(next(&listener)?);
        let was_over = is_over(&listener);
        listener.renew();
        drop(next(&listener)?);
        Ok(was_over)
    }

    // Whether the editors' round is over after the connection of a reader.
    fn is_over_for_both(&self) -> Result<bool, Fail> {
        let on = self.both_bound()?;
        let _peer = self.connected(on.readers_port)?;
        drop(next(&on.readers)?);
        Ok(is_over(&on.editors))
    }

    // Whether a reader is heard and told once, and then no more.
    fn is_kept_for_one(&self) -> Result<bool, Fail> {
        let on = self.both_bound()?;
        let mut peer = self.asking(on.readers_port)?;
        let (mut source, mut sink) = next(&on.readers)?;
        let is_served = is_asked(&mut source) && sink.write(b"tell") == Ok(4);
        let has_more = peer.write(b"more").is_ok();
        Ok(is_served && has_more && is_ended(&mut source))
    }

    // Whether a read of what a peer doesn't say is a fault.
    fn is_fault_of_silence(&self) -> Result<bool, Fail> {
        let (listener, port) = self.bound(None)?;
        let _peer = self.connected(port)?;
        let (mut source, _sink) = next(&listener)?;
        Ok(source.read(&mut [0; 8]).is_err())
    }

    // Whether an editor keeps the round open: readers are served as before until the editor has
    // gone.
    fn is_open_for_an_editor(&self) -> Result<bool, Fail> {
        let on = self.both_bound()?;
        let _editor = self.connected(on.editors_port)?;
        let editing = next(&on.editors)?;
        let _peers = (
            self.connected(on.readers_port)?,
            self.connected(on.readers_port)?,
        );
        drop(next(&on.readers)?);
        let is_open = !is_over(&on.readers);
        drop(editing);
        Ok(is_open && is_over(&on.readers) && is_over(&on.editors))
    }

    // Whether an editor who is silent makes place for one who waits and asks, who is the first of
    // the next round.
    fn makes_place(&self) -> Result<bool, Fail> {
        let mut on = self.both_bound()?;
        let _silent = self.connected(on.editors_port)?;
        let (mut source, sink) = next(&on.editors)?;
        let _asking = self.asking(on.editors_port)?;
        let is_ended = source.read(&mut [0; 8]).is_err();
        drop((source, sink));
        let was_over = is_over(&on.editors);
        on.editors.renew();
        let (mut source, _sink) = next(&on.editors)?;
        Ok(is_ended && was_over && is_asked(&mut source))
    }
}

fn bound_by<'a, R: Net<Listener = TcpListener, Stream = TcpStream> + Clock + Wait + Sync>(
    bind: &mut TcpBind<'a, R>,
    port: u16,
) -> Result<TcpAccept<'a, R>, Fail> {
    match bind.bind(port, Some(1)) {
        Ok(listener) => Ok(listener),
        Err(_) => Err(Fail::new("a port can't be had")),
    }
}

// Whether the round is over.
fn is_over<R: Net<Stream = TcpStream> + Clock + Wait + Sync>(listener: &TcpAccept<'_, R>) -> bool {
    match listener.accept(&mut 0) {
        Ok(Accepted::Closed(_)) => true,
        _ => false,
    }
}

// The two ways of the next connection.
fn next<'a, R: Net<Stream = TcpStream> + Clock + Wait + Sync>(
    listener: &TcpAccept<'a, R>,
) -> Result<(TcpSource<'a, R>, TcpSink), Fail> {
    match listener.accept(&mut 0) {
        Ok(Accepted::Pair(source, sink)) => Ok((source, sink)),
        Ok(Accepted::Closed(_)) => Err(Fail::new("the round is over")),
        Err(_) => Err(Fail::new("no connection")),
    }
}

// Whether that is what comes next.
fn is_asked<S: Source>(source: &mut S) -> bool {
    let mut asked = [0; 8];
    source.read(&mut asked) == Ok(3) && asked == *b"ask\0\0\0\0\0"
}

// Whether the other side has ended.
fn is_ended<S: Source>(source: &mut S) -> bool {
    source.read(&mut [0; 8]) == Ok(0)
}

// Whether a peer is told something, and it comes.
fn is_told(peer: &mut TcpStream, sink: &mut TcpSink) -> bool {
    let is_written = sink.write(b"tell") == Ok(4);
    let mut told = [0; 8];
    is_written && matches!(peer.read(&mut told), Ok(4)) && told == *b"tell\0\0\0\0"
}

// The parts of a chunk, and how many bytes came once each was written.
const PARTS: [(&str, Option<usize>); 3] = [("5\r\n", None), ("abcde", None), ("\r\n", Some(10))];

// How many bytes came, where some did.
fn came_at_once(peer: &mut TcpStream, into: &mut [u8]) -> Result<Option<usize>, Fail> {
    match peer.read(into) {
        Ok(count) => Ok(Some(count)),
        Err(error) if error.kind() == ErrorKind::WouldBlock => Ok(None),
        Err(error) => Err(Fail::from(error)),
    }
}

fn comes_whole(peer: &mut TcpStream, sink: &mut TcpSink) -> Result<bool, Fail> {
    let mut told = [0; 16];
    for &(part, came) in &PARTS {
        let is_written = sink.write(part.as_bytes()) == Ok(part.len());
        if !is_written || came_at_once(peer, &mut told)? != came {
            return Ok(false);
        }
    }
    Ok(told == *b"5\r\nabcde\r\n\0\0\0\0\0\0")
}

#[test]
fn bytes_go_both_ways(rt: HostRuntime) -> Result<(), Fail> {
    let system = System {
        rt: &rt,
        alloc: rt.alloc(),
    };
    assert!(rt; system.goes_both_ways()?);
    Ok(())
}

#[test]
fn a_chunk_goes_out_whole(rt: HostRuntime) -> Result<(), Fail> {
    let system = System {
        rt: &rt,
        alloc: rt.alloc(),
    };
    assert!(rt; system.goes_out_whole()?);
    Ok(())
}

#[test]
fn a_port_is_had_once(rt: HostRuntime) -> Result<(), Fail> {
    let system = System {
        rt: &rt,
        alloc: rt.alloc(),
    };
    assert!(rt; system.has_once()?);
    Ok(())
}

#[test]
fn a_round_is_over_until_it_is_renewed(rt: HostRuntime) -> Result<(), Fail> {
    let system = System {
        rt: &rt,
        alloc: rt.alloc(),
    };
    assert!(rt; system.is_renewed()?);
    Ok(())
}

#[test]
fn a_round_is_over_for_both_listeners(rt: HostRuntime) -> Result<(), Fail> {
    let system = System {
        rt: &rt,
        alloc: rt.alloc(),
    };
    assert!(rt; system.is_over_for_both()?);
    Ok(())
}

#[test]
fn a_kept_connection_ends_with_the_round(rt: HostRuntime) -> Result<(), Fail> {
    let system = System {
        rt: &rt,
        alloc: rt.alloc(),
    };
    assert!(rt; system.is_kept_for_one()?);
    Ok(())
}

#[test]
fn a_silent_peer_is_a_fault(rt: HostRuntime) -> Result<(), Fail> {
    let system = System {
        rt: &rt,
        alloc: rt.alloc(),
    };
    assert!(rt; system.is_fault_of_silence()?);
    Ok(())
}

#[test]
fn a_round_waits_for_an_editor(rt: HostRuntime) -> Result<(), Fail> {
    let system = System {
        rt: &rt,
        alloc: rt.alloc(),
    };
    assert!(rt; system.is_open_for_an_editor()?);
    Ok(())
}

#[test]
fn a_silent_editor_makes_place(rt: HostRuntime) -> Result<(), Fail> {
    let system = System {
        rt: &rt,
        alloc: rt.alloc(),
    };
    assert!(rt; system.makes_place()?);
    Ok(())
}

#[test]
fn a_listener_that_waits_is_woken(rt: HostRuntime) -> Result<(), Fail> {
    let system = System {
        rt: &rt,
        alloc: rt.alloc(),
    };
    let on = system.both_bound()?;
    let peer = system.connected(on.readers_port)?;
    let (woken, _) = join(
        &rt,
        || on.editors.accept(&mut 0).is_ok(),
        || on.readers.accept(&mut 0).is_ok(),
    );
    assert!(rt; woken);
    drop(peer);
    Ok(())
}
