use crate::recorded::record_told;
use std::test::Fail;

// Two requests of a file that isn't there, and then one on another connection.
const CONNECTIONS: &[u8] =
    b"56\nGET /a HTTP/1.1\r\nHost: x\r\n\r\nGET /a HTTP/1.1\r\nHost: x\r\n\r\n28\nGET /a HTTP/1.1\r\nHost: x\r\n\r\n";

// The moments of both talks.
const FIRST: &[u8] = b"\0\0\0\0\0\0\0\x02\0\0\0\0\0\0\0\x05\0\0\0\0\0\0\0\x09";

const SECOND: &[u8] = b"\0\0\0\0\0\0\0\x01\0\0\0\0\0\0\0\x0c";

// The moments are those of the clock, which goes on from one connection to the next.
#[test]
fn talks_have_the_moments_of_the_clock(rt: HostRuntime) -> Result<(), Fail> {
    let (status, text) = record_told(rt.alloc(), CONNECTIONS, 4_096, &[5, 9, 12], &[])?;
    let first = text.windows(24).filter(|bytes| *bytes == FIRST);
    let second = text.windows(16).filter(|bytes| *bytes == SECOND);
    assert!(rt; (status, first.count(), second.count()) == (0, 1, 1));
    Ok(())
}
