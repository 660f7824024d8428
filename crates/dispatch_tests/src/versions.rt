ghost use Rattle.std.specs.Prelude.{◌≡◌, ◌<◌, All, IfSome};
ghost use Rattle.pass_course.specs.Course.{IsIdle};
ghost use Rattle.turn_table.specs.Passes.{IsPassOf};

use crate::asking::connect;
use crate::opening::{AMPLE, edits_of, resumed};
use crate::preceded::Preceded;
use crate::publishing::Publishing;
use compiled_pages::Made;
use edges::{MemClock, OpenGate, Steps, Unseen};
use site_shared::{SharedPort, SharedSite, SitePasses, start};
use site_words::Port;
use source_tree::Edits;
use std::alloc::Global;
use std::marker::Brand;
use std::sync::Wait;
use std::sync::ledger::{Blank, Ledger};
use std::test::Fail;

// Files of the version 3, and what is put for the version 4.
const FILES: [(&str, &str); 2] = [
    (
        "/a.jsp",
        "<%@ page session=\"false\" %>a<jsp:include page=\"/inc.jsp\"/>",
    ),
    ("/inc.jsp", "<%@ page session=\"false\" %>old"),
];

const CHANGED: [(&str, &str); 1] = [("/inc.jsp", "<%@ page session=\"false\" %>new")];

// A connection that asks for the page once, and one that does so twice.
const ONCE: &str = "GET /a.jsp HTTP/1.1\r\nHost: x\r\n\r\n";

const TWICE: &str = "GET /a.jsp HTTP/1.1\r\nHost: x\r\n\r\nGET /a.jsp HTTP/1.1\r\nHost: x\r\n\r\n";

// The version that is published during the first request of a connection, how that connection ends
// and what it is answered, and then one over the port of a pass that has seen nothing of all this.
const TOLD: &str = "Some(4) Done \
    HTTP/1.1 200 OK\r\nContent-Type: text/html;charset=UTF-8\r\nContent-Length: 4\r\n\r\naold\
    HTTP/1.1 200 OK\r\nContent-Type: text/html;charset=UTF-8\r\nContent-Length: 4\r\n\r\nanew Done \
    HTTP/1.1 200 OK\r\nContent-Type: text/html;charset=UTF-8\r\nContent-Length: 4\r\n\r\nanew";

// The port of one of these passes, which it takes out.
fn port_of<'a, R: Wait>(
    rt: &'a R,
    site: &'a SharedSite<Made, OpenGate>,
    passes: &mut SitePasses<Made>,
) -> Option<SharedPort<'a, Made, OpenGate, R>>
    requires from { All (IsPassOf site.now) passes.old.items }
    requires idle { All (λ pass. IsIdle site.now.opening pass.number pass.seen) passes.old.items }
    ensures from { All (IsPassOf site.now) passes.new.items }
    ensures still { All (λ pass. IsIdle site.now.opening pass.number pass.seen) passes.new.items }
    ensures idle { IfSome result (λ port. IsIdle port.actor.site.now.opening port.actor.pass.number
        port.actor.pass.seen) }
{
    let pass = passes.pop()?;
    Some(site.port(rt, pass))
}

// What comes of a connection over this port, whose other pass publishes while the first request is
// under way, and then of one over the port of a third pass.
fn talked<N: Ledger, P: Port<Made>, Q: Port<Made>, T: Port<Made>>(
    alloc: Global,
    blank: Blank,
    port: &mut Preceded<P, Publishing<'_, Q>>,
    third: &mut T,
) -> Result<String, Fail>
    requires name { blank.name ≡ N.name }
    requires parts { blank.parts ≡ N.parts }
    requires some { 0 < N.parts }
    requires idle { IsIdle (P.opening port.old.port) (P.pass port.old.port) (P.seen port.old.port) }
    requires third { IsIdle (T.opening third.old) (T.pass third.old) (T.seen third.old) }
{
    let mut clock = MemClock::new(vec![in alloc; 0, 1, 2]?);
    let mut steps = Steps::<Unseen<N>>::unseen(blank);
    let first = connect(alloc, port, TWICE, &mut clock, &mut steps)?;
    let second = connect(alloc, third, ONCE, &mut clock, &mut steps)?;
    let published = port.before.published;
    Ok(format!(in alloc; "{published:?} {first} {second}")?)
}

// The same over a shared site of these passes, of which one publishes the edits.
fn on_site<N: Ledger, R: Wait>(
    rt: &R,
    alloc: Global,
    blank: Blank,
    site: &SharedSite<Made, OpenGate>,
    passes: &mut SitePasses<Made>,
    edits: &Edits,
) -> Result<String, Fail>
    requires name { blank.name ≡ N.name }
    requires parts { blank.parts ≡ N.parts }
    requires some { 0 < N.parts }
    requires from { All (IsPassOf site.now) passes.old.items }
    requires idle { All (λ pass. IsIdle site.now.opening pass.number pass.seen) passes.old.items }
{
    let other = port_of(rt, site, passes);
    let port = port_of(rt, site, passes);
    let third = port_of(rt, site, passes);
    let (Some(other), Some(port), Some(mut third)) = (other, port, third) else {
        return Err(Fail::new("a pass is missing"));
    };
    let mut port = Preceded {
        port,
        before: Publishing {
            port: other,
            edits,
            published: None,
        },
    };
    talked::<N, _, _, _>(alloc, blank, &mut port, &mut third)
}

// The same on a shared site of the version 3.
fn come_of<N: Ledger, R: Wait>(rt: &R, alloc: Global, blank: Blank) -> Result<String, Fail>
    requires name { blank.name ≡ N.name }
    requires parts { blank.parts ≡ N.parts }
    requires some { 0 < N.parts }
{
    let edits = edits_of(alloc, &CHANGED)?;
    let site = resumed(alloc, &FILES, AMPLE, 3, 3)?;
    let (site, mut passes) = start(alloc, site, OpenGate)?;
    on_site::<N, R>(rt, alloc, blank, &site, &mut passes, &edits)
}

#[test]
fn a_request_keeps_its_version_while_another_is_published(rt: HostRuntime) -> Result<(), Fail> {
    let came = come_of::<Brand, _>(&rt, rt.alloc(), Blank::new(1))?;
    assert_eq!(rt; came.as_str(), TOLD);
    Ok(())
}
