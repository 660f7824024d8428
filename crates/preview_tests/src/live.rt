// Previews of a site that has an attribute and a session, of which they ask pictures.
ghost use Rattle.std.specs.Prelude.{◌≡◌, ◌<◌, IfOk};

use compiled_pages::Made;
use edges::{MemSink, MemSource, Steps, Unseen};
use packed_entries::OpRef;
use pg_text::Text;
use pg_value::{Attrs, Value};
use preview::preview;
use site_core::{Site, SoloPort, into_site, solo, sound};
use site_words::{KeptSession, KeptSessions, Opening};
use source_tree::Tree;
use std::alloc::{AllocError, Global};
use std::marker::Brand;
use std::sync::ledger::{Blank, Ledger};
use std::test::Fail;

/// A page that reads an attribute of the application and writes it.
const WRITING: &str = "PUT /_editor/files/a.jsp HTTP/1.1\r\nHost: x\r\nContent-Length: 146\r\n\r\n\
<%@ page session=\"false\" %><%@ taglib prefix=\"c\" uri=\"jakarta.tags.core\" %>${applicationScope.n}\
<c:set var=\"n\" value=\"5\" scope=\"application\"/>${n}\
GET /a.jsp HTTP/1.1\r\nHost: x\r\n\r\n";

const WRITTEN: &str =
    "HTTP/1.1 200 OK\r\nContent-Type: text/plain;charset=UTF-8\r\nContent-Length: 8\r\n\r\ndraft 1\n\
HTTP/1.1 200 OK\r\nContent-Type: text/html;charset=UTF-8\r\nContent-Length: 2\r\n\r\n15";

/// A page that does so with one of the session too, asked for twice by a visitor of the site.
const VISITING: &str = "PUT /_editor/files/b.jsp HTTP/1.1\r\nHost: x\r\nContent-Length: 212\r\n\r\n\
<%@ taglib prefix=\"c\" uri=\"jakarta.tags.core\" %>${applicationScope.n}${sessionScope.n}\
<c:set var=\"n\" value=\"5\" scope=\"application\"/><c:set var=\"n\" value=\"7\" scope=\"session\"/>\
${applicationScope.n}${sessionScope.n}\
GET /b.jsp HTTP/1.1\r\nHost: x\r\n\
Cookie: JSESSIONID=0000000000000000ade0b876903df1a0e56a5d4028bd8653\r\n\r\n\
GET /b.jsp HTTP/1.1\r\nHost: x\r\n\
Cookie: JSESSIONID=0000000000000000ade0b876903df1a0e56a5d4028bd8653\r\n\r\n";

const VISITED: &str =
    "HTTP/1.1 200 OK\r\nContent-Type: text/plain;charset=UTF-8\r\nContent-Length: 8\r\n\r\ndraft 1\n\
HTTP/1.1 200 OK\r\nContent-Type: text/html;charset=UTF-8\r\nContent-Length: 4\r\n\r\n1157\
HTTP/1.1 200 OK\r\nContent-Type: text/html;charset=UTF-8\r\nContent-Length: 4\r\n\r\n1157";

const REFUSED: &str =
    "HTTP/1.1 200 OK\r\nContent-Type: text/plain;charset=UTF-8\r\nContent-Length: 8\r\n\r\ndraft 1\n\
HTTP/1.1 413 Content Too Large\r\nContent-Type: text/plain;charset=UTF-8\r\nContent-Length: 21\r\n\r\n\
TreeTooLarge Version\n";

// A version of the site, what is asked and answered there, and with how many pictures.
type Talk<'a> = (u64, &'a str, &'a str, u64);

const TALKS: [Talk<'static>; 3] = [
    (1, WRITING, WRITTEN, 1),
    (1, VISITING, VISITED, 2),
    (9_223_372_036_854_775_807, WRITING, REFUSED, 1),
];

// One attribute: `n`, which is 1.
fn one(alloc: Global) -> Result<Attrs, AllocError> {
    let name = Text::copy_of(alloc, "n")?;
    let mut attrs = Attrs::empty(alloc);
    attrs.insert(name, Value::Int(1))?;
    Ok(attrs)
}

// The session that has it.
fn only_session(alloc: Global) -> Result<KeptSessions, AllocError> {
    let attrs = one(alloc)?;
    let mut sessions = KeptSessions::empty(alloc);
    sessions.push(KeptSession {
        number: 0,
        used: 0,
        attrs,
    })?;
    Ok(sessions)
}

// A site at this version whose application and whose session have that attribute.
fn live(alloc: Global, version: u64) -> Result<SoloPort<Made>, Fail>
    ensures { IfOk result (λ port. 0 < port.actor.site.opening.passes) }
{
    let app = one(alloc)?;
    let sessions = only_session(alloc)?;
    let opening = Opening {
        seed: [0; 32],
        limit: 2_147_483_648,
        passes: 1,
        idle: 1_800,
        version,
        begins: 0,
        freshes: 1,
        moment: 0,
        app,
        tree: Tree::new(alloc),
        sessions,
    };
    if !sound(&opening) {
        return Err(Fail::new("no site opens so"));
    }
    Ok(solo(Site::<Made>::resume(alloc, opening)?))
}

// What a preview connection over a port is answered.
fn previewed<N: Ledger>(
    alloc: Global,
    blank: Blank,
    port: &mut SoloPort<Made>,
    input: &[u8],
) -> Result<Vec<u8>, AllocError>
    requires name { blank.name ≡ N.name }
    requires parts { blank.parts ≡ N.parts }
    requires some { 0 < N.parts }
    requires pass { 0 < port.old.actor.site.opening.passes }
{
    let mut source = MemSource::new(input.to_vec(alloc)?, 4_096, Vec::new(alloc));
    let mut sink = MemSink::new(alloc, Vec::new(alloc));
    let mut steps = Steps::<Unseen<N>>::unseen(blank);
    preview(alloc, port, &mut source, &mut sink, &mut steps);
    sink.taken().to_vec(alloc)
}

// Whether a preview connection over a port is answered so.
fn is_answered(
    alloc: Global,
    port: &mut SoloPort<Made>,
    asked: &str,
    answered: &str,
) -> Result<bool, AllocError>
    requires pass { 0 < port.old.actor.site.opening.passes }
{
    let text = previewed::<Brand>(alloc, Blank::new(1), port, asked.as_bytes())?;
    Ok(text.as_slice() == answered.as_bytes())
}

// Whether that attribute is still 1.
fn is_one(attrs: &Attrs) -> bool {
    matches!(attrs.get("n"), Some(Value::Int(1)))
}

// Whether a site begins as it did, with those attributes.
fn is_live(opening: &Opening, version: u64) -> bool {
    for kept in opening.sessions.as_slice() {
        if !is_one(&kept.attrs) {
            return false;
        }
    }
    opening.version == version && is_one(&opening.app)
}

// Whether so many pictures were asked of a site, and nothing else.
fn has_pictures_alone(site: &Site<Made>, count: u64) -> bool {
    for entry in site.history().iter() {
        if !matches!(entry.op(), OpRef::Snapshot { .. }) {
            return false;
        }
    }
    site.len() == count
}

// Whether a next site would begin as this one did.
fn goes_on(site: &Site<Made>, version: u64) -> Result<bool, AllocError> {
    let next = site.next_opening()?;
    Ok(is_live(&next, version))
}

// Whether a talk is answered as it should be, and leaves the site as it was.
fn is_held(alloc: Global, talk: &Talk<'_>) -> Result<bool, Fail> {
    let (version, asked, answered, pictures) = *talk;
    let mut port = live(alloc, version)?;
    let is_answered = is_answered(alloc, &mut port, asked, answered) == Ok(true);
    let site = into_site(port);
    let is_left = has_pictures_alone(&site, pictures) && goes_on(&site, version) == Ok(true);
    Ok(is_answered && is_left)
}

#[test]
fn a_preview_changes_nothing_of_the_site(rt: HostRuntime) -> Result<(), Fail> {
    for talk in &TALKS {
        assert!(rt; is_held(rt.alloc(), talk)?);
    }
    Ok(())
}
