//! A pass visits a site: its request counts itself in its session, publishes, looks for a path and
//! sets an attribute.
ghost use Rattle.site_words.specs.Answers.{IsSamePort};
ghost use Rattle.pass_course.specs.Course.{IsIdle};
ghost use Rattle.site_shared_tests.specs.Visits.{HasBegun, IsServing};

use pg_text::{Path, Text};
use pg_value::{Attrs, MAX_SESSION_WEIGHT, Value};
use site_words::{Acted, AppReply, AppStep, Begun, Compiled, Port};
use source_tree::Edits;
use std::alloc::{AllocError, Global};
use std::sync::Arc;

/// The most bytes of a cookie.
const MAX_COOKIE: usize = 48;

/// The most bytes of a name or a path here.
const MAX_NAME: usize = 1_024;

/// What a pass asks for at each visit.
#[derive(Drop)]
pub struct Errand {
    pub cookie: Text,
    pub edits: Edits,
    pub path: Path,
}

/// One visit. True where its request began with a session, all of it was done, and the path was
/// found.
pub fn visit<P: Compiled, Q: Port<P>>(alloc: Global, port: &mut Q, errand: &Errand) -> bool
    requires { IsIdle (Q.opening port.old) (Q.pass port.old) (Q.seen port.old) }
    ensures same { IsSamePort (Q.pass port.old) (Q.pass port.new) (Q.opening port.old) (Q.opening port.new)
        (Q.home port.old) (Q.home port.new) }
    ensures idle { IsIdle (Q.opening port.new) (Q.pass port.new) (Q.seen port.new) }
{
    let Some(begun) = begin(port, &errand.cookie) else {
        return false;
    };
    let published = publish(port, &begun, &errand.edits);
    let found = fetch(port, &begun, &errand.path);
    let set = set(alloc, port, &begun);
    finish(alloc, port, begun) && published && found && set
}

/// Begins a request at the moment 0.
pub fn begin<P: Compiled, Q: Port<P>>(port: &mut Q, cookie: &Text) -> Option<Begun>
    requires { IsIdle (Q.opening port.old) (Q.pass port.old) (Q.seen port.old) }
    ensures same { IsSamePort (Q.pass port.old) (Q.pass port.new) (Q.opening port.old) (Q.opening port.new)
        (Q.home port.old) (Q.home port.new) }
    ensures begun { HasBegun (Q.opening port.new) (Q.pass port.new) (Q.seen port.new) result }
{
    if cookie.len() > MAX_COOKIE {
        return None;
    }
    match port.begin(cookie, 0) {
        Acted::Did(begun) => Some(begun),
        Acted::Refused(_) => None,
        Acted::NoMemory => None,
    }
}

// Publishes the edits, and says whether that was done.
fn publish<P: Compiled, Q: Port<P>>(port: &mut Q, begun: &Begun, edits: &Edits) -> bool
    requires { IsServing (Q.opening port.old) (Q.pass port.old) (Q.seen port.old) begun.now.request
        begun.now.session 4325000 }
    ensures same { IsSamePort (Q.pass port.old) (Q.pass port.new) (Q.opening port.old) (Q.opening port.new)
        (Q.home port.old) (Q.home port.new) }
    ensures serving { IsServing (Q.opening port.new) (Q.pass port.new) (Q.seen port.new) begun.now.request
        begun.now.session 4325000 }
{
    let answer = port.publish(None, edits);
    matches!(answer, Acted::Did(_))
}

// Looks for the path, and says whether something was found.
fn fetch<P: Compiled, Q: Port<P>>(port: &mut Q, begun: &Begun, path: &Path) -> bool
    requires { IsServing (Q.opening port.old) (Q.pass port.old) (Q.seen port.old) begun.now.request
        begun.now.session 4325000 }
    ensures same { IsSamePort (Q.pass port.old) (Q.pass port.new) (Q.opening port.old) (Q.opening port.new)
        (Q.home port.old) (Q.home port.new) }
    ensures serving { IsServing (Q.opening port.new) (Q.pass port.new) (Q.seen port.new) begun.now.request
        begun.now.session 4000000 }
{
    if path.as_bytes().len() > MAX_NAME {
        return false;
    }
    let answer = port.fetch(begun.request, path);
    is_found(&answer)
}

fn is_found<P>(answer: &Result<Option<Arc<P>>, AllocError>) -> bool {
    matches!(answer, Ok(Some(_)))
}

// Sets an attribute of the application, and says whether that was done.
fn set<P: Compiled, Q: Port<P>>(alloc: Global, port: &mut Q, begun: &Begun) -> bool
    requires { IsServing (Q.opening port.old) (Q.pass port.old) (Q.seen port.old) begun.now.request
        begun.now.session 4000000 }
    ensures same { IsSamePort (Q.pass port.old) (Q.pass port.new) (Q.opening port.old) (Q.opening port.new)
        (Q.home port.old) (Q.home port.new) }
    ensures serving { IsServing (Q.opening port.new) (Q.pass port.new) (Q.seen port.new) begun.now.request
        begun.now.session 0 }
{
    let Ok(name) = Text::copy_of(alloc, "n") else {
        return false;
    };
    if name.len() > MAX_NAME {
        return false;
    }
    let answer = port.app(begun.request, AppStep::Set(name, Value::Int(1)));
    is_done(&answer)
}

fn is_done(answer: &Result<AppReply, AllocError>) -> bool {
    matches!(answer, Ok(AppReply::Done))
}

/// Ends the request with one more in its session, and says whether that was done.
pub fn finish<P: Compiled, Q: Port<P>>(alloc: Global, port: &mut Q, begun: Begun) -> bool
    requires { IsServing (Q.opening port.old) (Q.pass port.old) (Q.seen port.old) begun.request begun.session 0 }
    ensures same { IsSamePort (Q.pass port.old) (Q.pass port.new) (Q.opening port.old) (Q.opening port.new)
        (Q.home port.old) (Q.home port.new) }
    ensures idle { IsIdle (Q.opening port.new) (Q.pass port.new) (Q.seen port.new) }
{
    match (begun.session, counted(alloc, &begun.attrs)) {
        (Some(_), Ok(attrs)) if attrs.weight() <= MAX_SESSION_WEIGHT => {
            port.end(begun.request, attrs);
            true
        }
        _ => {
            port.abandon(begun.request);
            false
        }
    }
}

// A session's attributes with one more visit.
fn counted(alloc: Global, attrs: &Attrs) -> Result<Attrs, AllocError> {
    let name = Text::copy_of(alloc, "n")?;
    let mut counted = Attrs::empty(alloc);
    counted.insert(name, Value::Int(visits(attrs).saturating_add(1)))?;
    Ok(counted)
}

// How often a session was visited.
fn visits(attrs: &Attrs) -> i64 {
    match attrs.get("n") {
        Some(Value::Int(number)) => *number,
        _ => 0,
    }
}
