// What surrounds a run: what its steps are answered, its request, its session and its limits.
ghost use Rattle.std.specs.Prelude.{◌≡◌, ◌<◌, [], Some, None, if◌then◌else◌};
ghost use Rattle.std.specs.Option.{ForSome};

use crate::unreadable::Unreadable;
use crate::words::{count, first_word, text, value};
use http_in::{Field, Param, Request};
use http_out::{ContentType, Head, Status};
use pg_text::{Bytes, Listed, Place, Text, resolve};
use pg_value::{Attrs, RunFault, Value};
use run_world::Raise;
use site_words::{AppReply, Fresh};
use std::alloc::{AllocError, Global};
use tree_site::Prepared;

/// In what a page runs, and what is told of it.
#[derive(Drop)]
pub struct Surroundings {
    pub answers: Vec<Prepared>,
    pub request: Request,
    pub params: Vec<Param>,
    /// The id of the session, where the request has one.
    pub session: Option<Text>,
    pub depth: u32,
    pub visits: u32,
    /// What was charged before, where it isn't the page alone.
    pub charge: Option<u64>,
    /// The size of the buffer, or None where nothing is buffered.
    pub buffer: Option<u32>,
    pub auto_flush: bool,
    pub exception: Option<Raise>,
    /// The words of what is told.
    pub tell: Text,
}

impl Surroundings {
    /// A request that says nothing, and a page that nothing ran before.
    pub fn plain(alloc: Global, tell: &str) -> Result<Self, AllocError> {
        let tell = text(alloc, tell)?;
        let request = request(alloc)?;
        Ok(Surroundings {
            answers: Vec::new(alloc),
            request,
            params: Vec::new(alloc),
            session: None,
            depth: 0,
            visits: 0,
            charge: None,
            buffer: Some(8_192),
            auto_flush: true,
            exception: None,
            tell,
        })
    }

    /// What a line says: its first word, and the others.
    pub fn add(&mut self, alloc: Global, kind: &str, rest: &str) -> Result<(), Unreadable> {
        match kind {
            "tell" => self.tell = text(alloc, rest)?,
            "answer" => self.answers.push(answer(alloc, rest)?)?,
            "nulls" => self.answer_nulls(count(rest))?,
            "depth" => self.depth = (count(rest) % 1_000) as u32,
            "visits" => self.visits = (count(rest) % 2_000_000) as u32,
            "charge" => self.charge = Some(count(rest) as u64),
            "buffer" => self.set_buffer(rest),
            _ => return self.ask(alloc, kind, rest),
        }
        Ok(())
    }

    // So many steps are answered with null.
    fn answer_nulls(&mut self, count: usize) -> Result<(), AllocError> {
        for _null in 0..count {
            let reply = AppReply::Value(Value::Null);
            self.answers.push(Prepared::Reply(reply))?;
        }
        Ok(())
    }

    // The size of the buffer, and `alone` where it isn't flushed by itself; or `none`.
    fn set_buffer(&mut self, words: &str) {
        let (size, how) = first_word(words);
        self.auto_flush = how != "alone";
        self.buffer = match size {
            "none" => None,
            _ => Some((count(size) % 100_000) as u32),
        };
    }

    // What a line says of the request.
    fn ask(&mut self, alloc: Global, kind: &str, rest: &str) -> Result<(), Unreadable> {
        let (first, second) = first_word(rest);
        match kind {
            "session" => self.session = Some(text(alloc, rest)?),
            "exception" => self.exception = Some(raise(alloc)?),
            "query" => self.request.query = Some(text(alloc, rest)?),
            "given" => self.params.push(param(alloc, first, second)?)?,
            "field" => self.request.fields.push(field(alloc, first, second)?)?,
            _ => return Err(Unreadable::Word("there is no such part of a row")),
        }
        Ok(())
    }
}

fn answer(alloc: Global, rest: &str) -> Result<Prepared, Unreadable> {
    let (kind, operand) = first_word(rest);
    let reply = match kind {
        "value" => AppReply::Value(value(alloc, operand)?),
        "created" => AppReply::Created,
        "large" => AppReply::Large { weight: 1_048_577 },
        "session" => {
            return Ok(Prepared::Session(Fresh {
                session: 1,
                id: text(alloc, operand)?,
            }));
        }
        _ => AppReply::Done,
    };
    Ok(Prepared::Reply(reply))
}

// The fault that an error page sees.
fn raise(alloc: Global) -> Result<Raise, Unreadable> {
    let place = Place {
        file: resolve(alloc, None, "/a.jsp")?,
        byte: 0,
        line: 1,
        column: 7,
    };
    Ok(Raise {
        fault: RunFault::ZeroDivisor,
        place,
    })
}

fn param(alloc: Global, name: &str, value: &str) -> Result<Param, AllocError> {
    Ok(Param {
        name: text(alloc, name)?,
        value: text(alloc, value)?,
    })
}

fn field(alloc: Global, name: &str, value: &str) -> Result<Field, AllocError> {
    Ok(Field {
        name: text(alloc, name)?,
        value: Bytes::copy_of(alloc, value.as_bytes())?,
    })
}

/// The attributes of a session in which nothing was set, where there is one.
pub fn first_attributes(alloc: Global, has_session: bool) -> Option<Attrs>
    ensures { result ≡ (if has_session then Some [] else None) }
{
    if has_session {
        Some(Attrs::empty(alloc))
    } else {
        None
    }
}

/// A buffer has at least one byte.
pub fn buffer_size(size: Option<u32>) -> Option<u32>
    ensures { ForSome result (λ size. 0 < size) }
{
    match size {
        Some(size) => Some(size.max(1)),
        None => None,
    }
}

fn request(alloc: Global) -> Result<Request, AllocError> {
    let method = text(alloc, "GET")?;
    let target = text(alloc, "/p.jsp")?;
    let cookie = text(alloc, "")?;
    let body = Bytes::copy_of(alloc, b"")?;
    Ok(Request {
        method,
        target,
        path: None,
        query: None,
        fields: Listed::empty(alloc),
        params: Listed::empty(alloc),
        cookie,
        body,
        close: false,
    })
}

/// The head of a page's response before it runs.
pub fn head() -> Head {
    Head {
        status: Status::Ok,
        content_type: Some(ContentType::known("text/html;charset=UTF-8")),
        set_cookie: None,
        location: None,
        allow: false,
        close: false,
    }
}
