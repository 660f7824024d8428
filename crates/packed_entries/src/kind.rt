ghost use Rattle.std.specs.Prelude.{◌≡◌, false, true, is_some};
ghost use Rattle.site_words.specs.declared.words.Op.TheVariants as op;
ghost use Rattle.site_words.specs.declared.words.Reply.TheVariants as reply;
ghost use Rattle.packed_entries.specs.Kinds.{Pairs, op_of, reply_of, stands_apart};

use crate::answered::Answered;
use pg_text::{Path, Text};
use pg_value::Attrs;
use site_words::{Op, Reply};

// An operation with its reply.
#[derive(Drop)]
pub enum Kind {
    // A Begin without a cookie, which has no session.
    Visited {
        moment: u64,
        request: u64,
        version: u64,
    },
    // A Begin without a session.
    Begun {
        cookie: Text,
        moment: u64,
        request: u64,
        version: u64,
    },
    // A Begin with a session.
    Resumed {
        cookie: Text,
        moment: u64,
        request: u64,
        version: u64,
        session: u64,
    },
    Made {
        request: u64,
        session: u64,
    },
    Fetched {
        hit: bool,
        request: u64,
        path: Path,
    },
    Offered {
        kept: bool,
        request: u64,
        path: Path,
    },
    Ended {
        request: u64,
        attrs: Attrs,
    },
    Abandoned {
        request: u64,
    },
    // Publish, App, Snapshot and Roll: in memory of their own.
    Apart(Box<Answered>),
}

// The kind of an entry. What stands apart comes to this place.
#[inline(always)]
pub(crate) fn kind_of(op: Op, reply: Reply, place: Option<Box<Answered>>) -> Kind
    requires pairs { Pairs op reply }
    requires place { is_some place ≡ stands_apart op }
    ensures op { op_of result ≡ op }
    ensures reply { reply_of result ≡ reply }
{
    match place {
        Some(mut place) => {
            *place = Answered { op, reply };
            Kind::Apart(place)
        }
        None => slotted(op, reply),
    }
}

// The kind of an operation whose entry takes no memory beside its slot, but for what its texts share
// with the request that they came with.
#[inline(always)]
fn slotted(op: Op, reply: Reply) -> Kind
    requires pairs { Pairs op reply }
    requires slot { stands_apart op ≡ false }
    ensures op { op_of result ≡ op }
    ensures reply { reply_of result ≡ reply }
{
    match (op, reply) {
        (
            Op::Begin { cookie, moment },
            Reply::Begun {
                request,
                version,
                session,
            },
        ) => begun(cookie, moment, request, version, session),
        (Op::Fresh { request }, Reply::Made { session }) => Kind::Made { request, session },
        (Op::Fetch { request, path }, Reply::Fetched { hit }) => {
            Kind::Fetched { hit, request, path }
        }
        (Op::Offer { request, path }, Reply::Offered { kept }) => {
            Kind::Offered {
                kept,
                request,
                path,
            }
        }
        (Op::End { request, attrs }, Reply::Ended) => Kind::Ended { request, attrs },
        (Op::Abandon { request }, Reply::Dropped) => Kind::Abandoned { request },
        _ => unreachable!(),
    }
}

// The kind of a Begin.
#[inline(always)]
fn begun(cookie: Text, moment: u64, request: u64, version: u64, session: Option<u64>) -> Kind
    ensures op { op_of result ≡ op.Begin cookie moment }
    ensures reply { reply_of result ≡ reply.Begun request version session }
{
    match session {
        Some(session) => Kind::Resumed {
            cookie,
            moment,
            request,
            version,
            session,
        },
        None if cookie.is_empty() => Kind::Visited {
            moment,
            request,
            version,
        },
        None => Kind::Begun {
            cookie,
            moment,
            request,
            version,
        },
    }
}
