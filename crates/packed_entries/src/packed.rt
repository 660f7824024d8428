ghost use Rattle.std.specs.Prelude.{◌≡◌};
ghost use Rattle.packed_entries.specs.Kinds.{Pairs, stands_apart};
ghost use Rattle.packed_entries.specs.Refs.{op_in, reply_in};

use crate::kind::{Kind, kind_of};
use crate::op_ref::OpRef;
use crate::reply_ref::ReplyRef;
use crate::room::Room;
use site_words::{Op, Reply};
use std::marker::Model;

/// An entry. Contracts see the entry.
#[derive(Drop)]
pub struct PackedEntry {
    pass: u8,
    kind: Kind,
}

impl Model for PackedEntry {
    ghost use Rattle.site_words.specs.declared.words.Entry.{Entry};
    ghost use Rattle.packed_entries.specs.Kinds.{op_of, reply_of};

    ghost Value = { Entry };

    ghost use Rattle.pg_value.specs.DatumCode.{data_code, datum_code, entries_code};
    ghost use Rattle.std.specs.Coded.{codes};

    ghost coded = { Prim.hlevel (codes, entries_code, data_code, datum_code) };

    ghost view = { λ e. record { pass = e.pass; op = op_of e.kind; reply = reply_of e.kind } };
}

impl PackedEntry {
    /// The entry of a pass, with a reply of the operation's kind. It takes no memory but the room.
    #[inline(always)]
    pub fn new(pass: u8, op: Op, reply: Reply, room: Room) -> Self
        requires pairs { Pairs op reply }
        requires room { room ≡ stands_apart op }
        ensures { result ≡ record { pass = pass; op = op; reply = reply } }
    {
        PackedEntry {
            pass,
            kind: kind_of(op, reply, room.into_place()),
        }
    }

    pub fn pass(&self) -> u8
        ensures { result ≡ self.now.pass }
    {
        self.pass
    }

    pub fn op(&self) -> OpRef<'_>
        ensures { op_in result ≡ self.now.op }
    {
        match &self.kind {
            Kind::Visited { moment, .. } => OpRef::Begin {
                cookie: "",
                moment: *moment,
            },
            Kind::Begun { cookie, moment, .. } | Kind::Resumed { cookie, moment, .. } => {
                OpRef::Begin {
                    cookie: cookie.as_str(),
                    moment: *moment,
                }
            }
            Kind::Made { request, .. } => OpRef::Fresh { request: *request },
            Kind::Fetched { request, path, .. } => OpRef::Fetch {
                request: *request,
                path,
            },
            Kind::Offered { request, path, .. } => OpRef::Offer {
                request: *request,
                path,
            },
            Kind::Ended { request, attrs } => OpRef::End {
                request: *request,
                attrs,
            },
            Kind::Abandoned { request } => OpRef::Abandon { request: *request },
            Kind::Apart(answered) => OpRef::of(&answered.op),
        }
    }

    pub fn reply(&self) -> ReplyRef<'_>
        ensures { reply_in result ≡ self.now.reply }
    {
        match &self.kind {
            Kind::Visited {
                request,
                version,
                ..
            }
            | Kind::Begun {
                request,
                version,
                ..
            } => ReplyRef::Begun {
                request: *request,
                version: *version,
                session: None,
            },
            Kind::Resumed {
                request,
                version,
                session,
                ..
            } => ReplyRef::Begun {
                request: *request,
                version: *version,
                session: Some(*session),
            },
            Kind::Made { session, .. } => ReplyRef::Made { session: *session },
            Kind::Fetched { hit, .. } => ReplyRef::Fetched { hit: *hit },
            Kind::Offered { kept, .. } => ReplyRef::Offered { kept: *kept },
            Kind::Ended { .. } => ReplyRef::Ended,
            Kind::Abandoned { .. } => ReplyRef::Dropped,
            Kind::Apart(answered) => ReplyRef::of(&answered.reply),
        }
    }
}

// Three entries of a page that is kept take three slots, and no other memory without a cookie.
const _: () = prove!(size_of::<PackedEntry>() == 64);
