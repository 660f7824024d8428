ghost use Rattle.std.specs.Prelude.{◌≡◌};
ghost use Rattle.packed_entries.specs.Refs.{reply_in};

use pg_text::Names;
use site_words::{AppReply, Reply};

/// A reply, read where it stands.
#[derive(Clone, Copy)]
pub enum ReplyRef<'a> {
    Published {
        version: u64,
        dirty: &'a Names,
    },
    Begun {
        request: u64,
        version: u64,
        session: Option<u64>,
    },
    App(&'a AppReply),
    Made {
        session: u64,
    },
    Fetched {
        hit: bool,
    },
    Offered {
        kept: bool,
    },
    Ended,
    Dropped,
    Snapped {
        version: u64,
        session: Option<u64>,
    },
    Rolled,
}

impl<'a> ReplyRef<'a> {
    /// This reply.
    pub fn of(reply: &'a Reply) -> Self
        ensures { reply_in result ≡ reply.now }
    {
        match reply {
            Reply::Published { version, dirty } => ReplyRef::Published {
                version: *version,
                dirty,
            },
            Reply::Begun {
                request,
                version,
                session,
            } => ReplyRef::Begun {
                request: *request,
                version: *version,
                session: *session,
            },
            Reply::App(answer) => ReplyRef::App(answer),
            Reply::Made { session } => ReplyRef::Made { session: *session },
            Reply::Fetched { hit } => ReplyRef::Fetched { hit: *hit },
            Reply::Offered { kept } => ReplyRef::Offered { kept: *kept },
            Reply::Ended => ReplyRef::Ended,
            Reply::Dropped => ReplyRef::Dropped,
            Reply::Snapped { version, session } => ReplyRef::Snapped {
                version: *version,
                session: *session,
            },
            Reply::Rolled => ReplyRef::Rolled,
        }
    }
}
