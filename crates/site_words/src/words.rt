use pg_text::{Listed, Names, Path, Text};
use pg_value::{Attrs, Value};
use source_tree::{Edits, Tree, TreeFault};

/// What a running page asks of the application's attributes.
#[derive(Drop)]
pub enum AppStep {
    Get(Text),
    Set(Text, Value),
    Remove(Text),
    Ensure(Text, Value),
    All,
}

#[derive(Drop)]
pub enum AppReply {
    Value(Value),
    Done,
    Created,
    Large { weight: u64 },
}

#[derive(Drop)]
pub enum Op {
    Publish { base: Option<u64>, edits: Edits },
    Begin { cookie: Text, moment: u64 },
    App { request: u64, step: AppStep },
    Fresh { request: u64 },
    Fetch { request: u64, path: Path },
    Offer { request: u64, path: Path },
    End { request: u64, attrs: Attrs },
    Abandon { request: u64 },
    Snapshot { cookie: Text },
    Roll,
}

#[derive(Drop)]
pub enum Reply {
    Published {
        version: u64,
        dirty: Names,
    },
    Begun {
        request: u64,
        version: u64,
        session: Option<u64>,
    },
    App(AppReply),
    Made {
        session: u64,
    },
    Fetched {
        hit: bool,
    },
    Offered {
        kept: bool,
    },
    Ended,
    Dropped,
    Snapped {
        version: u64,
        session: Option<u64>,
    },
    Rolled,
}

#[derive(Clone, Copy, Debug, PartialEq, Eq)]
pub enum Refusal {
    Stale { latest: u64 },
    TreeTooLarge(TreeFault),
    Busy { holder: u64 },
    JournalFull { weight: u64, promised: u64 },
}

#[derive(Drop)]
pub struct Entry {
    pub pass: u8,
    pub op: Op,
    pub reply: Reply,
}

/// A session: its number, the moment of its last use, and its attributes.
#[derive(Drop)]
pub struct KeptSession {
    pub number: u64,
    pub used: u64,
    pub attrs: Attrs,
}

/// Sessions, the free ones in the order of their last end.
pub type KeptSessions = Listed<KeptSession>;

/// A request under way: its number, version and session, and what is left of its promise.
#[derive(Clone, Copy, Debug, PartialEq, Eq)]
pub struct Run {
    pub request: u64,
    pub version: u64,
    pub session: Option<u64>,
    pub left: u64,
}

/// What a site starts from.
#[derive(Drop)]
pub struct Opening {
    pub seed: [u8; 32],
    pub limit: u64,
    pub passes: u8,
    pub idle: u64,
    pub version: u64,
    pub begins: u64,
    pub freshes: u64,
    pub moment: u64,
    pub app: Attrs,
    pub tree: Tree,
    pub sessions: KeptSessions,
}
