/// What is said of the bytes of journals.
#[derive(Clone, Copy, Debug, PartialEq, Eq)]
pub enum Verdict {
    /// They are so many right journals, with so many entries.
    Yes { journals: u64, entries: u64 },
    /// So many right ones stand at the beginning, and then one that is wrong.
    No { journal: u64, why: Why },
}

/// The part of a journal that is wrong first.
#[derive(Clone, Copy, Debug, PartialEq, Eq)]
pub enum Why {
    /// No site may have the opening, or it isn't the one that goes on from the journal before.
    Opening,
    /// The entry at this place, counted from 0, may not come there, or has another reply.
    Entry(u64),
    /// The talk isn't what is said for its bytes.
    Talk,
}

/// Why nothing more is said.
#[derive(Clone, Copy, Debug, PartialEq, Eq)]
pub enum AuditFault {
    /// Behind so many right journals stands something that doesn't begin with one.
    NotJournal { journal: u64 },
    /// There are more bytes than are read, and behind so many right journals none ends within
    /// those.
    TooLong { journal: u64 },
    /// The source failed.
    ReadFault,
    NoMemory,
}
