ghost use Rattle.std.specs.Prelude.{◌≡◌};
ghost use Rattle.editor.specs.Telling.{status_of};

use http_out::Status;
use source_tree::TreeFault;
use thiserror::Error;

/// Why a message of an editor isn't done. The draft and the site are then as they were.
#[derive(Clone, Copy, Debug, PartialEq, Eq, Error)]
pub enum EditorFault {
    /// The path of the file isn't UTF-8, or no path in normal form.
    #[error("the path is none of a file")]
    BadPath,
    /// The draft would have more than `MAX_DRAFT_EDITS` edits, or more than `MAX_DRAFT_BYTES` bytes
    /// of texts.
    #[error("the draft would be too large")]
    DraftTooLarge,
    /// The text of the file isn't UTF-8.
    #[error("the text isn't UTF-8")]
    NotUtf8,
    /// The draft was made for another version than the latest.
    #[error("the base isn't the latest version")]
    Stale { latest: u64 },
    /// The files would pass a limit.
    #[error("the tree would be too large")]
    TreeTooLarge(TreeFault),
    /// The journal has no room for the draft.
    #[error("the journal is full")]
    JournalFull { weight: u64, promised: u64 },
    /// The method, path or query is none that an editor takes.
    #[error("the message is none of an editor")]
    BadMessage,
}

impl EditorFault {
    /// The status that the fault is answered with.
    pub fn status(self) -> Status
        ensures { result ≡ status_of self }
    {
        match self {
            EditorFault::BadPath | EditorFault::NotUtf8 | EditorFault::BadMessage => {
                Status::BadRequest
            }
            EditorFault::DraftTooLarge | EditorFault::TreeTooLarge(_) => Status::ContentTooLarge,
            EditorFault::Stale { .. } => Status::Conflict,
            EditorFault::JournalFull { .. } => Status::ServiceUnavailable,
        }
    }
}
