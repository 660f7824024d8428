ghost use Rattle.std.specs.Prelude.{◌≡◌, [], IfOk};

use pg_text::{Bytes, Text};
use std::alloc::{AllocError, Global};
use std::marker::Model;

/// The body of a reply of one piece. Contracts see its bytes.
#[derive(Drop)]
pub struct Body {
    kept: Kept,
}

#[derive(Drop)]
enum Kept {
    Made(Bytes),
    // As the tree has it.
    File(Text),
}

impl Model for Body {
    ghost use Rattle.std.specs.Prelude.{List, ℕ};
    ghost use Rattle.request_pages.specs.Body.{body_bytes};

    ghost Value = { List ℕ };

    ghost view = { λ b. body_bytes b.kept };
}

impl Body {
    pub(crate) fn empty(alloc: Global) -> Self
        ensures { result ≡ [] }
    {
        Body::made(Vec::new(alloc))
    }

    /// What was made for this reply.
    pub(crate) fn made(bytes: Vec<u8>) -> Self
        ensures { result ≡ bytes.items }
    {
        Body {
            kept: Kept::Made(Bytes::new(bytes)),
        }
    }

    /// The text of a file, whose bytes are shared where it isn't short.
    pub(crate) fn file(text: &Text) -> Result<Self, AllocError>
        ensures { IfOk result (λ body. body ≡ text.now) }
    {
        Ok(Body {
            kept: Kept::File(text.copy()?),
        })
    }

    pub fn as_slice(&self) -> &[u8]
        ensures { result.now ≡ self.now }
    {
        match &self.kept {
            Kept::Made(bytes) => bytes.as_slice(),
            Kept::File(text) => text.as_bytes(),
        }
    }
}
