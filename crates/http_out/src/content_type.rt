ghost use Rattle.std.specs.Prelude.{◌≡◌};

use pg_text::Text;
use std::marker::Model;

/// The media type of a body. Contracts see its bytes.
#[derive(Drop)]
pub struct ContentType {
    kept: Kept,
}

#[derive(Drop)]
enum Kept {
    // One that the server knows.
    Known(&'static str),
    // One that a page names.
    Named(Text),
}

impl Model for ContentType {
    ghost use Rattle.std.specs.Prelude.{List, ℕ};
    ghost use Rattle.http_out.specs.ContentType.{type_bytes};

    ghost Value = { List ℕ };

    ghost view = { λ t. type_bytes t.kept };
}

impl ContentType {
    /// A type that the server knows. It takes no memory.
    pub fn known(name: &'static str) -> Self
        ensures { result ≡ name.now }
    {
        ContentType {
            kept: Kept::Known(name),
        }
    }

    /// A type that a page names.
    pub fn named(name: Text) -> Self
        ensures { result ≡ name }
    {
        ContentType {
            kept: Kept::Named(name),
        }
    }

    /// The type as it stands in a head.
    pub fn as_bytes(&self) -> &[u8]
        ensures { result.now ≡ self.now }
    {
        match &self.kept {
            Kept::Known(name) => name.as_bytes(),
            Kept::Named(name) => name.as_bytes(),
        }
    }
}
