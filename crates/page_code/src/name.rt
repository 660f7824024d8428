ghost use Rattle.std.specs.Prelude.{◌≡◌, ◌≤◌, length, IfOk, SomeIff};
ghost use Rattle.page_code.specs.Names.{max_name_bytes};

use pg_text::Text;
use std::alloc::AllocError;
use std::marker::Model;

/// The most bytes of a name, which are those of a file. A step that asks for a variable of
/// application scope weighs its name.
pub const MAX_NAME_BYTES: usize = 1_048_576;

/// The name of a variable, of at most `MAX_NAME_BYTES` bytes. Its copies share the text. Contracts
/// see the list of its bytes.
#[derive(Drop)]
pub struct Name {
    text: Text,
}

impl Model for Name {
    ghost use Rattle.std.specs.Prelude.{◌≤◌, List, ℕ, length};
    ghost use Rattle.page_code.specs.Names.{max_name_bytes};

    ghost Value = { List ℕ };

    ghost view = { λ n. n.text };

    ghost invariant = { λ n. length n.text ≤ max_name_bytes };
}

impl Name {
    /// The name with this text, or None where it is too long.
    pub fn new(text: Text) -> Option<Self>
        ensures { SomeIff result (length text ≤ max_name_bytes) text }
    {
        if text.len() <= MAX_NAME_BYTES {
            Some(Name { text })
        } else {
            None
        }
    }

    /// An equal name.
    pub fn copy(&self) -> Result<Self, AllocError>
        ensures { IfOk result (λ copy. copy ≡ self.now) }
    {
        Ok(Name {
            text: self.text.copy()?,
        })
    }

    pub fn as_text(&self) -> &Text
        ensures text { result.now ≡ self.now }
        ensures short { length self.now ≤ max_name_bytes }
    {
        &self.text
    }
}
