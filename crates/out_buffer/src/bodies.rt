ghost use Rattle.std.specs.Prelude.{◌≡◌, ◌==◌, ◌<◌, ◌++◌, ◌∷◌, [], length, string_bytes, OnOk};
ghost use Rattle.std.specs.Prelude.{OnErr};
ghost use Rattle.out_buffer.specs.Writer.{around, innermost, last_of};

use std::alloc::{AllocError, Global};
use std::marker::Model;

/// The kept bodies. Contracts see their bytes, the innermost first.
#[derive(Drop)]
pub(crate) struct Bodies {
    items: Vec<String>,
}

impl Model for Bodies {
    ghost use Rattle.std.specs.Prelude.{List, ℕ, map, reverse, string_bytes};

    ghost Value = { List (List ℕ) };

    ghost view = { λ b. reverse (map string_bytes b.items.items) };
}

impl Bodies {
    pub(crate) fn none(alloc: Global) -> Self
        ensures { result ≡ [] }
    {
        Bodies {
            items: Vec::new(alloc),
        }
    }

    /// The allocator that they are kept by.
    pub(crate) fn allocator(&self) -> Global {
        *self.items.allocator()
    }

    pub(crate) fn len(&self) -> usize
        ensures { result ≡ length self.now }
    {
        self.items.len()
    }

    pub(crate) fn is_empty(&self) -> bool
        ensures { result ≡ (length self.now == 0) }
    {
        self.items.is_empty()
    }

    /// Keeps an empty body within the others.
    pub(crate) fn start(&mut self) -> Result<(), AllocError>
        ensures ok { OnOk result (self.new ≡ [] ∷ self.old) }
        ensures err { OnErr result (self.new ≡ self.old) }
    {
        let body = String::new(self.allocator());
        self.items.push(body)?;
        Ok(())
    }

    /// Appends a text to the innermost body.
    pub(crate) fn push_str(&mut self, text: &str) -> Result<(), AllocError>
        requires { 0 < length self.old }
        ensures ok { OnOk result (self.new ≡ (innermost self.old ++ text.now) ∷ around self.old) }
        ensures err { OnErr result (self.new ≡ self.old) }
    {
        let Some(mut body) = self.items.pop() else {
            unreachable!()
        };
        let pushed = body.push_str(text);
        self.items.push_reserved(body);
        pushed
    }

    /// Takes the innermost body, without a copy.
    pub(crate) fn take(&mut self) -> String
        requires { 0 < length self.old }
        ensures value { string_bytes result ≡ innermost self.old }
        ensures taken { self.new ≡ around self.old }
    {
        let Some(body) = self.items.pop() else {
            unreachable!()
        };
        body
    }

    /// Drops the bodies inside the outermost so many.
    pub(crate) fn truncate(&mut self, left: usize)
        ensures { self.new ≡ last_of left self.old }
    {
        self.items.truncate(left);
    }

    pub(crate) fn clear(&mut self)
        ensures { self.new ≡ [] }
    {
        self.items.clear();
    }
}
