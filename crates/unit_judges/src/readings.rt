ghost use Rattle.std.specs.Prelude.{◌≡◌, Ok, ⊤};
ghost use Rattle.pg_text.specs.Failure.{AnswersAs};
ghost use Rattle.el_reader.specs.El.{tree_of};
ghost use Rattle.el_reader.specs.ExpressionOf.{expression_of};

use el_reader::{El, ElFault, read_el};
use pg_text::{Failure, Text};
use std::alloc::{AllocError, Global};
use std::collections::VecDeque;
use std::marker::Model;

/// A text that was read as an expression, and its tree. Contracts see the text.
#[derive(Drop)]
struct Reading {
    text: Text,
    el: El,
}

impl Model for Reading {
    ghost use Rattle.std.specs.Prelude.{◌≡◌, List, ℕ, Ok};
    ghost use Rattle.el_reader.specs.El.{tree_of};
    ghost use Rattle.el_reader.specs.ExpressionOf.{expression_of};

    ghost Value = { List ℕ };

    ghost view = { λ r. r.text };

    ghost invariant = { λ r. expression_of r.text ≡ Ok (tree_of r.el) };
}

/// The expressions of a unit that were read, for each page or tag file in the order in which they
/// were met. Each is kept until the unit is built, so that its text isn't read again. Contracts see
/// nothing of it: what is kept is right by itself, whatever is asked for.
#[derive(Drop)]
pub struct Readings {
    alloc: Global,
    // In the order in which reading went into the page and the tag files.
    roots: Vec<VecDeque<Reading>>,
    // Which of them is read or built now.
    now: usize,
}

impl Model for Readings {
    ghost Value = { ⊤ };

    ghost view = { λ _. tt };
}

impl Readings {
    /// No expression was read.
    pub fn new(alloc: Global) -> Self {
        Readings {
            alloc,
            roots: Vec::new(alloc),
            now: 0,
        }
    }

    /// Reading goes into a page or a tag file: the number of the one that was read before.
    pub fn enter(&mut self) -> Result<usize, AllocError> {
        let outer = self.now;
        self.now = self.roots.len();
        self.roots.push(VecDeque::new(self.alloc))?;
        Ok(outer)
    }

    /// Reading goes back to the page or the tag file of this number.
    pub fn go_back(&mut self, outer: usize) {
        self.now = outer;
    }

    /// Building goes on to the next tag file.
    pub fn go_on(&mut self) {
        self.now = self.now.saturating_add(1);
    }

    /// Keeps the tree of an expression.
    pub fn keep(&mut self, text: &Text, el: El) -> Result<(), AllocError>
        requires { expression_of text.now ≡ Ok (tree_of el) }
    {
        let text = text.copy()?;
        if let Some(kept) = self.roots.get_mut(self.now) {
            kept.push_back(Reading { text, el })?;
        }
        Ok(())
    }

    // The first that is kept of the page or the tag file.
    fn first(&mut self) -> Option<Reading> {
        self.roots.get_mut(self.now)?.pop_front()
    }

    /// What a text is: what was kept, where that is next, or else what is read now.
    pub fn take(&mut self, alloc: Global, text: &Text) -> Result<El, Failure<ElFault>>
        ensures { AnswersAs tree_of (expression_of text.now) result }
    {
        if let Some(reading) = self.first() {
            if reading.text.as_str() == text.as_str() {
                return Ok(reading.el);
            }
        }
        read_el(alloc, text.as_str())
    }
}
