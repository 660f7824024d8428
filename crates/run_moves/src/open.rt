// What stands open in a running code: its values, loops and catches.
ghost use Rattle.std.specs.Prelude.{◌≡◌, ◌≤◌, ◌<◌, ◌+◌, [], ◌∷◌, ◌++◌, List, length, map, take};
ghost use Rattle.std.specs.Prelude.{drop, reverse, OnOk, OnErr, MatchOption};
ghost use Rattle.out_buffer.specs.Writer.{last_of};
ghost use Rattle.page_table.specs.Open.{fresh_open};
ghost use Rattle.pg_value.specs.Datum.{Datum};
ghost use Rattle.pg_value.specs.Value.{datum_of};
ghost use Rattle.run_moves.specs.Opened.{open_of};

use crate::loops::Loops;
use pg_value::Value;
use std::alloc::{AllocError, Global};
use std::marker::Model;

/// The values of a running code. Contracts see the list of what they are, the topmost first.
#[derive(Drop)]
pub struct Stack {
    values: Vec<Value>,
}

impl Model for Stack {
    ghost use Rattle.std.specs.Prelude.{List, map, reverse};
    ghost use Rattle.pg_value.specs.Datum.{Datum};
    ghost use Rattle.pg_value.specs.DatumCode.{data_code};
    ghost use Rattle.pg_value.specs.Value.{datum_of};

    ghost Value = { List Datum };

    ghost coded = { data_code };

    ghost view = { λ s. reverse (map datum_of s.values.items) };
}

impl Stack {
    pub fn new(alloc: Global) -> Self
        ensures { result ≡ [] }
    {
        Stack {
            values: Vec::new(alloc),
        }
    }

    pub fn push(&mut self, value: Value) -> Result<(), AllocError>
        ensures ok { OnOk result (self.new ≡ datum_of value ∷ self.old) }
        ensures err { OnErr result (self.new ≡ self.old) }
    {
        self.values.push(value)?;
        Ok(())
    }

    pub fn pop(&mut self) -> Option<Value>
        ensures { MatchOption result ((self.old ≡ []) × (self.new ≡ [])) (λ value. self.old
            ≡ datum_of value ∷ self.new) }
    {
        self.values.pop()
    }

    pub fn len(&self) -> usize
        ensures { result ≡ length self.now }
    {
        self.values.len()
    }

    /// So many of the topmost values, in the order in which they were pushed.
    pub fn top(&self, count: usize) -> &[Value]
        requires { count ≤ length self.now }
        ensures { map datum_of result.now ≡ reverse (take count self.now) }
    {
        &self.values[self.values.len() - count..]
    }

    /// The topmost value.
    pub fn topmost(&self) -> Option<&Value>
        ensures { MatchOption result (self.now ≡ []) (λ value. (rest : List Datum) × (self.now
            ≡ datum_of value.now ∷ rest)) }
    {
        self.values.last()
    }

    /// Drops the topmost `count` values.
    pub fn drop_top(&mut self, count: usize)
        requires { count ≤ length self.old }
        ensures { self.new ≡ drop count self.old }
    {
        let left = self.values.len() - count;
        self.values.truncate(left);
    }

    /// Brings the value that has so many above it to the top.
    pub fn bring_up(&mut self, above: usize)
        requires { above < length self.old }
        ensures { self.new ≡ take 1 (drop above self.old) ++ take above self.old ++ drop (above + 1) self.old }
    {
        let at = self.values.len() - 1 - above;
        self.values[at..].rotate_left(1);
    }

    /// Drops all but so many of the outermost values.
    pub fn cut(&mut self, left: usize)
        ensures { self.new ≡ last_of left self.old }
    {
        self.values.truncate(left);
    }
}

/// An open catch: where a fault goes on, and how many values, kept bodies and loops there were at
/// its start.
#[derive(Clone, Copy, Debug, PartialEq, Eq)]
pub struct OpenCatch {
    pub to: usize,
    pub values: usize,
    pub bodies: usize,
    pub loops: usize,
}

/// The open catches. Contracts see the list of them, the innermost first.
#[derive(Drop)]
pub struct Catches {
    catches: Vec<OpenCatch>,
}

impl Model for Catches {
    ghost use Rattle.std.specs.Prelude.{List, map, reverse};
    ghost use Rattle.run_moves.specs.declared.open.OpenCatch.{OpenCatch};

    ghost Value = { List OpenCatch };

    ghost view = { λ c. reverse c.catches.items };
}

impl Catches {
    pub fn new(alloc: Global) -> Self
        ensures { result ≡ [] }
    {
        Catches {
            catches: Vec::new(alloc),
        }
    }

    pub fn push(&mut self, opened: OpenCatch) -> Result<(), AllocError>
        ensures ok { OnOk result (self.new ≡ opened ∷ self.old) }
        ensures err { OnErr result (self.new ≡ self.old) }
    {
        self.catches.push(opened)?;
        Ok(())
    }

    pub fn pop(&mut self) -> Option<OpenCatch>
        ensures { MatchOption result ((self.old ≡ []) × (self.new ≡ [])) (λ innermost. self.old
            ≡ innermost ∷ self.new) }
    {
        self.catches.pop()
    }
}

/// How many levels are left below a running code, its values, loops and catches.
#[derive(Drop)]
pub struct Open {
    pub left: u32,
    pub stack: Stack,
    pub loops: Loops,
    pub catches: Catches,
}

impl Open {
    /// Nothing stands open, as at the beginning of a code.
    pub fn fresh(alloc: Global, left: u32) -> Self
        ensures { open_of result ≡ fresh_open left }
    {
        Open {
            left,
            stack: Stack::new(alloc),
            loops: Loops::new(alloc),
            catches: Catches::new(alloc),
        }
    }
}
