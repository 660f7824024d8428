ghost use Rattle.std.specs.Prelude.{◌≡◌, ◌+◌, [], ◌∷◌, IfOk};
ghost use Rattle.page_code.specs.Shapes.{empty_shape, up, keeping, level_of, looping, trying};

use std::alloc::{AllocError, Global};
use std::marker::Model;
use std::sync::Arc;

/// How much stood open where a catch began.
#[derive(Clone, Copy, Debug, PartialEq, Eq)]
pub struct Level {
    pub values: usize,
    pub bodies: usize,
    pub loops: usize,
}

/// The open catches, the innermost first, shared by their copies. Contracts see the list of their
/// levels.
#[derive(Drop)]
pub struct Catches {
    levels: Arc<Vec<Level>>,
}

impl Model for Catches {
    ghost use Rattle.std.specs.Prelude.{List};
    ghost use Rattle.page_code.specs.declared.shape.Level.{Level};

    ghost Value = { List Level };

    ghost view = { λ c. c.levels.value.items };
}

/// How much stands open before an instruction: values, kept bodies, loops and catches, counted from
/// the beginning of the code.
#[derive(Drop)]
pub struct Shape {
    pub values: usize,
    pub bodies: usize,
    pub loops: usize,
    pub catches: Catches,
}

impl Catches {
    pub fn none(alloc: Global) -> Result<Self, AllocError>
        ensures { IfOk result (λ made. made ≡ []) }
    {
        Ok(Catches {
            levels: Arc::new(alloc, Vec::new(alloc))?,
        })
    }

    /// The same catches.
    pub fn copy(&self) -> Result<Self, AllocError>
        ensures { IfOk result (λ copy. copy ≡ self.now) }
    {
        Ok(Catches {
            levels: Arc::try_clone(&self.levels)?,
        })
    }

    // These catches with one more inside them.
    fn with(&self, level: Level) -> Result<Self, AllocError>
        ensures { IfOk result (λ made. made ≡ level ∷ self.now) }
    {
        let alloc = *self.levels.allocator();
        let mut levels = Vec::with_capacity(alloc, 1)?;
        levels.push(level)?;
        levels.extend_from_slice(self.as_slice())?;
        Ok(Catches {
            levels: Arc::new(alloc, levels)?,
        })
    }

    pub fn as_slice(&self) -> &[Level]
        ensures { result.now ≡ self.now }
    {
        self.levels.as_slice()
    }
}

impl Shape {
    /// Nothing stands open, as at the beginning of a code.
    pub fn empty(alloc: Global) -> Result<Self, AllocError>
        ensures { IfOk result (λ made. made ≡ empty_shape) }
    {
        Ok(Shape {
            values: 0,
            bodies: 0,
            loops: 0,
            catches: Catches::none(alloc)?,
        })
    }

    /// The same shape.
    pub fn copy(&self) -> Result<Self, AllocError>
        ensures { IfOk result (λ copy. copy ≡ self.now) }
    {
        Ok(Shape {
            values: self.values,
            bodies: self.bodies,
            loops: self.loops,
            catches: self.catches.copy()?,
        })
    }

    /// The shape with so many values more.
    pub fn up(&self, count: usize) -> Result<Self, AllocError>
        ensures { IfOk result (λ made. made ≡ up count self.now) }
    {
        let mut made = self.copy()?;
        made.values = increased(self.values, count)?;
        Ok(made)
    }

    /// The shape with one kept body more.
    pub fn keeping(&self) -> Result<Self, AllocError>
        ensures { IfOk result (λ made. made ≡ keeping self.now) }
    {
        let mut made = self.copy()?;
        made.bodies = increased(self.bodies, 1)?;
        Ok(made)
    }

    /// The shape with one loop more.
    pub fn looping(&self) -> Result<Self, AllocError>
        ensures { IfOk result (λ made. made ≡ looping self.now) }
    {
        let mut made = self.copy()?;
        made.loops = increased(self.loops, 1)?;
        Ok(made)
    }

    /// The shape with one catch more, which begins here.
    pub fn trying(&self) -> Result<Self, AllocError>
        ensures { IfOk result (λ made. made ≡ trying self.now) }
    {
        let mut made = self.copy()?;
        made.catches = self.catches.with(self.level())?;
        Ok(made)
    }

    /// How much stands open here, for a catch that begins.
    pub fn level(&self) -> Level
        ensures { result ≡ level_of self.now }
    {
        Level {
            values: self.values,
            bodies: self.bodies,
            loops: self.loops,
        }
    }
}

// A number with so much more. A sum of 2^64 or more is answered as if memory ran out: as many of
// anything would take more than there is.
fn increased(number: usize, by: usize) -> Result<usize, AllocError>
    ensures { IfOk result (λ n. n ≡ number + by) }
{
    match number.checked_add(by) {
        Some(sum) => Ok(sum),
        None => Err(AllocError),
    }
}
