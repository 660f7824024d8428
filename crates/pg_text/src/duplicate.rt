ghost use Rattle.std.specs.Prelude.{◌≡◌, IfOk};

use crate::{Bytes, PageFault, Path, Place, Text};
use std::alloc::AllocError;

/// A type whose values can be copied to equal ones, unless memory runs out.
pub trait Duplicate {
    fn duplicate(&self) -> Result<Self, AllocError>
        ensures { IfOk result (λ copy. copy ≡ self.now) };
}

impl Duplicate for Text {
    fn duplicate(&self) -> Result<Self, AllocError> {
        self.copy()
    }
}

impl Duplicate for Bytes {
    fn duplicate(&self) -> Result<Self, AllocError> {
        self.copy()
    }
}

impl Duplicate for Path {
    fn duplicate(&self) -> Result<Self, AllocError> {
        self.copy()
    }
}

impl Duplicate for Place {
    fn duplicate(&self) -> Result<Self, AllocError> {
        self.copy()
    }
}

impl Duplicate for PageFault {
    fn duplicate(&self) -> Result<Self, AllocError> {
        self.copy()
    }
}
