ghost use Rattle.std.specs.Prelude.{◌≡◌};
ghost use Rattle.unit_words.specs.Counts.{counted, counts_behind, counts_within, fits, page_alone};

use unit_source::{MAX_NESTING, MAX_UNIT_BYTES, MAX_UNIT_FILES};

/// What counting a file comes to.
#[derive(Clone, Copy, Debug, PartialEq, Eq)]
pub enum Counted {
    /// The file is within the limits.
    Within,
    /// It is the first by which the unit passes a limit.
    Passes,
    /// A limit was passed before.
    Over,
}

/// What was counted of a unit: its files, their bytes, and whether they have passed a limit.
#[derive(Clone, Copy)]
pub struct Counts {
    pub files: usize,
    pub bytes: usize,
    pub over: bool,
}

impl Counts {
    /// A page of so many bytes alone.
    pub fn page(bytes: usize) -> Self
        ensures { result ≡ page_alone bytes }
    {
        Counts {
            files: 1,
            bytes,
            over: false,
        }
    }

    // Whether a file of so many bytes more is within the limits.
    fn fits(self, bytes: usize) -> bool
        ensures { result ≡ fits bytes self }
    {
        self.files < MAX_UNIT_FILES
            && self.bytes <= MAX_UNIT_BYTES
            && bytes <= MAX_UNIT_BYTES - self.bytes
    }

    /// Counts a file of so many bytes.
    pub fn count(&mut self, bytes: usize) -> Counted
        ensures value { result ≡ counted bytes self.old }
        ensures counts { self.new ≡ counts_behind bytes self.old }
    {
        if self.over {
            return Counted::Over;
        }
        if !self.fits(bytes) {
            self.over = true;
            return Counted::Passes;
        }
        self.files += 1;
        self.bytes += bytes;
        Counted::Within
    }

    /// Counts an element that stands in so many others: in too many it passes a limit.
    pub fn nest(&mut self, around: usize)
        ensures { self.new ≡ counts_within around self.old }
    {
        if around >= MAX_NESTING {
            self.over = true;
        }
    }
}
