ghost use Rattle.std.specs.Prelude.{◌≡◌, true};
ghost use Rattle.unit_source.specs.Volume.{and_file, has_room, one_file, spent};

/// The most files of a unit.
pub const MAX_UNIT_FILES: usize = 256;
/// The most bytes of a unit.
pub const MAX_UNIT_BYTES: usize = 1_048_576;

// How many files of how many bytes were read.
#[derive(Clone, Copy)]
pub(crate) struct Volume {
    pub files: usize,
    pub bytes: usize,
}

impl Volume {
    // A file of so many bytes alone.
    pub fn one(bytes: usize) -> Self
        ensures { result ≡ one_file bytes }
    {
        Volume { files: 1, bytes }
    }

    // Whether a file of so many bytes more passes no limit.
    pub fn has_room(self, bytes: usize) -> bool
        ensures { result ≡ has_room bytes self }
    {
        self.files < MAX_UNIT_FILES
            && self.bytes <= MAX_UNIT_BYTES
            && bytes <= MAX_UNIT_BYTES - self.bytes
    }

    // A file of so many bytes more is read.
    pub fn count(&mut self, bytes: usize)
        requires { has_room bytes self.old ≡ true }
        ensures { self.new ≡ and_file bytes self.old }
    {
        self.files += 1;
        self.bytes += bytes;
    }

    // A limit was passed: no file more is read.
    pub fn spend(&mut self)
        ensures { self.new ≡ spent self.old }
    {
        self.files = MAX_UNIT_FILES;
    }
}
