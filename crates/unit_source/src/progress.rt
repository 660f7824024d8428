ghost use Rattle.std.specs.Prelude.{◌≡◌, ◌∷◌, [], true, IfOk, OnOk};
ghost use Rattle.page_pieces.specs.Settings.{brought_at};
ghost use Rattle.unit_source.specs.Files.{text_in};
ghost use Rattle.unit_source.specs.First.{brought_by, brought_names, firsts_by};
ghost use Rattle.unit_source.specs.ReadSplice.{gone, with_more};
ghost use Rattle.unit_source.specs.Splice.{full, with_file, with_prefixes};
ghost use Rattle.unit_source.specs.Volume.{has_room, one_file};

use crate::WrittenDirective;
use crate::brought::read_brought;
use crate::chain::Chain;
use crate::files::UnitFiles;
use crate::volume::Volume;
use page_pieces::{Brought, Prefixes};
use pg_text::{Listed, Path, Text};
use std::alloc::{AllocError, Global};
use std::marker::Model;

/// The most elements in which an element of a unit stands.
pub const MAX_NESTING: usize = 64;

// How the second reading of a page or a tag file goes on: the names of the files that were included
// so far, the prefixes that are registered, and the files and bytes that were read.
#[derive(Drop)]
pub(crate) struct Progress {
    names: Listed<Path>,
    prefixes: Prefixes,
    volume: Volume,
}

impl Model for Progress {
    ghost use Rattle.unit_source.specs.ReadSplice.{Gone};

    ghost Value = { Gone };

    ghost view = { λ p. record { names = p.names; going = record { prefixes = p.prefixes; volume = p.volume } } };
}

impl Progress {
    // A file of so many bytes is read, and nothing else yet.
    pub fn new(alloc: Global, bytes: usize) -> Self
        ensures { result ≡ gone [] (record { prefixes = []; volume = one_file bytes }) }
    {
        Progress {
            names: Listed::empty(alloc),
            prefixes: Prefixes::new(alloc),
            volume: Volume::one(bytes),
        }
    }

    // A copy of the prefixes, which shares them.
    #[inline(never)]
    pub fn shared_prefixes(&mut self) -> Result<Prefixes, AllocError>
        ensures prefixes { IfOk result (λ prefixes. prefixes ≡ self.old.going.prefixes) }
        ensures same { OnOk result (self.new ≡ self.old) }
    {
        self.prefixes.close()?;
        self.prefixes.copy()
    }

    // The names of the files that were included.
    pub fn names(&self) -> &[Path]
        ensures { result.now ≡ self.now.names }
    {
        self.names.as_slice()
    }

    // Adds the name of a file that was included.
    #[inline(never)]
    pub fn push_name(&mut self, name: &Path) -> Result<(), AllocError>
        ensures { OnOk result (self.new ≡ with_more (name.now ∷ []) self.old) }
    {
        self.names.push(name.copy()?)
    }

    // What the include directives of a file bring, and the names of the files that are read for it.
    pub fn read_brought(
        &mut self,
        files: &mut UnitFiles,
        chain: &Chain,
        bytes: usize,
        own: &[WrittenDirective],
    ) -> Result<Brought, AllocError>
        ensures brought { IfOk result (λ brought. brought
            ≡ brought_by (firsts_by (text_in files.old) chain.now (one_file bytes) own.now)) }
        ensures names { OnOk result (self.new
            ≡ with_more (brought_names (firsts_by (text_in files.old) chain.now (one_file bytes) own.now))
            self.old) }
        ensures files { files.new ≡ files.old }
    {
        read_brought(files, chain, bytes, own, &mut self.names)
    }

    // Prefixes are registered.
    #[inline(never)]
    pub fn register(&mut self, prefixes: &[Text]) -> Result<(), AllocError>
        ensures { OnOk result (self.new ≡ gone self.old.names (with_prefixes prefixes.now self.old.going)) }
    {
        self.prefixes.push_all(prefixes)
    }

    // The prefixes are registered that the include directive with this first byte brings.
    #[inline(never)]
    pub fn register_brought(&mut self, brought: &Brought, byte: u32) -> Result<(), AllocError>
        ensures { OnOk result (self.new ≡ gone self.old.names
            (with_prefixes (brought_at byte brought.now) self.old.going)) }
    {
        brought.register(byte, &mut self.prefixes)
    }

    // These prefixes are registered and no others.
    #[inline(never)]
    pub fn set_prefixes(&mut self, prefixes: Prefixes)
        ensures { self.new ≡ gone self.old.names (record { prefixes = prefixes; volume = self.old.going.volume }) }
    {
        self.prefixes = prefixes;
    }

    // Whether a file of so many bytes passes no limit of files or bytes.
    pub fn has_room(&self, bytes: usize) -> bool
        ensures { result ≡ has_room bytes self.now.going.volume }
    {
        self.volume.has_room(bytes)
    }

    // A file of so many bytes is read.
    pub fn count_file(&mut self, bytes: usize)
        requires { has_room bytes self.old.going.volume ≡ true }
        ensures { self.new ≡ gone self.old.names (with_file bytes self.old.going) }
    {
        self.volume.count(bytes);
    }

    // A limit was passed: no file more is read.
    pub fn fill(&mut self)
        ensures { self.new ≡ gone self.old.names (full self.old.going) }
    {
        self.volume.spend();
    }
}
