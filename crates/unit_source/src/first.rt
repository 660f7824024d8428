ghost use Rattle.std.specs.Prelude.{◌≡◌, ◌++◌, OnOk};
ghost use Rattle.unit_source.specs.Files.{text_in};
ghost use Rattle.unit_source.specs.First.{first_all, first_file, first_within, included_path};
ghost use Rattle.unit_source.specs.First.{none_read};
ghost use Rattle.unit_source.specs.ReadFirst.{and_name, and_part, told, told_behind};
ghost use Rattle.unit_source.specs.ReadParts.{in_part, in_parts};

use crate::WrittenDirective;
use crate::chain::{Chain, included_path};
use crate::files::UnitFiles;
use crate::part::Part;
use crate::source_file::SourceFile;
use crate::volume::Volume;
use page_pieces::Prefixes;
use pg_text::{Listed, Path};
use std::alloc::{AllocError, Global};
use std::marker::Model;

// How deep the readings go: one more than the most files of a unit (`MAX_UNIT_FILES`).
pub(crate) const MAX_CHAIN: usize = 257;

// First readings: directives in reading order, the prefixes that they register, the names of the
// files that they include, and what was read.
#[derive(Drop)]
pub(crate) struct First {
    directives: Listed<WrittenDirective>,
    prefixes: Prefixes,
    names: Listed<Path>,
    volume: Volume,
}

impl Model for First {
    ghost use Rattle.unit_source.specs.ReadFirst.{Told};

    ghost Value = { Told };

    ghost view = { λ f. record { directives = f.directives; prefixes = f.prefixes; names = f.names; volume = f.volume } };
}

impl First {
    // A reading that begins where so much was read before.
    pub fn new(alloc: Global, volume: Volume) -> Self
        ensures { result ≡ told (none_read volume) }
    {
        First {
            directives: Listed::empty(alloc),
            prefixes: Prefixes::new(alloc),
            names: Listed::empty(alloc),
            volume,
        }
    }

    // The prefixes that the directives register.
    pub fn prefixes(&self) -> &Prefixes
        ensures { result.now ≡ self.now.prefixes }
    {
        &self.prefixes
    }

    // The names of the files that the directives include, in reading order, found or not.
    pub fn names(&self) -> &[Path]
        ensures { result.now ≡ self.now.names }
    {
        self.names.as_slice()
    }

    // How much was read.
    pub fn volume(&self) -> Volume
        ensures { result ≡ self.now.volume }
    {
        self.volume
    }

    // The directives and the names, without a copy.
    pub fn into_parts(self) -> (Listed<WrittenDirective>, Listed<Path>)
        ensures directives { result.0 ≡ self.directives }
        ensures names { result.1 ≡ self.names }
    {
        (self.directives, self.names)
    }

    // Adds the directives of a part, its include directive among them.
    fn push(&mut self, part: &Part) -> Result<(), AllocError>
        ensures { OnOk result (self.new ≡ and_part part.now self.old) }
    {
        push_directives(&mut self.directives, part)?;
        self.prefixes.append(part.prefixes())
    }

    // Adds the name of a file that a directive includes.
    fn push_name(&mut self, name: &Path) -> Result<(), AllocError>
        ensures { OnOk result (self.new ≡ and_name name.now self.old) }
    {
        self.names.push(name.copy()?)
    }
}

// Adds the directives of a part: the plain ones, and behind them its include directive.
fn push_directives(directives: &mut Listed<WrittenDirective>, part: &Part) -> Result<(), AllocError>
    ensures { OnOk result (directives.new ≡ directives.old ++ in_part part.now) }
{
    for directive in part.plain() {
        directives.push(directive.copy()?)?;
    }
    if let Some(include) = part.include() {
        directives.push(include.copy()?)?;
    }
    Ok(())
}

// Adds to `found` the first reading of a file and, behind each include directive, those of the
// file that it includes. `chain` has the files that are being read around this one, the innermost
// first: none of them is entered again. `deep` is how many files deeper it may go. Where memory
// runs out `found` has a part.
#[cycle(first)]
#[tactic(auto, using(crate::proofs::FirstLemmas::first_step, crate::proofs::FirstLemmas::first_end))]
pub(crate) fn read_first(
    files: &mut UnitFiles,
    chain: &Chain,
    deep: usize,
    file: &SourceFile,
    found: &mut First,
) -> Result<(), AllocError>
    ensures first { OnOk result (found.new ≡ told_behind found.old
        (first_within deep (text_in files.old) chain.now found.old.volume file.now.path file.now.text)) }
    ensures files { files.new ≡ files.old }
{
    if deep == 0 {
        return Ok(());
    }
    let longer = Chain::entered(file.path(), &*chain);
    read_parts(files, &longer, deep - 1, file.parts(), found)
}

// Adds parts of the chain's first file, and behind each the first readings of the file that it
// includes.
#[cycle(first)]
fn read_parts(
    files: &mut UnitFiles,
    chain: &Chain,
    deep: usize,
    parts: &[Part],
    found: &mut First,
) -> Result<(), AllocError>
    ensures first { OnOk result (found.new ≡ told_behind found.old
        (first_all (first_within deep (text_in files.old) chain.now) (text_in files.old)
        chain.now found.old.volume (in_parts parts.now))) }
    ensures files { files.new ≡ files.old }
{
    for part in parts {
        read_part(files, chain, deep, part, found)?;
    }
    Ok(())
}

// Adds a part of the chain's first file, and behind it the first readings of the file that it
// includes.
#[cycle(first)]
#[tactic(auto, using(crate::proofs::FirstLemmas::part_followed, crate::proofs::FirstLemmas::part_ended))]
fn read_part(
    files: &mut UnitFiles,
    chain: &Chain,
    deep: usize,
    part: &Part,
    found: &mut First,
) -> Result<(), AllocError>
    ensures first { OnOk result (found.new ≡ told_behind found.old
        (first_all (first_within deep (text_in files.old) chain.now) (text_in files.old)
        chain.now found.old.volume (in_part part.now))) }
    ensures files { files.new ≡ files.old }
{
    found.push(part)?;
    match part.include() {
        Some(include) => read_included(files, chain, deep, include, found),
        None => Ok(()),
    }
}

// Adds the first readings of the file that a directive of the chain's first file includes, where it
// includes one.
#[cycle(first)]
#[tactic(auto, using(crate::proofs::FirstLemmas::behind_none, crate::proofs::FirstLemmas::behind_name))]
pub(crate) fn read_included(
    files: &mut UnitFiles,
    chain: &Chain,
    deep: usize,
    directive: &WrittenDirective,
    found: &mut First,
) -> Result<(), AllocError>
    ensures first { OnOk result (found.new ≡ told_behind found.old
        (first_file (first_within deep (text_in files.old) chain.now) (text_in files.old)
        chain.now found.old.volume (included_path directive.now))) }
    ensures files { files.new ≡ files.old }
{
    let Some(path) = included_path(files.alloc(), directive)? else {
        return Ok(());
    };
    found.push_name(&path)?;
    if chain.contains(&path) {
        return Ok(());
    }
    let Some(bytes) = files.bytes_at(&path) else {
        return Ok(());
    };
    if !found.volume.has_room(bytes) {
        found.volume.spend();
        return Ok(());
    }
    found.volume.count(bytes);
    let Some(file) = files.file(&path)? else {
        unreachable!();
    };
    read_first(files, chain, deep, &file, found)
}
