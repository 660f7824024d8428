ghost use Rattle.std.specs.Prelude.{◌≡◌, ◌++◌, ◌∷◌, [], IfOk, OnOk};
ghost use Rattle.unit_source.specs.Files.{text_in};
ghost use Rattle.unit_source.specs.First.{brought_by, brought_first, brought_names, firsts_by};
ghost use Rattle.unit_source.specs.ReadFirst.{told};
ghost use Rattle.unit_source.specs.Volume.{one_file};

use crate::WrittenDirective;
use crate::chain::Chain;
use crate::files::UnitFiles;
use crate::first::{First, MAX_CHAIN, read_included};
use crate::volume::Volume;
use page_pieces::{Brought, BroughtPrefixes};
use pg_text::{Listed, Path};
use std::alloc::AllocError;

// The first readings of the file that an include directive names, and of those that it includes,
// where so much was read before.
fn brought_first(
    files: &mut UnitFiles,
    chain: &Chain,
    volume: Volume,
    directive: &WrittenDirective,
) -> Result<First, AllocError>
    ensures first { IfOk result (λ f. f ≡ told (brought_first (text_in files.old) chain.now volume directive.now)) }
    ensures files { files.new ≡ files.old }
{
    let mut found = First::new(files.alloc(), volume);
    read_included(files, chain, MAX_CHAIN, directive, &mut found)?;
    Ok(found)
}

// Adds names.
pub(crate) fn push_names(names: &mut Listed<Path>, more: &[Path]) -> Result<(), AllocError>
    ensures { OnOk result (names.new ≡ names.old ++ more.now) }
{
    for name in more {
        names.push(name.copy()?)?;
    }
    Ok(())
}

// Adds the prefixes that an include directive brings, where so much was read before, and the names
// of the files that are read for them. The answer is how much was read then.
fn add_brought(
    files: &mut UnitFiles,
    chain: &Chain,
    volume: Volume,
    directive: &WrittenDirective,
    brought: &mut Brought,
    names: &mut Listed<Path>,
) -> Result<Volume, AllocError>
    ensures volume { IfOk result (λ behind. behind
        ≡ (brought_first (text_in files.old) chain.now volume directive.now).volume) }
    ensures brought { OnOk result (brought.new ≡ brought.old ++ brought_by
        ((directive.now.place.byte, brought_first (text_in files.old) chain.now volume directive.now) ∷ [])) }
    ensures names { OnOk result (names.new ≡ names.old
        ++ (brought_first (text_in files.old) chain.now volume directive.now).names) }
    ensures files { files.new ≡ files.old }
{
    let first = brought_first(files, chain, volume, directive)?;
    brought.push(BroughtPrefixes {
        byte: directive.place().byte,
        prefixes: first.prefixes().copy()?,
    })?;
    push_names(names, first.names())?;
    Ok(first.volume())
}

// The prefixes that the include directives among `own` bring: the directives of a file with this
// chain and so many bytes. The names of the files that are read for them are added.
pub(crate) fn read_brought(
    files: &mut UnitFiles,
    chain: &Chain,
    bytes: usize,
    own: &[WrittenDirective],
    names: &mut Listed<Path>,
) -> Result<Brought, AllocError>
    ensures brought { IfOk result (λ brought. brought
        ≡ brought_by (firsts_by (text_in files.old) chain.now (one_file bytes) own.now)) }
    ensures names { OnOk result (names.new ≡ names.old ++ brought_names
        (firsts_by (text_in files.old) chain.now (one_file bytes) own.now)) }
    ensures files { files.new ≡ files.old }
{
    let alloc = files.alloc();
    let mut brought = Brought::empty(alloc);
    let mut volume = Volume::one(bytes);
    for directive in own {
        if directive.name() == "include" {
            volume = add_brought(files, chain, volume, directive, &mut brought, names)?;
        }
    }
    Ok(brought)
}
