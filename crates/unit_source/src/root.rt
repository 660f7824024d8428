ghost use Rattle.std.specs.Prelude.{◌≡◌, ◌++◌, [], length, IfOk, OnOk};
ghost use Rattle.page_directives.specs.Settings.{settings_of};
ghost use Rattle.unit_source.specs.Files.{text_in};
ghost use Rattle.unit_source.specs.First.{first_within, most_deep};
ghost use Rattle.unit_source.specs.Placed.{in_place, root_view};
ghost use Rattle.unit_source.specs.ReadFirst.{told};
ghost use Rattle.unit_source.specs.Root.{rooted, second_reading};
ghost use Rattle.unit_source.specs.Volume.{one_file};

use crate::brought::push_names;
use crate::chain::Chain;
use crate::files::UnitFiles;
use crate::first::{First, MAX_CHAIN, read_first};
use crate::progress::Progress;
use crate::reading_order::borrowed;
use crate::source_file::SourceFile;
use crate::splice::read_file;
use crate::volume::Volume;
use crate::within::Within;
use crate::{PlacedNode, WrittenDirective};
use page_directives::settings;
use pg_text::{Listed, Path};
use pg_value::PageSettings;
use std::alloc::{AllocError, Global};

/// A page or a tag file, read twice. The first reading takes each file by itself and decides the
/// settings, under which the second puts the static includes in place.
#[derive(Drop)]
pub struct Root {
    pub path: Path,
    /// Whether this is a tag file.
    pub in_tag: bool,
    /// The bytes of the file itself.
    pub bytes: usize,
    /// The directives of the first reading, in reading order.
    pub first: Listed<WrittenDirective>,
    pub settings: PageSettings,
    pub nodes: Vec<PlacedNode>,
    /// The names of the files that either reading includes, each as often as it is named, absent
    /// ones too.
    pub names: Listed<Path>,
}

// The settings that directives of the first reading decide.
fn decided_settings(
    alloc: Global,
    first: &[WrittenDirective],
    in_tag: bool,
) -> Result<PageSettings, AllocError>
    ensures { IfOk result (λ settings. settings ≡ settings_of in_tag first.now) }
{
    let first = borrowed(alloc, first)?;
    settings(alloc, &first, in_tag)
}

// The first reading of a file and of what it includes.
fn first_reading(files: &mut UnitFiles, source: &SourceFile) -> Result<First, AllocError>
    ensures first { IfOk result (λ first. first ≡ told (first_within most_deep (text_in files.old) []
        (one_file (length source.now.text)) source.now.path source.now.text)) }
    ensures files { files.new ≡ files.old }
{
    let mut first = First::new(files.alloc(), Volume::one(source.text().len()));
    let outside = Chain::empty();
    read_first(files, &outside, MAX_CHAIN, source, &mut first)?;
    Ok(first)
}

// The second reading of a file under settings: its nodes with its includes in place. The names of
// the files that it includes are added.
fn second_reading(
    files: &mut UnitFiles,
    settings: &PageSettings,
    source: &SourceFile,
    names: &mut Listed<Path>,
) -> Result<Vec<PlacedNode>, AllocError>
    ensures nodes { IfOk result (λ nodes. in_place nodes.items
        ≡ (second_reading (text_in files.old) settings.now source.now.path source.now.text).nodes) }
    ensures names { OnOk result (names.new ≡ names.old
        ++ (second_reading (text_in files.old) settings.now source.now.path source.now.text).names) }
    ensures files { files.new ≡ files.old }
{
    let outside = Chain::empty();
    let within = Within {
        settings: &*settings,
        chain: &outside,
        deep: MAX_CHAIN,
    };
    let mut progress = Progress::new(files.alloc(), source.text().len());
    let nodes = read_file(files, within, 0, source, &mut progress)?;
    push_names(names, progress.names())?;
    Ok(nodes)
}

// Reads a file twice, as a page or a tag file.
#[tactic(auto, unfolding(crate::specs::Root::rooted))]
pub(crate) fn read_twice(
    files: &mut UnitFiles,
    source: &SourceFile,
    in_tag: bool,
) -> Result<Root, AllocError>
    ensures root { IfOk result (λ root. root_view root
        ≡ rooted (text_in files.old) in_tag source.now.path source.now.text) }
    ensures files { files.new ≡ files.old }
{
    let alloc = files.alloc();
    let bytes = source.text().len();
    let path = source.path().copy()?;
    let first = first_reading(files, source)?;
    let (first, mut names) = first.into_parts();
    let settings = decided_settings(alloc, first.as_slice(), in_tag)?;
    let nodes = second_reading(files, &settings, source, &mut names)?;
    Ok(Root {
        path,
        in_tag,
        bytes,
        first,
        settings,
        nodes,
        names,
    })
}
