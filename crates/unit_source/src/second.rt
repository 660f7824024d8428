ghost use Rattle.std.specs.Prelude.{◌≡◌, ◌≤◌, length, IfOk, OnOk};
ghost use Rattle.page_reader.specs.PageText.{page_text};
ghost use Rattle.page_reader.specs.Trees.{page_of};
ghost use Rattle.unit_source.specs.Files.{text_in};
ghost use Rattle.unit_source.specs.First.{brought_by, brought_names, firsts_by, own_directives};
ghost use Rattle.unit_source.specs.Placed.{in_place};
ghost use Rattle.unit_source.specs.ReadSplice.{with_more};
ghost use Rattle.unit_source.specs.Splice.{file_nodes};
ghost use Rattle.unit_source.specs.Volume.{one_file};

use crate::PlacedNode;
use crate::brought::read_brought;
use crate::chain::Chain;
use crate::files::UnitFiles;
use crate::placing::file_nodes;
use crate::progress::Progress;
use crate::source_file::SourceFile;
use page_pieces::{Brought, Setting};
use page_reader::{PageTree, one_page, read_under};
use pg_text::Path;
use pg_value::PageSettings;
use source_tree::MAX_FILE_BYTES;
use std::alloc::{AllocError, Global};

// A file by itself: its nodes before its include directives are read, and what these bring.
#[derive(Drop)]
pub(crate) struct Alone {
    pub nodes: Vec<PlacedNode>,
    pub brought: Brought,
}

// The page of a text under a setting.
fn page_under(
    alloc: Global,
    path: &Path,
    text: &str,
    setting: &Setting,
) -> Result<PageTree, AllocError>
    requires { length text.now ≤ MAX_FILE_BYTES }
    ensures { IfOk result (λ tree. page_of tree ≡ page_text setting.now path.now text.now) }
{
    one_page();
    read_under(alloc, path, text, setting)
}

// Reads a file by itself under settings and behind the prefixes that are registered; the chain
// begins with that file.
#[inline(never)]
pub(crate) fn read_alone(
    files: &mut UnitFiles,
    settings: &PageSettings,
    chain: &Chain,
    source: &SourceFile,
    progress: &mut Progress,
) -> Result<Alone, AllocError>
    ensures brought { IfOk result (λ alone. alone.brought
        ≡ brought_by (firsts_by (text_in files.old) chain.now (one_file (length source.now.text))
        (own_directives source.now.path source.now.text))) }
    ensures nodes { IfOk result (λ alone. in_place alone.nodes.items
        ≡ file_nodes settings.now progress.old.going.prefixes
        (brought_by (firsts_by (text_in files.old) chain.now (one_file (length source.now.text))
        (own_directives source.now.path source.now.text))) source.now.path source.now.text) }
    ensures progress { OnOk result (progress.new
        ≡ with_more (brought_names (firsts_by (text_in files.old) chain.now
        (one_file (length source.now.text)) (own_directives source.now.path source.now.text))) progress.old) }
    ensures files { files.new ≡ files.old }
{
    let alloc = files.alloc();
    let brought = progress.read_brought(files, chain, source.text().len(), source.own())?;
    let setting = Setting {
        prefixes: progress.shared_prefixes()?,
        brought,
        el: settings.el,
        hash_is_text: settings.hash_is_text,
    };
    let tree = page_under(alloc, source.path(), source.text(), &setting)?;
    Ok(Alone {
        nodes: file_nodes(alloc, tree, settings.trim)?,
        brought: setting.brought,
    })
}
