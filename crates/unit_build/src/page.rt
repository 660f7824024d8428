ghost use Rattle.std.specs.Prelude.{◌≡◌, map, IfOk};
ghost use Rattle.page_directives.specs.Meet.{Before};
ghost use Rattle.pg_value.specs.Value.{entry_of};
ghost use Rattle.unit_source.specs.Placed.{root_view};
ghost use Rattle.unit_words.specs.Build.{built};
ghost use Rattle.unit_words.specs.State.{State};
ghost use Rattle.unit_words.specs.Unit.{beans_in_order, good_beans, page_of, tag_file};
ghost use Rattle.unit_judges.specs.Made.{class_made};
ghost use Rattle.unit_build.specs.ReadFound.{state_in};
ghost use Rattle.unit_nodes.specs.Views.{nodes_of, page_view, tag_view};

use crate::found::Found;
use crate::nodes::built_nodes;
use crate::tag::{Tag, declaration};
use pg_text::Text;
use pg_value::{Attrs, Value};
use std::alloc::{AllocError, Global};
use std::sync::Arc;
use unit_judges::{Bean, Readings, Registered};
use unit_nodes::{Page, TagFile, UnitNode};
use unit_source::Root;

/// The page that was read, with the tag files and the beans that were found.
pub(crate) fn page_of(alloc: Global, root: &Root, found: Found) -> Result<Page, AllocError>
    ensures { IfOk result (λ page. (before : Before) → page_view page
        ≡ page_of (root_view root.now) (state_in before found.entry)) }
{
    let beans = found.beans;
    let mut readings = found.readings;
    page_with(alloc, root, beans, &found.tags, &mut readings)
}

// The page that was read, with these beans and these tag files.
fn page_with(
    alloc: Global,
    root: &Root,
    beans: Vec<(Text, Bean)>,
    tags: &[Arc<Tag>],
    readings: &mut Readings,
) -> Result<Page, AllocError>
    ensures { IfOk result (λ page. (state : State) → state.beans ≡ map class_made beans.items
        → state.tags ≡ map (λ tag. root_view tag.value) tags.now
        → page_view page ≡ page_of (root_view root.now) state) }
{
    let beans = beans_in_order(alloc, beans)?;
    let nodes = root_nodes(alloc, root, readings)?;
    Ok(Page {
        path: root.path.copy()?,
        settings: root.settings.copy()?,
        beans,
        tags: tag_files(alloc, tags, readings)?,
        nodes,
    })
}

// The nodes of a page or a tag file.
fn root_nodes(
    alloc: Global,
    root: &Root,
    readings: &mut Readings,
) -> Result<Vec<UnitNode>, AllocError>
    ensures { IfOk result (λ nodes. nodes_of nodes.items ≡ built (root_view root.now).directives
        (root_view root.now).nodes) }
{
    let directives = Registered::in_nodes(alloc, &root.nodes)?;
    built_nodes(alloc, &directives, &root.nodes, readings)
}

// A tag file that was read.
fn tag_file(alloc: Global, root: &Root, readings: &mut Readings) -> Result<TagFile, AllocError>
    ensures { IfOk result (λ tag. tag_view tag ≡ tag_file (root_view root.now)) }
{
    Ok(TagFile {
        path: root.path.copy()?,
        decl: declaration(alloc, root)?,
        settings: root.settings.copy()?,
        nodes: root_nodes(alloc, root, readings)?,
    })
}

// The tag files that were read.
fn tag_files(
    alloc: Global,
    tags: &[Arc<Tag>],
    readings: &mut Readings,
) -> Result<Vec<TagFile>, AllocError>
    ensures { IfOk result (λ files. map tag_view files.items
        ≡ map tag_file (map (λ tag. root_view tag.value) tags.now)) }
{
    let mut files = Vec::with_capacity(alloc, tags.len())?;
    for tag in tags {
        readings.go_on();
        files.push(tag_file(alloc, tag.root(), readings)?)?;
    }
    Ok(files)
}

// The beans without a fault, by their classes.
fn beans_in_order(alloc: Global, beans: Vec<(Text, Bean)>) -> Result<Attrs, AllocError>
    ensures { IfOk result (λ entries. entries ≡ beans_in_order (map class_made beans.items)) }
{
    Attrs::from_entries(good_beans(alloc, beans)?)
}

// The classes whose bean has no fault, each with its bean.
fn good_beans(alloc: Global, beans: Vec<(Text, Bean)>) -> Result<Vec<(Text, Value)>, AllocError>
    ensures { IfOk result (λ good. map entry_of good.items ≡ good_beans (map class_made beans.items)) }
{
    let mut good = Vec::new(alloc);
    for (class, bean) in beans {
        if let Ok(bean) = bean {
            good.push((class, bean))?;
        }
    }
    Ok(good)
}
