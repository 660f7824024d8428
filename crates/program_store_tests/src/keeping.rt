use crate::listed::{listed, names, path};
use crate::word::{Word, needing};
use pg_text::{BadPath, Failure};
use program_store::Store;
use source_tree::Tree;
use std::alloc::Global;

/// What a test asks a store for. A tree is named by its place among the versions.
#[derive(Clone, Copy)]
pub enum Ask<'a> {
    /// Keep a value for the path that needs these names, each with its stamp or absent.
    Keep(&'a str, usize, &'a [(&'a str, Option<u64>)]),
    Hit(&'a str, usize),
    Dirty(&'a [&'a str]),
    Drop(&'a [&'a str]),
}

/// What each comes to, one after the other, a line for each.
pub fn asked(alloc: Global, trees: &[Tree], asks: &[Ask]) -> Result<String, Failure<BadPath>> {
    let mut store = Store::new(alloc);
    let mut lines = String::new(alloc);
    for ask in asks {
        let line = answer(alloc, &mut store, trees, ask)?;
        lines.push_str(line.as_str())?;
        lines.push_str("\n")?;
    }
    Ok(lines)
}

fn answer(
    alloc: Global,
    store: &mut Store<Word>,
    trees: &[Tree],
    ask: &Ask,
) -> Result<String, Failure<BadPath>> {
    match *ask {
        Ask::Keep(name, version, needs) => keep(alloc, store, name, trees.get(version), needs),
        Ask::Hit(name, version) => hit(alloc, store, name, trees.get(version)),
        Ask::Dirty(changed) => dirty(alloc, store, changed),
        Ask::Drop(changed) => drop_dirty(alloc, store, changed),
    }
}

fn keep(
    alloc: Global,
    store: &mut Store<Word>,
    name: &str,
    tree: Option<&Tree>,
    needs: &[(&str, Option<u64>)],
) -> Result<String, Failure<BadPath>> {
    let kept = match tree {
        Some(tree) => is_kept(alloc, store, name, tree, needs)?,
        None => false,
    };
    Ok(format!(in alloc; "kept {kept}")?)
}

fn is_kept(
    alloc: Global,
    store: &mut Store<Word>,
    name: &str,
    tree: &Tree,
    needs: &[(&str, Option<u64>)],
) -> Result<bool, Failure<BadPath>> {
    let name = path(alloc, name)?;
    let word = needing(alloc, needs)?;
    Ok(store.keep(&name, word, tree)?)
}

fn hit(
    alloc: Global,
    store: &Store<Word>,
    name: &str,
    tree: Option<&Tree>,
) -> Result<String, Failure<BadPath>> {
    let name = path(alloc, name)?;
    let hit = match tree {
        Some(tree) => store.hit(&name, tree).is_some(),
        None => false,
    };
    Ok(format!(in alloc; "hit {hit}")?)
}

fn dirty(alloc: Global, store: &Store<Word>, changed: &[&str]) -> Result<String, Failure<BadPath>> {
    let changed = names(alloc, changed)?;
    let dirty = store.dirty(&changed)?;
    Ok(listed(alloc, &dirty)?)
}

fn drop_dirty(
    alloc: Global,
    store: &mut Store<Word>,
    changed: &[&str],
) -> Result<String, Failure<BadPath>> {
    let changed = names(alloc, changed)?;
    let dirty = store.drop_dirty(&changed)?;
    Ok(listed(alloc, &dirty)?)
}
