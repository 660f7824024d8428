ghost use Rattle.std.specs.Prelude.{◌≡◌, ◌<◌, ℕ, List, [], option_map, IfOk, OnOk, OnErr};
ghost use Rattle.std.specs.Prelude.{if◌then◌else◌};
ghost use Rattle.std.specs.Arc.{arc_value};
ghost use Rattle.std.specs.Vec.{vec_len, vec_capacity};
ghost use Rattle.pg_text.specs.Order.{AreRising, IsPlace, path_cmp, with_item, without_item};
ghost use Rattle.site_words.specs.Trees.{agrees};
ghost use Rattle.program_store.specs.Store.{clean_in, dirty_in, hit_of, kept_in, kept_of, needing};
ghost use Rattle.program_store.specs.Store.{others, shelf_path, value_for, with_value};
ghost use Rattle.program_store.specs.Store.{without_values};

use crate::fit::fits;
use crate::needs::names_of;
use crate::shelf::Shelf;
use dep_graph::Deps;
use pg_text::{Names, Path};
use site_words::Compiled;
use source_tree::Tree;
use std::alloc::{AllocError, Global};
use std::cmp::Ordering;
use std::sync::Arc;

// One in so many paths is many: then all are gone over.
const MANY: usize = 2;

/// What is kept, in byte order of the paths, and which of the paths need a name. Contracts see the
/// list of each path with its value.
#[derive(Drop)]
pub struct Store<P: Compiled> {
    pub shelves: Vec<Shelf<P>>,
    deps: Deps,
    ghost in_order: { AreRising shelf_path shelves.items },
    ghost in_step: { deps ≡ needing P.needed shelves.items },
}

impl<P: Compiled> Store<P> {
    /// Nothing is kept.
    pub fn new(alloc: Global) -> Self
        ensures { kept_in result.shelves.items ≡ [] }
    {
        Store {
            shelves: Vec::new(alloc),
            deps: Deps::new(alloc),
        }
    }

    /// The value of the path, where its needs stand so in the tree. It takes no memory.
    pub fn hit(&self, path: &Path, tree: &Tree) -> Option<&Arc<P>>
        ensures { option_map (λ made. arc_value made.now) result ≡ hit_of P.needed path.now tree.now
            (kept_in self.now.shelves.items) }
    {
        match place_of(&self.shelves, path) {
            Ok(at) => ready(&self.shelves[at], tree),
            Err(_) => None,
        }
    }

    /// Keeps the value for the path, in the place of the one that was kept for it. Where memory
    /// runs out all is as before.
    pub fn put(&mut self, path: Path, made: Arc<P>) -> Result<(), AllocError>
        ensures ok { OnOk result (kept_in self.new.shelves.items
            ≡ with_value path (arc_value made) (kept_in self.old.shelves.items)) }
        ensures err { OnErr result (kept_in self.new.shelves.items ≡ kept_in self.old.shelves.items) }
    {
        let names = names_of(*self.shelves.allocator(), made.stamps().as_slice())?;
        self.shelves.try_reserve(1)?;
        self.deps.add(&path, &names)?;
        put(&mut self.shelves, Shelf { path, made });
        Ok(())
    }

    /// Keeps the value for the path where its needs stand so in the latest tree, and says whether
    /// they do.
    pub fn keep(&mut self, path: &Path, made: Arc<P>, latest: &Tree) -> Result<bool, AllocError>
        ensures ok { IfOk result (λ kept. (kept ≡ agrees (P.needed (arc_value made)) latest.now)
            × (kept_in self.new.shelves.items
            ≡ (if kept then with_value path.now (arc_value made) (kept_in self.old.shelves.items)
            else kept_in self.old.shelves.items))) }
        ensures err { OnErr result (kept_in self.new.shelves.items ≡ kept_in self.old.shelves.items) }
    {
        if !fits(&*made, latest) {
            return Ok(false);
        }
        self.put(path.copy()?, made)?;
        Ok(true)
    }

    /// The paths whose values need one of the names. Nothing is changed, so that a publishing can
    /// be weighed first. It looks at these paths alone.
    pub fn dirty(&self, names: &Names) -> Result<Names, AllocError>
        ensures { IfOk result (λ dirty. dirty ≡ dirty_in P.needed names.now (kept_in self.now.shelves.items)) }
    {
        self.deps.dirty(names)
    }

    /// Takes out the values of these paths: where a publishing clears the store, all that are
    /// dirty. It takes no memory.
    pub fn clear(&mut self, paths: &Names)
        ensures left { kept_in self.new.shelves.items ≡ without_values paths.now (kept_in self.old.shelves.items) }
        ensures clean { (names : List (List ℕ)) →
            paths.now ≡ dirty_in P.needed names (kept_in self.old.shelves.items)
            → kept_in self.new.shelves.items ≡ clean_in P.needed names (kept_in self.old.shelves.items) }
    {
        clear(&mut self.shelves, paths);
        self.deps.remove_all(paths);
    }

    /// Takes out the values that need one of the names, and tells their paths.
    pub fn drop_dirty(&mut self, names: &Names) -> Result<Names, AllocError>
        ensures ok { IfOk result (λ dirty. (dirty
            ≡ dirty_in P.needed names.now (kept_in self.old.shelves.items)) × (kept_in self.new.shelves.items
            ≡ clean_in P.needed names.now (kept_in self.old.shelves.items))) }
        ensures err { OnErr result (kept_in self.new.shelves.items ≡ kept_in self.old.shelves.items) }
    {
        let dirty = self.dirty(names)?;
        self.clear(&dirty);
        Ok(dirty)
    }
}

// The value of the shelf, where its needs stand so in the tree.
fn ready<'a, P: Compiled>(shelf: &'a Shelf<P>, tree: &Tree) -> Option<&'a Arc<P>>
    ensures { option_map (λ made. arc_value made.now) result
        ≡ value_for P.needed tree.now (Some (kept_of shelf.entry.now)) }
{
    if fits(&*shelf.made, tree) {
        Some(&shelf.made)
    } else {
        None
    }
}

// The index of the path, or the one at which it would stand.
fn place_of<P>(shelves: &[Shelf<P>], path: &Path) -> Result<usize, usize>
    requires { AreRising shelf_path shelves.now }
    ensures { IsPlace shelf_path path.now shelves.now result }
{
    shelves.binary_search_by(|shelf| compare(shelf, path))
}

fn compare<P>(shelf: &Shelf<P>, path: &Path) -> Ordering
    ensures { result ≡ path_cmp shelf.now.path path.now }
{
    shelf.path.as_bytes().cmp(path.as_bytes())
}

// Puts the shelf at its place, in the place of the one with its path.
fn put<P: Drop>(shelves: &mut Vec<Shelf<P>>, shelf: Shelf<P>)
    requires order { AreRising shelf_path shelves.old.items }
    requires room { vec_len shelves.old < vec_capacity shelves.old }
    ensures { shelves.new.items ≡ with_item shelf_path shelf shelves.old.items }
{
    match place_of(shelves, &shelf.path) {
        Ok(at) => shelves[at] = shelf,
        Err(at) => {
            let Ok(()) = shelves.insert(at, shelf) else {
                unreachable!()
            };
        }
    }
}

// Takes out the shelves of the paths. Few are looked up one by one; for many all are gone over
// once.
fn clear<P: Drop>(shelves: &mut Vec<Shelf<P>>, paths: &Names)
    requires { AreRising shelf_path shelves.old.items }
    ensures { shelves.new.items ≡ others shelf_path paths.now shelves.old.items }
{
    if paths.len() < shelves.len() / MANY {
        take_out_each(shelves, paths);
    } else {
        shelves.retain(|shelf| !paths.contains(&shelf.path));
    }
}

// The same, where the shelf of each path is looked up.
fn take_out_each<P: Drop>(shelves: &mut Vec<Shelf<P>>, paths: &Names)
    requires { AreRising shelf_path shelves.old.items }
    ensures { shelves.new.items ≡ others shelf_path paths.now shelves.old.items }
{
    for path in paths.as_slice() {
        take_out(shelves, path);
    }
}

// Takes out the shelf of the path, where there is one.
fn take_out<P: Drop>(shelves: &mut Vec<Shelf<P>>, path: &Path)
    requires { AreRising shelf_path shelves.old.items }
    ensures { shelves.new.items ≡ without_item shelf_path path.now shelves.old.items }
{
    if let Ok(at) = place_of(shelves, path) {
        shelves.remove(at);
    }
}
