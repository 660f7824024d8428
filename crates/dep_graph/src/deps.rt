ghost use Rattle.std.specs.Prelude.{◌≡◌, ◌<◌, [], filter, not, option_map, IfOk, OnOk, OnErr};
ghost use Rattle.std.specs.Vec.{vec_len, vec_capacity};
ghost use Rattle.pg_text.specs.Names.{has_name};
ghost use Rattle.pg_text.specs.Order.{AreRising, IsPlace, item_at, path_cmp, with_item};
ghost use Rattle.pg_text.specs.Order.{without_item};
ghost use Rattle.dep_graph.specs.Deps.{dirty_of, names_at, path_of, some_paths, users_of};
ghost use Rattle.dep_graph.specs.Deps.{with_names, without_paths};

use crate::entries::{Dependent, Named};
use crate::index;
use pg_text::{Names, Path};
use std::alloc::{AllocError, Global};
use std::cmp::Ordering;
use std::marker::Model;

// One in so many paths is many: then all are gone over.
const MANY: usize = 2;

/// Paths with the names that each needs, in byte order of the paths, and an index of them by name.
/// Contracts see the list of each path with its names.
#[derive(Drop)]
pub struct Deps {
    dependents: Vec<Dependent>,
    index: Vec<Named>,
}

impl Model for Deps {
    ghost use Rattle.std.specs.Prelude.{List};
    ghost use Rattle.dep_graph.specs.declared.entries.Dependent.{Dependent};

    ghost Value = { List Dependent };

    ghost use Rattle.pg_text.specs.Order.{AreRising};
    ghost use Rattle.dep_graph.specs.Deps.{IsIndexOf, name_of, path_of};

    ghost view = { λ d. d.dependents.items };

    ghost invariant = { λ d. AreRising path_of d.dependents.items × AreRising name_of d.index.items
        × IsIndexOf d.dependents.items d.index.items };
}

impl Deps {
    /// No paths.
    pub fn new(alloc: Global) -> Self
        ensures { result ≡ [] }
    {
        Deps {
            dependents: Vec::new(alloc),
            index: Vec::new(alloc),
        }
    }

    /// The paths that need the name, and None where there are none.
    pub fn users(&self, name: &Path) -> Option<&Names>
        ensures { option_map (λ users. users.now) result ≡ some_paths (users_of name.now self.now) }
    {
        match index::place_of(&self.index, name) {
            Ok(at) => Some(&self.index[at].users),
            Err(_) => None,
        }
    }

    /// The paths that need one of the changed names. It looks at these paths alone.
    pub fn dirty(&self, changed: &Names) -> Result<Names, AllocError>
        ensures { IfOk result (λ paths. paths ≡ dirty_of changed.now self.now) }
    {
        let mut paths = Names::empty(*self.dependents.allocator());
        for name in changed.as_slice() {
            self.add_users(name, &mut paths)?;
        }
        Ok(paths)
    }

    // Adds the users of the name to the paths.
    fn add_users(&self, name: &Path, paths: &mut Names) -> Result<(), AllocError>
        ensures { OnOk result (paths.new ≡ with_names (users_of name.now self.now) paths.old) }
    {
        match self.users(name) {
            Some(users) => add_paths(paths, users.as_slice()),
            None => Ok(()),
        }
    }

    /// The path needs these names, and no longer those that it needed before. Where memory runs
    /// out, what it needs is as before.
    pub fn add(&mut self, path: &Path, names: &Names) -> Result<(), AllocError>
        ensures ok { OnOk result (self.new ≡ with_item path_of (record { path = path.now; names = names.now })
            self.old) }
        ensures err { OnErr result (self.new ≡ self.old) }
    {
        let dependent = Dependent {
            path: path.copy()?,
            names: names.copy()?,
        };
        let before = names_of(*self.dependents.allocator(), &self.dependents, path)?;
        let fresh = besides(names, &before)?;
        let stale = besides(&before, names)?;
        self.dependents.try_reserve(1)?;
        index::add_all(&mut self.index, &fresh, path)?;
        index::remove_all(&mut self.index, &stale, path);
        let place = place_of(&self.dependents, path);
        put(&mut self.dependents, place, dependent);
        Ok(())
    }

    /// The path needs nothing. It takes no memory.
    pub fn remove(&mut self, path: &Path)
        ensures { self.new ≡ without_item path_of path.now self.old }
    {
        if let Ok(at) = place_of(&self.dependents, path) {
            let dependent = self.dependents.remove(at);
            index::remove_all(&mut self.index, dependent.names.as_slice(), path);
        }
    }

    /// None of the paths needs anything. It takes no memory. Few paths are looked up one by one;
    /// for many all are gone over once.
    pub fn remove_all(&mut self, paths: &Names)
        ensures { self.new ≡ without_paths paths.now self.old }
    {
        if paths.len() < self.dependents.len() / MANY {
            self.remove_each(paths);
        } else {
            self.remove_together(paths);
        }
    }

    // The same, where each path is looked up, and each of its names.
    fn remove_each(&mut self, paths: &Names)
        ensures { self.new ≡ without_paths paths.now self.old }
    {
        for path in paths.as_slice() {
            self.remove(path);
        }
    }

    // The same, where all paths that need something are gone over once, and all names.
    fn remove_together(&mut self, paths: &Names)
        ensures { self.new ≡ without_paths paths.now self.old }
    {
        self.dependents
            .retain(|dependent| !paths.contains(&dependent.path));
        index::remove_users(&mut self.index, paths);
    }
}

// Where the path stands among the dependents, or where it would.
fn place_of(dependents: &[Dependent], path: &Path) -> Result<usize, usize>
    requires { AreRising path_of dependents.now }
    ensures { IsPlace path_of path.now dependents.now result }
{
    dependents.binary_search_by(|dependent| order_of_dependent(dependent, path))
}

// How the path of a dependent stands to a path, by their bytes.
fn order_of_dependent(dependent: &Dependent, path: &Path) -> Ordering
    ensures { result ≡ path_cmp dependent.now.path path.now }
{
    dependent.path.as_bytes().cmp(path.as_bytes())
}

// The names that the path needs.
fn names_of(alloc: Global, dependents: &[Dependent], path: &Path) -> Result<Names, AllocError>
    requires { AreRising path_of dependents.now }
    ensures { IfOk result (λ names. names ≡ names_at (item_at path_of path.now dependents.now)) }
{
    match place_of(dependents, path) {
        Ok(at) => dependents[at].names.copy(),
        Err(_) => Ok(Names::empty(alloc)),
    }
}

// Those of the names that aren't among the others.
fn besides(names: &Names, others: &Names) -> Result<Vec<Path>, AllocError>
    ensures { IfOk result (λ left. left.items ≡ filter (λ name. not (has_name name others.now)) names.now) }
{
    let mut left = names.copy()?.into_vec();
    left.retain(|name| !others.contains(name));
    Ok(left)
}

// Puts the dependent at its place, in the place of the one with its path.
fn put(dependents: &mut Vec<Dependent>, place: Result<usize, usize>, dependent: Dependent)
    requires place { IsPlace path_of dependent.path dependents.old.items place }
    requires room { vec_len dependents.old < vec_capacity dependents.old }
    ensures { dependents.new.items ≡ with_item path_of dependent dependents.old.items }
{
    match place {
        Ok(at) => dependents[at] = dependent,
        Err(at) => {
            let Ok(()) = dependents.insert(at, dependent) else {
                unreachable!()
            };
        }
    }
}

// Adds the users to the paths.
fn add_paths(paths: &mut Names, users: &[Path]) -> Result<(), AllocError>
    ensures { OnOk result (paths.new ≡ with_names users.now paths.old) }
{
    for user in users {
        paths.insert(user.copy()?)?;
    }
    Ok(())
}
