ghost use Rattle.std.specs.Prelude.{◌≡◌, ◌==◌, [], length, not, IfOk, OnOk, OnErr};
ghost use Rattle.std.specs.Cmp.Lexicographic.{slice_cmp};
ghost use Rattle.std.specs.Ordering.{nat_cmp};
ghost use Rattle.std.specs.Str.{bytes_eq};
ghost use Rattle.pg_text.specs.Names.{AreInOrder, has_name, place_in, with_name, without_name};

use crate::Path;
use std::alloc::{AllocError, Global};
use std::cmp::Ordering;
use std::marker::Model;

/// Distinct paths, in rising byte order. Contracts see the list of them.
#[derive(Drop)]
pub struct Names {
    paths: Vec<Path>,
}

impl Model for Names {
    ghost use Rattle.std.specs.Prelude.{List, ℕ};

    ghost Value = { List (List ℕ) };

    ghost use Rattle.pg_text.specs.Names.{AreInOrder};

    ghost view = { λ n. n.paths.items };

    ghost invariant = { λ n. AreInOrder n.paths.items };
}

impl Names {
    /// No paths.
    pub fn empty(alloc: Global) -> Self
        ensures { result ≡ [] }
    {
        Names {
            paths: Vec::new(alloc),
        }
    }

    /// These paths, without a copy.
    pub fn new(paths: Vec<Path>) -> Self
        requires { AreInOrder paths.items }
        ensures { result ≡ paths.items }
    {
        Names { paths }
    }

    /// Equal paths.
    pub fn copy(&self) -> Result<Self, AllocError>
        ensures { IfOk result (λ copy. copy ≡ self.now) }
    {
        let mut paths = Vec::with_capacity(*self.paths.allocator(), self.paths.len())?;
        for path in &self.paths {
            paths.push(path.copy()?)?;
        }
        Ok(Names { paths })
    }

    /// Whether the path is among them.
    pub fn contains(&self, path: &Path) -> bool
        ensures { result ≡ has_name path.now self.now }
    {
        is_there(&self.paths, path)
    }

    /// Puts the path among the others, where it isn't there yet.
    #[tactic(auto, using(crate::proofs::NameOrder::order_with_name))]
    pub fn insert(&mut self, path: Path) -> Result<(), AllocError>
        ensures ok { OnOk result (self.new ≡ with_name path self.old) }
        ensures err { OnErr result (self.new ≡ self.old) }
    {
        put(&mut self.paths, path)
    }

    /// Takes the path out, where it is one of them. It takes no memory.
    #[tactic(auto, using(crate::proofs::NameLemmas::order_without_name))]
    pub fn remove(&mut self, path: &Path)
        ensures { self.new ≡ without_name path.now self.old }
    {
        take_out(&mut self.paths, path);
    }

    pub fn as_slice(&self) -> &[Path]
        ensures paths { result.now ≡ self.now }
        ensures order { AreInOrder self.now }
    {
        &self.paths
    }

    pub fn len(&self) -> usize
        ensures { result ≡ length self.now }
    {
        self.paths.len()
    }

    pub fn is_empty(&self) -> bool
        ensures { result ≡ (length self.now == 0) }
    {
        self.paths.is_empty()
    }

    /// The paths, without a copy.
    pub fn into_vec(self) -> Vec<Path>
        ensures paths { result.items ≡ self }
        ensures order { AreInOrder self }
    {
        self.paths
    }
}

fn put(paths: &mut Vec<Path>, path: Path) -> Result<(), AllocError>
    requires { AreInOrder paths.old.items }
    ensures ok { OnOk result (paths.new.items ≡ with_name path paths.old.items) }
    ensures err { OnErr result (paths.new.items ≡ paths.old.items) }
{
    match place(paths, &path) {
        Ok(_) => {}
        Err(at) => paths.insert(at, path)?,
    }
    Ok(())
}

fn take_out(paths: &mut Vec<Path>, path: &Path)
    ensures { paths.new.items ≡ without_name path.now paths.old.items }
{
    paths.retain(|other| is_other(other, path));
}

fn is_other(path: &Path, other: &Path) -> bool
    ensures { result ≡ not (bytes_eq path.now other.now) }
{
    path.as_bytes() != other.as_bytes()
}

fn is_there(paths: &[Path], path: &Path) -> bool
    requires { AreInOrder paths.now }
    ensures { result ≡ has_name path.now paths.now }
{
    place(paths, path).is_ok()
}

// Where the path stands, or where it would.
fn place(paths: &[Path], path: &Path) -> Result<usize, usize>
    requires { AreInOrder paths.now }
    ensures { result ≡ place_in path.now paths.now }
{
    paths.binary_search_by(|other| order(other, path))
}

// How the first path stands to the second.
fn order(path: &Path, other: &Path) -> Ordering
    ensures { result ≡ slice_cmp nat_cmp path.now other.now }
{
    path.as_bytes().cmp(other.as_bytes())
}
