//! The names that are needed, each with the paths that need it, in byte order of the names.
ghost use Rattle.std.specs.Prelude.{◌≡◌, ◌≤◌, ℕ, List, length, map, take, IfErr, OnOk, OnErr};
ghost use Rattle.pg_text.specs.Names.{AreInOrder, with_name, without_name};
ghost use Rattle.pg_text.specs.Order.{AreRising, IsPlace, path_cmp, item_at};
ghost use Rattle.dep_graph.specs.Deps.{IsNew, Tells, all_indexed, all_unlisted, indexed, is_used};
ghost use Rattle.dep_graph.specs.Deps.{itself, let_go, name_of, unindexed, unlisted};

use crate::entries::Named;
use pg_text::{Names, Path};
use std::alloc::{AllocError, Global};
use std::cmp::Ordering;
use std::mem;

// The index of the name, or the one at which it would stand.
pub(crate) fn place_of(index: &[Named], name: &Path) -> Result<usize, usize>
    requires { AreRising name_of index.now }
    ensures { IsPlace name_of name.now index.now result }
{
    index.binary_search_by(|named| order_of_name(named, name))
}

// How the name of an entry stands to a name, by their bytes.
fn order_of_name(named: &Named, name: &Path) -> Ordering
    ensures { result ≡ path_cmp named.now.name name.now }
{
    named.name.as_bytes().cmp(name.as_bytes())
}

// The path needs all these names, too. Where memory runs out, the names that were added are taken
// out again.
pub(crate) fn add_all(index: &mut Vec<Named>, names: &[Path], path: &Path) -> Result<(), AllocError>
    requires { AreRising name_of index.old.items }
    ensures ok { OnOk result (index.new.items ≡ all_indexed path.now names.now index.old.items) }
    ensures err { OnErr result ((users : List ℕ → List (List ℕ)) → Tells index.old.items users →
        IsNew path.now names.now users → Tells index.new.items users) }
    ensures order { AreRising name_of index.new.items }
{
    match add_some(index, names, path) {
        Ok(()) => Ok(()),
        Err(done) => {
            remove_all(index, &names[..done], path);
            Err(AllocError)
        }
    }
}

// The path needs these names, too. Where memory runs out, the answer is how many of the first were
// added.
fn add_some(index: &mut Vec<Named>, names: &[Path], path: &Path) -> Result<(), usize>
    requires { AreRising name_of index.old.items }
    ensures ok { OnOk result (index.new.items ≡ all_indexed path.now names.now index.old.items) }
    ensures err { IfErr result (λ done. (done ≤ length names.now) × (index.new.items
        ≡ all_indexed path.now (take done names.now) index.old.items)) }
    ensures order { AreRising name_of index.new.items }
{
    for at in 0..names.len() {
        if add(index, &names[at], path).is_err() {
            return Err(at);
        }
    }
    Ok(())
}

// The path needs the name, too.
fn add(index: &mut Vec<Named>, name: &Path, path: &Path) -> Result<(), AllocError>
    requires { AreRising name_of index.old.items }
    ensures ok { OnOk result (index.new.items ≡ indexed path.now name.now index.old.items) }
    ensures err { OnErr result (index.new.items ≡ index.old.items) }
{
    match place_of(index, name) {
        Ok(at) => add_user(&mut index[at], path),
        Err(at) => {
            let mut users = Names::empty(*index.allocator());
            users.insert(path.copy()?)?;
            let name = name.copy()?;
            index.insert(at, Named { name, users })?;
            Ok(())
        }
    }
}

// The path needs this name, too, which others need already.
fn add_user(named: &mut Named, path: &Path) -> Result<(), AllocError>
    ensures ok { OnOk result (named.new ≡ record {
      name = named.old.name;
      users = with_name path.now
          named.old.users;
    }) }
    ensures err { OnErr result (named.new ≡ named.old) }
{
    named.users.insert(path.copy()?)
}

// The path needs none of these names any more.
pub(crate) fn remove_all(index: &mut Vec<Named>, names: &[Path], path: &Path)
    requires { AreRising name_of index.old.items }
    ensures index { index.new.items ≡ all_unlisted path.now names.now index.old.items }
    ensures order { AreRising name_of index.new.items }
{
    for name in names {
        remove(index, name, path);
    }
}

// The path doesn't need the name any more. A name that nothing else needs is dropped.
fn remove(index: &mut Vec<Named>, name: &Path, path: &Path)
    requires { AreRising name_of index.old.items }
    ensures { index.new.items ≡ unlisted path.now name.now index.old.items }
{
    if let Ok(at) = place_of(index, name) {
        let alloc = *index.allocator();
        remove_user(alloc, &mut index[at], path);
        if index[at].users.is_empty() {
            index.remove(at);
        }
    }
}

// Takes the path out of the users of one name, of which none may be left.
fn remove_user(alloc: Global, named: &mut Named, path: &Path)
    ensures { named.new ≡ record { name = named.old.name; users = without_name path.now named.old.users } }
{
    let mut users = mem::replace(&mut named.users, Names::empty(alloc)).into_vec();
    take_out(&mut users, path);
    named.users = Names::new(users);
}

// Takes the path out of the users, where it is one of them.
fn take_out(users: &mut Vec<Path>, path: &Path)
    requires { AreInOrder users.old.items }
    ensures { users.new.items ≡ without_name path.now users.old.items }
{
    if let Ok(at) = user_place(users, path) {
        users.remove(at);
    }
}

// The index of the path among the users, or the one at which it would stand.
fn user_place(users: &[Path], path: &Path) -> Result<usize, usize>
    requires { AreInOrder users.now }
    ensures { IsPlace itself path.now users.now result }
{
    users.binary_search_by(|user| order_of_user(user, path))
}

// How a user, which is the path of a page that needs a name, stands to a path, by their bytes.
fn order_of_user(user: &Path, path: &Path) -> Ordering
    ensures { result ≡ path_cmp user.now path.now }
{
    user.as_bytes().cmp(path.as_bytes())
}

// Takes these paths out of the users of every name, and drops the names that no path uses any
// more. Goes over the whole index; takes no memory.
pub(crate) fn remove_users(index: &mut Vec<Named>, paths: &Names)
    ensures { index.new.items ≡ unindexed paths.now index.old.items }
{
    let_all_go(index, paths);
    index.retain(is_used);
}

fn is_used(named: &Named) -> bool
    ensures { result ≡ is_used named.now }
{
    !named.users.is_empty()
}

// Takes these paths out of the users of every name, of which none may be left.
fn let_all_go(index: &mut Vec<Named>, paths: &Names)
    ensures { index.new.items ≡ map (let_go paths.now) index.old.items }
{
    let alloc = *index.allocator();
    for named in index.iter_mut() {
        let_go(alloc, named, paths);
    }
}

// Takes these paths out of the users of one name.
fn let_go(alloc: Global, named: &mut Named, paths: &Names)
    ensures { named.new ≡ let_go paths.now named.old }
{
    let mut users = mem::replace(&mut named.users, Names::empty(alloc)).into_vec();
    users.retain(|user| !paths.contains(user));
    named.users = Names::new(users);
}
