use crate::listed::{listed, listed_some, names, path};
use dep_graph::Deps;
use pg_text::{BadPath, Failure};
use std::alloc::Global;

/// What a test wants of dependencies.
#[derive(Clone, Copy)]
pub enum Want<'a> {
    /// The path needs these names.
    Add(&'a str, &'a [&'a str]),
    Remove(&'a str),
    Users(&'a str),
    Dirty(&'a [&'a str]),
}

/// What each comes to, one after the other, a line for each.
pub fn wants_told(alloc: Global, wants: &[Want]) -> Result<String, Failure<BadPath>> {
    let mut deps = Deps::new(alloc);
    let mut lines = String::new(alloc);
    for want in wants {
        let line = answer(alloc, &mut deps, want)?;
        lines.push_str(line.as_str())?;
        lines.push_str("\n")?;
    }
    Ok(lines)
}

fn answer(alloc: Global, deps: &mut Deps, want: &Want) -> Result<String, Failure<BadPath>> {
    match *want {
        Want::Add(name, needs) => add(alloc, deps, name, needs),
        Want::Remove(name) => remove(alloc, deps, name),
        Want::Users(name) => users(alloc, deps, name),
        Want::Dirty(changed) => dirty(alloc, deps, changed),
    }
}

fn add(
    alloc: Global,
    deps: &mut Deps,
    name: &str,
    needs: &[&str],
) -> Result<String, Failure<BadPath>> {
    let name = path(alloc, name)?;
    let needs = names(alloc, needs)?;
    deps.add(&name, &needs)?;
    Ok(String::from_str(alloc, "added")?)
}

fn remove(alloc: Global, deps: &mut Deps, name: &str) -> Result<String, Failure<BadPath>> {
    let name = path(alloc, name)?;
    deps.remove(&name);
    Ok(String::from_str(alloc, "removed")?)
}

fn users(alloc: Global, deps: &Deps, name: &str) -> Result<String, Failure<BadPath>> {
    let name = path(alloc, name)?;
    Ok(listed_some(alloc, deps.users(&name))?)
}

fn dirty(alloc: Global, deps: &Deps, changed: &[&str]) -> Result<String, Failure<BadPath>> {
    let changed = names(alloc, changed)?;
    let dirty = deps.dirty(&changed)?;
    Ok(listed(alloc, &dirty)?)
}
