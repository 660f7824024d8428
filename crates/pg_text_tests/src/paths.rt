use pg_text::{BadPath, Failure, Names, Path, resolve};
use std::alloc::{AllocError, Global};
use std::test::Fail;

// Whether a text stands for what is meant: the path, or the reason why it stands for none.
fn is_meant(found: &Result<Path, Failure<BadPath>>, meant: &str) -> bool {
    match found {
        Ok(path) => path.as_str() == meant,
        Err(Failure::Fault(reason)) => name_of(*reason) == meant,
        Err(Failure::NoMemory) => false,
    }
}

fn name_of(reason: BadPath) -> &'static str {
    match reason {
        BadPath::BadByte => "BadByte",
        BadPath::Empty => "Empty",
        BadPath::AboveRoot => "AboveRoot",
        BadPath::TooLong => "TooLong",
    }
}

const TEXTS: [(&str, &str); 18] = [
    ("/a.jsp", "/a.jsp"),
    ("a.jsp", "/a.jsp"),
    ("/a/./b/../c.jsp", "/a/c.jsp"),
    ("/a/b/../../c", "/c"),
    ("/WEB-INF/..", "AboveRoot"),
    ("/..", "AboveRoot"),
    ("/a/../../b", "AboveRoot"),
    ("/.", "AboveRoot"),
    ("", "Empty"),
    ("/", "Empty"),
    ("/a/", "Empty"),
    ("/a//b", "Empty"),
    ("//..", "Empty"),
    ("/a\\b", "BadByte"),
    ("/a\n//", "BadByte"),
    ("/\u{7f}", "BadByte"),
    ("/...", "/..."),
    ("/ä b", "/ä b"),
];

#[test]
fn a_text_stands_for_a_path_or_none(rt: HostRuntime) {
    for &(text, meant) in &TEXTS {
        assert!(rt; is_meant(&resolve(rt.alloc(), None, text), meant));
    }
}

const TEXTS_IN_SHOP: [(&str, &str); 5] = [
    ("item.jspf", "/shop/item.jspf"),
    ("../top.jsp", "/top.jsp"),
    ("../..", "AboveRoot"),
    ("/item.jspf", "/item.jspf"),
    ("", "Empty"),
];

// The same in the folder of a copy of the path.
fn is_meant_at(alloc: Global, base: &Path, text: &str, meant: &str) -> bool {
    match base.copy() {
        Ok(base) => is_meant(&resolve(alloc, Some(&base), text), meant),
        Err(_) => false,
    }
}

// The same in the folder of a page of the shop.
fn is_meant_in_shop(alloc: Global, text: &str, meant: &str) -> bool {
    match resolve(alloc, None, "/shop/list.jsp") {
        Ok(list) => is_meant_at(alloc, &list, text, meant),
        Err(_) => false,
    }
}

#[test]
fn a_text_stands_in_the_folder_of_its_base(rt: HostRuntime) {
    for &(text, meant) in &TEXTS_IN_SHOP {
        assert!(rt; is_meant_in_shop(rt.alloc(), text, meant));
    }
}

// Whether a name of so many letters stands for a path, which has a stroke before it.
fn is_path(alloc: Global, letters: usize) -> Result<bool, AllocError> {
    let name = "a".repeat(alloc, letters)?;
    Ok(resolve(alloc, None, name.as_str()).is_ok())
}

const LENGTHS: [(usize, bool); 2] = [(1_023, true), (1_024, false)];

#[test]
fn a_path_has_at_most_1024_bytes(rt: HostRuntime) {
    for &(letters, fits) in &LENGTHS {
        assert!(rt; is_path(rt.alloc(), letters) == Ok(fits));
    }
}

fn add(alloc: Global, names: &mut Names, path: &str) -> Result<(), Failure<BadPath>> {
    let path = resolve(alloc, None, path)?;
    names.insert(path)?;
    Ok(())
}

// The names of some paths.
fn names_of(alloc: Global, paths: &[&str]) -> Result<Names, Failure<BadPath>> {
    let mut names = Names::empty(alloc);
    for path in paths {
        add(alloc, &mut names, path)?;
    }
    Ok(names)
}

/// Whether the names are these.
pub fn are(names: &Names, wanted: &[&str]) -> bool {
    for (name, wanted) in names.as_slice().iter().zip(wanted) {
        if name.as_str() != *wanted {
            return false;
        }
    }
    names.len() == wanted.len()
}

const PATHS: [&str; 4] = ["/b", "/a/c", "/b", "/a"];

const NAMES: [&str; 3] = ["/a", "/a/c", "/b"];

// Whether the path is among the names.
fn is_among(alloc: Global, names: &Names, path: &str) -> Result<bool, Failure<BadPath>> {
    let path = resolve(alloc, None, path)?;
    Ok(names.contains(&path))
}

// Whether a copy has the names, each once and in order, and they themselves are found.
fn are_distinct(alloc: Global, names: &Names) -> Result<bool, Failure<BadPath>> {
    let are_in_order = are(&names.copy()?, &NAMES);
    Ok(are_in_order && is_among(alloc, names, "/a/c")? && !is_among(alloc, names, "/c")?)
}

// How many names these are, whether they are none, and how many they are once they were taken out.
fn counts(names: Names) -> (usize, bool, usize) {
    let (len, is_empty) = (names.len(), names.is_empty());
    (len, is_empty, Names::new(names.into_vec()).len())
}

#[test]
fn names_are_distinct_in_order_and_counted(rt: HostRuntime) -> Result<(), Fail> {
    let names = names_of(rt.alloc(), &PATHS)?;
    let are_found = matches!(are_distinct(rt.alloc(), &names), Ok(true));
    let counted = counts(names);
    assert!(rt; are_found && counted == (3, false, 3));
    Ok(())
}
