use crate::connection::status_line;
use editor::{EditorAnswer, EditorFault};
use pg_text::{BadPath, Failure, Names, resolve};
use site_words::Published;
use source_tree::TreeFault;
use std::alloc::{AllocError, Global};
use std::test::Fail;

fn add(alloc: Global, names: &mut Names, path: &str) -> Result<(), Failure<BadPath>> {
    let path = resolve(alloc, None, path)?;
    names.insert(path)?;
    Ok(())
}

// Names of two files, given in the other order.
fn two_names(alloc: Global) -> Result<Names, Failure<BadPath>> {
    let mut names = Names::empty(alloc);
    add(alloc, &mut names, "/p2.jsp")?;
    add(alloc, &mut names, "/p1.jsp")?;
    Ok(names)
}

fn published(alloc: Global, dirty: Names) -> Result<String, AllocError> {
    let published = Published { version: 12, dirty };
    status_line(alloc, &Ok(EditorAnswer::Published(published)))
}

const DIRTY: &str = "200 OK: version 12\n/p1.jsp\n/p2.jsp\n";

#[test]
fn dirty_paths_stand_on_lines_of_their_own(rt: HostRuntime) -> Result<(), Fail> {
    assert!(rt; published(rt.alloc(), two_names(rt.alloc())?)?.as_str() == DIRTY);
    Ok(())
}

const FAULTS: [(EditorFault, &str); 3] = [
    (
        EditorFault::JournalFull {
            weight: 80,
            promised: 4_325_296,
        },
        "503 Service Unavailable: JournalFull 80 4325296\n",
    ),
    (
        EditorFault::TreeTooLarge(TreeFault::TooManyFiles),
        "413 Content Too Large: TreeTooLarge TooManyFiles\n",
    ),
    (
        EditorFault::TreeTooLarge(TreeFault::TreeTooLarge),
        "413 Content Too Large: TreeTooLarge TreeTooLarge\n",
    ),
];

fn fault_told(alloc: Global, fault: EditorFault) -> Result<String, AllocError> {
    status_line(alloc, &Err(Failure::Fault(fault)))
}

#[test]
fn faults_are_told_with_their_numbers(rt: HostRuntime) -> Result<(), Fail> {
    for &(fault, lines) in &FAULTS {
        assert_eq!(rt; fault_told(rt.alloc(), fault)?.as_str(), lines);
    }
    Ok(())
}
