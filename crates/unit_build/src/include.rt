ghost use Rattle.std.specs.Prelude.{◌≡◌, IfOk, OnOk};
ghost use Rattle.page_directives.specs.Meet.{Before};
ghost use Rattle.unit_source.specs.declared.entry.Entry.TheVariants.{Entered};
ghost use Rattle.unit_source.specs.Placed.{root_view};
ghost use Rattle.unit_words.specs.Directives.{goes_in, include_met};
ghost use Rattle.unit_build.specs.ReadFound.{IsRead, state_in};
ghost use Rattle.unit_build.specs.ReadWalk.{IsEntry, IsOwn};

use crate::course::Course;
use crate::found::Found;
use page_directives::Faults;
use pg_text::TranslationFault;
use std::alloc::{AllocError, Global};
use unit_source::{Entry, WrittenDirective};
use unit_words::Counted;

// Counts an included file of so many bytes: the faults, and whether reading goes into it.
fn count_file(bytes: usize, found: &mut Found) -> (Faults, bool)
    ensures { (before : Before) → IsEntry found.old found.new before (Entered bytes) result.0 result.1 }
{
    match found.counts.count(bytes) {
        Counted::Within => (Faults::none(), true),
        Counted::Passes => (Faults::one(TranslationFault::TooLarge), false),
        Counted::Over => (Faults::none(), false),
    }
}

// The faults of what an include directive comes to, and whether reading goes into its file.
fn meet_entry(entry: Entry, found: &mut Found) -> (Faults, bool)
    ensures { (before : Before) → IsEntry found.old found.new before entry result.0 result.1 }
{
    match entry {
        Entry::Unnamed => (Faults::none(), false),
        Entry::Absent => (Faults::one(TranslationFault::NoFile), false),
        Entry::Cycle => (Faults::one(TranslationFault::IncludeCycle), false),
        Entry::Entered(bytes) => count_file(bytes, found),
        Entry::Unread(bytes) => (count_file(bytes, found).0, false),
    }
}

/// Meets an include directive: whether reading goes into its file.
#[inline(never)]
pub(crate) fn meet_include<'r>(
    alloc: Global,
    course: &mut Course<'r>,
    directive: &'r WrittenDirective,
    entry: Entry,
    found: &mut Found,
) -> Result<bool, AllocError>
    requires { IsOwn course.now }
    ensures root { OnOk result (course.new.root ≡ course.old.root) }
    ensures own { OnOk result (IsOwn course.new) }
    ensures goes { IfOk result (λ goes. goes ≡ goes_in entry (state_in course.old.before found.old)) }
    ensures met { OnOk result (IsRead found.old found.new (state_in course.new.before found.new)
        (include_met (root_view course.old.root) directive.now entry (state_in course.old.before found.old))) }
{
    let faults = course.meet(
        alloc,
        directive.name(),
        directive.attributes(),
        directive.place(),
    )?;
    let (comes, goes_in) = meet_entry(entry, found);
    found.meet(directive.place(), faults.and(comes))?;
    Ok(goes_in)
}
