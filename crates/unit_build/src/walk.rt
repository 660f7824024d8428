ghost use Rattle.std.specs.Prelude.{◌≡◌, ◌<◌, ◌-◌, ◌^◌, map, IfOk, OnOk};
ghost use Rattle.page_directives.specs.Meet.{Before};
ghost use Rattle.jstl_tags.specs.Elements.{opened_of};
ghost use Rattle.unit_source.specs.Files.{text_in};
ghost use Rattle.unit_source.specs.InPlace.{flat};
ghost use Rattle.unit_source.specs.Placed.{in_place, root_view};
ghost use Rattle.unit_words.specs.Elements.{outermost};
ghost use Rattle.unit_words.specs.Walk.{met_within};
ghost use Rattle.unit_judges.specs.Made.{here_made, kind_made};
ghost use Rattle.unit_build.specs.MadeSteps.{step_made};
ghost use Rattle.unit_build.specs.ReadFound.{IsRead, state_in};
ghost use Rattle.unit_build.specs.ReadSteps.{left_out, left_out_still, start_step, step_met};
ghost use Rattle.unit_build.specs.ReadSteps.{steps_met, steps_of};
ghost use Rattle.unit_build.specs.ReadWalk.{IsOwn, IsPageMet};

use crate::course::{Course, end};
use crate::found::Found;
use crate::include::meet_include;
use crate::leaf::meet_leaf;
use crate::site::Site;
use crate::start::meet_start;
use crate::steps::Step;
use crate::tag::let_go;
use std::alloc::{AllocError, Global};
use unit_judges::Beginning;
use unit_source::{MAX_UNIT_FILES, Root};

// In how many files no step is taken behind a step that isn't taken.
fn left_out_still(step: &Step, count: usize) -> usize
    requires { count < 2 ^ 64 - 1 }
    ensures { result ≡ left_out_still (step_made step.now) count }
{
    match step {
        Step::Include { .. } => count + 1,
        Step::End => count.saturating_sub(1),
        _ => count,
    }
}

// Meets an element; at its first call reading goes into a tag file.
#[cycle(walk)]
fn take_start(
    alloc: Global,
    course: &Course,
    beginning: &Beginning,
    deep: usize,
    found: &mut Found,
) -> Result<(), AllocError>
    ensures { OnOk result (IsRead found.old found.new (state_in course.now.before found.new)
        (step_met (text_in found.old.site) (root_view course.now.root) (met_within deep (text_in found.old.site))
        (start_step (here_made beginning.now.here) (kind_made beginning.now.kind.now)
        (opened_of beginning.now.element.now.head)
        (flat (in_place beginning.now.element.now.body.items))) (state_in course.now.before found.old))) }
{
    match meet_start(alloc, course, beginning, found)? {
        Some(tag) => {
            let read = read_root(alloc, tag.root(), deep, found);
            let_go(tag);
            read
        }
        None => Ok(()),
    }
}

// Takes a step: in how many files behind it no step is taken.
#[cycle(walk)]
fn take_step<'r>(
    alloc: Global,
    course: &mut Course<'r>,
    step: &Step<'r>,
    deep: usize,
    found: &mut Found,
) -> Result<usize, AllocError>
    requires { IsOwn course.now }
    ensures root { OnOk result (course.new.root ≡ course.old.root) }
    ensures own { OnOk result (IsOwn course.new) }
    ensures out { IfOk result (λ count. count
        ≡ left_out (step_made step.now) (state_in course.old.before found.old)) }
    ensures met { OnOk result (IsRead found.old found.new (state_in course.new.before found.new)
        (step_met (text_in found.old.site) (root_view course.old.root)
        (met_within deep (text_in found.old.site)) (step_made step.now) (state_in course.old.before found.old))) }
{
    match step {
        Step::Leaf { here, leaf, place } => {
            meet_leaf(alloc, course, here, leaf, place, found)?;
            Ok(0)
        }
        Step::Break(fault) => {
            found.meet_break(fault)?;
            Ok(0)
        }
        Step::Start {
            here,
            kind,
            element,
        } => {
            let beginning = Beginning {
                here: *here,
                kind,
                element: *element,
            };
            take_start(alloc, course, &beginning, deep, found)?;
            Ok(0)
        }
        Step::Include { directive, entry } => {
            let goes_in = meet_include(alloc, course, directive, *entry, found)?;
            Ok(if goes_in { 0 } else { 1 })
        }
        Step::End => Ok(0),
    }
}

// Takes the steps of a page or a tag file.
#[cycle(walk)]
fn take_steps<'r>(
    alloc: Global,
    course: &mut Course<'r>,
    steps: &[Step<'r>],
    deep: usize,
    found: &mut Found,
) -> Result<(), AllocError>
    requires { IsOwn course.now }
    ensures { OnOk result (IsRead found.old found.new (state_in course.new.before found.new)
        (steps_met (text_in found.old.site) (root_view course.old.root)
        (met_within deep (text_in found.old.site)) 0 (map step_made steps.now)
        (state_in course.old.before found.old))) }
{
    let mut left_out = 0;
    for step in steps {
        if left_out > 0 {
            left_out = left_out_still(step, left_out);
        } else {
            left_out = take_step(alloc, course, step, deep, found)?;
        }
    }
    Ok(())
}

// Reads a page or a tag file, and the tag files that it calls first, so many deep at most.
#[cycle(walk)]
fn read_root(alloc: Global, root: &Root, deep: usize, found: &mut Found) -> Result<(), AllocError>
    ensures { OnOk result ((before : Before) → IsRead found.old found.new (state_in before found.new)
        (met_within deep (text_in found.old.site) (root_view root.now) (state_in before found.old))) }
{
    if deep == 0 {
        return Ok(());
    }
    let outer = found.readings.enter()?;
    let mut course = Course::begun(alloc, root)?;
    let read = take_course(alloc, &mut course, deep - 1, found);
    end(course);
    found.readings.go_back(outer);
    read
}

// Takes the steps of a page or a tag file whose course has just begun.
#[cycle(walk)]
fn take_course(
    alloc: Global,
    course: &mut Course,
    deep: usize,
    found: &mut Found,
) -> Result<(), AllocError>
    requires { IsOwn course.now }
    ensures { OnOk result (IsRead found.old found.new (state_in course.new.before found.new)
        (steps_met (text_in found.old.site) (root_view course.old.root)
        (met_within deep (text_in found.old.site)) 0 (steps_of (root_view course.old.root).directives outermost
        (root_view course.old.root).nodes) (state_in course.old.before found.old))) }
{
    let steps = course.root.steps(alloc)?;
    take_steps(alloc, course, &steps, deep, found)
}

/// Reads a page, and the tag files and the beans that it uses. It goes no deeper than 257 tag files
/// that call each other.
pub(crate) fn read_page<'t>(
    alloc: Global,
    site: Site<'t>,
    page: &Root,
) -> Result<Found<'t>, AllocError>
    ensures { IfOk result (λ found. IsPageMet site.entry (root_view page.now) found) }
{
    let mut found = Found::new(alloc, site, page.bytes);
    found.need(&page.path)?;
    found.need_all(page.names.as_slice())?;
    read_root(alloc, page, MAX_UNIT_FILES + 1, &mut found)?;
    Ok(found)
}
