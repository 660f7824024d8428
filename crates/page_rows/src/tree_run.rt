// The run of a page of a tree, on a stage of its own.
ghost use Rattle.std.specs.Prelude.{◌≡◌, ◌<◌, ◌≤◌, IsSome};
ghost use Rattle.page_meaning.specs.declared.limits.TheConstants.{VISIT_LIMIT};
ghost use Rattle.run_stage.specs.declared.limits.TheConstants.{MAX_CHARGE};
ghost use Rattle.source_tree.specs.Limits.{IsWithinLimits};
ghost use Rattle.unit_source.specs.Files.{text_in};

use crate::surroundings::{Surroundings, buffer_size, first_attributes, head};
use crate::told::{Ran, words_told};
use edges::{Counting, MemSink, Steps};
use out_buffer::Writer;
use page_meaning::VISIT_LIMIT;
use pg_text::{Path, Text};
use run_stage::MAX_CHARGE;
use run_world::{Around, Raise};
use scopes::Scopes;
use site_words::page_charge;
use source_tree::Tree;
use std::alloc::{AllocError, Global};
use std::mem;
use std::sync::ledger::{Blank, Ledger};
use tree_pages::{TreePage, run_at};
use tree_site::TreeSite;

// What is kept across page runs where this one begins. Of counts over their limits the limit is
// taken.
fn beginning(
    depth: u32,
    visits: u32,
    charge: u64,
    id: Option<Text>,
    exception: Option<Raise>,
) -> Around
    ensures visits { result.visits ≤ VISIT_LIMIT }
    ensures charge { result.charge ≤ MAX_CHARGE }
    ensures id { result.id ≡ id }
{
    Around {
        depth,
        visits: visits.min(VISIT_LIMIT),
        charge: charge.min(MAX_CHARGE),
        id,
        fresh: false,
        exception,
    }
}

/// Runs the page at a path of a tree where a file stands, and tells of it.
pub fn run_page<N: Ledger>(
    alloc: Global,
    blank: Blank,
    tree: &Tree,
    path: &Path,
    surroundings: &mut Surroundings,
) -> Result<String, AllocError>
    requires name { blank.name ≡ N.name }
    requires parts { blank.parts ≡ N.parts }
    requires some { 0 < N.parts }
    requires limits { IsWithinLimits tree.now }
    requires stands { IsSome (text_in tree.now path.now) }
{
    let session = surroundings.session.take();
    let has_session = session.is_some();
    let mut scopes = Scopes::new(alloc, first_attributes(alloc, has_session))?;
    let answers = mem::replace(&mut surroundings.answers, Vec::new(alloc));
    let mut site = TreeSite::new(alloc, tree, answers, has_session);
    let buffer = buffer_size(surroundings.buffer);
    let mut writer = Writer::new(alloc, head(), buffer, surroundings.auto_flush, true);
    let mut sink = MemSink::new(alloc, Vec::new(alloc));
    let charge = surroundings.charge.unwrap_or(page_charge(path));
    let exception = surroundings.exception.take();
    let (depth, visits) = (surroundings.depth, surroundings.visits);
    let mut around = beginning(depth, visits, charge, session, exception);
    let mut steps = Steps::<Counting<N>>::counting(blank);
    let page = TreePage {
        tree,
        path,
        request: &surroundings.request,
        params: surroundings.params.as_slice(),
    };
    let end = run_at(
        alloc,
        page,
        &mut scopes,
        &mut writer,
        &mut sink,
        &mut around,
        &mut site,
        &mut steps,
    );
    let attributes = scopes.into_session();
    let asked = site.into_asked();
    let ran = Ran {
        end: &end,
        writer: &writer,
        sink: &sink,
        around: &around,
        attributes: &attributes,
        asked: &asked,
        bytes: steps.count(),
    };
    words_told(alloc, surroundings.tell.as_str(), ran)
}
