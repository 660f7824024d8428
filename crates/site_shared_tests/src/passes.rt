//! A site whose passes work in threads, each in its own.
ghost use Rattle.std.specs.Prelude.{◌≡◌, All, IfOk, length};
ghost use Rattle.site_shared_tests.specs.Ready.{AreInPlace, IsReady};

use crate::meeting::{Counting, Job, Watch, work};
use crate::visiting::Errand;
use site_core::Site;
use site_core_tests::Word;
use site_shared::{SharedSite, SitePass, SitePasses, into_pass, start};
use std::alloc::{AllocError, Global};
use std::sync::Wait;
use std::thread;
use std::thread::Threads;

/// The site once each of its passes has done the job in a thread, and has come back. None where a
/// request is under way.
pub fn site_after<R: Threads + Wait + Sync>(
    rt: &R,
    alloc: Global,
    site: Site<Word>,
    watch: &Watch,
    errand: &Errand,
    job: Job,
) -> Result<Option<Site<Word>>, AllocError> {
    if !site.at_rest() {
        return Ok(None);
    }
    let (shared, passes) = start(alloc, site, Counting { watch })?;
    let passes = all_after(rt, alloc, &shared, passes, watch, errand, job)?;
    Ok(Some(shared.close(passes)))
}

// The passes once each has done the job in a thread.
fn all_after<'a, R: Threads + Wait + Sync>(
    rt: &R,
    alloc: Global,
    site: &SharedSite<Word, Counting<'a>>,
    passes: SitePasses<Word>,
    watch: &Watch,
    errand: &Errand,
    job: Job,
) -> Result<SitePasses<Word>, AllocError>
    requires ready { All (IsReady site.now) passes.items }
    requires places { AreInPlace passes.items }
    ensures len { IfOk result (λ after. length after.items ≡ length passes.items) }
    ensures ready { IfOk result (λ after. All (IsReady site.now) after.items) }
    ensures places { IfOk result (λ after. AreInPlace after.items) }
{
    let after = |pass: SitePass<Word>| -> SitePass<Word>
        requires { IsReady site.now pass }
        ensures { IsReady site.entry.now result × (result.number ≡ pass.number) }
    { pass_after(rt, alloc, site, pass, watch, errand, job) };
    thread::map_vec(rt, passes, &after)
}

// The pass once it has done the job.
fn pass_after<'a, R: Wait>(
    rt: &R,
    alloc: Global,
    site: &SharedSite<Word, Counting<'a>>,
    pass: SitePass<Word>,
    watch: &Watch,
    errand: &Errand,
    job: Job,
) -> SitePass<Word>
    requires { IsReady site.now pass }
    ensures ready { IsReady site.now result }
    ensures number { result.number ≡ pass.number }
{
    let number = pass.number();
    let mut port = site.port(rt, pass);
    work(alloc, &mut port, number, errand, job, watch);
    into_pass(port)
}
