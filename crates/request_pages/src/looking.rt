// What stands at the path of a request or of an error page.
ghost use Rattle.std.specs.Prelude.{◌≡◌, ◌+◌, ◌≤◌, ℕ, List, IfOk, OnOk};
ghost use Rattle.std.specs.declared.option.Option.{Option};
ghost use Rattle.out_buffer.specs.Held.{Held};
ghost use Rattle.run_pages.specs.Run.{IsInOrder, StandsFor};
ghost use Rattle.page_meaning.specs.Page.{Page};
ghost use Rattle.page_meaning.specs.Respond.{error_path};
ghost use Rattle.page_meaning.specs.State.{State};
ghost use Rattle.request_pages.specs.Looked.{LookedSo};
ghost use Rattle.request_pages.specs.Played.{IsFunded};
ghost use Rattle.run_world.specs.Origin.{Origin};
ghost use Rattle.scopes.specs.Scopes.{ScopeState};

use pg_text::{Failure, Path, resolve};
use run_stage::MAX_ASKED_CHARGE;
use run_world::{Around, Program};
use site_words::{AppPort, MAX_PAGE_CHARGE, Paged, page_charge};
use std::alloc::{AllocError, Global};

/// Looks what stands at a path. A page is charged, and so is one with a fault.
pub(crate) fn look<P: AppPort<Program>>(
    path: &Path,
    around: &mut Around,
    port: &mut P,
) -> Result<Paged<Program>, AllocError>
    requires charge { around.old.charge ≤ MAX_ASKED_CHARGE }
    requires funded { IsFunded around.old (P.asking port.old) }
    ensures looked { (origin : Origin) (scopes : ScopeState) (held : Held) (taken : Option (List ℕ))
        (faults : ℕ) (s : State) → StandsFor origin scopes held taken faults around.old (P.asking port.old) s
        → LookedSo P.made P.faulty (P.tree port.old) path.now
        (StandsFor origin scopes held taken faults around.new (P.asking port.new)) s (P.asking port.old)
        (P.asking port.new) result }
    ensures in_order { (scopes : ScopeState) → IsInOrder scopes around.old (P.asking port.old) →
        OnOk result (IsInOrder scopes around.new (P.asking port.new)) }
    ensures funded { OnOk result (IsFunded around.new (P.asking port.new)) }
    ensures charge { around.new.charge ≤ around.old.charge + MAX_PAGE_CHARGE }
    ensures around { around.new ≡ record around.old { charge = around.new.charge } }
    ensures tree { P.tree port.new ≡ P.tree port.old }
    ensures leads { P.leads port.old port.new }
{
    let charge = page_charge(path);
    let Ok(found) = port.page(path) else {
        return Err(AllocError);
    };
    match &found {
        Paged::Page(_) => around.charge += charge,
        Paged::Bad(_) => around.charge += charge,
        Paged::Plain(_) => (),
        Paged::Absent => (),
    }
    Ok(found)
}

// The path of a page's error page, where it has one and that names a path.
pub(crate) fn error_path(alloc: Global, program: &Program) -> Result<Option<Path>, AllocError>
    ensures { (page : Page) → program.now.path ≡ page.path → program.now.settings ≡ page.settings →
        IfOk result (λ found. found ≡ error_path page) }
{
    let Some(target) = &program.settings.error_page else {
        return Ok(None);
    };
    match resolve(alloc, Some(&program.path), target.as_str()) {
        Ok(path) => Ok(Some(path)),
        Err(Failure::Fault(_)) => Ok(None),
        Err(Failure::NoMemory) => Err(AllocError),
    }
}
