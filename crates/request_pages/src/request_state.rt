ghost use Rattle.std.specs.Prelude.{◌≡◌, ◌<◌, ℕ, List, false, Some, IfOk, OnOk, OnErr};
ghost use Rattle.std.specs.Option.{ForSome};
ghost use Rattle.std.specs.declared.option.Option.{Option};
ghost use Rattle.run_pages.specs.Run.{StandsFor};
ghost use Rattle.page_meaning.specs.Page.{Page};
ghost use Rattle.page_meaning.specs.Respond.{at_start};
ghost use Rattle.page_meaning.specs.Response.{new_id};
ghost use Rattle.page_meaning.specs.State.{State};
ghost use Rattle.request_pages.specs.Headed.{head_for};
ghost use Rattle.run_world.specs.Origin.{Origin};
ghost use Rattle.site_words.specs.Running.{Asking};

use crate::delivery::Delivery;
use http_out::{ContentType, Head};
use out_buffer::Writer;
use pg_text::Text;
use run_world::{Around, Program};
use scopes::Scopes;
use std::alloc::{AllocError, Global};

/// What a request keeps while its pages run.
#[derive(Drop)]
pub struct RequestState {
    /// The variables of the page that runs, and those of the request and its session.
    pub scopes: Scopes,
    /// What the page that runs has written, behind the head of the response.
    pub writer: Writer,
    /// What the request keeps across its page runs: the visits, the charge, its session.
    pub around: Around,
}

/// Begins the run of a page that isn't included: one empty frame, and a writer of its own. Nothing
/// may have been committed.
pub(crate) fn begin_page(
    alloc: Global,
    program: &Program,
    delivery: Delivery,
    state: &mut RequestState,
) -> Result<(), AllocError>
    requires buffered { ForSome program.now.settings.buffer (λ size. 0 < size) }
    requires uncommitted { state.old.writer.committed ≡ false }
    ensures stands { (origin : Origin) (taken : Option (List ℕ)) (faults : ℕ) (asking : Asking) (s : State)
        (page : Page) → program.now.settings ≡ page.settings →
        StandsFor origin state.old.scopes state.old.writer taken faults state.old.around asking s
        → OnOk result (StandsFor origin state.new.scopes state.new.writer taken faults state.new.around
        asking (at_start page s)) }
    ensures head { OnOk result (state.new.writer.head
        ≡ head_for delivery.status (Some program.now.settings.content_type) delivery.close state.new.around) }
    ensures shown { OnOk result (state.new.writer.shown ≡ delivery.shown) }
    ensures fresh { OnOk result (state.new.writer.committed ≡ false) }
    ensures session { OnOk result (state.new.scopes.session ≡ state.old.scopes.session) }
    ensures around { state.new.around ≡ state.old.around }
    ensures err { OnErr result (state.new ≡ state.old) }
{
    let head = Head {
        content_type: Some(ContentType::named(program.settings.content_type.copy()?)),
        set_cookie: new_id(&state.around)?,
        ..Head::of(delivery.status, delivery.close)
    };
    state.scopes.restart();
    state.writer = Writer::new(
        alloc,
        head,
        program.settings.buffer,
        program.settings.auto_flush,
        delivery.shown,
    );
    Ok(())
}

/// The id of the session that this request made, where it made one.
pub fn new_id(around: &Around) -> Result<Option<Text>, AllocError>
    ensures { IfOk result (λ id. id ≡ new_id around.now.fresh around.now.id) }
{
    if !around.fresh {
        return Ok(None);
    }
    match &around.id {
        Some(id) => Ok(Some(id.copy()?)),
        None => Ok(None),
    }
}
