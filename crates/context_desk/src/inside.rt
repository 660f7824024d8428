ghost use Rattle.std.specs.Prelude.{◌≡◌, ◌<◌, ◌≤◌, length, slice_index, drop, IfOk};
ghost use Rattle.context_desk.specs.Several.{retargeted};

use http_in::{Request, SESSION_ID_BYTES};
use pg_text::Text;
use std::alloc::{AllocError, Global};

/// The request as its context sees it: without the first bytes of its target.
pub(crate) fn inside(alloc: Global, request: Request, cut: usize) -> Result<Request, AllocError>
    requires within { cut < length request.target }
    requires slash { slice_index request.target cut ≡ 47 }
    ensures request { IfOk result (λ inside. inside ≡ retargeted cut request) }
    ensures cookie { IfOk result (λ inside. length inside.cookie ≤ SESSION_ID_BYTES) }
{
    let target = text_behind(alloc, request.target.as_str(), cut)?;
    request.retarget(alloc, target)
}

// The text behind the first bytes, where a slash follows them.
fn text_behind(alloc: Global, text: &str, cut: usize) -> Result<Text, AllocError>
    requires within { cut < length text.now }
    requires slash { slice_index text.now cut ≡ 47 }
    ensures { IfOk result (λ behind. behind ≡ drop cut text.now) }
{
    let (_, behind) = text.split_at(cut);
    Text::copy_of(alloc, behind)
}
