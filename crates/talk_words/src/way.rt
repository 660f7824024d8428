ghost use Rattle.std.specs.Prelude.{◌≡◌};
ghost use Rattle.talk_words.specs.Said.{is_editors, way_of};

use crate::role::Role;
use http_in::Request;
use site_words::has_prefix;

const EDITORS: &[u8] = b"/_editor/";

/// Where a request goes.
#[derive(Clone, Copy, Debug, PartialEq, Eq)]
pub enum Way {
    /// To the editor.
    Edits,
    /// To nobody.
    Nowhere,
    /// To what pages answer.
    Asks,
}

/// Where a request goes on a connection with this role, by its target as it was sent.
#[tactic(auto, unfolding(crate::specs::Said::is_editors))]
pub fn way_for(role: Role, request: &Request) -> Way
    ensures { result ≡ way_of role (is_editors request.now.target) }
{
    if !has_prefix(request.target.as_bytes(), EDITORS) {
        return Way::Asks;
    }
    match role {
        Role::Both => Way::Edits,
        Role::Reader => Way::Nowhere,
    }
}
