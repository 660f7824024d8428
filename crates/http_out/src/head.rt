ghost use Rattle.std.specs.Prelude.{◌≡◌};
ghost use Rattle.http_out.specs.Head.{head_of, plain_head};

use crate::{ContentType, Status};
use pg_text::Text;

/// The type of a plain answer.
pub const PLAIN_TYPE: &str = "text/plain;charset=UTF-8";

/// What the head of a response says, beside the length of its body.
#[derive(Drop)]
pub struct Head {
    pub status: Status,
    pub content_type: Option<ContentType>,
    /// The id of the session that begins with this response.
    pub set_cookie: Option<Text>,
    pub location: Option<Text>,
    /// Whether the methods are named that a page takes.
    pub allow: bool,
    /// Whether the connection is closed after this response.
    pub close: bool,
}

impl Head {
    /// A head that says its status alone. What it says beside is set in it.
    pub fn of(status: Status, close: bool) -> Self
        ensures { result ≡ head_of status close }
    {
        Head {
            status,
            content_type: None,
            set_cookie: None,
            location: None,
            allow: false,
            close,
        }
    }

    /// The head of a plain answer, which is text. It names the methods where the method was not one
    /// of them.
    pub fn plain(status: Status, close: bool) -> Self
        ensures { result ≡ plain_head status close }
    {
        Head {
            content_type: Some(ContentType::known(PLAIN_TYPE)),
            allow: status == Status::MethodNotAllowed,
            ..Head::of(status, close)
        }
    }
}
