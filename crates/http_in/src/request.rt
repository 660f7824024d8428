ghost use Rattle.std.specs.Prelude.{◌≡◌, ◌≤◌, IfOk, length};
ghost use Rattle.http_in.specs.Request.{request_of};

use crate::cookie::session_of;
use crate::limits::SESSION_ID_BYTES;
use crate::lookups::asks_to_close;
use crate::params::params_of;
use crate::target::{decoded_path, parts_of};
use crate::{Field, Param};
use pg_text::{Bytes, Listed, Path, Text};
use std::alloc::{AllocError, Global};

/// A request. All that it says is told by its method, target, fields and body.
#[derive(Drop)]
pub struct Request {
    /// The method, such as `GET`. Its case counts.
    pub method: Text,
    /// The target as it was sent: a path, which begins with `/`, and maybe a query, neither of them
    /// decoded.
    pub target: Text,
    /// The path, decoded. None where it isn't UTF-8, or stands for no path of a site.
    pub path: Option<Path>,
    /// The query as it was sent, where there is a `?`.
    pub query: Option<Text>,
    /// The fields in the order sent.
    pub fields: Listed<Field>,
    /// The parameters of the query and then of a form that was posted, decoded.
    pub params: Listed<Param>,
    /// The id of the session that the client names, or the empty text.
    pub cookie: Text,
    pub body: Bytes,
    /// Whether the connection is to be closed after the answer.
    pub close: bool,
}

impl Request {
    /// The same request with another target, which its path, query and parameters follow. Where
    /// memory runs out the request is dropped.
    pub fn retarget(self, alloc: Global, target: Text) -> Result<Self, AllocError>
        ensures request { IfOk result (λ request. request ≡ request_of self.method target self.fields self.body) }
        ensures cookie { IfOk result (λ request. length request.cookie ≤ SESSION_ID_BYTES) }
    {
        Request::of(alloc, self.method, target, self.fields, self.body)
    }

    // The request of these parts.
    #[tactic(auto, unfolding(crate::specs::Request::request_of, crate::specs::Target::path_of))]
    pub(crate) fn of(
        alloc: Global,
        method: Text,
        target: Text,
        fields: Listed<Field>,
        body: Bytes,
    ) -> Result<Self, AllocError>
        ensures request { IfOk result (λ request. request ≡ request_of method target fields body) }
        ensures cookie { IfOk result (λ request. length request.cookie ≤ SESSION_ID_BYTES) }
    {
        let (sent, query) = parts_of(target.as_str());
        let path = decoded_path(alloc, sent)?;
        let params = params_of(
            alloc,
            method.as_str(),
            query,
            fields.as_slice(),
            body.as_slice(),
        )?;
        let query = match query {
            Some(query) => Some(Text::copy_of(alloc, query)?),
            None => None,
        };
        Ok(Request {
            path,
            query,
            params,
            cookie: session_of(alloc, fields.as_slice())?,
            close: asks_to_close(fields.as_slice()),
            method,
            target,
            fields,
            body,
        })
    }
}
