use http_in::Request;

/// A request that came in, and how its response goes out: whether the connection closes behind it,
/// and whether its body is sent, which it isn't to HEAD.
#[derive(Clone, Copy)]
pub struct Incoming<'a> {
    pub request: &'a Request,
    pub close: bool,
    pub shown: bool,
}
