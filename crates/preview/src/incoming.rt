use http_in::Request;

/// A request that is answered, and whether the connection ends behind it.
#[derive(Drop)]
pub(crate) struct Incoming {
    pub(crate) request: Request,
    pub(crate) close: bool,
}
