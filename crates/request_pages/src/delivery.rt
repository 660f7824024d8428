use http_out::Status;

/// How the response of a page is delivered: its status, whether the connection closes after it,
/// and whether its body is sent, which it isn't to HEAD.
#[derive(Clone, Copy, Debug, PartialEq, Eq)]
pub(crate) struct Delivery {
    pub status: Status,
    pub close: bool,
    pub shown: bool,
}
