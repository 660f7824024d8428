use http_in::HttpFault;

/// How a connection ended.
#[derive(Clone, Copy, Debug, PartialEq, Eq)]
pub enum Ended {
    /// The input ended between requests, a request asked to close, a response broke off unfinished,
    /// or the 65,536th request was answered.
    Done,
    /// The bytes show this fault, which was answered where it has an answer.
    Refused(HttpFault),
    /// The source failed.
    ReadFault,
    /// The sink failed.
    WriteFault,
    NoMemory,
}
