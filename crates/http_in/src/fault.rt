ghost use Rattle.std.specs.Prelude.{◌≡◌};
ghost use Rattle.http_in.specs.FaultNumber.{fault_number};

use thiserror::Error;

/// Why a request could not be read. After a fault the connection has no further requests.
#[derive(Clone, Copy, Debug, PartialEq, Eq, Error)]
pub enum HttpFault {
    #[error("16,384 bytes hold no end of the head")]
    HeadTooLarge,
    #[error("the head isn't a request head of HTTP/1 for one host and a path")]
    BadHead,
    #[error("the version is HTTP/1.0")]
    WrongVersion,
    #[error("the body comes with a transfer coding")]
    ChunkedRequest,
    #[error("the lengths of the body are no numbers, or differ")]
    BadLength,
    #[error("the body has more than 2,097,152 bytes")]
    BodyTooLarge,
    #[error("the input ended inside a request")]
    CutOff,
    #[error("the source failed")]
    ReadFault,
}

impl HttpFault {
    /// The number of the fault, as a recorded talk names it.
    pub fn number(self) -> u8
        ensures { result ≡ fault_number self }
    {
        match self {
            HttpFault::HeadTooLarge => 1,
            HttpFault::BadHead => 2,
            HttpFault::WrongVersion => 3,
            HttpFault::ChunkedRequest => 4,
            HttpFault::BadLength => 5,
            HttpFault::BodyTooLarge => 6,
            HttpFault::CutOff => 7,
            HttpFault::ReadFault => 8,
        }
    }
}
