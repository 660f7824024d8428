/// How recording ended.
#[derive(Clone, Copy, Debug, PartialEq, Eq)]
pub enum Recorded {
    /// Each connection was recorded.
    Done,
    /// The input is no list of connections.
    NotListed,
    ReadFault,
    WriteFault,
    NoMemory,
}
