/// Why a part of a journal wasn't read.
#[derive(Clone, Copy, Debug, PartialEq, Eq)]
pub enum Unread {
    /// The bytes that come don't begin with such a part.
    NotThere,
    /// The bytes that may be read don't begin with one, and more come behind them.
    TooLong,
    /// The source failed.
    Failed,
}
