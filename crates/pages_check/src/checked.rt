/// How the check of a page ends.
#[derive(Clone, Copy, Debug, PartialEq, Eq)]
pub enum Checked {
    /// The page has no fault.
    Good,
    /// The page has a fault, which was reported.
    Bad,
    ReadFault,
    WriteFault,
    NoMemory,
}
