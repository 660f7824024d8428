use pg_text::{Listed, Text};
use pg_value::Value;

/// A list or a record that waits for a value.
#[derive(Drop)]
pub(crate) enum Frame {
    /// A list of these items and one more, behind which so many are left to come.
    Items {
        done: Listed<Value>,
        left: u64,
    },
    /// A record of these entries and one under this key, behind which so many are left to come.
    Entries {
        done: Listed<(Text, Value)>,
        key: Text,
        left: u64,
    },
}

/// What came of a value that was read so far.
#[derive(Drop)]
pub(crate) enum Step {
    /// It is whole.
    Whole(Value),
    /// It is this list or record, which waits.
    Waits(Frame),
}
