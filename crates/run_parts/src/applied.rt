use page_code::Op;
use pg_value::Value;

/// An operation and the values that it takes, in the order in which they were pushed.
#[derive(Clone, Copy)]
pub struct Applied<'a> {
    pub op: &'a Op,
    pub args: &'a [Value],
}
