//! The functions library: what each of its sixteen functions answers for its arguments.
#![tactic(auto)]

mod cut;
mod functions;
mod join;
mod length;
mod letters;
mod marks;
mod replace;
mod scalars;
mod search;
mod split;
mod within;

pub use functions::call;
pub use pg_value::{Failure, Function, RunFault, Value};
pub use split::tokens;
