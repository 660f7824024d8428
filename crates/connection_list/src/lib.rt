//! Lists of connections, as the command `record` reads them: each is a line with the number of its
//! bytes, 1 to 8 decimal digits and a line feed, and then these bytes.
#![tactic(auto)]

mod list;

pub use list::{first_connection, is_list};
