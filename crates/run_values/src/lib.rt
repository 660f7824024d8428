//! The values that a run of a page makes: coerced and joined ones, records and lists, the rounds of
//! loops, properties, addresses with their params, and what a page sees of its request. They look
//! at values and texts alone.
#![tactic(auto)]

mod addresses;
mod blanks;
mod cookies;
mod faults;
mod loop_values;
mod loops;
mod name_lists;
mod properties;
mod records;
mod request;
mod rounds;
mod statuses;
mod texts;
mod values;

pub use addresses::{params_in, url};
pub use cookies::cookie_records;
pub use faults::{fault_record, run_fault_line};
pub use loop_values::table_of;
pub use loops::rounds_of;
pub use properties::{
    FoundProperty, changed_all, changed_one, measured_record, property_found, property_of,
    property_replaced, replaced,
};
pub use records::{put, record};
pub use request::{all_values, before_query, first_values, headers, request_record, session_value};
pub use rounds::{Items, Mark, Rounds};
pub use statuses::Statuses;
pub use texts::text_of;
pub use values::{coerced, is_coerced, joined, list_of, measured, record_of};
