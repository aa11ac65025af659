//! What terms, conditions without queries, aggregates and numbered queries are in a row, from the number and the slots of a
//! process alone.
#![tactic(auto)]

mod aggregates;
mod conditions;
mod elements;
mod locals;
mod ranges;
mod rows;
mod terms;
mod told;

pub use aggregates::{Aggregate, aggregated, put_term, term_set};
pub use conditions::holds;
pub use elements::elements_in;
pub use locals::{Locals, numbered};
pub use ranges::{Range, bound_parts, range_of};
pub use rows::copy_row;
pub use terms::{other_value, term_value};
pub use told::{has_row, told_least, told_listed, told_value};
