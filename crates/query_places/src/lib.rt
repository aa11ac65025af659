//! Where queries stand in the text of a program, and their numbers and those of yield points in the inlined text, with the nodes of
//! the plan that keep their answers. No contract speaks of it: it is for people who write in an editor. What memory is refused for
//! is left out.
#![tactic(auto)]

mod counts;
mod numbers;
mod places;
mod plans;

pub use numbers::Numbers;
pub use places::{QueryPlace, query_at};
pub use plans::tell_query;
