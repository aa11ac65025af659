//! What programs demand of types that are not known yet.
#![tactic(auto)]

mod conditions;
mod copy;
mod demand;
mod expressions;
mod known;
mod laws;
mod patterns;
mod puts;
mod queries;
mod sides;
mod terms;

pub use conditions::cond_demands;
pub use copy::{copy_scheme, copy_schemes};
pub use demand::{Demand, LineDemand};
pub use expressions::{expr_demands, fit_demands};
pub use known::{Known, MessageScheme, SlotScheme, slot_demands, tag_demands};
pub use laws::{conditions_agree, expressions_agree, patterns_agree, queries_agree};
pub use patterns::{message_demands, pattern_demands};
pub use puts::{element_of, flat, put, same};
pub use queries::{query_demands, query_rows_demands};
