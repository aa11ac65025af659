//! The types of terms, patterns, expressions, queries and conditions, where the messages and the types of slots are known.
#![tactic(auto)]

mod conditions;
mod expressions;
mod known;
mod patterns;
mod queries;
mod sides;
mod terms;
mod types;

pub use conditions::cond_holds;
pub use expressions::{expr_fits, expr_type, has_type, is_truth};
pub use known::{Known, member};
pub use patterns::{message_row, pattern_row};
pub use queries::query_row;
pub use types::{element_of, is_proc, same_type};
