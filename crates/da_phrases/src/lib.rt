//! The tokens that are left to read, and the smaller phrases of the grammar: types, patterns, expressions and queries.
#![tactic(auto)]

mod atoms;
mod cursor;
mod literals;
mod operators;
mod patterns;
mod place;
mod queries;
mod types;

pub use cursor::{Cursor, Stop};
pub use patterns::{expr_at, pattern_at};
pub use place::{Level, Rules, opening};
pub use types::{closed_types, type_at};
