//! What the names, terms, patterns, expressions and conditions of a tree mean where they stand: names become slots and parts of
//! rows, and queries get numbers.
#![tactic(auto)]

mod condition;
mod expr;
mod generator;
mod numbers;
mod patterns;
mod scope;
mod tables;
mod term;

pub use condition::boxed_condition;
pub use expr::{all_outside, boxed_outside, outside};
pub use numbers::Row;
pub use patterns::pattern;
pub use scope::{Meaning, Scope};
pub use tables::Tables;
