//! Matching of patterns: whether a value matches, and the row that it makes longer.
#![tactic(auto)]

mod matching;
mod process;
mod row;
mod taken;
mod term;

pub use matching::{match_pattern, matches_pattern};
