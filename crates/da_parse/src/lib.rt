//! The parser: from the tokens of a text to its tree.
#![tactic(auto)]

mod loose;
mod members;
mod programs;
mod simple;
mod stmts;
mod whole;

pub use loose::{LooseTree, OpenParam};
pub use whole::{ParseFault, parse, parse_loose};
