//! From the statements of a class to its code.
#![tactic(auto)]

mod classes;
mod emit;
mod exprs;
mod items;

pub use classes::generate;
