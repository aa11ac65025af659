//! The limits of a program, with its calls inlined: which of them it exceeds, without inlining one.
#![tactic(auto)]

mod bound;
mod classes;
mod copied;
mod copies;
mod extent;
mod limits;
mod lines;
mod members;
mod methods;
mod nodes;
mod numbers;
mod sizes;
mod statements;
mod tree;
mod types;
mod walk;
mod written;

pub use copied::copied_nodes;
pub use limits::limit_fault;
