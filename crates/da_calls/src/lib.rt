//! The calls of a class: which method leads to which.
#![tactic(auto)]

mod bodies;
mod cycles;
mod graph;
mod methods;
mod names;
mod order;
mod rows;
mod search;

pub use graph::CallGraph;
pub use methods::Method;
