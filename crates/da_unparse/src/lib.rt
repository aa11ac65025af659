//! Printing of programs: the text of a tree.
#![tactic(auto)]

mod expressions;
mod levels;
mod lines;
mod members;
mod programs;
mod statements;
mod types;
mod words;

pub use programs::print_tree;
