//! Types of a program: whether it keeps the rules of types, and the types of its slots.
#![tactic(auto)]

mod check;
mod earliest;
mod flow;
mod lines;
mod rules;
mod top;

pub use top::{TypeFault, Typed, check_types};
