//! From the tree of a program to its resolved form, or to the rule of names or the limit that refuses it.
#![tactic(auto)]

mod arguments;
mod awaiting;
mod bodies;
mod class;
mod copying;
mod handler;
mod heads;
mod home;
mod inliner;
mod labels;
mod making;
mod methods;
mod program;
mod simple;
mod slots;
mod top;
mod variables;

pub use top::{ScopeFault, resolve};
