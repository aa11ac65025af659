//! A node: one process of a compiled program, which hears the answers of a link.
#![tactic(auto)]

mod giving;
mod hearing;
mod holding;
mod moving;
mod outcome;
mod run;

pub use outcome::NodeOutcome;
pub use run::node;
