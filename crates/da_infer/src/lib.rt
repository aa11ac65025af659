//! Declarations for programs that lack them.
#![tactic(auto)]

mod between;
mod counts;
mod known;
mod laws;
mod partly;
mod places;
mod search;
mod solving;
mod top;
mod unknowns;

pub use between::clashing_line;
pub use laws::{fills_agree, fills_are_demanded, fills_are_written};
pub use partly::declared_upto;
pub use top::{InferFault, infer};
