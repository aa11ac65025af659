//! The runs of a system: of a schedule, whose text goes to a sink event by event, and of one that numbers generate.
#![tactic(auto)]

mod counts;
mod generated;
mod outcome;
mod picking;
mod run;

pub use generated::stress;
pub use outcome::Outcome;
pub use picking::{next_number, place_in};
pub use run::replay;
