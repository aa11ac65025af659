//! What whole programs demand of types that are not known yet: class by class, each demand with its line.
#![tactic(auto)]

mod classes;
mod demands;
mod heads;
mod items;
mod laws;
mod prefix;
mod rules;
mod schemes;

pub use classes::program_demands;
pub use demands::{ClassDemands, Head, ProgramDemands, SetupDemands};
pub use laws::{demands_agree, unknowns_stand};
pub use prefix::demands_upto;
