//! Types for a table of unknown types: what is sent to becomes processes, and what is left open becomes integers.
#![tactic(auto)]

mod choice;
mod ends;
mod filled;
mod forcing;
mod kinds;
mod lean;
mod looks;
mod order;
mod sizes;
mod values;

pub use choice::choose;
pub use lean::{lean_types, spelled_types};
pub use looks::{Looks, look};
