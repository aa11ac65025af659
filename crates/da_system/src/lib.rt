//! A program's processes as one system, and its steps.
#![tactic(auto)]

mod channels;
mod choices;
mod counts;
mod looking;
mod network;
mod picking;
mod queue;
mod renewal;
mod system;

pub use channels::{may_arrive, may_lose, may_repeat};
pub use da_core::{Place, StepFault};
pub use queue::InFlight;
pub use system::System;
