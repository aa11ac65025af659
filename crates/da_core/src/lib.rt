//! One process in code: what it knows, where it stands in the code of its class, its moves and timeouts, and the messages
//! that arrive.
#![tactic(auto)]

mod answers;
mod compiled;
mod counted;
mod deliveries;
mod known;
mod local;
mod messages;
mod moves;
mod opened;
mod opening;
mod place;
mod process;
mod store;
mod waits;

pub use compiled::{Compiled, compile};
pub use local::{alternatives_at, has_alternatives, local_decides};
pub use messages::well_typed;
pub use place::{Place, StepFault, Stopped};
pub use process::Core;
