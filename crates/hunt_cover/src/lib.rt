//! What the schedules of a hunt have reached: alternatives and blocks for a timeout, handlers, and outputs; and whether a watch is handed
//! anything. It is told to a person, and no contract speaks of it.
//!
//! A second program is run by the same events. It is the text with a line more before each `output`, and at the beginning of each
//! handler, that puts out which line that was.
#![tactic(auto)]

mod cover;
mod marks;
mod tried;

pub use cover::{Cover, Place, Spot};
pub use tried::Tried;
