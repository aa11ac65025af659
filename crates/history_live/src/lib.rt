//! Live patterns: what the queries and conditions of a class need of the messages of its histories.
#![tactic(auto)]

mod live;
mod reading;
mod term;

pub use live::{Live, is_history, live_patterns};
pub use reading::matches;
pub use term::{live_gen, live_pattern};
