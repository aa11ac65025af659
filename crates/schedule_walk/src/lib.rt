//! Schedules that are found: the one that numbers generate, and the events that are allowed after a schedule.
#![tactic(auto)]

mod allowed;
mod following;
mod generated;
mod naming;
mod outcome;
mod remarked;
mod resting;

pub use allowed::{allowed_events, allowed_with};
pub use following::next;
pub use generated::{pick_events, walk};
pub use naming::{all_named, schedule_of};
pub use outcome::NextOutcome;
pub use resting::is_at_rest;
