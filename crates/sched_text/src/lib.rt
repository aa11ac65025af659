//! Schedules, traces, and the lines of events and actions.
#![tactic(auto)]

mod action;
mod event;
mod fields;
mod kind;
mod line;
mod number;
mod place;
mod put;
mod reading;
mod schedule;
mod trace;
mod words;

pub use action::write_action;
pub use event::write_event;
pub use kind::Kind;
pub use place::{Place, line_of_event, line_of_number};
pub use reading::read_action;
pub use schedule::{SCHEDULE_LIMIT, SchedFault, read_schedule};
pub use trace::{TRACE_LIMIT, TraceFault, read_trace};
