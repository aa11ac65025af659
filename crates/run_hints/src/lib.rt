//! What a person is told of a run: of an event that is not allowed where its process stands, what is in flight, and which
//! events are allowed there, for which the program is run up to there once more; why a line is none of a schedule; what a fault
//! was; why a process is blocked in a join of traces, and why a line is none of a trace. No contract speaks of the words.
#![tactic(auto)]

mod allowed;
mod blocks;
mod counts;
mod faults;
mod following;
mod lines;
mod points;
mod reached;
mod retrace;
mod stop;
mod trace_lines;
mod unmade;
mod unsent;
mod words;
mod wrong_files;

pub use blocks::{Blocked, blocked_in, explain_blocks};
pub use counts::process_count;
pub use faults::{Fault, explain_fault};
pub use following::explain_events;
pub use lines::explain_line;
pub use points::{Point, point_in};
pub use reached::line_waited;
pub use stop::explain_stop;
pub use trace_lines::{explain_trace_line, trace_line};
