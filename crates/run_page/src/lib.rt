//! The page of a run: its events, what each did and changed, with the state of each process, and the text of the program beside it.
#![tactic(auto)]

mod cells;
mod changes;
mod names;
mod remarks;
mod running;
mod showing;

pub use showing::show;
