//! The commands that find schedules, and draw and show runs: what each call of the second program answers.
#![tactic(auto)]

mod drawing;
mod endings;
mod following;
mod options;
mod searching;
mod status;
mod top;
mod watching;
mod words;

pub use options::Options;
pub use status::Status;
pub use top::scout;
pub use words::{Aim, Command, Names, Question, Search, command_of};
