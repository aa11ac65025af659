//! The commands: what each call of the program answers.
#![tactic(auto)]

mod endings;
mod exit;
mod finishing;
mod inferring;
mod joining;
mod json;
mod launching;
mod lines;
mod noding;
mod plans;
mod replaying;
mod starting;
mod status;
mod tasks;
mod top;
mod words;

pub use exit::{Ending, NoWords, exit_code, words_of_call};
pub use lines::{bad_line, refused_line};
pub use status::Status;
pub use top::dalgo;
pub use words::{
    Command, FIRST_PORT, LAST_PORT, LAST_START, LaunchSetting, MOST_ANSWERS, MOST_EVENTS,
    MOST_OUTPUTS, MOST_PROCESSES, MOST_SCHEDULES, Names, NodeSetting, Task, command_of,
    number_between,
};
