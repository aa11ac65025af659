//! What a person is told of a call of either program: which of its words is wrong and what may stand there, how a command is
//! called, why a file cannot be read, and names and lines as they are shown. No contract speaks of the words.
#![tactic(auto)]

mod again;
mod commands;
mod drawn;
mod hunts;
mod numbers;
mod options;
mod terminal;
mod unread;
mod usage;
mod wrong;

pub use again::text_again;
pub use drawn::{explain_drawn, line_at};
pub use terminal::{SHOWN, TOLD, shown, shown_name};
pub use unread::tell_unread;
pub use usage::tell_words;
pub use wrong::why_not;
