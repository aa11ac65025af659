//! The names that a program without declarations uses: which tags and variables get a line, and the program with them.
#![tactic(auto)]

mod added;
mod changes;
mod copy;
mod filled;
mod firsts;
mod names;
mod statements;
mod tags;

pub use added::{AddedTag, AddedVariable, OpenPlace};
pub use filled::declared;
pub use firsts::{added_tags, added_variables};
pub use names::is_name;
