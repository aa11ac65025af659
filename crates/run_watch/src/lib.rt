//! A watch beside a run: a program that is handed what another one puts out, and says what is wrong with it.
#![tactic(auto)]

mod telling;
mod watcher;

pub use telling::tell_watched;
pub use watcher::{Watcher, is_said, says_any};
