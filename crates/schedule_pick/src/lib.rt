//! The schedule that a number generates for a hunt: which events may be picked, who goes before whom, and which event is picked.
#![tactic(auto)]

mod budget;
mod order;
mod picker;
mod strategy;

pub use budget::Budget;
pub use picker::{Picker, first_picker};
pub use strategy::{Setting, Strategy};
