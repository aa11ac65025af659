//! The rules of names: which of them a program breaks, and the breach that is reported.
#![tactic(auto)]

mod arities;
mod call_rules;
mod classes;
mod declared;
mod deed_rules;
mod deeds;
mod early;
mod labels;
mod main_lines;
mod top_names;
mod tree;

pub use tree::name_fault;
