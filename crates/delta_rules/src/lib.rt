//! The answers to all queries and conditions of a class, kept by changes.
#![tactic(auto)]

mod answers;
mod asks;
mod copies;
mod empty;
mod entries;
mod first;
mod fixed;
mod keys;
mod laying;
mod reading;
mod resting;
mod seeing;
mod slots;
mod turn;
mod turn_gen;
mod turn_node;
mod turn_range;
mod turn_sides;
mod updates;
mod uses;
mod values;
mod whole;

pub use answers::Answers;
