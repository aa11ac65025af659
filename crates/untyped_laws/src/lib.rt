//! Names, limits and what a tree becomes do not depend on the types that are declared in it, and the slots without a type
//! take theirs one by one.
#![tactic(auto)]

mod differ;

pub use differ::{only_types_differ, slots_follow};
