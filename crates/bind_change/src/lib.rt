//! The rows of a parent, each with one more part: an aggregate over the rows of a child that extend it. They are kept by what
//! changes in parent and child, and by reading the groups of those rows alone that a change touches. Of a group whose aggregate its
//! first or its last row tells, or the number of its rows, no other row is read. The rows are those of a pool: they are read as
//! rows of values, and the set is changed by one call, once all is known.
#![tactic(auto)]

mod bind;
mod ends;
mod groups;
mod settle;
mod touched;

pub use bind::{Inputs, bind_anew, bind_change};
