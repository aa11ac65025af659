//! Sets of rows of ids, with the rows that have the same parts at some places as groups.
//!
//! The ids are those of a pool, with which a row of ids stands for a row of values; the order of rows is that of their
//! values. A set keeps its rows in no order, and beside them, for the order of all parts and for each key, the places of
//! the rows in that order. So a row and a group are found by a binary search, and a row that comes or leaves moves places
//! alone. The places of an order stand in short blocks, and only those of one block move. A set holds the ids of its rows:
//! a row that comes brings its holders, and one that leaves gives them back.
#![tactic(auto)]

mod anew;
mod compare;
mod cuts;
mod emptied;
mod order;
mod row;
mod search;
mod set;
mod settle;
mod values;

pub use anew::settle_anew;
pub use emptied::drop_all;
pub use row::{IdRow, copy_row, give_back_row, give_back_rows};
pub use set::{AnswerSet, KeyParts};
pub use settle::{
    Change, Choice, LentChoice, end_changes, settle_choices, settle_ids, settle_lent, settle_row,
};
pub use values::{intern_row, row_values};
