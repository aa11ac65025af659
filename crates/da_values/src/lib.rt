//! Values of DistAlgo programs, with the lists, boxes and texts that they are made of.
//!
//! A running program computes with integers, truth values, texts and processes, and with tuples and sets of values.
//! Contracts see every value as a plain recursive type, `Val`, and every list as the list of its elements.
#![tactic(auto)]

mod boxed;
mod cmp;
mod copy;
mod key;
mod length;
mod list;
mod marks;
mod narrow;
mod number;
mod read;
mod set;
mod steps;
mod str;
mod token;
mod val;
mod value;
mod word;
mod write;

pub use boxed::Boxed;
pub use cmp::{cmp_rows, cmp_values};
pub use copy::{copy_bytes, copy_value};
pub use length::encoded_len;
pub use list::{Buf, List, NoMemory};
pub use marks::{front_symbol, mark_of, word_mark};
pub use narrow::is_narrow;
pub use number::{NUMBER_MAX, read_number, write_number};
pub use read::{ValueFault, read_value};
pub use set::{set_has, set_insert, set_remove};
pub use steps::Steps;
pub use str::{Str, StrFault};
pub use token::{LexKind, Mark, Piece, Token, TokenKind};
pub use val::Val;
pub use value::{Row, SetVal, Value};
pub use write::write_value;
