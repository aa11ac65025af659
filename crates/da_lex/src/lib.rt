//! Cuts the text of a program into tokens.
//!
//! A text is read once, from its first byte to its last. What its tokens are, and where it is refused, is the
//! definition `tokens` of `da_values`.
#![tactic(auto)]

mod fault;
mod levels;
mod pieces;
mod scanner;
mod tokens;

pub use da_values::{LexKind, Token, TokenKind};
pub use fault::LexFault;
pub use tokens::{Tokens, lex};
