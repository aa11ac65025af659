//! From the text of a program to the program with its code and plans, or to the refusal.
#![tactic(auto)]

mod program;
mod refusal;
mod watch;

pub use program::{PROGRAM_LIMIT, read_program, read_resolved, read_tokens, read_tree, read_typed};
pub use refusal::{ProgramFault, RefusedKind};
pub use watch::read_watch;
