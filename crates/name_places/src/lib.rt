//! Where names stand in the text of a program, what each of them names, and of which type it is. No contract speaks of it: it is
//! for people who write in an editor. What memory is refused for is left out.
#![tactic(auto)]

mod kind;
mod line;
mod messages;
mod names;
mod outline;
mod reader;
mod types;

pub use kind::{Kind, Named};
pub use names::{line_of_member, names_of};
pub use outline::{Outline, outline_of};
pub use types::{enter_own, type_text};
