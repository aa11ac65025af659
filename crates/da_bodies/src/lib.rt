//! The rules of names in bodies: what is reported of expressions and statements where they stand, and the earliest of it.
#![tactic(auto)]

mod bodies;
mod earliest;
mod expressions;
mod repeats;
mod scope;
mod statements;
mod variables;

pub use bodies::{Body, Place, body_of, check_body};
pub use earliest::{Earliest, Fault, Kind, LimitFault, NameFault};
pub use expressions::{check_exprs, is_value, tell_unless};
pub use repeats::{Declared, Seen, has_seen, see_again, tell_again};
pub use scope::{Names, Role};
pub use variables::enter_all;
