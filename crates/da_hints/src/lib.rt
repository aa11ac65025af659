//! What a person is told of a program that is refused, beside the kind and the line of the refusal: what exactly is wrong,
//! where on the line, and what helps. The text is read again for it. No contract speaks of the words. What stands on a line, and
//! the names in scope there, are given to others too.
#![tactic(auto)]

mod case;
mod elsewhere;
mod extents;
mod kinds;
mod labels;
mod limits;
mod names;
mod parts;
mod patterns;
mod queries;
mod repeats;
mod rows;
mod rules;
mod scope;
mod shown;
mod site;
mod told;
mod top;
mod types;
mod typing;
mod undeclared;
mod values;
mod walk;

pub use case::Case;
pub use kinds::why_of;
pub use parts::is_passed;
pub use rows::{Row, rows_of};
pub use scope::{Role, Scope, role_name};
pub use shown::put_type;
pub use site::{Part, enter_head, enter_row, enter_variables, line_of_main};
pub use top::{Why, explain, explain_loosely};
pub use typing::{enter_gen, set};
pub use undeclared::loose_of;
pub use walk::Step;
