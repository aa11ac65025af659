//! The base framing of the Language Server Protocol: a stream of bytes that comes piece by piece, the frames at its front, and
//! the frame of a content.
#![tactic(auto)]

mod cutting;
mod framed;
mod header;
mod input;
mod memory;
mod real;
mod source;

pub use cutting::{CONTENT_MAX, Cut, HEADER_MAX, cut_front};
pub use framed::{frames_are_read, put_frame};
pub use input::Input;
pub use memory::MemSource;
pub use real::RealSource;
pub use source::Source;
