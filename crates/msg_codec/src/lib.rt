//! Packets: a message with its sender and its time as bytes, and back.
#![tactic(auto)]

mod front;
mod packet;
mod reading;
mod writing;

pub use packet::{CodecFault, Packet};
pub use reading::decode;
pub use writing::{encode, packet_len};
