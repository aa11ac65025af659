//! Links between processes on one machine, over UDP. They are the edge that is trusted: nothing is told of what they give
//! and take, and faults are counted.
#![tactic(auto)]

mod link;

pub use link::UdpLink;
