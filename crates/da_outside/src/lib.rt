//! What a program meets outside: sources of named files, sinks, links to other processes, and programs that it starts. Those in
//! memory fail at the calls that they are told to; those of the system are the edge that is trusted.
#![tactic(auto)]

mod link;
mod memory;
mod outside;
mod real;
mod real_spawner;
mod script;
mod script_link;
mod script_spawner;
mod spawner;
mod transfer;

pub use link::{DATAGRAM_MAX, Link, LinkAnswer, LinkEntry, Taken};
pub use memory::{MemFiles, MemSink};
pub use outside::{Files, Sink, Trouble};
pub use real::{RealFiles, RealSink};
pub use real_spawner::{ChildTrouble, OUTPUT_MAX, RealSpawner};
pub use script_link::ScriptLink;
pub use script_spawner::ScriptSpawner;
pub use spawner::{Child, Ended, SpawnEntry, Spawner};
pub use transfer::{read_all, write_all};
