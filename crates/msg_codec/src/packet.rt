//! What a packet says, and why bytes are none.
use da_values::{NoMemory, Value};
use thiserror::Error;

/// A message, with the process that sent it and the time of the sending.
#[derive(Drop)]
pub struct Packet {
    pub sender: u16,
    /// At most 2^63 - 1.
    pub clock: u64,
    pub value: Value,
}

/// Why no packet was read.
#[derive(Clone, Copy, Debug, Error)]
pub enum CodecFault {
    /// No packet has these bytes.
    #[error("these bytes are no packet")]
    NotAPacket,
    /// Memory was refused.
    #[error("no memory is left")]
    Memory,
}

impl From<NoMemory> for CodecFault {
    ghost use Rattle.msg_codec.specs.declared.packet.CodecFault.TheVariants.{Memory};
    ghost use Rattle.std.specs.Prelude.{◌≡◌};

    ghost from_gives = { λ _ fault. fault ≡ Memory };

    fn from(_: NoMemory) -> CodecFault {
        CodecFault::Memory
    }
}
