//! How a session ends.

use da_commands::Ending;

/// How a session ends.
#[derive(Clone, Copy)]
pub enum Status {
    /// `exit` came after `shutdown`.
    Stopped,
    /// `exit` came before `shutdown`.
    Left,
    /// The stream has ended.
    Closed,
    /// A read failed.
    ReadFault,
    /// A write failed.
    WriteFault,
    /// Memory was refused.
    Memory,
    /// As many turns were taken as there may be, which are 2^64 - 1.
    Spent,
}

impl Ending for Status {
    ghost use Rattle.lsp_server.specs.ExitCode.{code_of as code_def};

    ghost code_of = { code_def };

    fn code(&self) -> u8 {
        match self {
            Status::Stopped => 0,
            Status::Left => 1,
            Status::Closed => 1,
            Status::ReadFault => 5,
            Status::WriteFault => 6,
            Status::Memory => 7,
            Status::Spent => 10,
        }
    }
}
