//! How a call ends.

use da_commands::Ending;
use da_front::RefusedKind;

/// How a call of the program ends.
#[derive(Clone, Copy)]
pub enum Status {
    /// The work was carried out to its end. A hunt found nothing.
    Done,
    /// The program is refused, at this line, or at 0 where no line is to blame.
    Refused { kind: RefusedKind, line: u32 },
    /// The watch is refused, at this line, or at 0 where no line is to blame.
    WatchRefused { kind: RefusedKind, line: u32 },
    /// The words have no form that the program knows.
    Words,
    /// The event of this number, counted from 1, is not allowed.
    Forbidden { event: u64 },
    /// The line of this number is no line of a schedule or of a trace, or the text is too long, with 0.
    BadLine { line: u64 },
    /// A read failed. Nothing was written.
    ReadFault,
    /// A write failed.
    WriteFault,
    /// Memory was refused.
    Memory,
    /// A hunt found a schedule.
    Found,
    /// The events of the answer, with empty remarks, are no schedule: the text is too long, or one has a number that no
    /// schedule can name. Nothing was written.
    Unspelled,
}

impl Ending for Status {
    ghost use Rattle.scout_commands.specs.ExitCode.{code_of as code_def};

    ghost code_of = { code_def };

    fn code(&self) -> u8 {
        match self {
            Status::Done => 0,
            Status::Refused { .. } => 1,
            Status::WatchRefused { .. } => 1,
            Status::Words => 2,
            Status::Forbidden { .. } => 3,
            Status::BadLine { .. } => 4,
            Status::ReadFault => 5,
            Status::WriteFault => 6,
            Status::Memory => 7,
            Status::Found => 10,
            Status::Unspelled => 16,
        }
    }
}
