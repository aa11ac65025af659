//! How a call of the program ends.

use crate::exit::Ending;
use da_front::RefusedKind;

/// How a call of the program ends.
#[derive(Clone, Copy)]
pub enum Status {
    /// The work was carried out to its end.
    Done,
    /// The program is refused, at this line, or at 0 where no line is to blame.
    Refused { kind: RefusedKind, line: u32 },
    /// The words have no form that the program knows.
    Words,
    /// The event of this number, counted from 1, is not allowed.
    Forbidden { event: u64 },
    /// The line of this number is no line of a schedule, or the schedule is too long, with 0.
    BadSchedule { line: u64 },
    /// A read failed. Nothing was written.
    ReadFault,
    /// A write failed.
    WriteFault,
    /// Memory was refused.
    Memory,
    /// The link of a node failed.
    LinkFault,
    /// The last answers that the link of a node gave were as many idle turns as it may have.
    Idle,
    /// A node took as many answers as it may.
    Spent,
    /// A fault ended the process of a node.
    Faulted,
    /// A child could not be started, or its end could not be waited for.
    ChildFault,
    /// All children have ended, and this is the first process whose child ended with another status than 0.
    ChildStatus { child: u16, status: u8 },
    /// The line of this number is no line of the trace of this process, or the trace is too long, with 0.
    BadTrace { process: u16, line: u64 },
    /// No schedule has these traces.
    NoJoin,
}

impl Ending for Status {
    ghost use Rattle.da_commands.specs.ExitCode.{code_of as code_def};

    ghost code_of = { code_def };

    fn code(&self) -> u8 {
        match self {
            Status::Done => 0,
            Status::Refused { .. } => 1,
            Status::Words => 2,
            Status::Forbidden { .. } => 3,
            Status::BadSchedule { .. } => 4,
            Status::ReadFault => 5,
            Status::WriteFault => 6,
            Status::Memory => 7,
            Status::LinkFault => 8,
            Status::Idle => 9,
            Status::Spent => 10,
            Status::Faulted => 11,
            Status::ChildFault => 12,
            Status::ChildStatus { .. } => 13,
            Status::BadTrace { .. } => 14,
            Status::NoJoin => 15,
        }
    }
}
