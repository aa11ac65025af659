//! The words with which a program is called, and the exit status with which it ends.
ghost use Rattle.std.specs.Prelude.{◌≡◌, ℕ, IfOk, IsErrOf};
ghost use Rattle.std.specs.Process.{exit_status};

use std::env;
use std::io::ErrorKind;
use std::process::ExitCode;
use std::rt::Env;

/// The exit status where the system does not give the words.
const NO_WORDS: u8 = 20;

/// The exit status where memory is refused for the words.
const NO_MEMORY: u8 = 7;

/// Why there are no words.
#[derive(Clone, Copy)]
pub enum NoWords {
    /// The system does not give them.
    Refused,
    /// Memory was refused.
    Memory,
}

/// How a call may end.
pub trait Ending {
    ghost use Rattle.std.specs.Prelude.{◌≡◌, ℕ};

    ghost code_of: { Self → ℕ };

    /// The exit status of the process.
    fn code(&self) -> u8
        ensures { result ≡ code_of self.now };
}

/// The words after the name of the program.
pub fn words_of_call<R: Env + AllocGlobal>(rt: &R) -> Result<Vec<String>, NoWords> {
    let args = env::args(rt).map_err(|error| match error.kind() {
        ErrorKind::OutOfMemory => NoWords::Memory,
        _ => NoWords::Refused,
    })?;
    let mut words = Vec::new(rt.alloc());
    for word in args.skip(1) {
        words.push(word).map_err(|_| NoWords::Memory)?;
    }
    Ok(words)
}

/// Makes the call with the words, where they are there. The exit status is that of the call.
pub fn exit_code<W, S: Ending + Drop, C: FnOnce(W) -> S>(
    words: Result<W, NoWords>,
    call: C,
) -> ExitCode
    requires { IfOk words (C.pre call) }
    ensures called { IfOk words (λ w. (status : S) × C.post call w status × (exit_status result ≡ S.code_of status)) }
    ensures refused { IsErrOf words NoWords.Refused → exit_status result ≡ 20 }
    ensures memory { IsErrOf words NoWords.Memory → exit_status result ≡ 7 }
{
    match words {
        Ok(words) => ExitCode::from(call(words).code()),
        Err(NoWords::Refused) => ExitCode::from(NO_WORDS),
        Err(NoWords::Memory) => ExitCode::from(NO_MEMORY),
    }
}
