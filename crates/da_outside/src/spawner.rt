//! Programs beside this one: a spawner starts them as its children, and waits for their ends.
ghost use Rattle.da_outside.specs.Outside.{HasCause};
ghost use Rattle.da_outside.specs.Spawner.{HasFinished, Tells};
ghost use Rattle.std.specs.Prelude.{ℕ, ◌≡◌, [], ◌∷◌, List, None, Option, Some, IfOk, IsErrOf, OnErr, map};
ghost use Rattle.std.specs.String.{string_bytes};

use crate::outside::Trouble;
use da_values::{Buf, List};

/// A child that was started, by the number that its spawner gave it.
#[derive(Drop)]
pub struct Child {
    pub number: u32,
}

/// How a child ended: its exit status, and all that it wrote to its standard output.
#[derive(Drop)]
pub struct Ended {
    pub status: u8,
    pub output: Buf,
}

/// What a spawner tells of one call.
#[derive(Drop)]
pub enum SpawnEntry {
    /// A child was to be started with these words. It got this number, or none where that failed.
    Start {
        words: List<Buf>,
        child: Option<u32>,
    },
    /// The end of the child of this number was waited for. It ended so, or that failed.
    Finish {
        child: u32,
        ended: Option<Ended>,
    },
}

/// What starts children, and waits for their ends.
///
/// A spawner that tells something keeps one list, in the order of the calls, those that failed included. A call for which
/// memory was refused is not told.
pub trait Spawner {
    ghost use Rattle.da_outside.specs.declared.spawner.SpawnEntry.{SpawnEntry};

    /// The entries so far, where the spawner tells them.
    ghost told: { Self → Option (List SpawnEntry) };

    /// How often a call has failed.
    ghost faults: { Self → ℕ };

    /// Starts a child with these words after the name of its program, and does not wait for it.
    fn start(&mut self, words: &[String]) -> Result<Child, Trouble>
        ensures adds { IfOk result (λ child. Tells (told self.old) (told self.new) (SpawnEntry.Start (map string_bytes words.now) (Some child.number) ∷ [])) }
        ensures failed { IsErrOf result Trouble.Failed → Tells (told self.old) (told self.new) (SpawnEntry.Start (map string_bytes words.now) None ∷ []) }
        ensures same { IsErrOf result Trouble.Memory → told self.new ≡ told self.old }
        ensures cause { HasCause (faults self.old) (faults self.new) (IsErrOf result Trouble.Failed) };

    /// Waits until a child has ended, appends what it wrote, and answers its exit status. After a trouble the bytes are as
    /// they were.
    fn finish(&mut self, child: Child, out: &mut Buf) -> Result<u8, Trouble>
        ensures adds { IfOk result (λ status. HasFinished child.number status out.old out.new (told self.old) (told self.new)) }
        ensures failed { IsErrOf result Trouble.Failed → Tells (told self.old) (told self.new) (SpawnEntry.Finish child.number None ∷ []) }
        ensures same { IsErrOf result Trouble.Memory → told self.new ≡ told self.old }
        ensures out { OnErr result (out.new ≡ out.old) }
        ensures cause { HasCause (faults self.old) (faults self.new) (IsErrOf result Trouble.Failed) };
}
