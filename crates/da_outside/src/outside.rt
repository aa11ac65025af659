//! What the program meets outside: a source of named files, and a sink.
ghost use Rattle.da_outside.specs.Outside.{Appends, HasCause, ReadsTold};
ghost use Rattle.std.specs.Prelude.{ℕ, ◌≡◌, ◌<◌, ◌≤◌, List, Option, length, take, IfOk, IsErrOf, OnErr};

use da_values::NoMemory;
use thiserror::Error;

/// Why the outside did not do what it was asked.
#[derive(Clone, Copy, Debug, Error)]
pub enum Trouble {
    /// The object failed, and counted that.
    #[error("the outside failed")]
    Failed,
    /// Memory was refused.
    #[error("no memory is left")]
    Memory,
}

impl From<NoMemory> for Trouble {
    ghost use Rattle.da_outside.specs.declared.outside.Trouble.TheVariants.{Memory};
    ghost use Rattle.std.specs.Prelude.{◌≡◌};

    ghost from_gives = { λ _ trouble. trouble ≡ Memory };

    fn from(_: NoMemory) -> Trouble {
        Trouble::Memory
    }
}

/// A source of named files.
pub trait Files {
    /// The bytes of a name, where the source tells them.
    ghost told: { Self → List ℕ → Option (List ℕ) };

    /// How often a read of a name has failed.
    ghost faults: { Self → List ℕ → ℕ };

    /// Fills the start of `buf` with what stands at the place `at`, and says how many bytes came. A short answer is no
    /// end; 0 is one, unless `buf` has no room. Reading changes no content, and makes a count rise only
    /// where it fails.
    fn read(&mut self, name: &str, at: u64, buf: &mut [u8]) -> Result<usize, Trouble>
        requires { at ≤ 16777216 }
        ensures bound { IfOk result (λ n. n ≤ length buf.new) }
        ensures bytes { IfOk result (λ n. ReadsTold (told self.old name.now) at n buf.new) }
        ensures same { (x : List ℕ) → told self.new x ≡ told self.old x }
        ensures cause { HasCause (faults self.old name.now) (faults self.new name.now) (IsErrOf result Trouble.Failed) }
        ensures later { (x : List ℕ) → faults self.old x ≤ faults self.new x }
        ensures rises { (x : List ℕ) → faults self.old x < faults self.new x → IsErrOf result Trouble.Failed };
}

/// A sink of bytes.
pub trait Sink {
    /// The bytes that were taken, where the sink tells them.
    ghost taken: { Self → Option (List ℕ) };

    /// How often a write has failed.
    ghost faults: { Self → ℕ };

    /// Takes a first part of `bytes`, of at least one byte where there are some, and says how many. After a trouble it
    /// has taken none, and the count rises only where the write failed.
    fn write(&mut self, bytes: &[u8]) -> Result<usize, Trouble>
        ensures bound { IfOk result (λ n. n ≤ length bytes.now) }
        ensures some { IfOk result (λ n. 0 < length bytes.now → 0 < n) }
        ensures took { IfOk result (λ n. Appends (taken self.old) (taken self.new) (take n bytes.now)) }
        ensures same { OnErr result (taken self.new ≡ taken self.old) }
        ensures cause { HasCause (faults self.old) (faults self.new) (IsErrOf result Trouble.Failed) };
}
