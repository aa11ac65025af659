//! A stream of bytes.
ghost use Rattle.da_outside.specs.Outside.{HasCause};
ghost use Rattle.lsp_frames.specs.Source.{HasCome};
ghost use Rattle.std.specs.Prelude.{ℕ, ◌≡◌, ◌≤◌, List, Option, length, IfOk, IsErrOf, OnErr};

use da_outside::Trouble;

/// A stream of bytes, which come piece by piece.
pub trait Source {
    /// The bytes that are still to come, where the source tells them.
    ghost left: { Self → Option (List ℕ) };

    /// How often a read has failed.
    ghost faults: { Self → ℕ };

    /// Fills the start of `buf` with the bytes that come next, and says how many came. A short answer is no end; 0 is one,
    /// unless `buf` has no room. After a trouble none has come, and the count rises only where the read failed.
    fn read(&mut self, buf: &mut [u8]) -> Result<usize, Trouble>
        ensures bound { IfOk result (λ n. n ≤ length buf.new) }
        ensures came { IfOk result (λ n. HasCome (left self.old) n buf.new (left self.new)) }
        ensures same { OnErr result (left self.new ≡ left self.old) }
        ensures cause { HasCause (faults self.old) (faults self.new) (IsErrOf result Trouble.Failed) };
}
