//! Whole texts from a source, and to a sink.
ghost use Rattle.da_outside.specs.Outside.{Appends, AppendsPrefix, EndsAt, HasCause, HasPrefix, IsWhole};
ghost use Rattle.std.specs.Prelude.{ℕ, ◌≡◌, ◌+◌, ◌<◌, ◌≤◌, List, length, take, IfOk, IsErrOf, OnErr, OnOk};

use crate::outside::{Files, Sink, Trouble};
use da_values::{Buf, List};
use std::alloc::Global;

const PIECE: usize = 4096;

/// The bytes of a name, or one more than the limit where it has more. No more are ever read.
pub fn read_all<F: Files>(
    alloc: Global,
    files: &mut F,
    name: &str,
    limit: usize,
) -> Result<Buf, Trouble>
    requires { limit ≤ 16777216 }
    ensures whole { IfOk result (λ text. IsWhole (F.told files.old name.now) limit text) }
    ensures same { (x : List ℕ) → F.told files.new x ≡ F.told files.old x }
    ensures cause { HasCause (F.faults files.old name.now) (F.faults files.new name.now) (IsErrOf result Trouble.Failed) }
    ensures later { (x : List ℕ) → F.faults files.old x ≤ F.faults files.new x }
    ensures rises { (x : List ℕ) → F.faults files.old x < F.faults files.new x → IsErrOf result Trouble.Failed }
{
    let mut text = List::new(alloc);
    'pieces: while text.len() <= limit {
        let room = (limit + 1 - text.len()).min(PIECE);
        if read_piece(files, name, room, &mut text)? == 0 {
            return Ok(text);
        }
    }
    Ok(text)
}

// Reads at most this many bytes more, and says how many. 0 is the end.
fn read_piece<F: Files>(
    files: &mut F,
    name: &str,
    room: usize,
    text: &mut Buf,
) -> Result<usize, Trouble>
    requires room { (0 < room) × (room ≤ 4096) }
    requires at { length text.old ≤ 16777216 }
    ensures grows { IfOk result (λ count. length text.new ≡ length text.old + count) }
    ensures within { IfOk result (λ count. count ≤ room) }
    ensures prefix { OnOk result (HasPrefix (F.told files.old name.now) text.old → HasPrefix (F.told files.old name.now) text.new) }
    ensures end { IfOk result (λ count. count ≡ 0 → EndsAt (F.told files.old name.now) (length text.new)) }
    ensures same { (x : List ℕ) → F.told files.new x ≡ F.told files.old x }
    ensures cause { HasCause (F.faults files.old name.now) (F.faults files.new name.now) (IsErrOf result Trouble.Failed) }
    ensures later { (x : List ℕ) → F.faults files.old x ≤ F.faults files.new x }
    ensures rises { (x : List ℕ) → F.faults files.old x < F.faults files.new x → IsErrOf result Trouble.Failed }
{
    let mut piece = [0u8; PIECE];
    let count = files.read(name, text.len() as u64, &mut piece[..room])?;
    text.append(&piece[..count])?;
    Ok(count)
}

/// Writes all the bytes. After a trouble the sink has taken a prefix of them.
pub fn write_all<K: Sink>(out: &mut K, bytes: &[u8]) -> Result<(), Trouble>
    ensures ok { OnOk result (Appends (K.taken out.old) (K.taken out.new) bytes.now) }
    ensures prefix { OnErr result (AppendsPrefix (K.taken out.old) (K.taken out.new) bytes.now) }
    ensures cause { HasCause (K.faults out.old) (K.faults out.new) (IsErrOf result Trouble.Failed) }
{
    let mut place = 0;
    'pieces: while place < bytes.len() {
        place += out.write(&bytes[place..])?;
    }
    Ok(())
}
