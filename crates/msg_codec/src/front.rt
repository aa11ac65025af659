//! What stands at the front of some bytes: the head of a packet, and numbers, their greatest byte first.
ghost use Rattle.msg_codec.specs.Packets.{mark};
ghost use Rattle.msg_codec.specs.Pieces.{IsHead};
ghost use Rattle.std.specs.Int.{w16, w32, w64, to_be_bytes};
ghost use Rattle.std.specs.Prelude.{◌≡◌, ℕ, [], ◌∷◌, ◌++◌, List, MatchOption};

// The bytes that each packet begins with.
const MARK: &[u8] = b"DA\x01";

// Times lie below 2^63.
const CLOCK_BOUND: u64 = 0x8000_0000_0000_0000;

// The sender, the time and what follows them, or nothing exactly where no packet begins so.
pub(crate) fn head_at(bytes: &[u8]) -> Option<(u16, u64, &[u8])>
    ensures { MatchOption result
        ((sender clock : ℕ) (rest : List ℕ) → IsHead sender clock bytes.now rest → ⊥)
        (λ found. IsHead found.0 found.1 bytes.now found.2.now) }
{
    let rest = after_mark(bytes)?;
    let (sender, rest) = short_at(rest)?;
    let (clock, rest) = long_at(rest)?;
    if clock >= CLOCK_BOUND {
        return None;
    }
    Some((sender, clock, rest))
}

// What follows the mark of a packet, or nothing exactly where the bytes begin otherwise.
pub(crate) fn after_mark(bytes: &[u8]) -> Option<&[u8]>
    ensures { MatchOption result
        ((rest : List ℕ) → bytes.now ≡ mark ++ rest → ⊥)
        (λ rest. bytes.now ≡ mark ++ rest.now) }
{
    bytes.strip_prefix(MARK)
}

// The first byte and what follows it, or nothing exactly where there is none.
pub(crate) fn byte_at(bytes: &[u8]) -> Option<(u8, &[u8])>
    ensures { MatchOption result (bytes.now ≡ []) (λ found. bytes.now ≡ found.0 ∷ found.1.now) }
{
    let (first, rest) = bytes.split_first()?;
    Some((*first, rest))
}

// A number of two bytes and what follows it, or nothing exactly where there are fewer bytes.
pub(crate) fn short_at(bytes: &[u8]) -> Option<(u16, &[u8])>
    ensures { MatchOption result
        ((number : ℕ) (rest : List ℕ) → bytes.now ≡ to_be_bytes w16 number ++ rest → ⊥)
        (λ found. bytes.now ≡ to_be_bytes w16 found.0 ++ found.1.now) }
{
    let (digits, rest) = bytes.split_first_chunk::<2>()?;
    Some((u16::from_be_bytes(*digits), rest))
}

// A number of four bytes and what follows it, or nothing exactly where there are fewer bytes.
pub(crate) fn word_at(bytes: &[u8]) -> Option<(u32, &[u8])>
    ensures { MatchOption result
        ((number : ℕ) (rest : List ℕ) → bytes.now ≡ to_be_bytes w32 number ++ rest → ⊥)
        (λ found. bytes.now ≡ to_be_bytes w32 found.0 ++ found.1.now) }
{
    let (digits, rest) = bytes.split_first_chunk::<4>()?;
    Some((u32::from_be_bytes(*digits), rest))
}

// A number of eight bytes and what follows it, or nothing exactly where there are fewer bytes.
pub(crate) fn long_at(bytes: &[u8]) -> Option<(u64, &[u8])>
    ensures { MatchOption result
        ((number : ℕ) (rest : List ℕ) → bytes.now ≡ to_be_bytes w64 number ++ rest → ⊥)
        (λ found. bytes.now ≡ to_be_bytes w64 found.0 ++ found.1.now) }
{
    let (digits, rest) = bytes.split_first_chunk::<8>()?;
    Some((u64::from_be_bytes(*digits), rest))
}
