//! Numbers, and the words that stand between spaces.
ghost use Rattle.sched_text.specs.EventText.{IsNamed};
ghost use Rattle.sched_text.specs.Reading.{Stops};
ghost use Rattle.std.specs.List.{All};
ghost use Rattle.std.specs.Prelude.{◌≡◌, ◌≢◌, ℕ, List, ◌∷◌, ◌++◌, codes, decimal, IfNone, IfSome};

use itoa::Buffer;
use std::str;

/// The numbers that a schedule can name.
const NUMBER_MIN: u32 = 1;

const NUMBER_MAX: u32 = 999_999_999;

/// The bytes up to the first space, and the others.
pub(crate) fn split_word(bytes: &[u8]) -> (&[u8], &[u8])
    ensures split { bytes.now ≡ result.0.now ++ result.1.now }
    ensures word { All (λ byte. byte ≢ 32) result.0.now }
    ensures rest { Stops result.1.now }
{
    let end = bytes
        .iter()
        .position(|byte| *byte == b' ')
        .unwrap_or(bytes.len());
    bytes.split_at(end)
}

/// The number at the front, after a space, and what follows it.
pub(crate) fn split_number(bytes: &[u8]) -> Option<(u32, &[u8])>
    ensures some { IfSome result (λ found. IsNamed found.0 × Stops found.1.now × (bytes.now ≡ codes " " ++ decimal found.0 ++ found.1.now)) }
    ensures none { IfNone result ((n : ℕ) (rest : List ℕ) → IsNamed n → Stops rest → bytes.now ≡ codes " " ++ decimal n ++ rest → ⊥) }
{
    let (digits, rest) = split_word(after_space(bytes)?);
    let number = number_of(digits)?;
    Some((number, rest))
}

/// What follows a space.
pub(crate) fn after_space(bytes: &[u8]) -> Option<&[u8]>
    ensures some { IfSome result (λ rest. bytes.now ≡ 32 ∷ rest.now) }
    ensures none { IfNone result ((rest : List ℕ) → bytes.now ≡ 32 ∷ rest → ⊥) }
{
    match bytes {
        [b' ', rest @ ..] => Some(rest),
        _ => None,
    }
}

// The number whose digits these are.
fn number_of(digits: &[u8]) -> Option<u32>
    ensures some { IfSome result (λ n. IsNamed n × (digits.now ≡ decimal n)) }
    ensures none { IfNone result ((n : ℕ) → IsNamed n → digits.now ≡ decimal n → ⊥) }
{
    let Ok(text) = str::from_utf8(digits) else {
        return None;
    };
    let Ok(number) = text.parse::<u32>() else {
        return None;
    };
    if number < NUMBER_MIN || number > NUMBER_MAX {
        return None;
    }
    let mut buffer = Buffer::new();
    if buffer.format(number).as_bytes() == digits {
        Some(number)
    } else {
        None
    }
}
