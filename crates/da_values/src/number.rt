//! Numbers in decimal.
ghost use Rattle.da_values.specs.Piece as spec;
ghost use Rattle.std.specs.Prelude.{◌≡◌, ◌++◌, OnErr, OnOk};

use crate::list::{Buf, NoMemory};
use itoa::{Buffer, Integer};

/// The greatest integer that a program can write.
pub const NUMBER_MAX: u64 = 9223372036854775807;

/// The number that bytes write, or `None` exactly where one is no decimal digit or the number is greater than
/// `NUMBER_MAX`.
#[tactic(auto, unfolding(crate::specs::Piece::number_of))]
pub fn read_number(mut digits: &[u8]) -> Option<u64>
    ensures { result ≡ spec.number_of digits.entry.now }
{
    let mut number = 0u64;
    while let [digit, rest @ ..] = digits {
        if !digit.is_ascii_digit() {
            return None;
        }
        let more = u128::from(number) * 10 + u128::from(*digit - b'0');
        if more > u128::from(NUMBER_MAX) {
            return None;
        }
        number = more as u64;
        digits = rest;
    }
    Some(number)
}

/// Appends a number in decimal, with its sign. Where memory is refused `out` is as it was.
pub fn write_number<N: Integer>(number: N, out: &mut Buf) -> Result<(), NoMemory>
    ensures ok { OnOk result (out.new ≡ out.old ++ N.text number) }
    ensures err { OnErr result (out.new ≡ out.old) }
{
    let mut digits = Buffer::new();
    out.append(digits.format(number).as_bytes())
}
