//! The numbers by which the events of a generated schedule are picked.
ghost use Rattle.da_system.specs.StressRun.{next_number as next_def, place_in as place_def};
ghost use Rattle.std.specs.Prelude.{◌≡◌, ◌<◌};

const FACTOR: u128 = 25_214_903_917;

const SUMMAND: u128 = 11;

const MODULUS: u128 = 281_474_976_710_656;

/// The number that comes after `x`, which is any number. It is less than 2^48.
pub fn next_number(x: u64) -> u64
    ensures { result ≡ next_def x }
{
    ((FACTOR * u128::from(x) + SUMMAND) % MODULUS) as u64
}

/// The place, counted from 0, that a number picks in a list of so many members.
pub fn place_in(count: usize, x: u64) -> usize
    requires { 0 < count }
    ensures place { result ≡ place_def count x }
    ensures within { result < count }
{
    (x / 65_536) as usize % count
}
