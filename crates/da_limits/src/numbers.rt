//! The limits, and numbers that stop at the greatest that fits, which is above each limit.
ghost use Rattle.da_limits.specs.Capped.{capped};
ghost use Rattle.std.specs.Prelude.{◌≡◌};

/// The most classes.
pub const MOST_CLASSES: usize = 32;

/// The most processes.
pub const MOST_PROCESSES: u64 = 64;

/// The most statements of a class, with its calls inlined.
pub const MOST_ITEMS: u16 = 16_384;

/// The most blocks within each other, with the calls inlined.
pub const MOST_BLOCKS: u16 = 64;

/// The most slots of a class, and the most variables of a query.
pub const MOST_VARIABLES: u16 = 1024;

/// The most parts of a tuple.
pub const MOST_PARTS: u16 = 255;

/// The most generators of a query.
pub const MOST_GENERATORS: u16 = 8;

/// A number, or the greatest that fits.
pub fn capped(number: usize) -> u16
    ensures { result ≡ capped number }
{
    if number < 65_535 {
        number as u16
    } else {
        u16::MAX
    }
}
