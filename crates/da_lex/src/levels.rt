//! The open levels of lines, the innermost last.

ghost use Rattle.da_values.specs.Tokens as spec;
ghost use Rattle.std.specs.Prelude.{◌≡◌, ◌-◌, ◌++◌, OnOk, length, replicate, reverse};

use da_values::{List, NoMemory, Token};

/// The innermost level, or 0 where there is none.
pub fn top(levels: &[u32]) -> u32
    ensures { result ≡ spec.top (reverse levels.now) }
{
    match levels {
        [.., last] => *last,
        [] => 0,
    }
}

/// Pops the levels that are greater than a new one, and adds a token for each.
pub fn close(
    levels: &mut List<u32>,
    level: u32,
    tokens: &mut List<Token>,
    dedent: Token,
) -> Result<(), NoMemory>
    ensures levels { OnOk result (reverse levels.new ≡ spec.popped level (reverse levels.old)) }
    ensures tokens { OnOk result (tokens.new ≡ tokens.old ++ replicate (length levels.old - length levels.new) dedent) }
{
    while top(levels.as_slice()) > level {
        levels.pop();
        tokens.push(dedent)?;
    }
    Ok(())
}

/// Adds a token a number of times.
#[tactic(auto, using(crate::proofs::LevelLemmas::repeat_more))]
pub fn repeat(tokens: &mut List<Token>, token: Token, count: usize) -> Result<(), NoMemory>
    ensures { OnOk result (tokens.new ≡ tokens.old ++ replicate count token) }
{
    for _ in 0..count {
        tokens.push(token)?;
    }
    Ok(())
}
