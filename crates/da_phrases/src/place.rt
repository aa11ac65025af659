//! Where a rule stands, and what it does with the tokens that open things.
ghost use Rattle.std.specs.Prelude.{◌≡◌, ◌+◌, ◌<◌, IfOk};
ghost use Rattle.da_phrases.specs.Exprs.{at_depth};
ghost use Rattle.da_phrases.specs.Nests.{Nests};
ghost use Rattle.da_phrases.specs.Place as spec;
ghost use Rattle.da_phrases.specs.Reader.{Reads};

use crate::cursor::{Cursor, Stop};
use da_lang::{Expr, PatternTree};
use da_values::Mark;
use std::alloc::Global;

/// How many things may be open at once.
pub const MAX_NESTING: usize = 32;

/// The levels of expressions, the loosest first.
#[derive(Clone, Copy)]
pub enum Level {
    /// A quantification, or what `Disj` has.
    Expr,
    /// Operands with `or` between.
    Disj,
    /// `not`, or a comparison.
    Neg,
    /// `-`, or what has no sign outside brackets.
    Unary,
}

/// The rules where `depth` things are open, with the functions that read what is one deeper.
#[derive(Clone, Copy)]
pub struct Rules<F, P> {
    pub alloc: Global,
    pub depth: usize,
    pub expr: F,
    pub pattern: P,
}

/// Passes a token that opens one thing more.
#[tactic(auto, unfolding(crate::specs::Place::opens), using(crate::proofs::Depth::room_there))]
pub fn opens(tokens: &mut Cursor<'_>, depth: usize) -> Result<(), Stop>
    ensures reads { Reads (spec.opens (at_depth depth).may_open tokens.old) result tokens.new }
    ensures room { IfOk result (λ _. depth < 32) }
{
    if depth >= MAX_NESTING {
        return Err(Stop::Deep(tokens.left()));
    }
    tokens.take();
    Ok(())
}

/// Passes a token that must have this mark, and opens one thing more.
#[tactic(auto, unfolding(crate::specs::Place::opening))]
pub fn opening(tokens: &mut Cursor<'_>, mark: Mark, depth: usize) -> Result<(), Stop>
    ensures reads { Reads (spec.opening (at_depth depth).may_open mark tokens.old) result tokens.new }
    ensures room { IfOk result (λ _. depth < 32) }
{
    if !tokens.sees(mark) {
        return Err(tokens.refuse());
    }
    opens(tokens, depth)
}

impl<
    F: Fn(Global, &mut Cursor<'_>, usize, Level) -> Result<Expr, Stop>,
    P: Fn(Global, &mut Cursor<'_>, usize) -> Result<PatternTree, Stop>,
> Rules<F, P> {
    /// An expression of this level, one deeper.
    pub fn inner(&self, tokens: &mut Cursor<'_>, level: Level) -> Result<Expr, Stop>
        requires nests { Nests self.now.depth (F.pre self.now.expr) (F.post self.now.expr) (P.pre self.now.pattern) (P.post self.now.pattern) }
        requires room { self.now.depth < 32 }
        ensures { Reads ((at_depth self.now.depth).expr level tokens.old) result tokens.new }
    {
        (self.expr)(self.alloc, tokens, self.depth + 1, level)
    }

    /// A pattern, one deeper.
    pub fn inner_pattern(&self, tokens: &mut Cursor<'_>) -> Result<PatternTree, Stop>
        requires nests { Nests self.now.depth (F.pre self.now.expr) (F.post self.now.expr) (P.pre self.now.pattern) (P.post self.now.pattern) }
        requires room { self.now.depth < 32 }
        ensures { Reads ((at_depth self.now.depth).pattern tokens.old) result tokens.new }
    {
        (self.pattern)(self.alloc, tokens, self.depth + 1)
    }
}
