//! Patterns, and the functions that tie the rules together.
ghost use Rattle.std.specs.Prelude.{[], ◌∷◌, ◌≡◌, ◌≤◌, ◌<◌, IfOk};
ghost use Rattle.da_phrases.specs.Exprs as spec;
ghost use Rattle.da_phrases.specs.Exprs.{at_depth};
ghost use Rattle.da_phrases.specs.Lists.{closed, separated};
ghost use Rattle.da_phrases.specs.Nests.{Nests};
ghost use Rattle.da_phrases.specs.Reader.{Reads};

use crate::cursor::{Cursor, Stop};
use crate::place::{Level, Rules, opens};
use da_lang::{Expr, PatternTree};
use da_values::{Boxed, List, Mark, copy_bytes};
use std::alloc::Global;

impl<
    F: Fn(Global, &mut Cursor<'_>, usize, Level) -> Result<Expr, Stop>,
    P: Fn(Global, &mut Cursor<'_>, usize) -> Result<PatternTree, Stop>,
> Rules<F, P> {
    /// One or more patterns with commas between, after those found.
    #[tactic(auto, using(crate::proofs::Loops::separated_loop))]
    fn patterns(
        &self,
        tokens: &mut Cursor<'_>,
        mut found: List<PatternTree>,
    ) -> Result<List<PatternTree>, Stop>
        requires nests { Nests self.now.depth (F.pre self.now.expr) (F.post self.now.expr) (P.pre self.now.pattern) (P.post self.now.pattern) }
        requires room { self.now.depth < 32 }
        ensures { Reads (separated Mark.Comma (at_depth self.now.depth).pattern found tokens.old) result tokens.new }
    {
        for _turn in 0..tokens.left() {
            found.push(self.inner_pattern(tokens)?)?;
            if !tokens.eat(Mark::Comma) {
                return Ok(found);
            }
        }
        Err(tokens.refuse())
    }

    /// Patterns after those found, up to `)`.
    #[tactic(auto, unfolding(crate::specs::Lists::closed))]
    fn closed_patterns(
        &self,
        tokens: &mut Cursor<'_>,
        found: List<PatternTree>,
    ) -> Result<List<PatternTree>, Stop>
        requires nests { Nests self.now.depth (F.pre self.now.expr) (F.post self.now.expr) (P.pre self.now.pattern) (P.post self.now.pattern) }
        requires room { self.now.depth < 32 }
        ensures { Reads (closed Mark.CloseParen (at_depth self.now.depth).pattern found tokens.old) result tokens.new }
    {
        if tokens.eat(Mark::CloseParen) {
            return Ok(found);
        }
        let all = self.patterns(tokens, found)?;
        tokens.expect(Mark::CloseParen)?;
        Ok(all)
    }

    /// What stands after `(`: the parts of a tuple.
    #[tactic(auto, unfolding(crate::specs::Exprs::tuple_pattern))]
    fn tuple_pattern(&self, tokens: &mut Cursor<'_>) -> Result<PatternTree, Stop>
        requires nests { Nests self.now.depth (F.pre self.now.expr) (F.post self.now.expr) (P.pre self.now.pattern) (P.post self.now.pattern) }
        requires room { self.now.depth < 32 }
        ensures { Reads (spec.tuple_pattern (at_depth self.now.depth) tokens.old) result tokens.new }
    {
        let mut parts = List::new(self.alloc);
        parts.push(self.inner_pattern(tokens)?)?;
        tokens.expect(Mark::Comma)?;
        Ok(PatternTree::Tuple(self.closed_patterns(tokens, parts)?))
    }

    /// A pattern.
    #[tactic(auto, unfolding(crate::specs::Exprs::pattern))]
    pub fn pattern(&self, tokens: &mut Cursor<'_>) -> Result<PatternTree, Stop>
        requires nests { Nests self.now.depth (F.pre self.now.expr) (F.post self.now.expr) (P.pre self.now.pattern) (P.post self.now.pattern) }
        ensures { Reads (spec.pattern (at_depth self.now.depth) tokens.old) result tokens.new }
    {
        match tokens.mark() {
            Some(Mark::Name) => Ok(PatternTree::Name(copy_bytes(self.alloc, tokens.take())?)),
            Some(Mark::Number) => Ok(PatternTree::Int(tokens.number()? as i128)),
            Some(Mark::Quoted) => Ok(PatternTree::Text(tokens.quoted(self.alloc)?)),
            Some(Mark::OpenParen) => {
                opens(tokens, self.depth)?;
                self.tuple_pattern(tokens)
            }
            Some(Mark::Assign) => {
                tokens.take();
                Ok(PatternTree::Equal(Boxed::new(self.alloc, self.unary(tokens)?)?))
            }
            Some(word) => constant(tokens, word),
            None => Err(tokens.refuse()),
        }
    }
}

/// `_`, a negative integer, a truth value or `self`.
fn constant(tokens: &mut Cursor<'_>, word: Mark) -> Result<PatternTree, Stop>
    ensures { Reads (spec.constant word tokens.old) result tokens.new }
{
    match word {
        Mark::Wild => {
            tokens.take();
            Ok(PatternTree::Wild)
        }
        Mark::Minus => {
            tokens.take();
            Ok(PatternTree::Int(-(tokens.number()? as i128)))
        }
        Mark::True => {
            tokens.take();
            Ok(PatternTree::Truth(true))
        }
        Mark::False => {
            tokens.take();
            Ok(PatternTree::Truth(false))
        }
        Mark::SelfWord => {
            tokens.take();
            Ok(PatternTree::Me)
        }
        _ => Err(tokens.refuse()),
    }
}

/// An expression of this level where `depth` things are open.
#[cycle(exprs)]
#[tactic(auto, using(crate::proofs::Depth::expr_there, crate::proofs::Depth::pattern_there))]
pub fn expr_at(
    alloc: Global,
    tokens: &mut Cursor<'_>,
    depth: usize,
    level: Level,
) -> Result<Expr, Stop>
    requires { depth ≤ 32 }
    ensures { Reads (spec.at_level (at_depth depth) level tokens.old) result tokens.new }
{
    Rules {
        alloc,
        depth,
        expr: expr_at,
        pattern: pattern_at,
    }
    .at_level(tokens, level)
}

/// A pattern where `depth` things are open.
#[cycle(exprs)]
#[tactic(auto, using(crate::proofs::Depth::expr_there, crate::proofs::Depth::pattern_there))]
pub fn pattern_at(alloc: Global, tokens: &mut Cursor<'_>, depth: usize) -> Result<PatternTree, Stop>
    requires { depth ≤ 32 }
    ensures { Reads (spec.pattern (at_depth depth) tokens.old) result tokens.new }
{
    Rules {
        alloc,
        depth,
        expr: expr_at,
        pattern: pattern_at,
    }
    .pattern(tokens)
}
