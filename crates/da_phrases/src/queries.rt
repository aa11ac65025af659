//! Quantifications, comprehensions, and their generators.
ghost use Rattle.std.specs.Prelude.{[], ◌∷◌, ◌≡◌, ◌<◌, IfOk, Some};
ghost use Rattle.da_phrases.specs.Exprs as spec;
ghost use Rattle.da_phrases.specs.Exprs.{at_depth};
ghost use Rattle.da_phrases.specs.Nests.{Nests};
ghost use Rattle.da_phrases.specs.Reader.{Reads};

use crate::cursor::{Cursor, Stop};
use crate::place::{Level, Rules, opens};
use da_lang::{Expr, GenTree, PatternTree, PeerTree, SourceTree};
use da_values::{Boxed, List, Mark, copy_bytes};
use std::alloc::Global;

/// Whether a token is `each`, where it is that or `some`.
pub fn quantifier(mark: Option<Mark>) -> Option<bool>
    ensures { result ≡ spec.quantifier mark }
{
    match mark {
        Some(Mark::Some) => Some(false),
        Some(Mark::Each) => Some(true),
        _ => None,
    }
}

/// `in`, and `received`, `sent`, or a name.
#[tactic(auto, unfolding(crate::specs::Exprs::source))]
fn source(alloc: Global, tokens: &mut Cursor<'_>) -> Result<SourceTree, Stop>
    ensures { Reads (spec.source tokens.old) result tokens.new }
{
    tokens.expect(Mark::In)?;
    match tokens.mark() {
        Some(Mark::Received) => {
            tokens.take();
            Ok(SourceTree::Received)
        }
        Some(Mark::Sent) => {
            tokens.take();
            Ok(SourceTree::Sent)
        }
        Some(Mark::Name) => Ok(SourceTree::Name(copy_bytes(alloc, tokens.take())?)),
        _ => Err(tokens.refuse()),
    }
}

/// What stands after both patterns of a generator. (Patterns that are not kept are dropped by calls: where they are left to the
/// end of a way out, the check goes through the parts of each form of pattern there.)
fn with_source(
    alloc: Global,
    tokens: &mut Cursor<'_>,
    message: PatternTree,
    peer: PeerTree,
) -> Result<GenTree, Stop>
    ensures { Reads (spec.with_source message (Some peer) tokens.old) result tokens.new }
{
    match source(alloc, tokens) {
        Ok(source) => Ok(GenTree {
            message,
            peer: Some(peer),
            source,
        }),
        Err(stop) => {
            drop(message);
            drop(peer);
            Err(stop)
        }
    }
}

impl<
    F: Fn(Global, &mut Cursor<'_>, usize, Level) -> Result<Expr, Stop>,
    P: Fn(Global, &mut Cursor<'_>, usize) -> Result<PatternTree, Stop>,
> Rules<F, P> {
    /// A generator.
    #[tactic(auto, unfolding(crate::specs::Exprs::generator))]
    fn generator(&self, tokens: &mut Cursor<'_>) -> Result<GenTree, Stop>
        requires nests { Nests self.now.depth (F.pre self.now.expr) (F.post self.now.expr) (P.pre self.now.pattern) (P.post self.now.pattern) }
        requires room { self.now.depth < 32 }
        ensures { Reads (spec.generator (at_depth self.now.depth) tokens.old) result tokens.new }
    {
        let message = self.inner_pattern(tokens)?;
        if tokens.eat(Mark::From) {
            return self.generator_from(tokens, message);
        }
        if tokens.eat(Mark::To) {
            return self.generator_to(tokens, message);
        }
        match source(self.alloc, tokens) {
            Ok(source) => Ok(GenTree {
                message,
                peer: None,
                source,
            }),
            Err(stop) => {
                drop(message);
                Err(stop)
            }
        }
    }

    /// What stands after `PATTERN from`.
    #[tactic(auto, unfolding(crate::specs::Exprs::generator_with))]
    fn generator_from(&self, tokens: &mut Cursor<'_>, message: PatternTree) -> Result<GenTree, Stop>
        requires nests { Nests self.now.depth (F.pre self.now.expr) (F.post self.now.expr) (P.pre self.now.pattern) (P.post self.now.pattern) }
        requires room { self.now.depth < 32 }
        ensures { Reads (spec.generator_with (at_depth self.now.depth) message PeerTree.From tokens.old) result tokens.new }
    {
        match self.inner_pattern(tokens) {
            Ok(peer) => with_source(self.alloc, tokens, message, PeerTree::From(peer)),
            Err(stop) => {
                drop(message);
                Err(stop)
            }
        }
    }

    /// What stands after `PATTERN to`.
    #[tactic(auto, unfolding(crate::specs::Exprs::generator_with))]
    fn generator_to(&self, tokens: &mut Cursor<'_>, message: PatternTree) -> Result<GenTree, Stop>
        requires nests { Nests self.now.depth (F.pre self.now.expr) (F.post self.now.expr) (P.pre self.now.pattern) (P.post self.now.pattern) }
        requires room { self.now.depth < 32 }
        ensures { Reads (spec.generator_with (at_depth self.now.depth) message PeerTree.To tokens.old) result tokens.new }
    {
        match self.inner_pattern(tokens) {
            Ok(peer) => with_source(self.alloc, tokens, message, PeerTree::To(peer)),
            Err(stop) => {
                drop(message);
                Err(stop)
            }
        }
    }

    /// Generators with commas between.
    #[tactic(auto, unfolding(crate::specs::Exprs::generators), using(crate::proofs::Loops::separated_loop))]
    fn generators(&self, tokens: &mut Cursor<'_>) -> Result<List<GenTree>, Stop>
        requires nests { Nests self.now.depth (F.pre self.now.expr) (F.post self.now.expr) (P.pre self.now.pattern) (P.post self.now.pattern) }
        requires room { self.now.depth < 32 }
        ensures { Reads (spec.generators (at_depth self.now.depth) tokens.old) result tokens.new }
    {
        let mut found = List::new(self.alloc);
        for _turn in 0..tokens.left() {
            found.push(self.generator(tokens)?)?;
            if !tokens.eat(Mark::Comma) {
                return Ok(found);
            }
        }
        Err(tokens.refuse())
    }

    /// `| EXPR`, `has EXPR`, or nothing.
    #[tactic(auto, unfolding(crate::specs::Exprs::condition))]
    fn condition(&self, tokens: &mut Cursor<'_>) -> Result<Option<Boxed<Expr>>, Stop>
        requires nests { Nests self.now.depth (F.pre self.now.expr) (F.post self.now.expr) (P.pre self.now.pattern) (P.post self.now.pattern) }
        requires room { self.now.depth < 32 }
        ensures { Reads (spec.condition (at_depth self.now.depth) tokens.old) result tokens.new }
    {
        if tokens.eat(Mark::Bar) || tokens.eat(Mark::Has) {
            let condition = self.inner(tokens, Level::Expr)?;
            return Ok(Some(Boxed::new(self.alloc, condition)?));
        }
        Ok(None)
    }

    /// What stands after `{TERM:`.
    #[tactic(auto, unfolding(crate::specs::Exprs::comprehension))]
    pub fn comprehension(&self, tokens: &mut Cursor<'_>, term: Expr) -> Result<Expr, Stop>
        requires nests { Nests self.now.depth (F.pre self.now.expr) (F.post self.now.expr) (P.pre self.now.pattern) (P.post self.now.pattern) }
        requires room { self.now.depth < 32 }
        ensures { Reads (spec.comprehension (at_depth self.now.depth) term tokens.old) result tokens.new }
    {
        let term = Boxed::new(self.alloc, term)?;
        let gens = self.generators(tokens)?;
        let cond = self.condition(tokens)?;
        tokens.expect(Mark::CloseBrace)?;
        Ok(Expr::Comp { term, gens, cond })
    }

    /// `some` or `each`, which is the next token, with generators and a condition.
    #[tactic(auto, unfolding(crate::specs::Exprs::quantification))]
    pub fn quantification(&self, tokens: &mut Cursor<'_>, each: bool) -> Result<Expr, Stop>
        requires nests { Nests self.now.depth (F.pre self.now.expr) (F.post self.now.expr) (P.pre self.now.pattern) (P.post self.now.pattern) }
        ensures { Reads (spec.quantification (at_depth self.now.depth) each tokens.old) result tokens.new }
    {
        opens(tokens, self.depth)?;
        let gens = self.generators(tokens)?;
        let cond = self.condition(tokens)?;
        Ok(Expr::Quant { each, gens, cond })
    }
}
