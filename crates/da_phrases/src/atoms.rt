//! Literals, names, calls of the language's own functions, and what stands in brackets.
ghost use Rattle.std.specs.Prelude.{[], ◌∷◌, ◌≡◌, ◌<◌, IfOk};
ghost use Rattle.da_phrases.specs.Exprs as spec;
ghost use Rattle.da_phrases.specs.Exprs.{at_depth};
ghost use Rattle.da_phrases.specs.Lists.{closed, separated};
ghost use Rattle.da_phrases.specs.Nests.{Nests};
ghost use Rattle.da_phrases.specs.Reader.{Reads};

use crate::cursor::{Cursor, Stop};
use crate::place::{Level, Rules, opening, opens};
use crate::queries::quantifier;
use da_lang::{Expr, PatternTree};
use da_values::{Boxed, List, Mark, copy_bytes};
use std::alloc::Global;

/// Passes the `)` after an expression, and gives that. (Where no `)` stands there, a call drops it: where it is left to the end
/// of a way out, the check goes through the parts of each form of expression there.)
fn before_paren(tokens: &mut Cursor<'_>, x: Expr) -> Result<Expr, Stop>
    ensures { Reads (spec.before_paren x tokens.old) result tokens.new }
{
    match tokens.expect(Mark::CloseParen) {
        Ok(()) => Ok(x),
        Err(stop) => {
            drop(x);
            Err(stop)
        }
    }
}

impl<
    F: Fn(Global, &mut Cursor<'_>, usize, Level) -> Result<Expr, Stop>,
    P: Fn(Global, &mut Cursor<'_>, usize) -> Result<PatternTree, Stop>,
> Rules<F, P> {
    /// `()`, which opens one thing and closes it.
    #[tactic(auto, unfolding(crate::specs::Exprs::no_argument))]
    fn no_argument(&self, tokens: &mut Cursor<'_>) -> Result<(), Stop>
        ensures { Reads (spec.no_argument (at_depth self.now.depth) tokens.old) result tokens.new }
    {
        opening(tokens, Mark::OpenParen, self.depth)?;
        tokens.expect(Mark::CloseParen)
    }

    /// `(EXPR,`
    #[tactic(auto, unfolding(crate::specs::Exprs::first_argument))]
    fn first_argument(&self, tokens: &mut Cursor<'_>) -> Result<Boxed<Expr>, Stop>
        requires nests { Nests self.now.depth (F.pre self.now.expr) (F.post self.now.expr) (P.pre self.now.pattern) (P.post self.now.pattern) }
        ensures reads { Reads (spec.first_argument (at_depth self.now.depth) tokens.old) result tokens.new }
        ensures room { IfOk result (λ _. self.now.depth < 32) }
    {
        opening(tokens, Mark::OpenParen, self.depth)?;
        let argument = Boxed::new(self.alloc, self.inner(tokens, Level::Disj)?)?;
        tokens.expect(Mark::Comma)?;
        Ok(argument)
    }

    /// `EXPR)`
    #[tactic(auto, unfolding(crate::specs::Exprs::last_argument))]
    fn last_argument(&self, tokens: &mut Cursor<'_>) -> Result<Boxed<Expr>, Stop>
        requires nests { Nests self.now.depth (F.pre self.now.expr) (F.post self.now.expr) (P.pre self.now.pattern) (P.post self.now.pattern) }
        requires room { self.now.depth < 32 }
        ensures { Reads (spec.last_argument (at_depth self.now.depth) tokens.old) result tokens.new }
    {
        let argument = Boxed::new(self.alloc, self.inner(tokens, Level::Disj)?)?;
        tokens.expect(Mark::CloseParen)?;
        Ok(argument)
    }

    /// `(EXPR)`
    #[tactic(auto, unfolding(crate::specs::Exprs::one_argument))]
    fn one_argument(&self, tokens: &mut Cursor<'_>) -> Result<Boxed<Expr>, Stop>
        requires nests { Nests self.now.depth (F.pre self.now.expr) (F.post self.now.expr) (P.pre self.now.pattern) (P.post self.now.pattern) }
        ensures { Reads (spec.one_argument (at_depth self.now.depth) tokens.old) result tokens.new }
    {
        opening(tokens, Mark::OpenParen, self.depth)?;
        self.last_argument(tokens)
    }

    /// One or more expressions with commas between, after those found.
    #[tactic(auto, using(crate::proofs::Loops::separated_loop))]
    fn exprs(&self, tokens: &mut Cursor<'_>, mut found: List<Expr>) -> Result<List<Expr>, Stop>
        requires nests { Nests self.now.depth (F.pre self.now.expr) (F.post self.now.expr) (P.pre self.now.pattern) (P.post self.now.pattern) }
        requires room { self.now.depth < 32 }
        ensures { Reads (separated Mark.Comma ((at_depth self.now.depth).expr Level.Disj) found tokens.old) result tokens.new }
    {
        for _turn in 0..tokens.left() {
            found.push(self.inner(tokens, Level::Disj)?)?;
            if !tokens.eat(Mark::Comma) {
                return Ok(found);
            }
        }
        Err(tokens.refuse())
    }

    /// Expressions after those found, up to `)`.
    #[tactic(auto, unfolding(crate::specs::Lists::closed))]
    pub fn closed_exprs(
        &self,
        tokens: &mut Cursor<'_>,
        found: List<Expr>,
    ) -> Result<List<Expr>, Stop>
        requires nests { Nests self.now.depth (F.pre self.now.expr) (F.post self.now.expr) (P.pre self.now.pattern) (P.post self.now.pattern) }
        requires room { self.now.depth < 32 }
        ensures { Reads (closed Mark.CloseParen ((at_depth self.now.depth).expr Level.Disj) found tokens.old) result tokens.new }
    {
        if tokens.eat(Mark::CloseParen) {
            return Ok(found);
        }
        let all = self.exprs(tokens, found)?;
        tokens.expect(Mark::CloseParen)?;
        Ok(all)
    }

    /// What stands after `(`: an expression that is grouped, or a tuple.
    #[tactic(auto, unfolding(crate::specs::Exprs::grouped))]
    fn grouped(&self, tokens: &mut Cursor<'_>) -> Result<Expr, Stop>
        requires nests { Nests self.now.depth (F.pre self.now.expr) (F.post self.now.expr) (P.pre self.now.pattern) (P.post self.now.pattern) }
        requires room { self.now.depth < 32 }
        ensures { Reads (spec.grouped (at_depth self.now.depth) tokens.old) result tokens.new }
    {
        if quantifier(tokens.mark()).is_some() {
            let grouped = self.inner(tokens, Level::Expr)?;
            return before_paren(tokens, grouped);
        }
        let first = self.inner(tokens, Level::Disj)?;
        if tokens.eat(Mark::Comma) {
            let mut parts = List::new(self.alloc);
            parts.push(first)?;
            return Ok(Expr::Tuple(self.closed_exprs(tokens, parts)?));
        }
        before_paren(tokens, first)
    }

    /// What stands after `{`: the elements of a set, or a comprehension.
    #[tactic(auto, unfolding(crate::specs::Exprs::braced))]
    fn braced(&self, tokens: &mut Cursor<'_>) -> Result<Expr, Stop>
        requires nests { Nests self.now.depth (F.pre self.now.expr) (F.post self.now.expr) (P.pre self.now.pattern) (P.post self.now.pattern) }
        requires room { self.now.depth < 32 }
        ensures { Reads (spec.braced (at_depth self.now.depth) tokens.old) result tokens.new }
    {
        let mut elements = List::new(self.alloc);
        if tokens.eat(Mark::CloseBrace) {
            return Ok(Expr::SetOf(elements));
        }
        let first = self.inner(tokens, Level::Disj)?;
        if tokens.eat(Mark::Colon) {
            return self.comprehension(tokens, first);
        }
        elements.push(first)?;
        if tokens.eat(Mark::Comma) {
            elements = self.exprs(tokens, elements)?;
        }
        tokens.expect(Mark::CloseBrace)?;
        Ok(Expr::SetOf(elements))
    }

    /// An expression without signs outside brackets.
    #[tactic(auto, unfolding(crate::specs::Exprs::atom))]
    pub fn atom(&self, tokens: &mut Cursor<'_>) -> Result<Expr, Stop>
        requires nests { Nests self.now.depth (F.pre self.now.expr) (F.post self.now.expr) (P.pre self.now.pattern) (P.post self.now.pattern) }
        ensures { Reads (spec.atom (at_depth self.now.depth) tokens.old) result tokens.new }
    {
        match tokens.mark() {
            Some(Mark::Number) => Ok(Expr::Int(tokens.number()? as i128)),
            Some(Mark::Quoted) => Ok(Expr::Text(tokens.quoted(self.alloc)?)),
            Some(Mark::Name) => Ok(Expr::Name(copy_bytes(self.alloc, tokens.take())?)),
            Some(Mark::OpenParen) => {
                opens(tokens, self.depth)?;
                self.grouped(tokens)
            }
            Some(Mark::OpenBrace) => {
                opens(tokens, self.depth)?;
                self.braced(tokens)
            }
            Some(word) => self.word(tokens, word),
            None => Err(tokens.refuse()),
        }
    }

    /// What begins with a reserved word.
    #[tactic(auto, unfolding(crate::specs::Exprs::two_arguments))]
    fn word(&self, tokens: &mut Cursor<'_>, word: Mark) -> Result<Expr, Stop>
        requires nests { Nests self.now.depth (F.pre self.now.expr) (F.post self.now.expr) (P.pre self.now.pattern) (P.post self.now.pattern) }
        ensures { Reads (spec.word (at_depth self.now.depth) word tokens.old) result tokens.new }
    {
        match word {
            Mark::True => {
                tokens.take();
                Ok(Expr::Truth(true))
            }
            Mark::False => {
                tokens.take();
                Ok(Expr::Truth(false))
            }
            Mark::SelfWord => {
                tokens.take();
                Ok(Expr::Me)
            }
            Mark::LogicalTime => {
                tokens.take();
                self.no_argument(tokens)?;
                Ok(Expr::Clock)
            }
            Mark::Range => {
                tokens.take();
                let first = self.first_argument(tokens)?;
                Ok(Expr::Range(first, self.last_argument(tokens)?))
            }
            Mark::Count => {
                tokens.take();
                Ok(Expr::Count(self.one_argument(tokens)?))
            }
            Mark::Sum => {
                tokens.take();
                Ok(Expr::Sum(self.one_argument(tokens)?))
            }
            Mark::Min => {
                tokens.take();
                let first = self.first_argument(tokens)?;
                Ok(Expr::Min(first, self.last_argument(tokens)?))
            }
            Mark::Max => {
                tokens.take();
                let first = self.first_argument(tokens)?;
                Ok(Expr::Max(first, self.last_argument(tokens)?))
            }
            _ => Err(tokens.refuse()),
        }
    }
}
