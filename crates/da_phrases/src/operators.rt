//! Operators, from the tightest to the loosest.
ghost use Rattle.std.specs.Prelude.{[], ◌∷◌, ◌≡◌, ◌≤◌, ◌<◌, IfOk};
ghost use Rattle.da_lang.specs.ExprGrammar.{negated};
ghost use Rattle.da_phrases.specs.Exprs as spec;
ghost use Rattle.da_phrases.specs.Exprs.{at_depth};
ghost use Rattle.da_phrases.specs.Lists.{others, separated};
ghost use Rattle.da_phrases.specs.Nests.{Nests};
ghost use Rattle.da_phrases.specs.Reader.{Reads};

use crate::cursor::{Cursor, Stop};
use crate::place::{Level, Rules, opens};
use crate::queries::quantifier;
use da_lang::{ArithOp, ChainTree, CmpOp, Expr, PatternTree};
use da_values::{Boxed, List, Mark, NoMemory};
use std::alloc::Global;

/// The sign of a product.
fn times_op(mark: Option<Mark>) -> Option<ArithOp>
    ensures { result ≡ spec.times_op mark }
{
    match mark {
        Some(Mark::Star) => Some(ArithOp::Times),
        Some(Mark::Slashes) => Some(ArithOp::Div),
        Some(Mark::Percent) => Some(ArithOp::Mod),
        _ => None,
    }
}

/// The sign of a sum.
fn plus_op(mark: Option<Mark>) -> Option<ArithOp>
    ensures { result ≡ spec.plus_op mark }
{
    match mark {
        Some(Mark::Plus) => Some(ArithOp::Plus),
        Some(Mark::Minus) => Some(ArithOp::Minus),
        _ => None,
    }
}

/// The sign of a comparison.
fn cmp_op(mark: Option<Mark>) -> Option<CmpOp>
    ensures { result ≡ spec.cmp_op_at mark }
{
    match mark {
        Some(Mark::Equal) => Some(CmpOp::Eq),
        Some(Mark::NotEqual) => Some(CmpOp::Ne),
        Some(Mark::Less) => Some(CmpOp::Lt),
        Some(Mark::LessEqual) => Some(CmpOp::Le),
        Some(Mark::Greater) => Some(CmpOp::Gt),
        Some(Mark::GreaterEqual) => Some(CmpOp::Ge),
        _ => None,
    }
}

/// An operand with the further ones of its chain.
fn chained(alloc: Global, first: Expr, others: List<ChainTree>) -> Result<Expr, NoMemory>
    ensures { IfOk result (λ x. x ≡ spec.chained first others) }
{
    if others.len() == 0 {
        return Ok(first);
    }
    Ok(Expr::Chain(Boxed::new(alloc, first)?, others))
}

/// An expression taken from 0.
fn negated(alloc: Global, operand: Expr) -> Result<Expr, NoMemory>
    ensures { IfOk result (λ x. x ≡ negated operand) }
{
    let mut others = List::new(alloc);
    let operand = Boxed::new(alloc, operand)?;
    others.push(ChainTree {
        op: ArithOp::Minus,
        operand,
    })?;
    chained(alloc, Expr::Int(0), others)
}

impl<
    F: Fn(Global, &mut Cursor<'_>, usize, Level) -> Result<Expr, Stop>,
    P: Fn(Global, &mut Cursor<'_>, usize) -> Result<PatternTree, Stop>,
> Rules<F, P> {
    /// What stands after a `-`: a literal, or an operand that is taken from 0.
    #[tactic(auto, unfolding(crate::specs::Exprs::after_minus))]
    fn after_minus(&self, tokens: &mut Cursor<'_>) -> Result<Expr, Stop>
        requires nests { Nests self.now.depth (F.pre self.now.expr) (F.post self.now.expr) (P.pre self.now.pattern) (P.post self.now.pattern) }
        requires room { self.now.depth < 32 }
        ensures { Reads (spec.after_minus (at_depth self.now.depth) tokens.old) result tokens.new }
    {
        if tokens.sees(Mark::Number) {
            return Ok(Expr::Int(-(tokens.number()? as i128)));
        }
        let operand = self.inner(tokens, Level::Unary)?;
        Ok(negated(self.alloc, operand)?)
    }

    /// An operand with its `-`.
    #[tactic(auto, unfolding(crate::specs::Exprs::unary))]
    pub fn unary(&self, tokens: &mut Cursor<'_>) -> Result<Expr, Stop>
        requires nests { Nests self.now.depth (F.pre self.now.expr) (F.post self.now.expr) (P.pre self.now.pattern) (P.post self.now.pattern) }
        ensures { Reads (spec.unary (at_depth self.now.depth) tokens.old) result tokens.new }
    {
        if !tokens.sees(Mark::Minus) {
            return self.atom(tokens);
        }
        opens(tokens, self.depth)?;
        self.after_minus(tokens)
    }

    /// Further operands of a product.
    #[tactic(auto, using(crate::proofs::Loops::others_loop))]
    fn factors(&self, tokens: &mut Cursor<'_>) -> Result<List<ChainTree>, Stop>
        requires nests { Nests self.now.depth (F.pre self.now.expr) (F.post self.now.expr) (P.pre self.now.pattern) (P.post self.now.pattern) }
        ensures { Reads (others spec.times_op (spec.unary (at_depth self.now.depth)) tokens.old) result tokens.new }
    {
        let mut found = List::new(self.alloc);
        for _turn in 0..tokens.left() {
            let Some(op) = times_op(tokens.mark()) else {
                return Ok(found);
            };
            tokens.take();
            let operand = Boxed::new(self.alloc, self.unary(tokens)?)?;
            found.push(ChainTree { op, operand })?;
        }
        Ok(found)
    }

    /// A product. (An operand that is not kept is dropped by a call: where it is left to the end of a way out, the check goes
    /// through the parts of each form of expression there.)
    #[tactic(auto, unfolding(crate::specs::Exprs::product))]
    fn product(&self, tokens: &mut Cursor<'_>) -> Result<Expr, Stop>
        requires nests { Nests self.now.depth (F.pre self.now.expr) (F.post self.now.expr) (P.pre self.now.pattern) (P.post self.now.pattern) }
        ensures { Reads (spec.product (at_depth self.now.depth) tokens.old) result tokens.new }
    {
        let first = self.unary(tokens)?;
        match self.factors(tokens) {
            Ok(others) => Ok(chained(self.alloc, first, others)?),
            Err(stop) => {
                drop(first);
                Err(stop)
            }
        }
    }

    /// Further operands of a sum.
    #[tactic(auto, using(crate::proofs::Loops::others_loop))]
    fn summands(&self, tokens: &mut Cursor<'_>) -> Result<List<ChainTree>, Stop>
        requires nests { Nests self.now.depth (F.pre self.now.expr) (F.post self.now.expr) (P.pre self.now.pattern) (P.post self.now.pattern) }
        ensures { Reads (others spec.plus_op (spec.product (at_depth self.now.depth)) tokens.old) result tokens.new }
    {
        let mut found = List::new(self.alloc);
        for _turn in 0..tokens.left() {
            let Some(op) = plus_op(tokens.mark()) else {
                return Ok(found);
            };
            tokens.take();
            let operand = Boxed::new(self.alloc, self.product(tokens)?)?;
            found.push(ChainTree { op, operand })?;
        }
        Ok(found)
    }

    /// A sum.
    #[tactic(auto, unfolding(crate::specs::Exprs::sum))]
    fn sum(&self, tokens: &mut Cursor<'_>) -> Result<Expr, Stop>
        requires nests { Nests self.now.depth (F.pre self.now.expr) (F.post self.now.expr) (P.pre self.now.pattern) (P.post self.now.pattern) }
        ensures { Reads (spec.sum (at_depth self.now.depth) tokens.old) result tokens.new }
    {
        let first = self.product(tokens)?;
        match self.summands(tokens) {
            Ok(others) => Ok(chained(self.alloc, first, others)?),
            Err(stop) => {
                drop(first);
                Err(stop)
            }
        }
    }

    /// What stands after `in`: the right operand.
    fn member_of(&self, tokens: &mut Cursor<'_>, left: Expr) -> Result<Expr, Stop>
        requires nests { Nests self.now.depth (F.pre self.now.expr) (F.post self.now.expr) (P.pre self.now.pattern) (P.post self.now.pattern) }
        ensures { Reads (spec.member_of (at_depth self.now.depth) left tokens.old) result tokens.new }
    {
        let left = Boxed::new(self.alloc, left)?;
        let right = Boxed::new(self.alloc, self.sum(tokens)?)?;
        Ok(Expr::Member(left, right))
    }

    /// What stands after the sign of a comparison: the right operand.
    fn compared_to(&self, tokens: &mut Cursor<'_>, op: CmpOp, left: Expr) -> Result<Expr, Stop>
        requires nests { Nests self.now.depth (F.pre self.now.expr) (F.post self.now.expr) (P.pre self.now.pattern) (P.post self.now.pattern) }
        ensures { Reads (spec.compared_to (at_depth self.now.depth) left op tokens.old) result tokens.new }
    {
        let left = Boxed::new(self.alloc, left)?;
        let right = Boxed::new(self.alloc, self.sum(tokens)?)?;
        Ok(Expr::Cmp(op, left, right))
    }

    /// A comparison, of at most two operands.
    #[tactic(auto, unfolding(crate::specs::Exprs::comparison))]
    fn comparison(&self, tokens: &mut Cursor<'_>) -> Result<Expr, Stop>
        requires nests { Nests self.now.depth (F.pre self.now.expr) (F.post self.now.expr) (P.pre self.now.pattern) (P.post self.now.pattern) }
        ensures { Reads (spec.comparison (at_depth self.now.depth) tokens.old) result tokens.new }
    {
        let left = self.sum(tokens)?;
        if tokens.eat(Mark::In) {
            return self.member_of(tokens, left);
        }
        let Some(op) = cmp_op(tokens.mark()) else {
            return Ok(left);
        };
        tokens.take();
        self.compared_to(tokens, op, left)
    }

    /// `not`, or a comparison.
    #[tactic(auto, unfolding(crate::specs::Exprs::negation))]
    pub fn negation(&self, tokens: &mut Cursor<'_>) -> Result<Expr, Stop>
        requires nests { Nests self.now.depth (F.pre self.now.expr) (F.post self.now.expr) (P.pre self.now.pattern) (P.post self.now.pattern) }
        ensures { Reads (spec.negation (at_depth self.now.depth) tokens.old) result tokens.new }
    {
        if !tokens.sees(Mark::Not) {
            return self.comparison(tokens);
        }
        opens(tokens, self.depth)?;
        let operand = self.inner(tokens, Level::Neg)?;
        Ok(Expr::Not(Boxed::new(self.alloc, operand)?))
    }

    /// Further operands of an `and`, after those found.
    #[tactic(auto, using(crate::proofs::Loops::separated_loop))]
    fn conjuncts(&self, tokens: &mut Cursor<'_>, mut found: List<Expr>) -> Result<List<Expr>, Stop>
        requires nests { Nests self.now.depth (F.pre self.now.expr) (F.post self.now.expr) (P.pre self.now.pattern) (P.post self.now.pattern) }
        ensures { Reads (separated Mark.And (spec.negation (at_depth self.now.depth)) found tokens.old) result tokens.new }
    {
        for _turn in 0..tokens.left() {
            found.push(self.negation(tokens)?)?;
            if !tokens.eat(Mark::And) {
                return Ok(found);
            }
        }
        Err(tokens.refuse())
    }

    /// Operands with `and` between.
    #[tactic(auto, unfolding(crate::specs::Exprs::conjunction, crate::specs::Exprs::joined))]
    fn conjunction(&self, tokens: &mut Cursor<'_>) -> Result<Expr, Stop>
        requires nests { Nests self.now.depth (F.pre self.now.expr) (F.post self.now.expr) (P.pre self.now.pattern) (P.post self.now.pattern) }
        ensures { Reads (spec.conjunction (at_depth self.now.depth) tokens.old) result tokens.new }
    {
        let first = self.negation(tokens)?;
        if !tokens.eat(Mark::And) {
            return Ok(first);
        }
        let mut operands = List::new(self.alloc);
        operands.push(first)?;
        Ok(Expr::And(self.conjuncts(tokens, operands)?))
    }

    /// Further operands of an `or`, after those found.
    #[tactic(auto, using(crate::proofs::Loops::separated_loop))]
    fn disjuncts(&self, tokens: &mut Cursor<'_>, mut found: List<Expr>) -> Result<List<Expr>, Stop>
        requires nests { Nests self.now.depth (F.pre self.now.expr) (F.post self.now.expr) (P.pre self.now.pattern) (P.post self.now.pattern) }
        ensures { Reads (separated Mark.Or (spec.conjunction (at_depth self.now.depth)) found tokens.old) result tokens.new }
    {
        for _turn in 0..tokens.left() {
            found.push(self.conjunction(tokens)?)?;
            if !tokens.eat(Mark::Or) {
                return Ok(found);
            }
        }
        Err(tokens.refuse())
    }

    /// Operands with `or` between.
    #[tactic(auto, unfolding(crate::specs::Exprs::disjunction, crate::specs::Exprs::joined))]
    pub fn disjunction(&self, tokens: &mut Cursor<'_>) -> Result<Expr, Stop>
        requires nests { Nests self.now.depth (F.pre self.now.expr) (F.post self.now.expr) (P.pre self.now.pattern) (P.post self.now.pattern) }
        ensures { Reads (spec.disjunction (at_depth self.now.depth) tokens.old) result tokens.new }
    {
        let first = self.conjunction(tokens)?;
        if !tokens.eat(Mark::Or) {
            return Ok(first);
        }
        let mut operands = List::new(self.alloc);
        operands.push(first)?;
        Ok(Expr::Or(self.disjuncts(tokens, operands)?))
    }

    /// A quantification, or operands with `or` between.
    #[tactic(auto, unfolding(crate::specs::Exprs::expression))]
    pub fn expression(&self, tokens: &mut Cursor<'_>) -> Result<Expr, Stop>
        requires nests { Nests self.now.depth (F.pre self.now.expr) (F.post self.now.expr) (P.pre self.now.pattern) (P.post self.now.pattern) }
        ensures { Reads (spec.expression (at_depth self.now.depth) tokens.old) result tokens.new }
    {
        match quantifier(tokens.mark()) {
            Some(each) => self.quantification(tokens, each),
            None => self.disjunction(tokens),
        }
    }

    /// An expression of this level.
    pub fn at_level(&self, tokens: &mut Cursor<'_>, level: Level) -> Result<Expr, Stop>
        requires nests { Nests self.now.depth (F.pre self.now.expr) (F.post self.now.expr) (P.pre self.now.pattern) (P.post self.now.pattern) }
        ensures { Reads (spec.at_level (at_depth self.now.depth) level tokens.old) result tokens.new }
    {
        match level {
            Level::Expr => self.expression(tokens),
            Level::Disj => self.disjunction(tokens),
            Level::Neg => self.negation(tokens),
            Level::Unary => self.unary(tokens),
        }
    }
}
