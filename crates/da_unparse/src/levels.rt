//! How tightly expressions hold together.
ghost use Rattle.da_unparse.specs.Levels.{rank as rank_of};
ghost use Rattle.da_unparse.specs.Texts.{asked_by as asked_by_def, held_by as held_by_def, holds};
ghost use Rattle.std.specs.Prelude.{◌≡◌};

use da_lang::{ArithOp, Expr};

/// The levels of expressions, the loosest first.
#[derive(Clone, Copy)]
pub enum Level {
    /// A quantification.
    Quantified,
    /// Operands with `or` between.
    Either,
    /// Operands with `and` between.
    Both,
    /// `not`
    Negation,
    /// A comparison, or `in`.
    Comparison,
    /// Operands with `+` and `-` between.
    Sum,
    /// Operands with `*`, `//` and `%` between.
    Product,
    /// None of these.
    Signed,
}

impl Level {
    /// Its place among the levels.
    pub fn rank(self) -> u8
        ensures { result ≡ rank_of self }
    {
        match self {
            Level::Quantified => 0,
            Level::Either => 1,
            Level::Both => 2,
            Level::Negation => 3,
            Level::Comparison => 4,
            Level::Sum => 5,
            Level::Product => 6,
            Level::Signed => 7,
        }
    }
}

/// The level of a chain with this first sign.
#[tactic(auto, unfolding(crate::specs::Texts::held_by))]
pub fn held_by(op: ArithOp) -> Level
    ensures { rank_of result ≡ held_by_def op }
{
    match op {
        ArithOp::Plus | ArithOp::Minus => Level::Sum,
        ArithOp::Times | ArithOp::Div | ArithOp::Mod => Level::Product,
    }
}

/// The level that the operands of such a chain ask for.
#[tactic(auto, unfolding(crate::specs::Texts::asked_by))]
pub fn asked_by(op: ArithOp) -> Level
    ensures { rank_of result ≡ asked_by_def op }
{
    match op {
        ArithOp::Plus | ArithOp::Minus => Level::Product,
        ArithOp::Times | ArithOp::Div | ArithOp::Mod => Level::Signed,
    }
}

/// The level of an expression.
#[tactic(auto, using(crate::proofs::TextRules::holds_rules))]
pub fn level_of(x: &Expr) -> Level
    ensures { rank_of result ≡ holds x.now }
{
    match x {
        Expr::Quant { .. } => Level::Quantified,
        Expr::Or(_) => Level::Either,
        Expr::And(_) => Level::Both,
        Expr::Not(_) => Level::Negation,
        Expr::Cmp(_, _, _) | Expr::Member(_, _) => Level::Comparison,
        Expr::Chain(first, links) => match links.as_slice() {
            [] => level_of(first.get()),
            [link, ..] => held_by(link.op),
        },
        Expr::Int(_)
        | Expr::Text(_)
        | Expr::Truth(_)
        | Expr::Me
        | Expr::Name(_)
        | Expr::Clock
        | Expr::Range(_, _)
        | Expr::Tuple(_)
        | Expr::SetOf(_)
        | Expr::Comp { .. }
        | Expr::Count(_)
        | Expr::Sum(_)
        | Expr::Min(_, _)
        | Expr::Max(_, _) => Level::Signed,
    }
}
