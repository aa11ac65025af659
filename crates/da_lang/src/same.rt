//! Equality of the parts of queries. None of it takes memory.
ghost use Rattle.da_lang.specs.Live.{same_live};
ghost use Rattle.std.specs.Prelude.{◌≡◌, ◌↔◌, IsTrue};

use crate::query::{Agg, Cond, LivePattern, Operand, Pattern, RGen, SignedOperand, Source, Term};
use da_values::{Boxed, Value, cmp_values};
use std::cmp::Ordering;

/// Whether two values are equal.
#[tactic(auto, using(crate::proofs::SameLemmas::values_tell, crate::proofs::SameLemmas::values_tie))]
pub fn same_value(a: &Value, b: &Value) -> bool
    ensures { IsTrue result ↔ (a.now ≡ b.now) }
{
    matches!(cmp_values(a, b), Ordering::Equal)
}

/// Whether two terms are equal.
#[cycle(terms)]
pub fn same_term(a: &Term, b: &Term) -> bool
    ensures { IsTrue result ↔ (a.now ≡ b.now) }
{
    match (a, b) {
        (Term::Const(x), Term::Const(y)) => same_value(x, y),
        (Term::Me, Term::Me) => true,
        (Term::Slot(x), Term::Slot(y)) => x == y,
        (Term::Part(x), Term::Part(y)) => x == y,
        (Term::Tuple(xs), Term::Tuple(ys)) => same_terms(xs.as_slice(), ys.as_slice()),
        (Term::Foreign, Term::Foreign) => true,
        _ => false,
    }
}

// Whether terms are equal, one by one.
#[cycle(terms)]
fn same_terms(xs: &[Term], ys: &[Term]) -> bool
    ensures { IsTrue result ↔ (xs.now ≡ ys.now) }
{
    if xs.len() != ys.len() {
        return false;
    }
    for (x, y) in xs.iter().zip(ys) {
        if !same_term(x, y) {
            return false;
        }
    }
    true
}

/// Whether two patterns are equal.
#[cycle(patterns)]
pub fn same_pattern(a: &Pattern, b: &Pattern) -> bool
    ensures { IsTrue result ↔ (a.now ≡ b.now) }
{
    match (a, b) {
        (Pattern::Any, Pattern::Any) => true,
        (Pattern::Bind, Pattern::Bind) => true,
        (Pattern::Const(x), Pattern::Const(y)) => same_value(x, y),
        (Pattern::Me, Pattern::Me) => true,
        (Pattern::Equal(x), Pattern::Equal(y)) => same_term(x, y),
        (Pattern::Tuple(xs), Pattern::Tuple(ys)) => same_patterns(xs.as_slice(), ys.as_slice()),
        _ => false,
    }
}

// Whether patterns are equal, one by one.
#[cycle(patterns)]
fn same_patterns(xs: &[Pattern], ys: &[Pattern]) -> bool
    ensures { IsTrue result ↔ (xs.now ≡ ys.now) }
{
    if xs.len() != ys.len() {
        return false;
    }
    for (x, y) in xs.iter().zip(ys) {
        if !same_pattern(x, y) {
            return false;
        }
    }
    true
}

/// Whether two sources are equal.
pub fn same_source(a: Source, b: Source) -> bool
    ensures { IsTrue result ↔ (a ≡ b) }
{
    a == b
}

/// Whether two generators are equal.
pub fn same_gen(a: &RGen, b: &RGen) -> bool
    ensures { IsTrue result ↔ (a.now ≡ b.now) }
{
    same_source(a.source, b.source)
        && same_pattern(&a.message, &b.message)
        && same_pattern(&a.peer, &b.peer)
}

/// Whether two live patterns are equal, and so one among those of a class.
pub fn same_live(a: &LivePattern, b: &LivePattern) -> bool
    ensures equal { IsTrue result ↔ (a.now ≡ b.now) }
    ensures once { result ≡ same_live a.now b.now }
{
    same_source(a.source, b.source)
        && same_pattern(&a.message, &b.message)
        && same_pattern(&a.peer, &b.peer)
}

/// Whether generators are equal, one by one.
pub fn same_gens(xs: &[RGen], ys: &[RGen]) -> bool
    ensures { IsTrue result ↔ (xs.now ≡ ys.now) }
{
    if xs.len() != ys.len() {
        return false;
    }
    for (x, y) in xs.iter().zip(ys) {
        if !same_gen(x, y) {
            return false;
        }
    }
    true
}

/// Whether two conditions are equal.
#[cycle(conditions)]
pub fn same_cond(a: &Cond, b: &Cond) -> bool
    ensures { IsTrue result ↔ (a.now ≡ b.now) }
{
    match (a, b) {
        (Cond::Truth(x), Cond::Truth(y)) => same_term(x, y),
        (Cond::Cmp(op, x, y), Cond::Cmp(other, z, w)) => {
            *op == *other && same_operand(x.get(), z.get()) && same_operand(y.get(), w.get())
        }
        (Cond::Not(x), Cond::Not(y)) => same_cond(x.get(), y.get()),
        (Cond::And(xs), Cond::And(ys)) => same_conds(xs.as_slice(), ys.as_slice()),
        (Cond::Or(xs), Cond::Or(ys)) => same_conds(xs.as_slice(), ys.as_slice()),
        (
            Cond::Quant { each, gens, cond },
            Cond::Quant {
                each: other_each,
                gens: other_gens,
                cond: other_cond,
            },
        ) => {
            *each == *other_each
                && same_gens(gens.as_slice(), other_gens.as_slice())
                && same_guard(cond, other_cond)
        }
        _ => false,
    }
}

// Whether conditions are equal, one by one.
#[cycle(conditions)]
fn same_conds(xs: &[Cond], ys: &[Cond]) -> bool
    ensures { IsTrue result ↔ (xs.now ≡ ys.now) }
{
    if xs.len() != ys.len() {
        return false;
    }
    for (x, y) in xs.iter().zip(ys) {
        if !same_cond(x, y) {
            return false;
        }
    }
    true
}

// Whether two conditions that may be left out are equal.
#[cycle(conditions)]
fn same_guard(a: &Option<Boxed<Cond>>, b: &Option<Boxed<Cond>>) -> bool
    ensures { IsTrue result ↔ (a.now ≡ b.now) }
{
    match (a, b) {
        (None, None) => true,
        (Some(x), Some(y)) => same_cond(x.get(), y.get()),
        _ => false,
    }
}

/// Whether two sides of comparisons are equal.
#[cycle(conditions)]
pub fn same_operand(a: &Operand, b: &Operand) -> bool
    ensures { IsTrue result ↔ (a.now ≡ b.now) }
{
    match (a, b) {
        (Operand::Term(x), Operand::Term(y)) => same_term(x, y),
        (Operand::Agg(x), Operand::Agg(y)) => same_agg(x.get(), y.get()),
        (Operand::Chain(x, xs), Operand::Chain(y, ys)) => {
            same_operand(x.get(), y.get()) && same_signs(xs.as_slice(), ys.as_slice())
        }
        _ => false,
    }
}

// Whether two further operands of chains are equal.
#[cycle(conditions)]
fn same_sign(a: &SignedOperand, b: &SignedOperand) -> bool
    ensures { IsTrue result ↔ (a.now ≡ b.now) }
{
    a.minus == b.minus && same_operand(a.operand.get(), b.operand.get())
}

// Whether further operands of chains are equal, one by one.
#[cycle(conditions)]
fn same_signs(xs: &[SignedOperand], ys: &[SignedOperand]) -> bool
    ensures { IsTrue result ↔ (xs.now ≡ ys.now) }
{
    if xs.len() != ys.len() {
        return false;
    }
    for (x, y) in xs.iter().zip(ys) {
        if !same_sign(x, y) {
            return false;
        }
    }
    true
}

/// Whether two aggregates are equal.
#[cycle(conditions)]
pub fn same_agg(a: &Agg, b: &Agg) -> bool
    ensures { IsTrue result ↔ (a.now ≡ b.now) }
{
    a.op == b.op
        && same_gens(a.gens.as_slice(), b.gens.as_slice())
        && same_guard(&a.cond, &b.cond)
        && same_term(&a.term, &b.term)
        && same_other(&a.other, &b.other)
}

// Whether two terms that may be left out are equal.
fn same_other(a: &Option<Term>, b: &Option<Term>) -> bool
    ensures { IsTrue result ↔ (a.now ≡ b.now) }
{
    match (a, b) {
        (None, None) => true,
        (Some(x), Some(y)) => same_term(x, y),
        _ => false,
    }
}
