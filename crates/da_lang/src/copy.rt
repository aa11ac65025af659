//! Copies of types and of the parts of queries. Each is equal to what it is made from.
ghost use Rattle.std.specs.Prelude.{◌≡◌, IfOk};

use crate::query::{Agg, Cond, Operand, Pattern, RGen, SignedOperand, Term};
use crate::ty::Ty;
use da_values::{Boxed, List, NoMemory, copy_value};
use std::alloc::Global;

/// A copy of a type.
#[cycle(types)]
pub fn copy_type(alloc: Global, ty: &Ty) -> Result<Ty, NoMemory>
    ensures { IfOk result (λ copy. copy ≡ ty.now) }
{
    match ty {
        Ty::Int => Ok(Ty::Int),
        Ty::Bool => Ok(Ty::Bool),
        Ty::Text => Ok(Ty::Text),
        Ty::Proc => Ok(Ty::Proc),
        Ty::Tuple(parts) => Ok(Ty::Tuple(copy_types(alloc, parts.as_slice())?)),
        Ty::Set(element) => Ok(Ty::Set(Boxed::new(alloc, copy_type(alloc, element.get())?)?)),
    }
}

/// Copies of types.
#[cycle(types)]
pub fn copy_types(alloc: Global, types: &[Ty]) -> Result<List<Ty>, NoMemory>
    ensures { IfOk result (λ copy. copy ≡ types.now) }
{
    let mut copy = List::new(alloc);
    for ty in types {
        copy.push(copy_type(alloc, ty)?)?;
    }
    Ok(copy)
}

/// A copy of a term.
#[cycle(terms)]
pub fn copy_term(alloc: Global, term: &Term) -> Result<Term, NoMemory>
    ensures { IfOk result (λ copy. copy ≡ term.now) }
{
    match term {
        Term::Const(value) => Ok(Term::Const(copy_value(alloc, value)?)),
        Term::Me => Ok(Term::Me),
        Term::Slot(slot) => Ok(Term::Slot(*slot)),
        Term::Part(part) => Ok(Term::Part(*part)),
        Term::Tuple(parts) => Ok(Term::Tuple(copy_terms(alloc, parts.as_slice())?)),
        Term::Foreign => Ok(Term::Foreign),
    }
}

// Copies of terms.
#[cycle(terms)]
fn copy_terms(alloc: Global, terms: &[Term]) -> Result<List<Term>, NoMemory>
    ensures { IfOk result (λ copy. copy ≡ terms.now) }
{
    let mut copy = List::new(alloc);
    for term in terms {
        copy.push(copy_term(alloc, term)?)?;
    }
    Ok(copy)
}

/// A copy of a pattern.
#[cycle(patterns)]
pub fn copy_pattern(alloc: Global, pattern: &Pattern) -> Result<Pattern, NoMemory>
    ensures { IfOk result (λ copy. copy ≡ pattern.now) }
{
    match pattern {
        Pattern::Any => Ok(Pattern::Any),
        Pattern::Bind => Ok(Pattern::Bind),
        Pattern::Const(value) => Ok(Pattern::Const(copy_value(alloc, value)?)),
        Pattern::Me => Ok(Pattern::Me),
        Pattern::Equal(term) => Ok(Pattern::Equal(copy_term(alloc, term)?)),
        Pattern::Tuple(parts) => Ok(Pattern::Tuple(copy_patterns(alloc, parts.as_slice())?)),
    }
}

// Copies of patterns.
#[cycle(patterns)]
fn copy_patterns(alloc: Global, patterns: &[Pattern]) -> Result<List<Pattern>, NoMemory>
    ensures { IfOk result (λ copy. copy ≡ patterns.now) }
{
    let mut copy = List::new(alloc);
    for pattern in patterns {
        copy.push(copy_pattern(alloc, pattern)?)?;
    }
    Ok(copy)
}

/// A copy of a generator.
pub fn copy_gen(alloc: Global, gen_: &RGen) -> Result<RGen, NoMemory>
    ensures { IfOk result (λ copy. copy ≡ gen_.now) }
{
    let message = copy_pattern(alloc, &gen_.message)?;
    let peer = copy_pattern(alloc, &gen_.peer)?;
    Ok(RGen {
        source: gen_.source,
        message,
        peer,
    })
}

/// Copies of generators.
pub fn copy_gens(alloc: Global, gens: &[RGen]) -> Result<List<RGen>, NoMemory>
    ensures { IfOk result (λ copy. copy ≡ gens.now) }
{
    let mut copy = List::new(alloc);
    for gen_ in gens {
        copy.push(copy_gen(alloc, gen_)?)?;
    }
    Ok(copy)
}

/// A copy of a condition.
#[cycle(conditions)]
pub fn copy_cond(alloc: Global, cond: &Cond) -> Result<Cond, NoMemory>
    ensures { IfOk result (λ copy. copy ≡ cond.now) }
{
    match cond {
        Cond::Truth(term) => Ok(Cond::Truth(copy_term(alloc, term)?)),
        Cond::Cmp(op, left, right) => {
            let left = boxed_operand(alloc, left.get())?;
            let right = boxed_operand(alloc, right.get())?;
            Ok(Cond::Cmp(*op, left, right))
        }
        Cond::Not(other) => Ok(Cond::Not(boxed_cond(alloc, other.get())?)),
        Cond::And(parts) => Ok(Cond::And(copy_conds(alloc, parts.as_slice())?)),
        Cond::Or(parts) => Ok(Cond::Or(copy_conds(alloc, parts.as_slice())?)),
        Cond::Quant { each, gens, cond } => {
            let gens = copy_gens(alloc, gens.as_slice())?;
            let cond = copy_guard(alloc, cond)?;
            Ok(Cond::Quant {
                each: *each,
                gens,
                cond,
            })
        }
    }
}

// A copy of a condition, on the heap.
#[cycle(conditions)]
fn boxed_cond(alloc: Global, cond: &Cond) -> Result<Boxed<Cond>, NoMemory>
    ensures { IfOk result (λ copy. copy ≡ cond.now) }
{
    Boxed::new(alloc, copy_cond(alloc, cond)?)
}

// Copies of conditions.
#[cycle(conditions)]
fn copy_conds(alloc: Global, conds: &[Cond]) -> Result<List<Cond>, NoMemory>
    ensures { IfOk result (λ copy. copy ≡ conds.now) }
{
    let mut copy = List::new(alloc);
    for cond in conds {
        copy.push(copy_cond(alloc, cond)?)?;
    }
    Ok(copy)
}

// A copy of a condition that may be left out.
#[cycle(conditions)]
fn copy_guard(alloc: Global, cond: &Option<Boxed<Cond>>) -> Result<Option<Boxed<Cond>>, NoMemory>
    ensures { IfOk result (λ copy. copy ≡ cond.now) }
{
    match cond {
        None => Ok(None),
        Some(cond) => Ok(Some(boxed_cond(alloc, cond.get())?)),
    }
}

/// A copy of a side of a comparison.
#[cycle(conditions)]
pub fn copy_operand(alloc: Global, operand: &Operand) -> Result<Operand, NoMemory>
    ensures { IfOk result (λ copy. copy ≡ operand.now) }
{
    match operand {
        Operand::Term(term) => Ok(Operand::Term(copy_term(alloc, term)?)),
        Operand::Agg(agg) => Ok(Operand::Agg(boxed_agg(alloc, agg.get())?)),
        Operand::Chain(first, others) => {
            let first = boxed_operand(alloc, first.get())?;
            Ok(Operand::Chain(first, copy_signed(alloc, others.as_slice())?))
        }
    }
}

// A copy of a side of a comparison, on the heap.
#[cycle(conditions)]
fn boxed_operand(alloc: Global, operand: &Operand) -> Result<Boxed<Operand>, NoMemory>
    ensures { IfOk result (λ copy. copy ≡ operand.now) }
{
    Boxed::new(alloc, copy_operand(alloc, operand)?)
}

// Copies of the further operands of a chain.
#[cycle(conditions)]
fn copy_signed(alloc: Global, others: &[SignedOperand]) -> Result<List<SignedOperand>, NoMemory>
    ensures { IfOk result (λ copy. copy ≡ others.now) }
{
    let mut copy = List::new(alloc);
    for other in others {
        let operand = boxed_operand(alloc, other.operand.get())?;
        copy.push(SignedOperand {
            minus: other.minus,
            operand,
        })?;
    }
    Ok(copy)
}

/// A copy of an aggregate.
#[cycle(conditions)]
pub fn copy_agg(alloc: Global, agg: &Agg) -> Result<Agg, NoMemory>
    ensures { IfOk result (λ copy. copy ≡ agg.now) }
{
    let gens = copy_gens(alloc, agg.gens.as_slice())?;
    let cond = copy_guard(alloc, &agg.cond)?;
    let other = copy_other(alloc, &agg.other)?;
    let term = copy_term(alloc, &agg.term)?;
    Ok(Agg {
        op: agg.op,
        gens,
        cond,
        term,
        other,
    })
}

// A copy of an aggregate, on the heap.
#[cycle(conditions)]
fn boxed_agg(alloc: Global, agg: &Agg) -> Result<Boxed<Agg>, NoMemory>
    ensures { IfOk result (λ copy. copy ≡ agg.now) }
{
    Boxed::new(alloc, copy_agg(alloc, agg)?)
}

// A copy of the term of another value, which `count` and `sum` have not.
fn copy_other(alloc: Global, other: &Option<Term>) -> Result<Option<Term>, NoMemory>
    ensures { IfOk result (λ copy. copy ≡ other.now) }
{
    match other {
        None => Ok(None),
        Some(term) => Ok(Some(copy_term(alloc, term)?)),
    }
}
