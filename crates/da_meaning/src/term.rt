//! Terms.
ghost use Rattle.da_lang.specs.ExprMeaning.{meant, name_term};
ghost use Rattle.da_meaning.specs.MeaningView.{meaning_of};
ghost use Rattle.std.specs.Option.{option_map};
ghost use Rattle.std.specs.Prelude.{◌≡◌, IfOk, map};

use crate::scope::{Meaning, Scope};
use da_lang::{Expr, Term};
use da_values::{List, NoMemory, Value};
use std::alloc::Global;

/// The term of an expression: `Foreign` where it has none of the forms of terms.
#[cycle(terms)]
#[tactic(auto, using(crate::proofs::TermsAt::terms_at))]
pub fn term(alloc: Global, x: &Expr, scope: &Scope<'_>) -> Result<Term, NoMemory>
    ensures { IfOk result (λ term. term ≡ (meant x.now).term scope.now) }
{
    match x {
        Expr::Int(number) => Ok(Term::Const(Value::Int(*number))),
        Expr::Text(text) => Ok(Term::Const(Value::Text(text.copy(alloc)?))),
        Expr::Truth(truth) => Ok(Term::Const(Value::Bool(*truth))),
        Expr::Me => Ok(Term::Me),
        Expr::Name(name) => Ok(named_term(scope.look(name.as_slice()))),
        Expr::Tuple(parts) => Ok(Term::Tuple(terms(alloc, parts.as_slice(), scope)?)),
        Expr::Quant { .. }
        | Expr::Or(_)
        | Expr::And(_)
        | Expr::Not(_)
        | Expr::Cmp(_, _, _)
        | Expr::Member(_, _)
        | Expr::Chain(_, _)
        | Expr::Clock
        | Expr::Range(_, _)
        | Expr::SetOf(_)
        | Expr::Comp { .. }
        | Expr::Count(_)
        | Expr::Sum(_)
        | Expr::Min(_, _)
        | Expr::Max(_, _) => Ok(Term::Foreign),
    }
}

// The terms of some expressions.
#[cycle(terms)]
fn terms(alloc: Global, xs: &[Expr], scope: &Scope<'_>) -> Result<List<Term>, NoMemory>
    ensures { IfOk result (λ terms. terms ≡ map (λ x. (meant x).term scope.now) xs.now) }
{
    let mut found = List::new(alloc);
    for x in xs {
        found.push(term(alloc, x, scope)?)?;
    }
    Ok(found)
}

// The term of a name.
fn named_term(means: Option<Meaning>) -> Term
    ensures { result ≡ name_term (option_map meaning_of means) }
{
    match means {
        Some(Meaning::InSlot(slot)) => Term::Slot(slot),
        Some(Meaning::InRow(part)) => Term::Part(part),
        Some(Meaning::OneProcess(_)) => Term::Foreign,
        Some(Meaning::Processes(_)) => Term::Foreign,
        None => Term::Foreign,
    }
}
