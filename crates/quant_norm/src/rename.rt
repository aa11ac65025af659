//! Terms and patterns with the parts of rows in the place of variables.
ghost use Rattle.query_plan.specs.Plans.{known, rename, rename_gen, rename_other, rename_pattern};
ghost use Rattle.std.specs.Prelude.{◌≡◌, IfOk, map};

use crate::place::Place;
use da_lang::{Pattern, RGen, Term};
use da_values::{List, NoMemory, copy_value};
use std::alloc::Global;

// The part in which a variable stands, where there is such a variable.
#[tactic(auto, using(crate::proofs::RenameSteps::known_rules))]
fn known_part(at: &Place, variable: u16) -> Term
    ensures { result ≡ known at.now.vars variable }
{
    let vars = at.vars.as_slice();
    let number = usize::from(variable);
    if number == 0 {
        return Term::Foreign;
    }
    if number > vars.len() {
        return Term::Foreign;
    }
    let part = vars[number - 1];
    Term::Part(part)
}

/// A term over the rows of a place.
#[cycle(terms)]
#[tactic(auto, using(query_plan::proofs::PlansAt::renaming))]
pub fn renamed_term(alloc: Global, term: &Term, at: &Place) -> Result<Term, NoMemory>
    ensures { IfOk result (λ renamed. renamed ≡ rename (known at.now.vars) term.now) }
{
    match term {
        Term::Const(value) => Ok(Term::Const(copy_value(alloc, value)?)),
        Term::Me => Ok(Term::Me),
        Term::Slot(slot) => Ok(Term::Slot(*slot)),
        Term::Part(variable) => Ok(known_part(at, *variable)),
        Term::Tuple(parts) => Ok(Term::Tuple(renamed_terms(alloc, parts.as_slice(), at)?)),
        Term::Foreign => Ok(Term::Foreign),
    }
}

// Terms.
#[cycle(terms)]
fn renamed_terms(alloc: Global, terms: &[Term], at: &Place) -> Result<List<Term>, NoMemory>
    ensures { IfOk result (λ renamed. renamed ≡ map (rename (known at.now.vars)) terms.now) }
{
    let mut renamed = List::new(alloc);
    for term in terms {
        renamed.push(renamed_term(alloc, term, at)?)?;
    }
    Ok(renamed)
}

/// The term of another value, which `count` and `sum` have not.
pub fn renamed_other(
    alloc: Global,
    other: &Option<Term>,
    at: &Place,
) -> Result<Option<Term>, NoMemory>
    ensures { IfOk result (λ renamed. renamed ≡ rename_other (known at.now.vars) other.now) }
{
    match other {
        None => Ok(None),
        Some(term) => Ok(Some(renamed_term(alloc, term, at)?)),
    }
}

// A pattern.
#[cycle(patterns)]
#[tactic(auto, using(query_plan::proofs::PlansAt::renaming))]
fn renamed_pattern(alloc: Global, pattern: &Pattern, at: &Place) -> Result<Pattern, NoMemory>
    ensures { IfOk result (λ renamed. renamed ≡ rename_pattern (known at.now.vars) pattern.now) }
{
    match pattern {
        Pattern::Any => Ok(Pattern::Any),
        Pattern::Bind => Ok(Pattern::Bind),
        Pattern::Const(value) => Ok(Pattern::Const(copy_value(alloc, value)?)),
        Pattern::Me => Ok(Pattern::Me),
        Pattern::Equal(term) => Ok(Pattern::Equal(renamed_term(alloc, term, at)?)),
        Pattern::Tuple(parts) => {
            let parts = renamed_patterns(alloc, parts.as_slice(), at)?;
            Ok(Pattern::Tuple(parts))
        }
    }
}

// Patterns.
#[cycle(patterns)]
fn renamed_patterns(
    alloc: Global,
    patterns: &[Pattern],
    at: &Place,
) -> Result<List<Pattern>, NoMemory>
    ensures { IfOk result
        (λ renamed. renamed ≡ map (rename_pattern (known at.now.vars)) patterns.now) }
{
    let mut renamed = List::new(alloc);
    for pattern in patterns {
        renamed.push(renamed_pattern(alloc, pattern, at)?)?;
    }
    Ok(renamed)
}

/// A generator over the rows of the place after it.
pub fn renamed_gen(alloc: Global, gen_: &RGen, behind: &Place) -> Result<RGen, NoMemory>
    ensures { IfOk result (λ renamed. renamed ≡ rename_gen (known behind.now.vars) gen_.now) }
{
    let message = renamed_pattern(alloc, &gen_.message, behind)?;
    let peer = renamed_pattern(alloc, &gen_.peer, behind)?;
    let source = gen_.source;
    Ok(RGen {
        source,
        message,
        peer,
    })
}
