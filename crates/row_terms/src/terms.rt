//! The values of terms in a row.
ghost use Rattle.da_lang.specs.Matching.{term_value as term_def};
ghost use Rattle.da_lang.specs.Queries.{other_value as other_def};
ghost use Rattle.da_lang.specs.World.{or_nothing};
ghost use Rattle.da_values.specs.Value.{val_of};
ghost use Rattle.da_values.specs.Views.{int_of as int_def};
ghost use Rattle.row_terms.specs.Locals.{data_of};
ghost use Rattle.std.specs.Option.{option_copied, option_map};
ghost use Rattle.std.specs.Prelude.{◌≡◌, ◌+ℤ◌, IfOk, map, neg_ℤ, if◌then◌else◌};

use crate::locals::{Locals, numbered};
use da_lang::Term;
use da_values::{NoMemory, Row, Value, copy_value};
use std::alloc::Global;

/// The value of a term in a row. Where a slot or a part is not there, process 0 stands for it, which is no process.
#[cycle(terms)]
#[tactic(auto, using(crate::proofs::TermForms::term_rules))]
pub fn term_value(term: &Term, locals: &Locals<'_>, row: &Row) -> Result<Value, NoMemory>
    ensures { IfOk result (λ v. val_of v ≡ term_def locals.now.me locals.now.slots.now row.now term.now) }
{
    match term {
        Term::Const(v) => copy_value(locals.alloc, v),
        Term::Me => Ok(Value::Proc(locals.me)),
        Term::Slot(s) => copy_found(locals.alloc, numbered(locals.slots, *s)),
        Term::Part(k) => copy_found(locals.alloc, numbered(row, *k)),
        Term::Tuple(terms) => Ok(Value::Tuple(term_values(terms.as_slice(), locals, row)?)),
        Term::Foreign => Ok(Value::Proc(0)),
    }
}

// The values of terms.
#[cycle(terms)]
fn term_values(terms: &[Term], locals: &Locals<'_>, row: &Row) -> Result<Row, NoMemory>
    ensures { IfOk result (λ values. values ≡ map (term_def locals.now.me locals.now.slots.now row.now) terms.now) }
{
    let mut values = Row::new(locals.alloc);
    for term in terms {
        values.push(term_value(term, locals, row)?)?;
    }
    Ok(values)
}

// A copy of the value that was found, or process 0 where none was.
fn copy_found(alloc: Global, found: Option<&Value>) -> Result<Value, NoMemory>
    ensures { IfOk result (λ v. val_of v ≡ or_nothing (option_map val_of (option_copied found.entry))) }
{
    match found {
        Some(v) => copy_value(alloc, v),
        None => Ok(Value::Proc(0)),
    }
}

/// The value of a term that may be left out: then it is process 0.
pub fn other_value(other: &Option<Term>, locals: &Locals<'_>, row: &Row) -> Result<Value, NoMemory>
    ensures { IfOk result (λ v. val_of v ≡ other_def (data_of locals.now) row.now other.now) }
{
    match other {
        Some(term) => term_value(term, locals, row),
        None => Ok(Value::Proc(0)),
    }
}

/// The number of an integer, or 0 for what is none.
#[tactic(auto, using(crate::proofs::TermForms::viewing))]
pub fn int_of(v: &Value) -> i128
    ensures { result ≡ int_def (val_of v.now) }
{
    match v {
        Value::Int(number) => *number,
        _ => 0,
    }
}

/// A number with another one added to it, or taken away. A sum outside an i128 takes more numbers of 64 bits than memory
/// holds.
pub fn added(sum: i128, minus: bool, number: i128) -> Result<i128, NoMemory>
    ensures { IfOk result (λ z. z ≡ sum +ℤ (if minus then neg_ℤ number else number)) }
{
    let found = if minus {
        sum.checked_sub(number)
    } else {
        sum.checked_add(number)
    };
    match found {
        Some(sum) => Ok(sum),
        None => Err(NoMemory),
    }
}
