//! Whether a value is that of a term.
ghost use Rattle.da_lang.specs.Matching.{is_same, term_value};
ghost use Rattle.da_lang.specs.World.{or_nothing};
ghost use Rattle.da_pattern.specs.RowView.{row_of};
ghost use Rattle.da_values.specs.declared.val.Val.TheVariants as val;
ghost use Rattle.da_values.specs.Order.{row_cmp};
ghost use Rattle.da_values.specs.Value.{val_of, vals};
ghost use Rattle.std.specs.Option.{option_copied, option_map};
ghost use Rattle.std.specs.Ordering.{eq_by_cmp};
ghost use Rattle.std.specs.Prelude.{◌≡◌, map};

use crate::process::{Process, numbered};
use crate::row::{RowSoFar, part_of};
use da_lang::Term;
use da_values::{Value, cmp_values};

/// Whether two values are the same.
pub fn is_same_value(a: &Value, b: &Value) -> bool
    ensures { result ≡ is_same (val_of a.now) (val_of b.now) }
{
    cmp_values(a, b).is_eq()
}

/// Whether a value is the process of this number.
pub fn is_process(v: &Value, process: u16) -> bool
    ensures { result ≡ is_same (val_of v.now) (val.Proc process) }
{
    is_same_value(v, &Value::Proc(process))
}

// Whether a value is the one that was found. Where none was, process 0 stands for it, which is no process.
fn is_found(v: &Value, found: Option<&Value>) -> bool
    ensures { result ≡ is_same (val_of v.now) (or_nothing (option_map val_of (option_copied found.entry))) }
{
    match found {
        Some(x) => is_same_value(v, x),
        None => is_process(v, 0),
    }
}

/// Whether a value is that of a term in a process, with the row so far. It takes no memory.
#[cycle(terms)]
#[tactic(auto, using(crate::proofs::TermsAt::terms_at))]
pub fn is_term(t: &Term, v: &Value, process: &Process<'_>, row: &RowSoFar<'_>) -> bool
    ensures { result ≡ is_same (val_of v.now) (term_value process.now.me process.now.slots.now (row_of row.now) t.now) }
{
    match t {
        Term::Const(c) => is_same_value(v, c),
        Term::Me => is_process(v, process.me),
        Term::Slot(s) => is_found(v, numbered(process.slots, *s)),
        Term::Part(k) => is_found(v, part_of(row, *k)),
        Term::Tuple(terms) => match v {
            Value::Tuple(values) => are_terms(terms.as_slice(), values.as_slice(), process, row),
            _ => false,
        },
        Term::Foreign => is_process(v, 0),
    }
}

// Whether values are those of terms, one by one.
#[cycle(terms)]
#[tactic(auto, using(crate::proofs::TermsAt::one_by_one))]
fn are_terms(terms: &[Term], values: &[Value], process: &Process<'_>, row: &RowSoFar<'_>) -> bool
    ensures { result ≡ eq_by_cmp row_cmp (vals values.now) (map (term_value process.now.me process.now.slots.now (row_of row.now)) terms.now) }
{
    let mut left = values;
    for t in terms {
        match left {
            [v, rest @ ..] => {
                if !is_term(t, v, process, row) {
                    return false;
                }
                left = rest;
            }
            [] => return false,
        }
    }
    left.is_empty()
}
