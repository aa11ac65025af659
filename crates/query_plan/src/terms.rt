//! The texts of terms and patterns.
ghost use Rattle.da_values.specs.Text.{separated};
ghost use Rattle.query_plan.specs.PlanText.{parts_behind, parts_after_all, pattern_text, pattern_texts, slot_text, part_text, term_text, tuple_end as tuple_end_def};
ghost use Rattle.std.specs.Prelude.{◌≡◌, ◌++◌, map, IfOk, OnOk};

use crate::width::plus;
use da_lang::{Pattern, Term};
use da_values::{Buf, NoMemory, write_number, write_value};

// Appends a part of the row.
fn put_part(part: u16, out: &mut Buf) -> Result<(), NoMemory>
    ensures { OnOk result (out.new ≡ out.old ++ part_text part) }
{
    out.append(b"$")?;
    write_number(part, out)
}

/// Appends a slot.
pub fn put_slot(slot: u16, out: &mut Buf) -> Result<(), NoMemory>
    ensures { OnOk result (out.new ≡ out.old ++ slot_text slot) }
{
    out.append(b"#")?;
    write_number(slot, out)
}

// What closes a tuple of so many parts; one part alone has a comma after it.
#[tactic(auto, unfolding(crate::specs::PlanText::tuple_end))]
fn tuple_end(parts: usize) -> &'static [u8]
    ensures { result.now ≡ tuple_end_def parts }
{
    if parts == 1 { b",)" } else { b")" }
}

/// Appends a term.
#[cycle(terms)]
#[tactic(auto, using(crate::proofs::PlanTextAt::term_rules))]
pub fn put_term(term: &Term, out: &mut Buf) -> Result<(), NoMemory>
    ensures { OnOk result (out.new ≡ out.old ++ term_text term.now) }
{
    match term {
        Term::Const(value) => write_value(value, out),
        Term::Me => out.append(b"self"),
        Term::Slot(slot) => put_slot(*slot, out),
        Term::Part(part) => put_part(*part, out),
        Term::Tuple(parts) => {
            out.append(b"(")?;
            put_terms(parts.as_slice(), out)?;
            out.append(tuple_end(parts.len()))
        }
        Term::Foreign => out.append(b"?"),
    }
}

// Appends terms with commas between.
#[cycle(terms)]
fn put_terms(terms: &[Term], out: &mut Buf) -> Result<(), NoMemory>
    ensures { OnOk result (out.new ≡ out.old ++ separated (map term_text terms.now)) }
{
    match terms {
        [] => Ok(()),
        [first, rest @ ..] => {
            put_term(first, out)?;
            for term in rest {
                out.append(b", ")?;
                put_term(term, out)?;
            }
            Ok(())
        }
    }
}

/// Appends a pattern after a row of so many parts. Gives how many parts the row has then.
#[cycle(patterns)]
#[tactic(auto, using(crate::proofs::PlanTextAt::pattern_rules))]
pub fn put_pattern(pattern: &Pattern, parts: u16, out: &mut Buf) -> Result<u16, NoMemory>
    ensures text { OnOk result (out.new ≡ out.old ++ pattern_text pattern.now parts) }
    ensures behind { IfOk result (λ behind. behind ≡ parts_behind pattern.now parts) }
{
    match pattern {
        Pattern::Any => {
            out.append(b"_")?;
            Ok(parts)
        }
        Pattern::Bind => {
            let part = plus(parts, 1)?;
            put_part(part, out)?;
            Ok(part)
        }
        Pattern::Const(value) => {
            write_value(value, out)?;
            Ok(parts)
        }
        Pattern::Me => {
            out.append(b"self")?;
            Ok(parts)
        }
        Pattern::Equal(term) => {
            out.append(b"=")?;
            put_term(term, out)?;
            Ok(parts)
        }
        Pattern::Tuple(patterns) => {
            out.append(b"(")?;
            let behind = put_patterns(patterns.as_slice(), parts, out)?;
            out.append(tuple_end(patterns.len()))?;
            Ok(behind)
        }
    }
}

// Appends patterns with commas between, after a row of so many parts. Gives how many parts the row has then.
#[cycle(patterns)]
fn put_patterns(patterns: &[Pattern], parts: u16, out: &mut Buf) -> Result<u16, NoMemory>
    ensures text { OnOk result (out.new ≡ out.old ++ separated (pattern_texts patterns.now parts)) }
    ensures behind { IfOk result (λ behind. behind ≡ parts_after_all patterns.now parts) }
{
    match patterns {
        [] => Ok(parts),
        [first, rest @ ..] => {
            let mut behind = put_pattern(first, parts, out)?;
            for pattern in rest {
                out.append(b", ")?;
                behind = put_pattern(pattern, behind, out)?;
            }
            Ok(behind)
        }
    }
}
