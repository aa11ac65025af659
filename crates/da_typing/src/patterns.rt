//! Types of patterns: the rows with their variables.
ghost use Rattle.da_lang.specs.declared.query.Pattern.{out-Pattern};
ghost use Rattle.da_lang.specs.QueryTypes.{each_part, gen_row as row_of_gen, gens_row as row_of_gens, is_any as any_pattern, matched_row as row_of_match, message_row as row_of_message, pattern_row as row_of_pattern, pattern_tag as tag_of_pattern, peer_row as row_of_peer, source_row as row_of_source, text_pattern, when};
ghost use Rattle.da_typing.specs.KnownView.{known_of};
ghost use Rattle.std.specs.Option.{option_copied};
ghost use Rattle.std.specs.Prelude.{◌≡◌, IfOk, map};

use crate::known::Known;
use crate::terms::{literal_type, term_type};
use crate::types::{is_flat, is_proc, is_typed, parts_of};
use da_lang::{Pattern, RGen, Source, Ty, copy_type};
use da_values::{List, NoMemory, Value};
use std::alloc::Global;

/// A row, where a test holds.
pub fn row_where(holds: bool, row: List<Ty>) -> Option<List<Ty>>
    ensures { result ≡ when holds row }
{
    if holds { Some(row) } else { None }
}

/// The row with the variables of a pattern over a type, where each part has the type of its place.
#[cycle(patterns)]
#[tactic(auto, using(crate::proofs::PatternForms::pattern_rows))]
pub fn pattern_row(
    alloc: Global,
    known: &Known<'_>,
    pattern: &Pattern,
    ty: &Ty,
    row: List<Ty>,
) -> Result<Option<List<Ty>>, NoMemory>
    ensures { IfOk result (λ found. found ≡ row_of_pattern (known_of known.now) pattern.now ty.now row) }
{
    match pattern {
        Pattern::Any => Ok(Some(row)),
        Pattern::Bind => {
            let mut row = row;
            row.push(copy_type(alloc, ty)?)?;
            Ok(Some(row))
        }
        Pattern::Const(value) => Ok(row_where(is_typed(&literal_type(value), ty), row)),
        Pattern::Me => Ok(row_where(is_proc(ty), row)),
        Pattern::Equal(term) => {
            let found = term_type(alloc, known, term, row.as_slice())?;
            Ok(row_where(is_typed(&found, ty), row))
        }
        Pattern::Tuple(parts) => match parts_of(ty) {
            None => Ok(None),
            Some(types) => parts_row(alloc, known, parts.as_slice(), types, row),
        },
    }
}

/// The row with the variables of patterns, each over a type.
#[cycle(patterns)]
fn parts_row(
    alloc: Global,
    known: &Known<'_>,
    patterns: &[Pattern],
    types: &[Ty],
    row: List<Ty>,
) -> Result<Option<List<Ty>>, NoMemory>
    ensures { IfOk result (λ found. found ≡ each_part (map (row_of_pattern (known_of known.now)) patterns.now) types.now row) }
{
    let mut rest = types;
    let mut row = row;
    for pattern in patterns {
        match rest {
            [] => return Ok(None),
            [ty, others @ ..] => match pattern_row(alloc, known, pattern, ty, row)? {
                None => return Ok(None),
                Some(next) => {
                    row = next;
                    rest = others;
                }
            },
        }
    }
    Ok(row_where(rest.is_empty(), row))
}

// The row of a pattern over a type of at most 32 levels.
fn matched_row(
    alloc: Global,
    known: &Known<'_>,
    pattern: &Pattern,
    ty: &Ty,
    row: List<Ty>,
) -> Result<Option<List<Ty>>, NoMemory>
    ensures { IfOk result (λ found. found ≡ row_of_match (known_of known.now) pattern.now ty.now row) }
{
    if is_flat(ty) {
        pattern_row(alloc, known, pattern, ty, row)
    } else {
        Ok(None)
    }
}

// The text that a pattern writes.
#[tactic(auto, using(crate::proofs::PatternForms::pattern_forms))]
fn written_text(pattern: &Pattern) -> Option<&[u8]>
    ensures { option_copied result ≡ text_pattern (out-Pattern pattern.now) }
{
    match pattern {
        Pattern::Const(value) => match value {
            Value::Text(text) => Some(text.as_bytes()),
            Value::Int(_) | Value::Bool(_) | Value::Proc(_) | Value::Tuple(_) | Value::Set(_) =>
                None,
        },
        Pattern::Any | Pattern::Bind | Pattern::Me | Pattern::Equal(_) | Pattern::Tuple(_) => None,
    }
}

// The tag of a pattern over a history: a tuple pattern whose first part is a written text.
#[tactic(auto, using(crate::proofs::PatternForms::pattern_forms))]
fn pattern_tag(pattern: &Pattern) -> Option<&[u8]>
    ensures { option_copied result ≡ tag_of_pattern (out-Pattern pattern.now) }
{
    match pattern {
        Pattern::Tuple(parts) => match parts.as_slice() {
            [] => None,
            [first, ..] => written_text(first),
        },
        Pattern::Any | Pattern::Bind | Pattern::Const(_) | Pattern::Me | Pattern::Equal(_) => None,
    }
}

// Whether a pattern matches every value and binds none.
#[tactic(auto, using(crate::proofs::PatternForms::pattern_forms))]
fn is_any(pattern: &Pattern) -> bool
    ensures { result ≡ any_pattern (out-Pattern pattern.now) }
{
    match pattern {
        Pattern::Any => true,
        Pattern::Bind | Pattern::Const(_) | Pattern::Me | Pattern::Equal(_) | Pattern::Tuple(_) =>
            false,
    }
}

/// The row of a pattern over the messages with its tag.
pub fn message_row(
    alloc: Global,
    known: &Known<'_>,
    pattern: &Pattern,
    row: List<Ty>,
) -> Result<Option<List<Ty>>, NoMemory>
    ensures { IfOk result (λ found. found ≡ row_of_message (known_of known.now) pattern.now row) }
{
    let Some(tag) = pattern_tag(pattern) else {
        return Ok(None);
    };
    let found = known.message_type(alloc, tag)?;
    match found {
        None => Ok(None),
        Some(ty) => pattern_row(alloc, known, pattern, &ty, row),
    }
}

// The row of the first pattern of a generator.
fn source_row(
    alloc: Global,
    known: &Known<'_>,
    source: Source,
    pattern: &Pattern,
    row: List<Ty>,
) -> Result<Option<List<Ty>>, NoMemory>
    ensures { IfOk result (λ found. found ≡ row_of_source (known_of known.now) source pattern.now row) }
{
    match source {
        Source::Received => message_row(alloc, known, pattern, row),
        Source::Sent => message_row(alloc, known, pattern, row),
        Source::Slot(slot) => match known.slot_element(slot) {
            None => Ok(None),
            Some(element) => matched_row(alloc, known, pattern, element, row),
        },
    }
}

// The row of the second pattern of a generator: of a message it is over processes, an element of a set has none.
fn peer_row(
    alloc: Global,
    known: &Known<'_>,
    source: Source,
    pattern: &Pattern,
    row: List<Ty>,
) -> Result<Option<List<Ty>>, NoMemory>
    ensures { IfOk result (λ found. found ≡ row_of_peer (known_of known.now) source pattern.now row) }
{
    match source {
        Source::Received => pattern_row(alloc, known, pattern, &Ty::Proc, row),
        Source::Sent => pattern_row(alloc, known, pattern, &Ty::Proc, row),
        Source::Slot(_) => Ok(row_where(is_any(pattern), row)),
    }
}

// The row of a generator.
fn gen_row(
    alloc: Global,
    known: &Known<'_>,
    generator: &RGen,
    row: List<Ty>,
) -> Result<Option<List<Ty>>, NoMemory>
    ensures { IfOk result (λ found. found ≡ row_of_gen (known_of known.now) generator.now row) }
{
    let source = generator.source;
    let found = source_row(alloc, known, source, &generator.message, row)?;
    match found {
        None => Ok(None),
        Some(row) => peer_row(alloc, known, source, &generator.peer, row),
    }
}

/// The row of generators, one after the other.
pub fn gens_row(
    alloc: Global,
    known: &Known<'_>,
    gens: &[RGen],
    row: List<Ty>,
) -> Result<Option<List<Ty>>, NoMemory>
    ensures { IfOk result (λ found. found ≡ row_of_gens (known_of known.now) gens.now row) }
{
    let mut row = row;
    for generator in gens {
        match gen_row(alloc, known, generator, row)? {
            None => return Ok(None),
            Some(next) => row = next,
        }
    }
    Ok(Some(row))
}
