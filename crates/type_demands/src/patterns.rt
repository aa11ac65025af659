//! What patterns and generators demand, and the rows with their variables.
ghost use Rattle.std.specs.Option.{option_copied};
ghost use Rattle.std.specs.Prelude.{◌≡◌, [], if◌then◌else◌, OnOk, length, map};
ghost use Rattle.da_lang.specs.declared.query.Pattern.{out-Pattern};
ghost use Rattle.da_lang.specs.QueryTypes.{is_any as any_pattern, pattern_tag as tag_of_pattern, text_pattern};
ghost use Rattle.type_demands.specs.KnownView.{context_of, slot_in};
ghost use Rattle.type_demands.specs.Listing.{ListsRow};
ghost use Rattle.type_demands.specs.Syms.{flat_sym};
ghost use Rattle.type_demands.specs.Terms.{element_sym, gen_sym, gens_sym, message_sym, no_row, over_sym, parts_sym, pattern_sym, peer_sym, row_sym, source_sym};

use crate::copy::copy_scheme;
use crate::demand::{Demand, LineDemand};
use crate::known::{Known, slot_demands, tag_demands};
use crate::puts::{flat, part_of, put, same};
use crate::terms::{literal_demands, term_demands};
use da_lang::{Pattern, RGen, Source};
use da_values::{Boxed, List, NoMemory, Value};
use std::alloc::Global;
use type_table::Scheme;

/// What a pattern over a type demands. Its variables are added to the row.
#[cycle(patterns)]
#[tactic(auto, using(crate::proofs::PatternForms::pattern_rules))]
pub fn pattern_demands(
    pattern: &Pattern,
    alloc: Global,
    known: &Known<'_>,
    asked: &Scheme,
    row: &mut List<Scheme>,
    demands: &mut List<LineDemand>,
) -> Result<(), NoMemory>
    ensures { OnOk result (ListsRow demands.old demands.new known.now (pattern_sym (context_of known.now) pattern.now asked.now row.old) row.new) }
{
    match pattern {
        Pattern::Any => Ok(()),
        Pattern::Bind => {
            let copy = copy_scheme(asked, alloc)?;
            row.push(copy)?;
            Ok(())
        }
        Pattern::Const(value) => {
            let scheme = literal_demands(value, known, demands)?;
            same(asked, scheme, alloc, known, demands)?;
            Ok(())
        }
        Pattern::Me => {
            same(asked, Scheme::Proc, alloc, known, demands)?;
            Ok(())
        }
        Pattern::Equal(term) => {
            let scheme = term_demands(term, alloc, known, row.as_slice(), demands)?;
            same(asked, scheme, alloc, known, demands)?;
            Ok(())
        }
        Pattern::Tuple(parts) => {
            let width = copy_scheme(asked, alloc)?;
            put(Demand::Width(width, parts.len()), known, demands)?;
            parts_demands(parts.as_slice(), alloc, known, asked, row, demands)?;
            Ok(())
        }
    }
}

/// What the patterns of the parts of a tuple demand.
#[cycle(patterns)]
#[tactic(auto, using(crate::proofs::PutLaws::counting))]
fn parts_demands(
    patterns: &[Pattern],
    alloc: Global,
    known: &Known<'_>,
    asked: &Scheme,
    row: &mut List<Scheme>,
    demands: &mut List<LineDemand>,
) -> Result<(), NoMemory>
    ensures { OnOk result (ListsRow demands.old demands.new known.now (parts_sym 0 (length patterns.now) asked.now (map (pattern_sym (context_of known.now)) patterns.now) row.old) row.new) }
{
    let count = patterns.len();
    let mut at = 0;
    for pattern in patterns {
        let part = part_of(asked, at, count, alloc)?;
        pattern_demands(pattern, alloc, known, &part, row, demands)?;
        at += 1;
    }
    Ok(())
}

// The text that a pattern writes.
#[tactic(auto, using(crate::proofs::PatternForms::pattern_forms))]
fn written_text(pattern: &Pattern) -> Option<&[u8]>
    ensures { option_copied result ≡ text_pattern (out-Pattern pattern.now) }
{
    match pattern {
        Pattern::Const(value) => match value {
            Value::Text(text) => Some(text.as_bytes()),
            Value::Int(_) | Value::Bool(_) | Value::Proc(_) | Value::Tuple(_) | Value::Set(_) =>
                None,
        },
        Pattern::Any | Pattern::Bind | Pattern::Me | Pattern::Equal(_) | Pattern::Tuple(_) => None,
    }
}

// The tag of a pattern over a history: a tuple pattern whose first part is a written text.
#[tactic(auto, using(crate::proofs::PatternForms::pattern_forms))]
fn pattern_tag(pattern: &Pattern) -> Option<&[u8]>
    ensures { option_copied result ≡ tag_of_pattern (out-Pattern pattern.now) }
{
    match pattern {
        Pattern::Tuple(parts) => match parts.as_slice() {
            [] => None,
            [first, ..] => written_text(first),
        },
        Pattern::Any | Pattern::Bind | Pattern::Const(_) | Pattern::Me | Pattern::Equal(_) => None,
    }
}

// Whether a pattern matches every value and binds none.
#[tactic(auto, using(crate::proofs::PatternForms::pattern_forms))]
fn is_any(pattern: &Pattern) -> bool
    ensures { result ≡ any_pattern (out-Pattern pattern.now) }
{
    match pattern {
        Pattern::Any => true,
        Pattern::Bind | Pattern::Const(_) | Pattern::Me | Pattern::Equal(_) | Pattern::Tuple(_) =>
            false,
    }
}

// What is missing where there is no row.
fn no_row_demands(
    known: &Known<'_>,
    row: &mut List<Scheme>,
    demands: &mut List<LineDemand>,
) -> Result<(), NoMemory>
    ensures { OnOk result (ListsRow demands.old demands.new known.now (no_row row.old) row.new) }
{
    put(Demand::Never, known, demands)?;
    Ok(())
}

/// What a pattern over the messages with its tag demands. Its variables are added to the row.
#[tactic(auto, using(crate::proofs::PutLaws::putting))]
pub fn message_demands(
    pattern: &Pattern,
    alloc: Global,
    known: &Known<'_>,
    row: &mut List<Scheme>,
    demands: &mut List<LineDemand>,
) -> Result<(), NoMemory>
    ensures { OnOk result (ListsRow demands.old demands.new known.now (message_sym (context_of known.now) pattern.now row.old) row.new) }
{
    let Some(tag) = pattern_tag(pattern) else {
        return no_row_demands(known, row, demands);
    };
    let scheme = tag_demands(tag, alloc, known, demands)?;
    let scheme = flat(scheme, alloc, known, demands)?;
    pattern_demands(pattern, alloc, known, &scheme, row, demands)?;
    Ok(())
}

// What a pattern over the elements of a slot demands.
#[tactic(auto, using(crate::proofs::PutLaws::putting))]
fn element_demands(
    slot: u16,
    pattern: &Pattern,
    alloc: Global,
    known: &Known<'_>,
    row: &mut List<Scheme>,
    demands: &mut List<LineDemand>,
) -> Result<(), NoMemory>
    ensures { OnOk result (ListsRow demands.old demands.new known.now (over_sym (context_of known.now) (flat_sym (element_sym (slot_in known.now.slots.now slot))) pattern.now row.old) row.new) }
{
    let whole = Boxed::new(alloc, slot_demands(slot, alloc, known, demands)?)?;
    let element = flat(Scheme::Element(whole), alloc, known, demands)?;
    pattern_demands(pattern, alloc, known, &element, row, demands)?;
    Ok(())
}

// What the first pattern of a generator demands.
fn source_demands(
    source: Source,
    pattern: &Pattern,
    alloc: Global,
    known: &Known<'_>,
    row: &mut List<Scheme>,
    demands: &mut List<LineDemand>,
) -> Result<(), NoMemory>
    ensures { OnOk result (ListsRow demands.old demands.new known.now (source_sym (context_of known.now) source pattern.now row.old) row.new) }
{
    match source {
        Source::Received => {
            message_demands(pattern, alloc, known, row, demands)?;
            Ok(())
        }
        Source::Sent => {
            message_demands(pattern, alloc, known, row, demands)?;
            Ok(())
        }
        Source::Slot(slot) => {
            element_demands(slot, pattern, alloc, known, row, demands)?;
            Ok(())
        }
    }
}

// What the second pattern of a generator demands: of a message it is over processes, an element of a set has none.
fn peer_demands(
    source: Source,
    pattern: &Pattern,
    alloc: Global,
    known: &Known<'_>,
    row: &mut List<Scheme>,
    demands: &mut List<LineDemand>,
) -> Result<(), NoMemory>
    ensures { OnOk result (ListsRow demands.old demands.new known.now (peer_sym (context_of known.now) source pattern.now row.old) row.new) }
{
    match source {
        Source::Received => {
            pattern_demands(pattern, alloc, known, &Scheme::Proc, row, demands)?;
            Ok(())
        }
        Source::Sent => {
            pattern_demands(pattern, alloc, known, &Scheme::Proc, row, demands)?;
            Ok(())
        }
        Source::Slot(_) => {
            any_demands(pattern, known, row, demands)?;
            Ok(())
        }
    }
}

// What the second pattern of a generator over a set demands.
fn any_demands(
    pattern: &Pattern,
    known: &Known<'_>,
    row: &mut List<Scheme>,
    demands: &mut List<LineDemand>,
) -> Result<(), NoMemory>
    ensures { OnOk result (ListsRow demands.old demands.new known.now (if any_pattern (out-Pattern pattern.now) then row_sym [] row.old else no_row row.old) row.new) }
{
    if is_any(pattern) {
        Ok(())
    } else {
        no_row_demands(known, row, demands)?;
        Ok(())
    }
}

// What a generator demands.
#[tactic(auto, using(crate::proofs::PutLaws::putting))]
fn gen_demands(
    generator: &RGen,
    alloc: Global,
    known: &Known<'_>,
    row: &mut List<Scheme>,
    demands: &mut List<LineDemand>,
) -> Result<(), NoMemory>
    ensures { OnOk result (ListsRow demands.old demands.new known.now (gen_sym (context_of known.now) generator.now row.old) row.new) }
{
    let source = generator.source;
    source_demands(source, &generator.message, alloc, known, row, demands)?;
    peer_demands(source, &generator.peer, alloc, known, row, demands)?;
    Ok(())
}

/// What generators demand, one after the other. Their variables are added to the row.
#[tactic(auto, using(crate::proofs::PutLaws::putting))]
pub fn gens_demands(
    gens: &[RGen],
    alloc: Global,
    known: &Known<'_>,
    row: &mut List<Scheme>,
    demands: &mut List<LineDemand>,
) -> Result<(), NoMemory>
    ensures { OnOk result (ListsRow demands.old demands.new known.now (gens_sym (context_of known.now) gens.now row.old) row.new) }
{
    for generator in gens {
        gen_demands(generator, alloc, known, row, demands)?;
    }
    Ok(())
}
