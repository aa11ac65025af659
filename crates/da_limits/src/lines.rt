//! The lines at which limits are exceeded.
ghost use Rattle.da_lang.specs.Limits.{line_if, most_generators, most_parts, most_variables};
ghost use Rattle.da_lang.specs.declared.refusal.LimitKind.TheVariants as limit;
ghost use Rattle.da_limits.specs.LimitLines.{gen_lines, told_at, wide_lines};
ghost use Rattle.std.specs.List.{list_any};
ghost use Rattle.std.specs.Prelude.{◌≡◌, nat_lt};

use crate::numbers::{MOST_GENERATORS, MOST_PARTS, MOST_VARIABLES};
use crate::sizes::DeedSize;
use da_bodies::Earliest;
use da_lang::LimitKind;

/// A limit is exceeded at a line, if it is.
#[tactic(auto, using(crate::proofs::LimitLinesAt::if_rules))]
pub fn tell_if(holds: bool, kind: LimitKind, line: u32, least: &mut Earliest<LimitKind>)
    ensures { least.new ≡ told_at kind least.old (line_if holds line) }
{
    if holds {
        least.tell(kind, line);
    }
}

/// Whether a tuple of so many parts is too wide.
#[tactic(auto, using(crate::proofs::LimitLinesAt::limit_rules))]
pub fn is_wide(parts: u16) -> bool
    ensures { result ≡ nat_lt most_parts parts }
{
    parts > MOST_PARTS
}

// Whether a query has too many generators.
#[tactic(auto, using(crate::proofs::LimitLinesAt::limit_rules))]
fn has_many_generators(size: &DeedSize) -> bool
    ensures { result ≡ nat_lt most_generators size.now.written.largest.gens }
{
    size.written.largest.gens > MOST_GENERATORS
}

// Whether a query has too many variables.
#[tactic(auto, using(crate::proofs::LimitLinesAt::limit_rules))]
fn has_many_variables(size: &DeedSize) -> bool
    ensures { result ≡ nat_lt most_variables size.now.written.largest.variables }
{
    size.written.largest.variables > MOST_VARIABLES
}

/// The lines with too wide a tuple.
pub fn tell_wide(sizes: &[DeedSize], least: &mut Earliest<LimitKind>)
    ensures { least.new ≡ told_at limit.Parts least.old (wide_lines sizes.now) }
{
    for size in sizes {
        tell_wide_at(size, least);
    }
}

// The line of a statement or header, if it has too wide a tuple.
fn tell_wide_at(size: &DeedSize, least: &mut Earliest<LimitKind>)
    ensures { least.new ≡ told_at limit.Parts least.old (line_if (nat_lt most_parts size.now.written.widest) size.now.line) }
{
    tell_if(
        is_wide(size.written.widest),
        LimitKind::Parts,
        size.line,
        least,
    );
}

/// The lines with a query of too many generators.
pub fn tell_generators(sizes: &[DeedSize], least: &mut Earliest<LimitKind>)
    ensures { least.new ≡ told_at limit.Generators least.old (gen_lines sizes.now) }
{
    for size in sizes {
        tell_generators_at(size, least);
    }
}

// The line of a statement or header, if it has a query of too many generators.
fn tell_generators_at(size: &DeedSize, least: &mut Earliest<LimitKind>)
    ensures { least.new ≡ told_at limit.Generators least.old (line_if (nat_lt most_generators size.now.written.largest.gens) size.now.line) }
{
    tell_if(
        has_many_generators(size),
        LimitKind::Generators,
        size.line,
        least,
    );
}

/// Whether some query has too many variables.
pub fn some_many_variables(sizes: &[DeedSize]) -> bool
    ensures { result ≡ list_any (λ d. nat_lt most_variables d.written.largest.variables) sizes.now }
{
    for size in sizes {
        if has_many_variables(size) {
            return true;
        }
    }
    false
}
