//! Patterns.
ghost use Rattle.da_lang.specs.ExprMeaning.{matching, patterns_in, with_row};
ghost use Rattle.std.specs.Prelude.{◌≡◌, IfOk, OnOk, flat_map, map};

use crate::scope::Scope;
use crate::term::term;
use da_lang::{Pattern, PatternTree};
use da_values::{List, NoMemory, Value};
use std::alloc::Global;

/// A pattern, whose variables come into scope.
#[cycle(patterns)]
#[tactic(auto, using(crate::proofs::PatternsAt::patterns_at))]
pub fn pattern<'t>(
    alloc: Global,
    p: &'t PatternTree,
    scope: &mut Scope<'t>,
) -> Result<Pattern, NoMemory>
    ensures pattern { IfOk result (λ pattern. pattern ≡ (matching p.now).pattern scope.old) }
    ensures scope { OnOk result (scope.new ≡ with_row (matching p.now).binds scope.old) }
{
    match p {
        PatternTree::Wild => Ok(Pattern::Any),
        PatternTree::Name(name) => {
            scope.enter_part(name.as_slice())?;
            Ok(Pattern::Bind)
        }
        PatternTree::Int(number) => Ok(Pattern::Const(Value::Int(*number))),
        PatternTree::Text(text) => Ok(Pattern::Const(Value::Text(text.copy(alloc)?))),
        PatternTree::Truth(truth) => Ok(Pattern::Const(Value::Bool(*truth))),
        PatternTree::Me => Ok(Pattern::Me),
        PatternTree::Equal(x) => Ok(Pattern::Equal(term(alloc, x.get(), scope)?)),
        PatternTree::Tuple(parts) => Ok(Pattern::Tuple(patterns(alloc, parts.as_slice(), scope)?)),
    }
}

// Patterns, each with the variables of those before it in scope.
#[cycle(patterns)]
fn patterns<'t>(
    alloc: Global,
    ps: &'t [PatternTree],
    scope: &mut Scope<'t>,
) -> Result<List<Pattern>, NoMemory>
    ensures patterns { IfOk result (λ patterns. patterns ≡ patterns_in (map matching ps.now) scope.old) }
    ensures scope { OnOk result (scope.new ≡ with_row (flat_map (λ p. p.binds) (map matching ps.now)) scope.old) }
{
    let mut found = List::new(alloc);
    for p in ps {
        found.push(pattern(alloc, p, scope)?)?;
    }
    Ok(found)
}
