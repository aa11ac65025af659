//! Equality of actions, and which ones a trace begins with. None of it takes memory.
ghost use Rattle.da_lang.specs.declared.event.Action.{Action as ActionOf};
ghost use Rattle.std.specs.Prelude.{◌≡◌, ◌++◌, ◌↔◌, IsTrue, List as Seq, MatchOption};

use da_lang::{Action, same_value};
use da_values::{SetVal, cmp_rows};
use std::cmp::Ordering;

/// What stands after these actions in a trace, or `None` where the trace does not begin with them.
pub(crate) fn behind<'t>(trace: &'t [Action], told: &[Action]) -> Option<&'t [Action]>
    ensures { MatchOption result
        ((rest : Seq ActionOf) → trace.now ≡ told.now ++ rest → ⊥)
        (λ rest. trace.now ≡ told.now ++ rest.now) }
{
    let mut rest = trace;
    let mut left = told;
    while let [next, others @ ..] = left {
        match rest {
            [] => return None,
            [first, more @ ..] => {
                if !same_action(next, first) {
                    return None;
                }
                left = others;
                rest = more;
            }
        }
    }
    Some(rest)
}

/// Whether two actions are equal. It takes no memory.
pub fn same_action(a: &Action, b: &Action) -> bool
    ensures { IsTrue result ↔ (a.now ≡ b.now) }
{
    match (a, b) {
        (Action::Took { p, k }, Action::Took { p: q, k: l }) => p == q && k == l,
        (
            Action::Sent { p, q, t, v },
            Action::Sent {
                p: p2,
                q: q2,
                t: t2,
                v: v2,
            },
        ) => p == p2 && q == q2 && t == t2 && same_value(v, v2),
        (
            Action::Got { q, p, t, v },
            Action::Got {
                q: q2,
                p: p2,
                t: t2,
                v: v2,
            },
        ) => q == q2 && p == p2 && t == t2 && same_value(v, v2),
        (
            Action::Lost { p, q, t },
            Action::Lost {
                p: p2,
                q: q2,
                t: t2,
            },
        ) => p == p2 && q == q2 && t == t2,
        (
            Action::Again { p, q, t },
            Action::Again {
                p: p2,
                q: q2,
                t: t2,
            },
        ) => p == p2 && q == q2 && t == t2,
        (Action::Out { p, v }, Action::Out { p: p2, v: v2 }) => p == p2 && same_value(v, v2),
        (Action::End { p }, Action::End { p: p2 }) => p == p2,
        (
            Action::Fault { p, kind, line },
            Action::Fault {
                p: p2,
                kind: kind2,
                line: line2,
            },
        ) => p == p2 && kind == kind2 && line == line2,
        (
            Action::Answer { p, n, rows },
            Action::Answer {
                p: p2,
                n: n2,
                rows: rows2,
            },
        ) => p == p2 && n == n2 && same_rows(rows, rows2),
        (Action::Kept { p, n }, Action::Kept { p: p2, n: n2 }) => p == p2 && n == n2,
        (Action::Stop { i }, Action::Stop { i: i2 }) => i == i2,
        _ => false,
    }
}

// Whether two sets of rows are equal.
#[tactic(auto, using(crate::proofs::SameLaws::row_ties, da_values::specs::OrderLaws::same_from_row_cmp))]
fn same_rows(a: &SetVal, b: &SetVal) -> bool
    ensures { IsTrue result ↔ (a.now ≡ b.now) }
{
    matches!(cmp_rows(a.as_slice(), b.as_slice()), Ordering::Equal)
}
