//! How large the program of a class is.
ghost use Rattle.da_calls.specs.CallGraph.{IsCallGraph};
ghost use Rattle.da_limits.specs.Capped.{capped};
ghost use Rattle.da_limits.specs.ClassMembers.{is_variable, run_in, setup_in, with_handlers};
ghost use Rattle.da_limits.specs.Copied.{copied};
ghost use Rattle.da_limits.specs.Extents.{as_block, body_extent_if, class_extent_by, extent, handler_extent};
ghost use Rattle.da_lang.specs.ClassParts.{InHandler, stmts_if};
ghost use Rattle.std.specs.Prelude.{◌≡◌, [], ℕ, List, count_by, map};

use crate::bound::{bound_by_from, bound_in};
use crate::copies::Copies;
use crate::extent::Extent;
use crate::numbers::capped;
use crate::statements::block;
use da_lang::{ClassTree, Member, PatternTree, Stmt};

/// The extent of a class.
#[tactic(auto, using(crate::proofs::ClassExtentRules::class_rules))]
pub fn class_extent(class: &ClassTree, copies: &Copies<'_, '_>) -> Extent
    requires { IsCallGraph copies.now.graph.now }
    ensures { result ≡ class_extent_by (copied copies.now) class.now }
{
    let members = class.members.as_slice();
    let entry = setup_extent(members, copies).beside(run_extent(members, copies));
    with_handlers(entry, members, copies).wider(variable_count(members))
}

// The extent of the first `setup`.
fn setup_extent(members: &[Member], copies: &Copies<'_, '_>) -> Extent
    requires { IsCallGraph copies.now.graph.now }
    ensures { result ≡ body_extent_if (copied copies.now) (setup_in members.now) }
{
    for member in members {
        if let Member::Setup { params, body, .. } = member {
            return block(body.as_slice(), copies).wider(capped(params.len()));
        }
    }
    Extent::nothing()
}

// The extent of the first `run`.
fn run_extent(members: &[Member], copies: &Copies<'_, '_>) -> Extent
    requires { IsCallGraph copies.now.graph.now }
    ensures { result ≡ as_block (map (extent (copied copies.now)) (stmts_if (run_in members.now))) }
{
    for member in members {
        if let Member::Run { body, .. } = member {
            return block(body.as_slice(), copies);
        }
    }
    Extent::nothing()
}

// An extent with those of the handlers after it.
fn with_handlers(entry: Extent, members: &[Member], copies: &Copies<'_, '_>) -> Extent
    requires { IsCallGraph copies.now.graph.now }
    ensures { result ≡ with_handlers (copied copies.now) entry members.now }
{
    let mut all = entry;
    for member in members {
        if let Member::Receive {
            message,
            from,
            body,
            ..
        } = member
        {
            all = all.beside(handler_extent(message, from, body.as_slice(), copies));
        }
    }
    all
}

// The extent of a handler, whatever its labels and its line are.
fn handler_extent(
    message: &PatternTree,
    from: &Option<PatternTree>,
    body: &[Stmt],
    copies: &Copies<'_, '_>,
) -> Extent
    requires { IsCallGraph copies.now.graph.now }
    ensures { (labels : List (List ℕ)) (line : ℕ) → result ≡ handler_extent (copied copies.now) (record { place = InHandler message.now from.now labels; params = []; stmts = body.now; line = line }) }
{
    let count = bound_in(message).saturating_add(bound_by_from(from));
    block(body, copies).wider(count)
}

// How many variables there are.
fn variable_count(members: &[Member]) -> u16
    ensures { result ≡ capped (count_by is_variable members.now) }
{
    let mut count = 0u16;
    for member in members {
        if is_variable(member) {
            count = count.saturating_add(1);
        }
    }
    count
}

// Whether a member is a variable.
fn is_variable(member: &Member) -> bool
    ensures { result ≡ is_variable member.now }
{
    match member {
        Member::Var { .. } => true,
        Member::Setup { .. }
        | Member::Run { .. }
        | Member::Method { .. }
        | Member::Receive { .. } => false,
    }
}
