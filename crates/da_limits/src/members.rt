//! The limits that the members of a class exceed.
ghost use Rattle.da_lang.specs.Limits.{wide};
ghost use Rattle.da_lang.specs.Written.{pattern_written, type_width};
ghost use Rattle.da_calls.specs.CallGraph.{IsCallGraph};
ghost use Rattle.da_limits.specs.LimitWalk.{IsKnown, many_in, member_many, member_told, stmts_told, wide_params, wide_patterns};
ghost use Rattle.std.specs.Prelude.{◌≡◌, IfOk, OnOk};

use crate::lines::{is_wide, some_many_variables, tell_generators, tell_if, tell_wide};
use crate::sizes::put_sizes;
use crate::types::type_width;
use crate::written::pattern_written;
use da_bodies::Earliest;
use da_calls::CallGraph;
use da_lang::{LimitKind, Member, Param, PatternTree, Stmt, Ty};
use da_values::{List, NoMemory};
use std::alloc::Global;

/// The limits that a member exceeds by itself, and whether a query in it has too many variables.
#[tactic(auto, using(crate::proofs::LimitWalkAt::member_rules))]
pub fn tell_member(
    alloc: Global,
    member: &Member,
    graph: &CallGraph<'_>,
    least: &mut Earliest<LimitKind>,
) -> Result<bool, NoMemory>
    requires graph { IsCallGraph graph.now }
    requires known { IsKnown graph.now.class.now member.now }
    ensures told { OnOk result (least.new ≡ member_told graph.now.class.now member.now least.old) }
    ensures many { IfOk result (λ many. many ≡ member_many graph.now.class.now member.now) }
{
    match member {
        Member::Var { name: _, ty, line } => {
            tell_if(is_wide_type(ty), LimitKind::Parts, *line, least);
            Ok(false)
        }
        Member::Setup { params, body, line } => {
            tell_if(
                has_wide_param(params.as_slice()),
                LimitKind::Parts,
                *line,
                least,
            );
            tell_stmts(alloc, body.as_slice(), true, least)
        }
        Member::Run { body, line: _ } => tell_stmts(alloc, body.as_slice(), true, least),
        Member::Method {
            name,
            params,
            body,
            line,
        } => {
            tell_if(
                has_wide_param(params.as_slice()),
                LimitKind::Parts,
                *line,
                least,
            );
            let reached = graph.is_reached(name.as_slice());
            tell_stmts(alloc, body.as_slice(), reached, least)
        }
        Member::Receive {
            message,
            from,
            at: _,
            body,
            line,
        } => {
            tell_if(
                are_wide_patterns(message, from),
                LimitKind::Parts,
                *line,
                least,
            );
            tell_stmts(alloc, body.as_slice(), true, least)
        }
    }
}

// The limits that statements exceed. Queries count where a call leads to the statements.
#[tactic(auto, using(crate::proofs::LimitWalkAt::stmts_rules))]
fn tell_stmts(
    alloc: Global,
    stmts: &[Stmt],
    reached: bool,
    least: &mut Earliest<LimitKind>,
) -> Result<bool, NoMemory>
    ensures told { OnOk result (least.new ≡ stmts_told reached stmts.now least.old) }
    ensures many { IfOk result (λ many. many ≡ many_in reached stmts.now) }
{
    let mut sizes = List::new(alloc);
    put_sizes(stmts, &mut sizes)?;
    tell_wide(sizes.as_slice(), least);
    if !reached {
        return Ok(false);
    }
    tell_generators(sizes.as_slice(), least);
    Ok(some_many_variables(sizes.as_slice()))
}

// Whether a type has too wide a tuple.
#[tactic(auto, using(crate::proofs::LimitWalkAt::wide_rules))]
pub fn is_wide_type(ty: &Ty) -> bool
    ensures { result ≡ wide (type_width ty.now) }
{
    is_wide(type_width(ty))
}

// Whether the type of a parameter has too wide a tuple.
fn has_wide_param(params: &[Param]) -> bool
    ensures { result ≡ wide_params params.now }
{
    for param in params {
        if is_wide_type(&param.ty) {
            return true;
        }
    }
    false
}

// Whether a pattern has too wide a tuple.
#[tactic(auto, using(crate::proofs::LimitWalkAt::wide_rules))]
fn is_wide_pattern(pattern: &PatternTree) -> bool
    ensures { result ≡ wide (pattern_written pattern.now).widest }
{
    is_wide(pattern_written(pattern).widest)
}

// Whether a pattern of a handler has too wide a tuple.
#[tactic(auto, using(crate::proofs::LimitWalkAt::pattern_rules))]
fn are_wide_patterns(message: &PatternTree, from: &Option<PatternTree>) -> bool
    ensures { result ≡ wide_patterns message.now from.now }
{
    if is_wide_pattern(message) {
        return true;
    }
    match from {
        None => false,
        Some(pattern) => is_wide_pattern(pattern),
    }
}
