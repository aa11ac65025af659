//! The calls of all methods of a class, their yield points, and the calls outside of methods.
ghost use Rattle.da_lang.specs.ClassParts.{bodies};
ghost use Rattle.da_calls.specs.CallBodies.{calls_by};
ghost use Rattle.da_calls.specs.CallMethods.{body_of};
ghost use Rattle.da_calls.specs.CallNames.{number_in};
ghost use Rattle.da_calls.specs.CallRows.{AreYieldPoints, call_rows, outside_deeds, outside_stmts};
ghost use Rattle.std.specs.Prelude.{◌≡◌, IfOk, map, option_map};

use crate::bodies::{has_yield, put_calls};
use crate::methods::Method;
use crate::names::Numbers;
use da_lang::{ClassTree, Member, Stmt};
use da_values::{List, NoMemory};
use std::alloc::Global;

/// For each method the numbers of those that it calls.
pub fn rows_of(
    alloc: Global,
    methods: &[Method],
    numbers: &Numbers,
) -> Result<Vec<List<usize>>, NoMemory>
    ensures { IfOk result (λ rows. rows.items ≡ call_rows (number_in numbers.now) (map body_of methods.now)) }
{
    let mut rows = Vec::new(alloc);
    for method in methods {
        let mut row = List::new(alloc);
        put_calls(method.body.as_slice(), numbers, &mut row)?;
        match rows.push(row) {
            Ok(()) => {}
            Err(_) => return Err(NoMemory),
        }
    }
    Ok(rows)
}

/// The methods that have a yield point.
pub fn yield_points(alloc: Global, methods: &[Method]) -> Result<List<usize>, NoMemory>
    ensures { IfOk result (λ points. AreYieldPoints (map body_of methods.now) points) }
{
    let mut points = List::new(alloc);
    for (number, method) in methods.iter().enumerate() {
        if has_yield(method.body.as_slice()) {
            points.push(number)?;
        }
    }
    Ok(points)
}

/// The methods that are called outside of methods.
pub fn outside_calls(
    alloc: Global,
    class: &ClassTree,
    numbers: &Numbers,
) -> Result<List<usize>, NoMemory>
    ensures { IfOk result (λ calls. calls ≡ calls_by (number_in numbers.now) (outside_deeds (bodies class.now))) }
{
    let mut calls = List::new(alloc);
    for member in class.members.as_slice() {
        if let Some(stmts) = outside_body(member) {
            put_calls(stmts.as_slice(), numbers, &mut calls)?;
        }
    }
    Ok(calls)
}

/// The statements of a member that is no method, if it has statements.
fn outside_body<'t>(member: &'t Member) -> Option<&'t List<Stmt>>
    ensures { option_map (λ stmts. stmts.now) result ≡ outside_stmts member.now }
{
    match member {
        Member::Setup { body, .. } => Some(body),
        Member::Run { body, .. } => Some(body),
        Member::Receive { body, .. } => Some(body),
        Member::Var { .. } | Member::Method { .. } => None,
    }
}
