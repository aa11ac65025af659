//! The plan of a class, in the order of its inlined text.
ghost use Rattle.quant_norm.specs.Making.{MakesPlan, Puts, alt_met, args_ask, awaited_met, block_met, branch_met, handler_met, kind_met, made_with};
ghost use Rattle.query_plan.specs.Questions.{asks, item_met, norm_class, with_asked};
ghost use Rattle.std.specs.Prelude.{◌+◌, drop, flat_map};

use crate::counts::{asked_in, asked_in_args, asked_in_both, asked_in_cond};
use crate::draft::Draft;
use crate::limit::Halt;
use crate::queries::{put_flag, put_query};
use da_lang::{Alt, BindArg, Class, Cond, Handler, Item, ItemKind, Query, RBranch, RExpr};
use query_plan::Plan;
use std::alloc::Global;

// Puts so many further queries into a plan, as far as there are any. Gives how many the plan has then.
fn put_asked(
    alloc: Global,
    count: usize,
    queries: &[Query],
    taken: usize,
    plan: &mut Draft,
) -> Result<usize, Halt>
    ensures { Puts (with_asked count (drop taken queries.now) plan.old)
        (λ next. (plan.new, drop next queries.now)) result }
{
    let mut left = count;
    let mut next = taken;
    while left > 0 && next < queries.len() {
        put_query(alloc, &queries[next], plan)?;
        next += 1;
        left -= 1;
    }
    Ok(next)
}

// Puts what is met in statements.
#[cycle(items)]
fn put_items(
    alloc: Global,
    items: &[Item],
    queries: &[Query],
    taken: usize,
    plan: &mut Draft,
) -> Result<usize, Halt>
    ensures { Puts (made_with (flat_map item_met items.now) (plan.old, drop taken queries.now))
        (λ next. (plan.new, drop next queries.now)) result }
{
    let mut next = taken;
    for item in items {
        let further = put_kind(alloc, &item.kind, queries, next, plan)?;
        next = further;
    }
    Ok(next)
}

// Puts the queries of an expression.
fn put_expr(
    alloc: Global,
    expr: &RExpr,
    queries: &[Query],
    taken: usize,
    plan: &mut Draft,
) -> Result<usize, Halt>
    ensures { Puts (with_asked (asks expr.now) (drop taken queries.now) plan.old)
        (λ next. (plan.new, drop next queries.now)) result }
{
    let count = asked_in(expr)?;
    put_asked(alloc, count, queries, taken, plan)
}

// Puts those of a message and of the processes that it goes to.
fn put_both(
    alloc: Global,
    message: &RExpr,
    to: &RExpr,
    queries: &[Query],
    taken: usize,
    plan: &mut Draft,
) -> Result<usize, Halt>
    ensures { Puts (with_asked (asks message.now + asks to.now) (drop taken queries.now) plan.old)
        (λ next. (plan.new, drop next queries.now)) result }
{
    let count = asked_in_both(message, to)?;
    put_asked(alloc, count, queries, taken, plan)
}

// Puts those of the arguments of a call.
fn put_args(
    alloc: Global,
    args: &[BindArg],
    queries: &[Query],
    taken: usize,
    plan: &mut Draft,
) -> Result<usize, Halt>
    ensures { Puts (with_asked (args_ask args.now) (drop taken queries.now) plan.old)
        (λ next. (plan.new, drop next queries.now)) result }
{
    let count = asked_in_args(args)?;
    put_asked(alloc, count, queries, taken, plan)
}

// Puts what is met in the condition of an alternative: first its numbered queries, and then its flag.
fn put_awaited(
    alloc: Global,
    cond: &Cond,
    queries: &[Query],
    taken: usize,
    plan: &mut Draft,
) -> Result<usize, Halt>
    ensures { Puts (made_with (awaited_met cond.now) (plan.old, drop taken queries.now))
        (λ next. (plan.new, drop next queries.now)) result }
{
    let count = asked_in_cond(cond)?;
    let next = put_asked(alloc, count, queries, taken, plan)?;
    put_flag(alloc, cond, plan)?;
    Ok(next)
}

// Puts what is met in a statement.
#[cycle(items)]
fn put_kind(
    alloc: Global,
    kind: &ItemKind,
    queries: &[Query],
    taken: usize,
    plan: &mut Draft,
) -> Result<usize, Halt>
    ensures { Puts (made_with (kind_met kind.now) (plan.old, drop taken queries.now))
        (λ next. (plan.new, drop next queries.now)) result }
{
    match kind {
        ItemKind::Assign(_, expr) => put_expr(alloc, expr.get(), queries, taken, plan),
        ItemKind::Add(_, expr) => put_expr(alloc, expr.get(), queries, taken, plan),
        ItemKind::Del(_, expr) => put_expr(alloc, expr.get(), queries, taken, plan),
        ItemKind::Output(expr) => put_expr(alloc, expr.get(), queries, taken, plan),
        ItemKind::Send(message, to) => {
            put_both(alloc, message.get(), to.get(), queries, taken, plan)
        }
        ItemKind::If(branches, otherwise) => {
            let middle = put_branches(alloc, branches.as_slice(), queries, taken, plan)?;
            put_items(alloc, otherwise.as_slice(), queries, middle, plan)
        }
        ItemKind::While(expr, body) => {
            put_block(alloc, body.as_slice(), expr.get(), queries, taken, plan)
        }
        ItemKind::For(_, expr, body) => {
            put_block(alloc, body.as_slice(), expr.get(), queries, taken, plan)
        }
        ItemKind::Call(args, body) => {
            let middle = put_args(alloc, args.as_slice(), queries, taken, plan)?;
            put_items(alloc, body.as_slice(), queries, middle, plan)
        }
        ItemKind::Await { alts, timeout, .. } => {
            let middle = put_alts(alloc, alts.as_slice(), queries, taken, plan)?;
            match timeout {
                None => Ok(middle),
                Some(body) => put_items(alloc, body.as_slice(), queries, middle, plan),
            }
        }
        ItemKind::Label(_) => Ok(taken),
        ItemKind::Pass => Ok(taken),
    }
}

// Puts what is met in an expression and in the block after it.
#[cycle(items)]
fn put_block(
    alloc: Global,
    body: &[Item],
    expr: &RExpr,
    queries: &[Query],
    taken: usize,
    plan: &mut Draft,
) -> Result<usize, Halt>
    ensures { Puts (made_with (block_met expr.now body.now) (plan.old, drop taken queries.now))
        (λ next. (plan.new, drop next queries.now)) result }
{
    let middle = put_expr(alloc, expr, queries, taken, plan)?;
    put_items(alloc, body, queries, middle, plan)
}

// Puts what is met in the branches of an `if`.
#[cycle(items)]
fn put_branches(
    alloc: Global,
    branches: &[RBranch],
    queries: &[Query],
    taken: usize,
    plan: &mut Draft,
) -> Result<usize, Halt>
    ensures { Puts (made_with (flat_map branch_met branches.now)
        (plan.old, drop taken queries.now)) (λ next. (plan.new, drop next queries.now)) result }
{
    let mut next = taken;
    for branch in branches {
        let further = put_branch(alloc, branch, queries, next, plan)?;
        next = further;
    }
    Ok(next)
}

#[cycle(items)]
fn put_branch(
    alloc: Global,
    branch: &RBranch,
    queries: &[Query],
    taken: usize,
    plan: &mut Draft,
) -> Result<usize, Halt>
    ensures { Puts (made_with (branch_met branch.now) (plan.old, drop taken queries.now))
        (λ next. (plan.new, drop next queries.now)) result }
{
    put_block(
        alloc,
        branch.body.as_slice(),
        branch.cond.get(),
        queries,
        taken,
        plan,
    )
}

// Puts what is met in the alternatives of an `await`: of each first its numbered queries, and then its flag.
#[cycle(items)]
fn put_alts(
    alloc: Global,
    alts: &[Alt],
    queries: &[Query],
    taken: usize,
    plan: &mut Draft,
) -> Result<usize, Halt>
    ensures { Puts (made_with (flat_map alt_met alts.now) (plan.old, drop taken queries.now))
        (λ next. (plan.new, drop next queries.now)) result }
{
    let mut next = taken;
    for alt in alts {
        let further = put_alt(alloc, alt, queries, next, plan)?;
        next = further;
    }
    Ok(next)
}

#[cycle(items)]
fn put_alt(
    alloc: Global,
    alt: &Alt,
    queries: &[Query],
    taken: usize,
    plan: &mut Draft,
) -> Result<usize, Halt>
    ensures { Puts (made_with (alt_met alt.now) (plan.old, drop taken queries.now))
        (λ next. (plan.new, drop next queries.now)) result }
{
    let middle = put_awaited(alloc, alt.cond.get(), queries, taken, plan)?;
    put_items(alloc, alt.body.as_slice(), queries, middle, plan)
}

// Puts what is met in handlers.
fn put_handlers(
    alloc: Global,
    handlers: &[Handler],
    queries: &[Query],
    taken: usize,
    plan: &mut Draft,
) -> Result<usize, Halt>
    ensures { Puts (made_with (flat_map handler_met handlers.now)
        (plan.old, drop taken queries.now)) (λ next. (plan.new, drop next queries.now)) result }
{
    let mut next = taken;
    for handler in handlers {
        let further = put_items(alloc, handler.body.as_slice(), queries, next, plan)?;
        next = further;
    }
    Ok(next)
}

/// The plan of a class. It is full where it has more nodes than a plan may have.
pub fn plan_of(alloc: Global, class: &Class) -> Result<Plan, Halt>
    ensures { MakesPlan (norm_class class.now) (λ plan. plan) result }
{
    let mut plan = Draft::open(alloc)?;
    let queries = class.queries.as_slice();
    let ran = put_items(alloc, class.run.as_slice(), queries, 0, &mut plan)?;
    let handled = put_handlers(alloc, class.handlers.as_slice(), queries, ran, &mut plan)?;
    put_asked(alloc, queries.len(), queries, handled, &mut plan)?;
    Ok(plan.finish())
}
