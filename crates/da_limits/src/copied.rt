//! How many nodes the program of a tree has, with the bodies of methods copied at each call. They are counted without
//! copying: of each method once. A number that does not fit stands at the greatest that does.
ghost use Rattle.da_calls.specs.CallGraph.{IsCallGraph};

use crate::nodes::{all_nodes, expr_nodes, pattern_nodes};
use da_calls::CallGraph;
use da_lang::{Branch, ClassTree, MainLine, Member, Stmt, Tree};
use da_values::{List, NoMemory};
use std::alloc::Global;

/// How many statements, and nodes of their expressions and patterns, the program of a tree has: those of each class, with
/// the bodies of methods copied at each call, and for each process those of the arguments of its `setup`.
pub fn copied_nodes(alloc: Global, tree: &Tree) -> Result<u32, NoMemory> {
    let mut all = setups_nodes(tree.main.as_slice());
    for class in tree.classes.as_slice() {
        all = all.saturating_add(class_nodes(alloc, class)?);
    }
    Ok(all)
}

// How many nodes a class has.
fn class_nodes(alloc: Global, class: &ClassTree) -> Result<u32, NoMemory> {
    let graph = CallGraph::new(alloc, class)?;
    let copies = methods_nodes(alloc, &graph)?;
    let mut all = 0u32;
    for member in class.members.as_slice() {
        all = all.saturating_add(member_nodes(member, &graph, copies.as_slice()));
    }
    Ok(all)
}

// How many nodes a copy of each method has, by the numbers of the methods.
fn methods_nodes(alloc: Global, graph: &CallGraph<'_>) -> Result<List<u32>, NoMemory>
    requires { IsCallGraph graph.now }
{
    let methods = graph.methods();
    let mut copies = List::new(alloc);
    for _method in methods {
        copies.push(0u32)?;
    }
    for number in graph.order() {
        let Some(method) = methods.get(*number) else {
            continue;
        };
        let count = block_nodes(method.body.as_slice(), graph, copies.as_slice());
        if *number < copies.len() {
            copies.set(*number, count);
        }
    }
    Ok(copies)
}

// How many nodes a member has where it stands: a method has none, since it is copied at its calls.
fn member_nodes(member: &Member, graph: &CallGraph<'_>, copies: &[u32]) -> u32
    requires { IsCallGraph graph.now }
{
    match member {
        Member::Var { .. } | Member::Method { .. } => 0,
        Member::Setup { body, .. } | Member::Run { body, .. } => block_nodes(
            body.as_slice(),
            graph,
            copies,
        ),
        Member::Receive {
            message,
            from,
            body,
            ..
        } => {
            let sender = match from {
                None => 0,
                Some(pattern) => pattern_nodes(pattern),
            };
            let patterns = pattern_nodes(message).saturating_add(sender);
            patterns.saturating_add(block_nodes(body.as_slice(), graph, copies))
        }
    }
}

// How many nodes statements have.
#[cycle(statements)]
fn block_nodes(stmts: &[Stmt], graph: &CallGraph<'_>, copies: &[u32]) -> u32
    requires { IsCallGraph graph.now }
{
    let mut all = 0u32;
    for stmt in stmts {
        all = all.saturating_add(stmt_nodes(stmt, graph, copies));
    }
    all
}

// How many nodes a statement has.
#[cycle(statements)]
fn stmt_nodes(stmt: &Stmt, graph: &CallGraph<'_>, copies: &[u32]) -> u32
    requires { IsCallGraph graph.now }
{
    let within = match stmt {
        Stmt::Assign { value, .. }
        | Stmt::Add { value, .. }
        | Stmt::Del { value, .. }
        | Stmt::Output { value, .. } => expr_nodes(value.get()),
        Stmt::Send { message, to, .. } => expr_nodes(message.get()).saturating_add(expr_nodes(
            to.get(),
        )),
        Stmt::Pass { .. } | Stmt::Label { .. } => 0,
        Stmt::Call { name, args, .. } => all_nodes(args.as_slice()).saturating_add(copy_nodes(
            name.as_slice(),
            graph,
            copies,
        )),
        Stmt::If {
            branches,
            otherwise,
            ..
        } => {
            let first = branches_nodes(branches.as_slice(), graph, copies);
            match otherwise {
                None => first,
                Some(body) => first.saturating_add(block_nodes(body.as_slice(), graph, copies)),
            }
        }
        Stmt::While { cond, body, .. } => expr_nodes(cond.get()).saturating_add(block_nodes(
            body.as_slice(),
            graph,
            copies,
        )),
        Stmt::For { over, body, .. } => expr_nodes(over.get()).saturating_add(block_nodes(
            body.as_slice(),
            graph,
            copies,
        )),
        Stmt::AwaitOne { cond, .. } => expr_nodes(cond.get()),
        Stmt::Await { alts, timeout, .. } => {
            let first = branches_nodes(alts.as_slice(), graph, copies);
            match timeout {
                None => first,
                Some(late) => first.saturating_add(block_nodes(
                    late.body.as_slice(),
                    graph,
                    copies,
                )),
            }
        }
    };
    within.saturating_add(1)
}

// How many nodes conditions with their blocks have.
#[cycle(statements)]
fn branches_nodes(branches: &[Branch], graph: &CallGraph<'_>, copies: &[u32]) -> u32
    requires { IsCallGraph graph.now }
{
    let mut all = 0u32;
    for branch in branches {
        let body = block_nodes(branch.body.as_slice(), graph, copies);
        all = all
            .saturating_add(expr_nodes(branch.cond.get()))
            .saturating_add(body);
    }
    all
}

// How many nodes a copy of the method of a name has. Where there is no such method, nothing is copied.
fn copy_nodes(name: &[u8], graph: &CallGraph<'_>, copies: &[u32]) -> u32
    requires { IsCallGraph graph.now }
{
    match graph.number(name) {
        None => 0,
        Some(number) => copies.get(number).copied().unwrap_or(0),
    }
}

// How many nodes the arguments of `setup` have, for each process that `main` makes.
fn setups_nodes(main: &[MainLine]) -> u32 {
    let mut all = 0u32;
    for line in main {
        if let MainLine::New { name, count, .. } = line {
            let made = match count {
                None => 1,
                Some(count) => u32::try_from(*count).unwrap_or(u32::MAX),
            };
            if made > 0 {
                let nodes = setup_nodes(name.as_slice(), main);
                all = all.saturating_add(nodes.saturating_mul(made));
            }
        }
    }
    all
}

// How many nodes the arguments of the first line of `setup` for a name have.
fn setup_nodes(name: &[u8], main: &[MainLine]) -> u32 {
    for line in main {
        if let MainLine::Setup {
            name: other,
            args,
            ..
        } = line
        {
            if other.as_slice() == name {
                return all_nodes(args.as_slice());
            }
        }
    }
    0
}
