//! Copies of trees. Each is equal to what it is made from.
ghost use Rattle.std.specs.Prelude.{◌≡◌, IfOk};

use da_lang::{
    Branch, ChainTree, Expr, GenTree, MainLine, MessageDecl, Name, PatternTree, PeerTree,
    SourceTree, Stmt, TimeoutTree, copy_types,
};
use da_values::{Boxed, List, NoMemory, copy_bytes};
use std::alloc::Global;

// A copy of a name.
pub fn copy_name(alloc: Global, name: &Name) -> Result<Name, NoMemory>
    ensures { IfOk result (λ copy. copy ≡ name.now) }
{
    copy_bytes(alloc, name.as_slice())
}

// A copy of a source.
fn copy_source(alloc: Global, source: &SourceTree) -> Result<SourceTree, NoMemory>
    ensures { IfOk result (λ copy. copy ≡ source.now) }
{
    match source {
        SourceTree::Received => Ok(SourceTree::Received),
        SourceTree::Sent => Ok(SourceTree::Sent),
        SourceTree::Name(name) => Ok(SourceTree::Name(copy_name(alloc, name)?)),
    }
}

/// A copy of an expression.
#[cycle(exprs)]
fn copy_expr(alloc: Global, x: &Expr) -> Result<Expr, NoMemory>
    ensures { IfOk result (λ copy. copy ≡ x.now) }
{
    match x {
        Expr::Quant { each, gens, cond } => {
            let gens = copy_gens(alloc, gens.as_slice())?;
            let cond = copy_guard(alloc, cond)?;
            Ok(Expr::Quant {
                each: *each,
                gens,
                cond,
            })
        }
        Expr::Or(parts) => Ok(Expr::Or(copy_exprs(alloc, parts.as_slice())?)),
        Expr::And(parts) => Ok(Expr::And(copy_exprs(alloc, parts.as_slice())?)),
        Expr::Not(part) => Ok(Expr::Not(boxed_expr(alloc, part.get())?)),
        Expr::Cmp(op, left, right) => {
            let left = boxed_expr(alloc, left.get())?;
            let right = boxed_expr(alloc, right.get())?;
            Ok(Expr::Cmp(*op, left, right))
        }
        Expr::Member(left, right) => {
            let left = boxed_expr(alloc, left.get())?;
            let right = boxed_expr(alloc, right.get())?;
            Ok(Expr::Member(left, right))
        }
        Expr::Chain(first, others) => {
            let first = boxed_expr(alloc, first.get())?;
            let others = copy_links(alloc, others.as_slice())?;
            Ok(Expr::Chain(first, others))
        }
        Expr::Int(number) => Ok(Expr::Int(*number)),
        Expr::Text(text) => Ok(Expr::Text(text.copy(alloc)?)),
        Expr::Truth(truth) => Ok(Expr::Truth(*truth)),
        Expr::Me => Ok(Expr::Me),
        Expr::Name(name) => Ok(Expr::Name(copy_name(alloc, name)?)),
        Expr::Clock => Ok(Expr::Clock),
        Expr::Range(left, right) => {
            let left = boxed_expr(alloc, left.get())?;
            let right = boxed_expr(alloc, right.get())?;
            Ok(Expr::Range(left, right))
        }
        Expr::Tuple(parts) => Ok(Expr::Tuple(copy_exprs(alloc, parts.as_slice())?)),
        Expr::SetOf(parts) => Ok(Expr::SetOf(copy_exprs(alloc, parts.as_slice())?)),
        Expr::Comp { term, gens, cond } => {
            let gens = copy_gens(alloc, gens.as_slice())?;
            let cond = copy_guard(alloc, cond)?;
            let term = boxed_expr(alloc, term.get())?;
            Ok(Expr::Comp { term, gens, cond })
        }
        Expr::Count(part) => Ok(Expr::Count(boxed_expr(alloc, part.get())?)),
        Expr::Sum(part) => Ok(Expr::Sum(boxed_expr(alloc, part.get())?)),
        Expr::Min(left, right) => {
            let left = boxed_expr(alloc, left.get())?;
            let right = boxed_expr(alloc, right.get())?;
            Ok(Expr::Min(left, right))
        }
        Expr::Max(left, right) => {
            let left = boxed_expr(alloc, left.get())?;
            let right = boxed_expr(alloc, right.get())?;
            Ok(Expr::Max(left, right))
        }
    }
}

/// A copy of an expression, on the heap.
#[cycle(exprs)]
fn boxed_expr(alloc: Global, x: &Expr) -> Result<Boxed<Expr>, NoMemory>
    ensures { IfOk result (λ copy. copy ≡ x.now) }
{
    Boxed::new(alloc, copy_expr(alloc, x)?)
}

/// Copies of expressions.
#[cycle(exprs)]
fn copy_exprs(alloc: Global, parts: &[Expr]) -> Result<List<Expr>, NoMemory>
    ensures { IfOk result (λ copy. copy ≡ parts.now) }
{
    let mut copy = List::new(alloc);
    for part in parts {
        copy.push(copy_expr(alloc, part)?)?;
    }
    Ok(copy)
}

/// Copies of the further operands of a chain.
#[cycle(exprs)]
fn copy_links(alloc: Global, others: &[ChainTree]) -> Result<List<ChainTree>, NoMemory>
    ensures { IfOk result (λ copy. copy ≡ others.now) }
{
    let mut copy = List::new(alloc);
    for other in others {
        let operand = boxed_expr(alloc, other.operand.get())?;
        copy.push(ChainTree {
            op: other.op,
            operand,
        })?;
    }
    Ok(copy)
}

/// A copy of a condition that may be left out.
#[cycle(exprs)]
fn copy_guard(alloc: Global, cond: &Option<Boxed<Expr>>) -> Result<Option<Boxed<Expr>>, NoMemory>
    ensures { IfOk result (λ copy. copy ≡ cond.now) }
{
    match cond {
        None => Ok(None),
        Some(cond) => Ok(Some(boxed_expr(alloc, cond.get())?)),
    }
}

/// Copies of generators.
#[cycle(exprs)]
fn copy_gens(alloc: Global, gens: &[GenTree]) -> Result<List<GenTree>, NoMemory>
    ensures { IfOk result (λ copy. copy ≡ gens.now) }
{
    let mut copy = List::new(alloc);
    for generator in gens {
        copy.push(copy_gen(alloc, generator)?)?;
    }
    Ok(copy)
}

/// A copy of a generator.
#[cycle(exprs)]
fn copy_gen(alloc: Global, generator: &GenTree) -> Result<GenTree, NoMemory>
    ensures { IfOk result (λ copy. copy ≡ generator.now) }
{
    let source = copy_source(alloc, &generator.source)?;
    let message = copy_pattern(alloc, &generator.message)?;
    let peer = copy_peer(alloc, &generator.peer)?;
    Ok(GenTree {
        message,
        peer,
        source,
    })
}

/// A copy of the pattern of the other process, which may be left out.
#[cycle(exprs)]
fn copy_peer(alloc: Global, peer: &Option<PeerTree>) -> Result<Option<PeerTree>, NoMemory>
    ensures { IfOk result (λ copy. copy ≡ peer.now) }
{
    match peer {
        None => Ok(None),
        Some(PeerTree::From(pattern)) => Ok(Some(PeerTree::From(copy_pattern(alloc, pattern)?))),
        Some(PeerTree::To(pattern)) => Ok(Some(PeerTree::To(copy_pattern(alloc, pattern)?))),
    }
}

/// A copy of a pattern.
#[cycle(exprs)]
pub fn copy_pattern(alloc: Global, pattern: &PatternTree) -> Result<PatternTree, NoMemory>
    ensures { IfOk result (λ copy. copy ≡ pattern.now) }
{
    match pattern {
        PatternTree::Wild => Ok(PatternTree::Wild),
        PatternTree::Name(name) => Ok(PatternTree::Name(copy_name(alloc, name)?)),
        PatternTree::Int(number) => Ok(PatternTree::Int(*number)),
        PatternTree::Text(text) => Ok(PatternTree::Text(text.copy(alloc)?)),
        PatternTree::Truth(truth) => Ok(PatternTree::Truth(*truth)),
        PatternTree::Me => Ok(PatternTree::Me),
        PatternTree::Equal(x) => Ok(PatternTree::Equal(boxed_expr(alloc, x.get())?)),
        PatternTree::Tuple(parts) => {
            Ok(PatternTree::Tuple(copy_patterns(alloc, parts.as_slice())?))
        }
    }
}

/// Copies of patterns.
#[cycle(exprs)]
fn copy_patterns(alloc: Global, parts: &[PatternTree]) -> Result<List<PatternTree>, NoMemory>
    ensures { IfOk result (λ copy. copy ≡ parts.now) }
{
    let mut copy = List::new(alloc);
    for part in parts {
        copy.push(copy_pattern(alloc, part)?)?;
    }
    Ok(copy)
}

/// A copy of a pattern that may be left out.
pub fn copy_sender(
    alloc: Global,
    from: &Option<PatternTree>,
) -> Result<Option<PatternTree>, NoMemory>
    ensures { IfOk result (λ copy. copy ≡ from.now) }
{
    match from {
        None => Ok(None),
        Some(pattern) => Ok(Some(copy_pattern(alloc, pattern)?)),
    }
}

/// A copy of a statement.
#[cycle(stmts)]
fn copy_stmt(alloc: Global, stmt: &Stmt) -> Result<Stmt, NoMemory>
    ensures { IfOk result (λ copy. copy ≡ stmt.now) }
{
    match stmt {
        Stmt::Assign { name, value, line } => {
            let name = copy_name(alloc, name)?;
            let value = boxed_expr(alloc, value.get())?;
            Ok(Stmt::Assign {
                name,
                value,
                line: *line,
            })
        }
        Stmt::Add { name, value, line } => {
            let name = copy_name(alloc, name)?;
            let value = boxed_expr(alloc, value.get())?;
            Ok(Stmt::Add {
                name,
                value,
                line: *line,
            })
        }
        Stmt::Del { name, value, line } => {
            let name = copy_name(alloc, name)?;
            let value = boxed_expr(alloc, value.get())?;
            Ok(Stmt::Del {
                name,
                value,
                line: *line,
            })
        }
        Stmt::Send { message, to, line } => {
            let message = boxed_expr(alloc, message.get())?;
            let to = boxed_expr(alloc, to.get())?;
            Ok(Stmt::Send {
                message,
                to,
                line: *line,
            })
        }
        Stmt::Output { value, line } => {
            let value = boxed_expr(alloc, value.get())?;
            Ok(Stmt::Output { value, line: *line })
        }
        Stmt::Pass { line } => Ok(Stmt::Pass { line: *line }),
        Stmt::Label { name, line } => {
            let name = copy_name(alloc, name)?;
            Ok(Stmt::Label { name, line: *line })
        }
        Stmt::Call { name, args, line } => {
            let name = copy_name(alloc, name)?;
            let args = copy_exprs(alloc, args.as_slice())?;
            Ok(Stmt::Call {
                name,
                args,
                line: *line,
            })
        }
        Stmt::If {
            branches,
            otherwise,
            line,
        } => {
            let branches = copy_branches(alloc, branches.as_slice())?;
            match otherwise {
                None => Ok(Stmt::If {
                    branches,
                    otherwise: None,
                    line: *line,
                }),
                Some(body) => {
                    let body = copy_body(alloc, body.as_slice())?;
                    Ok(Stmt::If {
                        branches,
                        otherwise: Some(body),
                        line: *line,
                    })
                }
            }
        }
        Stmt::While { cond, body, line } => {
            let cond = boxed_expr(alloc, cond.get())?;
            let body = copy_body(alloc, body.as_slice())?;
            Ok(Stmt::While {
                cond,
                body,
                line: *line,
            })
        }
        Stmt::For {
            name,
            over,
            body,
            line,
        } => {
            let name = copy_name(alloc, name)?;
            let over = boxed_expr(alloc, over.get())?;
            let body = copy_body(alloc, body.as_slice())?;
            Ok(Stmt::For {
                name,
                over,
                body,
                line: *line,
            })
        }
        Stmt::AwaitOne { cond, line } => {
            let cond = boxed_expr(alloc, cond.get())?;
            Ok(Stmt::AwaitOne { cond, line: *line })
        }
        Stmt::Await {
            alts,
            timeout,
            line,
        } => {
            let alts = copy_branches(alloc, alts.as_slice())?;
            let timeout = copy_timeout(alloc, timeout)?;
            Ok(Stmt::Await {
                alts,
                timeout,
                line: *line,
            })
        }
    }
}

/// Copies of the statements of a block.
#[cycle(stmts)]
pub fn copy_body(alloc: Global, body: &[Stmt]) -> Result<List<Stmt>, NoMemory>
    ensures { IfOk result (λ copy. copy ≡ body.now) }
{
    let mut copy = List::new(alloc);
    for stmt in body {
        copy.push(copy_stmt(alloc, stmt)?)?;
    }
    Ok(copy)
}

/// Copies of headers with conditions and their blocks.
#[cycle(stmts)]
fn copy_branches(alloc: Global, branches: &[Branch]) -> Result<List<Branch>, NoMemory>
    ensures { IfOk result (λ copy. copy ≡ branches.now) }
{
    let mut copy = List::new(alloc);
    for branch in branches {
        copy.push(copy_branch(alloc, branch)?)?;
    }
    Ok(copy)
}

/// A copy of a header with a condition and its block.
#[cycle(stmts)]
fn copy_branch(alloc: Global, branch: &Branch) -> Result<Branch, NoMemory>
    ensures { IfOk result (λ copy. copy ≡ branch.now) }
{
    let cond = boxed_expr(alloc, branch.cond.get())?;
    let body = copy_body(alloc, branch.body.as_slice())?;
    Ok(Branch {
        cond,
        body,
        line: branch.line,
    })
}

/// A copy of `timeout` and its block, where there is one.
#[cycle(stmts)]
fn copy_timeout(
    alloc: Global,
    timeout: &Option<TimeoutTree>,
) -> Result<Option<TimeoutTree>, NoMemory>
    ensures { IfOk result (λ copy. copy ≡ timeout.now) }
{
    match timeout {
        None => Ok(None),
        Some(tree) => {
            let body = copy_body(alloc, tree.body.as_slice())?;
            Ok(Some(TimeoutTree {
                body,
                line: tree.line,
            }))
        }
    }
}

/// Copies of names.
pub fn copy_names(alloc: Global, names: &[Name]) -> Result<List<Name>, NoMemory>
    ensures { IfOk result (λ copy. copy ≡ names.now) }
{
    let mut copy = List::new(alloc);
    for name in names {
        copy.push(copy_name(alloc, name)?)?;
    }
    Ok(copy)
}

/// Copies of `message` lines.
pub fn copy_messages(alloc: Global, messages: &[MessageDecl]) -> Result<List<MessageDecl>, NoMemory>
    ensures { IfOk result (λ copy. copy ≡ messages.now) }
{
    let mut copy = List::new(alloc);
    for message in messages {
        let tag = copy_name(alloc, &message.tag)?;
        let parts = copy_types(alloc, message.parts.as_slice())?;
        copy.push(MessageDecl {
            tag,
            parts,
            line: message.line,
        })?;
    }
    Ok(copy)
}

/// A copy of a line of `main`.
fn copy_main_line(alloc: Global, line: &MainLine) -> Result<MainLine, NoMemory>
    ensures { IfOk result (λ copy. copy ≡ line.now) }
{
    match line {
        MainLine::New {
            name,
            class,
            count,
            line,
        } => {
            let name = copy_name(alloc, name)?;
            let class = copy_name(alloc, class)?;
            Ok(MainLine::New {
                name,
                class,
                count: *count,
                line: *line,
            })
        }
        MainLine::Setup { name, args, line } => {
            let name = copy_name(alloc, name)?;
            let args = copy_exprs(alloc, args.as_slice())?;
            Ok(MainLine::Setup {
                name,
                args,
                line: *line,
            })
        }
    }
}

/// Copies of the lines of `main`.
pub fn copy_main(alloc: Global, main: &[MainLine]) -> Result<List<MainLine>, NoMemory>
    ensures { IfOk result (λ copy. copy ≡ main.now) }
{
    let mut copy = List::new(alloc);
    for line in main {
        copy.push(copy_main_line(alloc, line)?)?;
    }
    Ok(copy)
}
