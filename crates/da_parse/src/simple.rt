//! Statements without blocks.
ghost use Rattle.std.specs.Prelude.{[], ◌∷◌, ◌≡◌, ◌≤◌, ◌<◌};
ghost use Rattle.da_phrases.specs.Exprs as phrases;
ghost use Rattle.da_phrases.specs.Exprs.{at_depth, expression};
ghost use Rattle.da_phrases.specs.Reader.{Reads};
ghost use Rattle.da_parse.specs.Stmts as spec;

use da_lang::{Expr, Name, PatternTree, Stmt};
use da_phrases::{Cursor, Level, Rules, Stop, expr_at, opening, pattern_at};
use da_values::{Boxed, List, Mark, copy_bytes};
use std::alloc::Global;

/// An expression.
pub fn expression(alloc: Global, tokens: &mut Cursor<'_>, depth: usize) -> Result<Boxed<Expr>, Stop>
    requires { depth ≤ 32 }
    ensures { Reads (expression (at_depth depth) tokens.old) result tokens.new }
{
    let found = expr_at(alloc, tokens, depth, Level::Expr)?;
    Ok(Boxed::new(alloc, found)?)
}

/// `(EXPR)`, where the expression may be a quantification.
#[tactic(auto, unfolding(crate::specs::Stmts::in_parens), using(da_phrases::proofs::Depth::expr_there))]
fn in_parens(alloc: Global, tokens: &mut Cursor<'_>, depth: usize) -> Result<Boxed<Expr>, Stop>
    ensures { Reads (spec.in_parens (at_depth depth) tokens.old) result tokens.new }
{
    opening(tokens, Mark::OpenParen, depth)?;
    let found = Boxed::new(alloc, expr_at(alloc, tokens, depth + 1, Level::Expr)?)?;
    tokens.expect(Mark::CloseParen)?;
    Ok(found)
}

// The rules of da_phrases as function values of this crate.
fn expr_below(
    alloc: Global,
    tokens: &mut Cursor<'_>,
    depth: usize,
    level: Level,
) -> Result<Expr, Stop>
    requires { depth ≤ 32 }
    ensures { Reads (phrases.at_level (at_depth depth) level tokens.old) result tokens.new }
{
    expr_at(alloc, tokens, depth, level)
}

fn pattern_below(alloc: Global, tokens: &mut Cursor<'_>, depth: usize) -> Result<PatternTree, Stop>
    requires { depth ≤ 32 }
    ensures { Reads (phrases.pattern (at_depth depth) tokens.old) result tokens.new }
{
    pattern_at(alloc, tokens, depth)
}

/// Arguments after `(`.
#[tactic(auto, using(da_phrases::proofs::Depth::expr_there, da_phrases::proofs::Depth::pattern_there))]
fn after_paren(alloc: Global, tokens: &mut Cursor<'_>, depth: usize) -> Result<List<Expr>, Stop>
    requires { depth < 32 }
    ensures { Reads (spec.after_paren (at_depth depth) tokens.old) result tokens.new }
{
    Rules {
        alloc,
        depth,
        expr: expr_below,
        pattern: pattern_below,
    }
    .closed_exprs(tokens, List::new(alloc))
}

/// Arguments in parentheses.
#[tactic(auto, unfolding(crate::specs::Stmts::arguments))]
fn arguments(alloc: Global, tokens: &mut Cursor<'_>, depth: usize) -> Result<List<Expr>, Stop>
    ensures { Reads (spec.arguments (at_depth depth) tokens.old) result tokens.new }
{
    opening(tokens, Mark::OpenParen, depth)?;
    after_paren(alloc, tokens, depth)
}

/// What stands after `NAME =`.
#[tactic(auto, unfolding(crate::specs::Stmts::assigned))]
fn assigned(
    alloc: Global,
    tokens: &mut Cursor<'_>,
    depth: usize,
    name: Name,
    line: u32,
) -> Result<Stmt, Stop>
    requires { depth ≤ 32 }
    ensures { Reads (spec.assigned (at_depth depth) name line tokens.old) result tokens.new }
{
    let value = expression(alloc, tokens, depth)?;
    tokens.expect(Mark::Newline)?;
    Ok(Stmt::Assign { name, value, line })
}

/// What stands after `NAME.`
#[tactic(auto, unfolding(crate::specs::Stmts::changed))]
fn changed(
    alloc: Global,
    tokens: &mut Cursor<'_>,
    depth: usize,
    name: Name,
    line: u32,
) -> Result<Stmt, Stop>
    ensures { Reads (spec.changed (at_depth depth) name line tokens.old) result tokens.new }
{
    if tokens.eat(Mark::Add) {
        let value = in_parens(alloc, tokens, depth)?;
        tokens.expect(Mark::Newline)?;
        return Ok(Stmt::Add { name, value, line });
    }
    tokens.expect(Mark::Del)?;
    let value = in_parens(alloc, tokens, depth)?;
    tokens.expect(Mark::Newline)?;
    Ok(Stmt::Del { name, value, line })
}

/// What stands after the name of a method.
#[tactic(auto, unfolding(crate::specs::Stmts::called))]
fn called(
    alloc: Global,
    tokens: &mut Cursor<'_>,
    depth: usize,
    name: Name,
    line: u32,
) -> Result<Stmt, Stop>
    ensures { Reads (spec.called (at_depth depth) name line tokens.old) result tokens.new }
{
    let args = arguments(alloc, tokens, depth)?;
    tokens.expect(Mark::Newline)?;
    Ok(Stmt::Call { name, args, line })
}

/// What stands after a name.
#[tactic(auto, unfolding(crate::specs::Stmts::named))]
fn named(
    alloc: Global,
    tokens: &mut Cursor<'_>,
    depth: usize,
    name: Name,
    line: u32,
) -> Result<Stmt, Stop>
    requires { depth ≤ 32 }
    ensures { Reads (spec.named (at_depth depth) name line tokens.old) result tokens.new }
{
    if tokens.eat(Mark::Assign) {
        return assigned(alloc, tokens, depth, name, line);
    }
    if tokens.eat(Mark::Dot) {
        return changed(alloc, tokens, depth, name, line);
    }
    called(alloc, tokens, depth, name, line)
}

/// What stands after `send`.
#[tactic(auto, unfolding(crate::specs::Stmts::sending))]
fn sending(alloc: Global, tokens: &mut Cursor<'_>, depth: usize, line: u32) -> Result<Stmt, Stop>
    requires { depth ≤ 32 }
    ensures { Reads (spec.sending (at_depth depth) line tokens.old) result tokens.new }
{
    let message = expression(alloc, tokens, depth)?;
    tokens.expect(Mark::To)?;
    let to = expression(alloc, tokens, depth)?;
    tokens.expect(Mark::Newline)?;
    Ok(Stmt::Send { message, to, line })
}

/// What stands after `output`.
#[tactic(auto, unfolding(crate::specs::Stmts::output))]
fn output(alloc: Global, tokens: &mut Cursor<'_>, depth: usize, line: u32) -> Result<Stmt, Stop>
    ensures { Reads (spec.output (at_depth depth) line tokens.old) result tokens.new }
{
    let value = in_parens(alloc, tokens, depth)?;
    tokens.expect(Mark::Newline)?;
    Ok(Stmt::Output { value, line })
}

/// What stands after `pass`.
#[tactic(auto, unfolding(crate::specs::Stmts::passing))]
fn passing(tokens: &mut Cursor<'_>, line: u32) -> Result<Stmt, Stop>
    ensures { Reads (spec.passing line tokens.old) result tokens.new }
{
    tokens.expect(Mark::Newline)?;
    Ok(Stmt::Pass { line })
}

/// What stands after `--`.
#[tactic(auto, unfolding(crate::specs::Stmts::label))]
fn label(alloc: Global, tokens: &mut Cursor<'_>, line: u32) -> Result<Stmt, Stop>
    ensures { Reads (spec.label line tokens.old) result tokens.new }
{
    let name = tokens.word(alloc, Mark::Name)?;
    tokens.expect(Mark::Newline)?;
    Ok(Stmt::Label { name, line })
}

/// A statement without blocks.
pub fn simple(
    alloc: Global,
    tokens: &mut Cursor<'_>,
    depth: usize,
    line: u32,
    mark: Option<Mark>,
) -> Result<Stmt, Stop>
    requires { depth ≤ 32 }
    ensures { Reads (spec.simple_by (at_depth depth) line mark tokens.old) result tokens.new }
{
    match mark {
        Some(Mark::Name) => {
            let name = copy_bytes(alloc, tokens.take())?;
            named(alloc, tokens, depth, name, line)
        }
        Some(Mark::Send) => {
            tokens.take();
            sending(alloc, tokens, depth, line)
        }
        Some(Mark::Output) => {
            tokens.take();
            output(alloc, tokens, depth, line)
        }
        Some(Mark::Pass) => {
            tokens.take();
            passing(tokens, line)
        }
        Some(Mark::Dashes) => {
            tokens.take();
            label(alloc, tokens, line)
        }
        _ => Err(tokens.refuse()),
    }
}
