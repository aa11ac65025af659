//! Names in expressions, patterns and generators.
ghost use Rattle.da_lang.specs.declared.tree.GenTree.{out-GenTree};
ghost use Rattle.da_lang.specs.declared.refusal.ScopeKind.TheVariants.{Shadow, Unknown};
ghost use Rattle.da_lang.specs.ExprNames.{Local, QueryVariable, gen_part, is_slot as slot_of, names_of, pattern_part, peer_part, source_part, taken, unless, used};
ghost use Rattle.da_lang.specs.Scopes.{look};
ghost use Rattle.da_bodies.specs.ScopeView.{role_of};
ghost use Rattle.da_bodies.specs.Told.{after_part_of, behind_all, told_all, told_argument, told_expr, told_kinds, told_link, told_part};
ghost use Rattle.std.specs.List.{fold};
ghost use Rattle.std.specs.Option.{option_to_list};
ghost use Rattle.std.specs.Prelude.{◌≡◌, [], ◌∷◌, if◌then◌else◌, option_map, OnOk};

use crate::earliest::Earliest;
use crate::scope::{Names, Role};
use da_lang::{ChainTree, Expr, GenTree, PatternTree, PeerTree, ScopeKind, SourceTree};
use da_values::{Boxed, NoMemory};

/// Tells a refusal where something is not allowed.
#[tactic(auto, unfolding(crate::specs::Told::told_kinds, crate::specs::Telling::telling_by))]
pub fn tell_unless(allowed: bool, kind: ScopeKind, line: u32, least: &mut Earliest<ScopeKind>)
    ensures { least.new ≡ told_kinds line least.old (unless allowed kind) }
{
    if !allowed {
        least.tell(kind, line);
    }
}

/// Whether a name that stands for this may be used as a value.
pub fn is_value(found: Option<Role>) -> bool
    ensures { used (option_map role_of found) ≡ unless result Unknown }
{
    found.is_some()
}

/// Whether a name that stands for this may be that of a new variable.
fn is_free(found: Option<Role>) -> bool
    ensures { taken (option_map role_of found) ≡ unless result Shadow }
{
    match found {
        None => true,
        Some(role) => match role {
            Role::Made => true,
            Role::ClassVariable | Role::Local | Role::QueryVariable => false,
        },
    }
}

/// Tells that a new variable takes the name of one in scope.
pub fn check_new(name: &[u8], line: u32, names: &Names<'_>, least: &mut Earliest<ScopeKind>)
    ensures { least.new ≡ told_kinds line least.old (taken (look names.now name.now)) }
{
    let free = is_free(names.look(name));
    tell_unless(free, ScopeKind::Shadow, line, least);
}

/// Whether a name that stands for this is a slot.
fn is_slot(found: Option<Role>) -> bool
    ensures { result ≡ slot_of (option_map role_of found) }
{
    match found {
        None => false,
        Some(role) => match role {
            Role::ClassVariable | Role::Local => true,
            Role::QueryVariable | Role::Made => false,
        },
    }
}

/// Whether an expression may be the argument of an aggregate.
fn is_range(x: &Expr, names: &Names<'_>) -> bool
    ensures { result ≡ (names_of x.now).ranges names.now }
{
    match x {
        Expr::Name(name) => is_slot(names.look(name.as_slice())),
        Expr::Comp {
            term: _,
            gens: _,
            cond: _,
        } => true,
        _ => false,
    }
}

/// Checks an expression at a line.
#[cycle(expressions)]
#[tactic(auto, using(crate::proofs::ToldExprs::expr_rules))]
pub fn check_expr<'t>(
    x: &'t Expr,
    line: u32,
    names: &mut Names<'t>,
    least: &mut Earliest<ScopeKind>,
) -> Result<(), NoMemory>
    ensures told { OnOk result (least.new ≡ told_expr line names.old least.old x.now) }
    ensures same { OnOk result (names.new ≡ names.old) }
{
    match x {
        Expr::Quant {
            each: _,
            gens,
            cond,
        } => {
            let outside = names.len();
            enter_gens(gens.as_slice(), line, names, least)?;
            check_condition(cond, line, names, least)?;
            names.leave_to(outside);
            Ok(())
        }
        Expr::Comp { term, gens, cond } => {
            let outside = names.len();
            enter_gens(gens.as_slice(), line, names, least)?;
            check_condition(cond, line, names, least)?;
            check_expr(term.get(), line, names, least)?;
            names.leave_to(outside);
            Ok(())
        }
        Expr::Name(name) => {
            let allowed = is_value(names.look(name.as_slice()));
            tell_unless(allowed, ScopeKind::Unknown, line, least);
            Ok(())
        }
        Expr::Or(parts) => check_exprs(parts.as_slice(), line, names, least),
        Expr::And(parts) => check_exprs(parts.as_slice(), line, names, least),
        Expr::Tuple(parts) => check_exprs(parts.as_slice(), line, names, least),
        Expr::SetOf(parts) => check_exprs(parts.as_slice(), line, names, least),
        Expr::Not(part) => check_expr(part.get(), line, names, least),
        Expr::Cmp(_, first, second) => {
            check_expr(first.get(), line, names, least)?;
            check_expr(second.get(), line, names, least)
        }
        Expr::Member(first, second) => {
            check_expr(first.get(), line, names, least)?;
            check_expr(second.get(), line, names, least)
        }
        Expr::Range(first, second) => {
            check_expr(first.get(), line, names, least)?;
            check_expr(second.get(), line, names, least)
        }
        Expr::Chain(first, links) => {
            check_expr(first.get(), line, names, least)?;
            check_links(links.as_slice(), line, names, least)
        }
        Expr::Count(argument) => check_argument(argument.get(), line, names, least),
        Expr::Sum(argument) => check_argument(argument.get(), line, names, least),
        Expr::Min(argument, other) => {
            check_argument(argument.get(), line, names, least)?;
            check_expr(other.get(), line, names, least)
        }
        Expr::Max(argument, other) => {
            check_argument(argument.get(), line, names, least)?;
            check_expr(other.get(), line, names, least)
        }
        Expr::Int(_) => Ok(()),
        Expr::Text(_) => Ok(()),
        Expr::Truth(_) => Ok(()),
        Expr::Me => Ok(()),
        Expr::Clock => Ok(()),
    }
}

/// Checks expressions at a line.
#[cycle(expressions)]
pub fn check_exprs<'t>(
    xs: &'t [Expr],
    line: u32,
    names: &mut Names<'t>,
    least: &mut Earliest<ScopeKind>,
) -> Result<(), NoMemory>
    ensures told { OnOk result (least.new ≡ fold (told_expr line names.old) least.old xs.now) }
    ensures same { OnOk result (names.new ≡ names.old) }
{
    for x in xs {
        check_expr(x, line, names, least)?;
    }
    Ok(())
}

/// Checks the further operands of a chain.
#[cycle(expressions)]
#[tactic(auto, unfolding(crate::specs::Told::told_link))]
fn check_links<'t>(
    links: &'t [ChainTree],
    line: u32,
    names: &mut Names<'t>,
    least: &mut Earliest<ScopeKind>,
) -> Result<(), NoMemory>
    ensures told { OnOk result (least.new ≡ fold (told_link line names.old) least.old links.now) }
    ensures same { OnOk result (names.new ≡ names.old) }
{
    for link in links {
        check_expr(link.operand.get(), line, names, least)?;
    }
    Ok(())
}

/// Checks the argument of an aggregate.
#[cycle(expressions)]
#[tactic(auto, unfolding(crate::specs::Told::told_argument))]
fn check_argument<'t>(
    x: &'t Expr,
    line: u32,
    names: &mut Names<'t>,
    least: &mut Earliest<ScopeKind>,
) -> Result<(), NoMemory>
    ensures told { OnOk result (least.new ≡ told_argument line names.old least.old x.now) }
    ensures same { OnOk result (names.new ≡ names.old) }
{
    let allowed = is_range(x, names);
    tell_unless(allowed, ScopeKind::Unknown, line, least);
    check_expr(x, line, names, least)
}

/// Checks the condition of a query, where it has one.
#[cycle(expressions)]
fn check_condition<'t>(
    cond: &'t Option<Boxed<Expr>>,
    line: u32,
    names: &mut Names<'t>,
    least: &mut Earliest<ScopeKind>,
) -> Result<(), NoMemory>
    ensures told { OnOk result (least.new ≡ fold (told_expr line names.old) least.old (option_to_list cond.now)) }
    ensures same { OnOk result (names.new ≡ names.old) }
{
    match cond {
        None => Ok(()),
        Some(x) => check_expr(x.get(), line, names, least),
    }
}

/// Checks generators in order; their variables come into scope.
#[cycle(expressions)]
#[tactic(auto, using(crate::proofs::ToldExprs::gen_steps))]
fn enter_gens<'t>(
    gens: &'t [GenTree],
    line: u32,
    names: &mut Names<'t>,
    least: &mut Earliest<ScopeKind>,
) -> Result<(), NoMemory>
    ensures told { OnOk result (least.new ≡ told_all gen_part line QueryVariable names.old least.old gens.now) }
    ensures entered { OnOk result (names.new ≡ behind_all gen_part QueryVariable names.old gens.now) }
{
    for generator in gens {
        enter_gen(generator, line, names, least)?;
    }
    Ok(())
}

/// Checks a generator; its variables come into scope.
#[cycle(expressions)]
#[tactic(auto, using(crate::proofs::ToldExprs::gen_rules))]
fn enter_gen<'t>(
    generator: &'t GenTree,
    line: u32,
    names: &mut Names<'t>,
    least: &mut Earliest<ScopeKind>,
) -> Result<(), NoMemory>
    ensures told { OnOk result (least.new ≡ told_part line QueryVariable names.old least.old (gen_part generator.now)) }
    ensures entered { OnOk result (names.new ≡ after_part_of QueryVariable names.old (gen_part generator.now)) }
{
    enter_pattern(&generator.message, line, names, least)?;
    enter_peer(&generator.peer, line, names, least)?;
    check_source(&generator.source, line, names, least);
    Ok(())
}

/// Checks the pattern of the other process, where there is one; its variables come into scope.
#[cycle(expressions)]
#[tactic(auto, using(crate::proofs::ToldExprs::peer_rules))]
fn enter_peer<'t>(
    peer: &'t Option<PeerTree>,
    line: u32,
    names: &mut Names<'t>,
    least: &mut Earliest<ScopeKind>,
) -> Result<(), NoMemory>
    ensures told { OnOk result (least.new ≡ told_all peer_part line QueryVariable names.old least.old (option_to_list peer.now)) }
    ensures entered { OnOk result (names.new ≡ behind_all peer_part QueryVariable names.old (option_to_list peer.now)) }
{
    match peer {
        None => Ok(()),
        Some(PeerTree::From(pattern)) => enter_pattern(pattern, line, names, least),
        Some(PeerTree::To(pattern)) => enter_pattern(pattern, line, names, least),
    }
}

/// Checks where the messages or elements of a generator come from.
#[tactic(auto, using(crate::proofs::ToldExprs::source_rules))]
fn check_source(source: &SourceTree, line: u32, names: &Names<'_>, least: &mut Earliest<ScopeKind>)
    ensures { least.new ≡ told_part line QueryVariable names.now least.old (source_part source.now) }
{
    match source {
        SourceTree::Received => {}
        SourceTree::Sent => {}
        SourceTree::Name(name) => {
            let allowed = is_slot(names.look(name.as_slice()));
            tell_unless(allowed, ScopeKind::Unknown, line, least);
        }
    }
}

/// Checks a pattern of a query; its variables come into scope.
#[cycle(expressions)]
#[tactic(auto, using(crate::proofs::ToldExprs::pattern_rules))]
fn enter_pattern<'t>(
    pattern: &'t PatternTree,
    line: u32,
    names: &mut Names<'t>,
    least: &mut Earliest<ScopeKind>,
) -> Result<(), NoMemory>
    ensures told { OnOk result (least.new ≡ told_part line QueryVariable names.old least.old (pattern_part pattern.now)) }
    ensures entered { OnOk result (names.new ≡ after_part_of QueryVariable names.old (pattern_part pattern.now)) }
{
    match pattern {
        PatternTree::Name(name) => {
            check_new(name.as_slice(), line, names, least);
            names.enter(name.as_slice(), Role::QueryVariable)
        }
        PatternTree::Equal(x) => check_expr(x.get(), line, names, least),
        PatternTree::Tuple(parts) => enter_patterns(parts.as_slice(), line, names, least),
        PatternTree::Wild => Ok(()),
        PatternTree::Int(_) => Ok(()),
        PatternTree::Text(_) => Ok(()),
        PatternTree::Truth(_) => Ok(()),
        PatternTree::Me => Ok(()),
    }
}

/// Checks patterns of a query in order; their variables come into scope.
#[cycle(expressions)]
#[tactic(auto, using(crate::proofs::ToldExprs::pattern_steps))]
fn enter_patterns<'t>(
    patterns: &'t [PatternTree],
    line: u32,
    names: &mut Names<'t>,
    least: &mut Earliest<ScopeKind>,
) -> Result<(), NoMemory>
    ensures told { OnOk result (least.new ≡ told_all pattern_part line QueryVariable names.old least.old patterns.now) }
    ensures entered { OnOk result (names.new ≡ behind_all pattern_part QueryVariable names.old patterns.now) }
{
    for pattern in patterns {
        enter_pattern(pattern, line, names, least)?;
    }
    Ok(())
}

/// Checks a pattern of a handler. Its variables come into scope in the body alone.
#[cycle(handled)]
#[tactic(auto, using(crate::proofs::ToldExprs::pattern_rules))]
pub fn check_pattern<'t>(
    pattern: &'t PatternTree,
    line: u32,
    names: &mut Names<'t>,
    least: &mut Earliest<ScopeKind>,
) -> Result<(), NoMemory>
    ensures told { OnOk result (least.new ≡ told_part line Local names.old least.old (pattern_part pattern.now)) }
    ensures same { OnOk result (names.new ≡ names.old) }
{
    match pattern {
        PatternTree::Name(name) => {
            check_new(name.as_slice(), line, names, least);
            Ok(())
        }
        PatternTree::Equal(x) => check_expr(x.get(), line, names, least),
        PatternTree::Tuple(parts) => check_patterns(parts.as_slice(), line, names, least),
        PatternTree::Wild => Ok(()),
        PatternTree::Int(_) => Ok(()),
        PatternTree::Text(_) => Ok(()),
        PatternTree::Truth(_) => Ok(()),
        PatternTree::Me => Ok(()),
    }
}

/// Checks patterns of a handler.
#[cycle(handled)]
fn check_patterns<'t>(
    patterns: &'t [PatternTree],
    line: u32,
    names: &mut Names<'t>,
    least: &mut Earliest<ScopeKind>,
) -> Result<(), NoMemory>
    ensures told { OnOk result (least.new ≡ told_all pattern_part line Local names.old least.old patterns.now) }
    ensures same { OnOk result (names.new ≡ names.old) }
{
    for pattern in patterns {
        check_pattern(pattern, line, names, least)?;
    }
    Ok(())
}
