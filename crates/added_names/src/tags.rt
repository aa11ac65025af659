//! The tags in expressions and patterns.
ghost use Rattle.added_names.specs.Tags as spec;
ghost use Rattle.std.specs.List.{flat_map};
ghost use Rattle.std.specs.Prelude.{◌≡◌, ◌++◌, OnOk};

use crate::added::AddedTag;
use crate::names::is_name;
use da_lang::{ChainTree, Expr, GenTree, PatternTree, PeerTree, SourceTree};
use da_values::{Boxed, List, NoMemory, copy_bytes};
use std::alloc::Global;

/// Appends a text that so many parts follow, where it spells a name.
#[tactic(auto, unfolding(crate::specs::Tags::tag_at))]
fn put_tag(
    alloc: Global,
    text: &[u8],
    parts: usize,
    line: u32,
    out: &mut List<AddedTag>,
) -> Result<(), NoMemory>
    ensures { OnOk result (out.new ≡ out.old ++ spec.tag_at line text.now parts) }
{
    if is_name(text) {
        let tag = copy_bytes(alloc, text)?;
        out.push(AddedTag { tag, parts, line })
    } else {
        Ok(())
    }
}

/// Appends the tag of a tuple that begins with this pattern and has so many more parts.
#[tactic(auto, using(crate::proofs::TagsAt::lead_rules))]
fn put_lead(
    alloc: Global,
    first: &PatternTree,
    parts: usize,
    line: u32,
    out: &mut List<AddedTag>,
) -> Result<(), NoMemory>
    ensures { OnOk result (out.new ≡ out.old ++ spec.lead line first.now parts) }
{
    match first {
        PatternTree::Text(text) => put_tag(alloc, text.as_bytes(), parts, line, out),
        PatternTree::Wild => Ok(()),
        PatternTree::Name(_) => Ok(()),
        PatternTree::Int(_) => Ok(()),
        PatternTree::Truth(_) => Ok(()),
        PatternTree::Me => Ok(()),
        PatternTree::Equal(_) => Ok(()),
        PatternTree::Tuple(_) => Ok(()),
    }
}

/// Appends the tag of a tuple of patterns.
#[tactic(auto, using(crate::proofs::TagsAt::tag_rules))]
fn put_leads(
    alloc: Global,
    parts: &[PatternTree],
    line: u32,
    out: &mut List<AddedTag>,
) -> Result<(), NoMemory>
    ensures { OnOk result (out.new ≡ out.old ++ spec.leads line parts.now) }
{
    match parts {
        [] => Ok(()),
        [first, rest @ ..] => put_lead(alloc, first, rest.len(), line, out),
    }
}

/// Appends the tag of a pattern of messages.
#[tactic(auto, using(crate::proofs::TagsAt::tag_rules))]
pub fn put_pattern_tag(
    alloc: Global,
    pattern: &PatternTree,
    line: u32,
    out: &mut List<AddedTag>,
) -> Result<(), NoMemory>
    ensures { OnOk result (out.new ≡ out.old ++ spec.pattern_tag line pattern.now) }
{
    match pattern {
        PatternTree::Tuple(parts) => put_leads(alloc, parts.as_slice(), line, out),
        PatternTree::Wild => Ok(()),
        PatternTree::Name(_) => Ok(()),
        PatternTree::Int(_) => Ok(()),
        PatternTree::Text(_) => Ok(()),
        PatternTree::Truth(_) => Ok(()),
        PatternTree::Me => Ok(()),
        PatternTree::Equal(_) => Ok(()),
    }
}

/// Appends the tag of a pattern of messages, where it is over a history.
#[tactic(auto, unfolding(crate::specs::Tags::in_history))]
fn put_history_tag(
    alloc: Global,
    pattern: &PatternTree,
    source: &SourceTree,
    line: u32,
    out: &mut List<AddedTag>,
) -> Result<(), NoMemory>
    ensures { OnOk result (out.new ≡ out.old ++ spec.in_history source.now (spec.pattern_tag line pattern.now)) }
{
    match source {
        SourceTree::Received => put_pattern_tag(alloc, pattern, line, out),
        SourceTree::Sent => put_pattern_tag(alloc, pattern, line, out),
        SourceTree::Name(_) => Ok(()),
    }
}

/// Appends the tag of a tuple that begins with this expression and has so many more parts.
#[tactic(auto, using(crate::proofs::TagsAt::sent_lead_rules))]
fn put_sent_lead(
    alloc: Global,
    first: &Expr,
    parts: usize,
    line: u32,
    out: &mut List<AddedTag>,
) -> Result<(), NoMemory>
    ensures { OnOk result (out.new ≡ out.old ++ spec.sent_lead line first.now parts) }
{
    match first {
        Expr::Text(text) => put_tag(alloc, text.as_bytes(), parts, line, out),
        _ => Ok(()),
    }
}

/// Appends the tag of a tuple of expressions.
#[tactic(auto, using(crate::proofs::TagsAt::sent_rules))]
fn put_sent_leads(
    alloc: Global,
    parts: &[Expr],
    line: u32,
    out: &mut List<AddedTag>,
) -> Result<(), NoMemory>
    ensures { OnOk result (out.new ≡ out.old ++ spec.sent_leads line parts.now) }
{
    match parts {
        [] => Ok(()),
        [first, rest @ ..] => put_sent_lead(alloc, first, rest.len(), line, out),
    }
}

/// Appends the tag of a message that is sent.
#[tactic(auto, using(crate::proofs::TagsAt::sent_rules))]
pub fn put_sent_tag(
    alloc: Global,
    message: &Expr,
    line: u32,
    out: &mut List<AddedTag>,
) -> Result<(), NoMemory>
    ensures { OnOk result (out.new ≡ out.old ++ spec.sent_tag line message.now) }
{
    match message {
        Expr::Tuple(parts) => put_sent_leads(alloc, parts.as_slice(), line, out),
        _ => Ok(()),
    }
}

/// Appends the tags within an expression.
#[cycle(tags)]
#[tactic(auto, using(crate::proofs::TagsAt::expr_rules))]
pub fn put_tags(
    x: &Expr,
    alloc: Global,
    line: u32,
    out: &mut List<AddedTag>,
) -> Result<(), NoMemory>
    ensures { OnOk result (out.new ≡ out.old ++ spec.tags_in line x.now) }
{
    match x {
        Expr::Quant {
            each: _,
            gens,
            cond,
        } => {
            put_gens(gens.as_slice(), alloc, line, out)?;
            put_guard(cond, alloc, line, out)
        }
        Expr::Or(parts) => put_all(parts.as_slice(), alloc, line, out),
        Expr::And(parts) => put_all(parts.as_slice(), alloc, line, out),
        Expr::Not(part) => put_tags(part.get(), alloc, line, out),
        Expr::Cmp(_, left, right) => {
            put_tags(left.get(), alloc, line, out)?;
            put_tags(right.get(), alloc, line, out)
        }
        Expr::Member(left, right) => {
            put_tags(left.get(), alloc, line, out)?;
            put_tags(right.get(), alloc, line, out)
        }
        Expr::Chain(first, others) => {
            put_tags(first.get(), alloc, line, out)?;
            put_links(others.as_slice(), alloc, line, out)
        }
        Expr::Int(_) => Ok(()),
        Expr::Text(_) => Ok(()),
        Expr::Truth(_) => Ok(()),
        Expr::Me => Ok(()),
        Expr::Name(_) => Ok(()),
        Expr::Clock => Ok(()),
        Expr::Range(left, right) => {
            put_tags(left.get(), alloc, line, out)?;
            put_tags(right.get(), alloc, line, out)
        }
        Expr::Tuple(parts) => put_all(parts.as_slice(), alloc, line, out),
        Expr::SetOf(parts) => put_all(parts.as_slice(), alloc, line, out),
        Expr::Comp { term, gens, cond } => {
            put_tags(term.get(), alloc, line, out)?;
            put_gens(gens.as_slice(), alloc, line, out)?;
            put_guard(cond, alloc, line, out)
        }
        Expr::Count(part) => put_tags(part.get(), alloc, line, out),
        Expr::Sum(part) => put_tags(part.get(), alloc, line, out),
        Expr::Min(left, right) => {
            put_tags(left.get(), alloc, line, out)?;
            put_tags(right.get(), alloc, line, out)
        }
        Expr::Max(left, right) => {
            put_tags(left.get(), alloc, line, out)?;
            put_tags(right.get(), alloc, line, out)
        }
    }
}

/// Appends the tags within expressions.
#[cycle(tags)]
pub fn put_all(
    parts: &[Expr],
    alloc: Global,
    line: u32,
    out: &mut List<AddedTag>,
) -> Result<(), NoMemory>
    ensures { OnOk result (out.new ≡ out.old ++ flat_map (spec.tags_in line) parts.now) }
{
    for part in parts {
        put_tags(part, alloc, line, out)?;
    }
    Ok(())
}

/// Appends the tags within the further operands of a chain.
#[cycle(tags)]
#[tactic(auto, using(crate::proofs::TagsAt::chain_tags_of))]
fn put_links(
    others: &[ChainTree],
    alloc: Global,
    line: u32,
    out: &mut List<AddedTag>,
) -> Result<(), NoMemory>
    ensures { OnOk result (out.new ≡ out.old ++ flat_map (spec.chain_tags line) others.now) }
{
    for other in others {
        put_tags(other.operand.get(), alloc, line, out)?;
    }
    Ok(())
}

/// Appends the tags within a condition, where there is one.
#[cycle(tags)]
#[tactic(auto, using(crate::proofs::TagsAt::expr_rules))]
fn put_guard(
    cond: &Option<Boxed<Expr>>,
    alloc: Global,
    line: u32,
    out: &mut List<AddedTag>,
) -> Result<(), NoMemory>
    ensures { OnOk result (out.new ≡ out.old ++ spec.guard_tags line cond.now) }
{
    match cond {
        None => Ok(()),
        Some(cond) => put_tags(cond.get(), alloc, line, out),
    }
}

/// Appends the tags within generators.
#[cycle(tags)]
fn put_gens(
    gens: &[GenTree],
    alloc: Global,
    line: u32,
    out: &mut List<AddedTag>,
) -> Result<(), NoMemory>
    ensures { OnOk result (out.new ≡ out.old ++ flat_map (spec.gen_tags line) gens.now) }
{
    for generator in gens {
        put_gen(generator, alloc, line, out)?;
    }
    Ok(())
}

/// Appends the tags within a generator.
#[cycle(tags)]
#[tactic(auto, using(crate::proofs::TagsAt::gen_rules))]
fn put_gen(
    generator: &GenTree,
    alloc: Global,
    line: u32,
    out: &mut List<AddedTag>,
) -> Result<(), NoMemory>
    ensures { OnOk result (out.new ≡ out.old ++ spec.gen_tags line generator.now) }
{
    put_history_tag(alloc, &generator.message, &generator.source, line, out)?;
    put_pattern(&generator.message, alloc, line, out)?;
    put_peer(&generator.peer, alloc, line, out)
}

/// Appends the tags within a pattern.
#[cycle(tags)]
#[tactic(auto, using(crate::proofs::TagsAt::pattern_rules))]
pub fn put_pattern(
    pattern: &PatternTree,
    alloc: Global,
    line: u32,
    out: &mut List<AddedTag>,
) -> Result<(), NoMemory>
    ensures { OnOk result (out.new ≡ out.old ++ spec.pattern_tags line pattern.now) }
{
    match pattern {
        PatternTree::Wild => Ok(()),
        PatternTree::Name(_) => Ok(()),
        PatternTree::Int(_) => Ok(()),
        PatternTree::Text(_) => Ok(()),
        PatternTree::Truth(_) => Ok(()),
        PatternTree::Me => Ok(()),
        PatternTree::Equal(x) => put_tags(x.get(), alloc, line, out),
        PatternTree::Tuple(parts) => put_patterns(parts.as_slice(), alloc, line, out),
    }
}

/// Appends the tags within patterns.
#[cycle(tags)]
fn put_patterns(
    parts: &[PatternTree],
    alloc: Global,
    line: u32,
    out: &mut List<AddedTag>,
) -> Result<(), NoMemory>
    ensures { OnOk result (out.new ≡ out.old ++ flat_map (spec.pattern_tags line) parts.now) }
{
    for part in parts {
        put_pattern(part, alloc, line, out)?;
    }
    Ok(())
}

/// Appends the tags within the pattern of the other process, where there is one.
#[cycle(tags)]
#[tactic(auto, using(crate::proofs::TagsAt::pattern_rules))]
fn put_peer(
    peer: &Option<PeerTree>,
    alloc: Global,
    line: u32,
    out: &mut List<AddedTag>,
) -> Result<(), NoMemory>
    ensures { OnOk result (out.new ≡ out.old ++ spec.peer_if line peer.now) }
{
    match peer {
        None => Ok(()),
        Some(PeerTree::From(pattern)) => put_pattern(pattern, alloc, line, out),
        Some(PeerTree::To(pattern)) => put_pattern(pattern, alloc, line, out),
    }
}
