//! Expressions and patterns.
ghost use Rattle.da_lang.specs.declared.tree.GenTree.{out-GenTree};
ghost use Rattle.da_unparse.specs.Expressions.{either};
ghost use Rattle.da_unparse.specs.Levels.{rank};
ghost use Rattle.da_unparse.specs.Texts.{condition_text, expr_text, gen_text, link_text, other_text, pattern_text, separated, source_text, text_at};
ghost use Rattle.std.specs.List.{flat_map};
ghost use Rattle.std.specs.Prelude.{◌≡◌, ◌++◌, codes, OnOk};

use crate::levels::{Level, asked_by, level_of};
use crate::words::{cmp_word, op_word, put_source, put_string, quantifier, truth, tuple_end_of};
use da_lang::{ChainTree, Expr, GenTree, PatternTree, PeerTree, SourceTree};
use da_values::{Boxed, Buf, NoMemory, write_number};

/// Appends an expression, which may be a quantification.
#[cycle(exprs)]
pub fn put_expr(x: &Expr, out: &mut Buf) -> Result<(), NoMemory>
    ensures { OnOk result (out.new ≡ out.old ++ expr_text x.now) }
{
    match x {
        Expr::Quant { each, gens, cond } => {
            put_gens_after(quantifier(*each), gens.as_slice(), out)?;
            put_condition(cond, out)
        }
        Expr::Or(parts) => put_operands(b" or ", Level::Both, parts.as_slice(), out),
        Expr::And(parts) => put_operands(b" and ", Level::Negation, parts.as_slice(), out),
        Expr::Not(part) => put_behind(b"not ", Level::Negation, part.get(), out),
        Expr::Cmp(op, left, right) => {
            put_at(Level::Sum, left.get(), out)?;
            put_behind(cmp_word(*op), Level::Sum, right.get(), out)
        }
        Expr::Member(left, right) => {
            put_at(Level::Sum, left.get(), out)?;
            put_behind(b" in ", Level::Sum, right.get(), out)
        }
        Expr::Chain(first, links) => match links.as_slice() {
            [] => put_expr(first.get(), out),
            [link, ..] => {
                let asked = asked_by(link.op);
                put_at(asked, first.get(), out)?;
                put_links(asked, links.as_slice(), out)
            }
        },
        Expr::Int(number) => write_number(*number, out),
        Expr::Text(text) => put_string(text, out),
        Expr::Truth(b) => out.append(truth(*b)),
        Expr::Me => out.append(b"self"),
        Expr::Name(name) => out.append(name.as_slice()),
        Expr::Clock => out.append(b"logical_time()"),
        Expr::Range(first, second) => {
            put_behind(b"range(", Level::Either, first.get(), out)?;
            put_within(b", ", second.get(), b")", out)
        }
        Expr::Tuple(parts) => put_parts(b"(", parts.as_slice(), tuple_end_of(parts.len()), out),
        Expr::SetOf(elements) => put_parts(b"{", elements.as_slice(), b"}", out),
        Expr::Comp { term, gens, cond } => {
            put_behind(b"{", Level::Either, term.get(), out)?;
            put_gens_after(b": ", gens.as_slice(), out)?;
            put_last_condition(cond, out)
        }
        Expr::Count(part) => put_within(b"count(", part.get(), b")", out),
        Expr::Sum(part) => put_within(b"sum(", part.get(), b")", out),
        Expr::Min(first, second) => {
            put_behind(b"min(", Level::Either, first.get(), out)?;
            put_within(b", ", second.get(), b")", out)
        }
        Expr::Max(first, second) => {
            put_behind(b"max(", Level::Either, first.get(), out)?;
            put_within(b", ", second.get(), b")", out)
        }
    }
}

/// Appends an expression in a place that asks for this level, in parentheses where it holds together less.
#[cycle(exprs)]
#[tactic(auto, using(crate::proofs::TextRules::place_rules))]
pub fn put_at(asked: Level, x: &Expr, out: &mut Buf) -> Result<(), NoMemory>
    ensures { OnOk result (out.new ≡ out.old ++ text_at (rank asked) x.now) }
{
    if level_of(x).rank() < asked.rank() {
        out.append(b"(")?;
        put_expr(x, out)?;
        out.append(b")")
    } else {
        put_expr(x, out)
    }
}

/// Appends a word, and after it an expression in a place that asks for this level.
#[cycle(exprs)]
fn put_behind(word: &[u8], asked: Level, x: &Expr, out: &mut Buf) -> Result<(), NoMemory>
    ensures { OnOk result (out.new ≡ out.old ++ (word.now ++ text_at (rank asked) x.now)) }
{
    out.append(word)?;
    put_at(asked, x, out)
}

/// Appends an expression that may hold together loosely, between two words.
#[cycle(exprs)]
fn put_within(before: &[u8], x: &Expr, after: &[u8], out: &mut Buf) -> Result<(), NoMemory>
    ensures { OnOk result (out.new ≡ out.old ++ (before.now ++ text_at either x.now ++ after.now)) }
{
    put_behind(before, Level::Either, x, out)?;
    out.append(after)
}

/// Appends expressions with commas between, between two words.
#[cycle(exprs)]
fn put_parts(before: &[u8], parts: &[Expr], after: &[u8], out: &mut Buf) -> Result<(), NoMemory>
    ensures { OnOk result (out.new ≡ out.old ++ (before.now ++ separated (codes ", ") (text_at either) parts.now ++ after.now)) }
{
    out.append(before)?;
    put_operands(b", ", Level::Either, parts, out)?;
    out.append(after)
}

/// Appends operands that ask for this level, with something between each two.
#[cycle(exprs)]
pub fn put_operands(
    between: &[u8],
    asked: Level,
    parts: &[Expr],
    out: &mut Buf,
) -> Result<(), NoMemory>
    ensures { OnOk result (out.new ≡ out.old ++ separated between.now (text_at (rank asked)) parts.now) }
{
    match parts {
        [] => Ok(()),
        [first, rest @ ..] => {
            put_at(asked, first, out)?;
            for part in rest {
                put_behind(between, asked, part, out)?;
            }
            Ok(())
        }
    }
}

/// Appends the further operands of a chain, each after its sign.
#[cycle(exprs)]
#[tactic(auto, unfolding(crate::specs::Texts::link_text))]
fn put_links(asked: Level, links: &[ChainTree], out: &mut Buf) -> Result<(), NoMemory>
    ensures { OnOk result (out.new ≡ out.old ++ flat_map (link_text (rank asked)) links.now) }
{
    for link in links {
        put_behind(op_word(link.op), asked, link.operand.get(), out)?;
    }
    Ok(())
}

/// Appends a condition after `|`.
#[cycle(exprs)]
#[tactic(auto, unfolding(crate::specs::Texts::condition_text))]
fn put_condition(cond: &Option<Boxed<Expr>>, out: &mut Buf) -> Result<(), NoMemory>
    ensures { OnOk result (out.new ≡ out.old ++ condition_text cond.now) }
{
    match cond {
        None => Ok(()),
        Some(x) => {
            out.append(b" | ")?;
            put_expr(x.get(), out)
        }
    }
}

/// Appends a condition after `|`, where there is one, and closes the brace before it.
#[cycle(exprs)]
fn put_last_condition(cond: &Option<Boxed<Expr>>, out: &mut Buf) -> Result<(), NoMemory>
    ensures { OnOk result (out.new ≡ out.old ++ (condition_text cond.now ++ codes "}")) }
{
    put_condition(cond, out)?;
    out.append(b"}")
}

/// Appends a word, and after it generators with commas between.
#[cycle(exprs)]
fn put_gens_after(word: &[u8], gens: &[GenTree], out: &mut Buf) -> Result<(), NoMemory>
    ensures { OnOk result (out.new ≡ out.old ++ (word.now ++ separated (codes ", ") gen_text gens.now)) }
{
    out.append(word)?;
    put_gens(gens, out)
}

/// Appends generators with commas between.
#[cycle(exprs)]
fn put_gens(gens: &[GenTree], out: &mut Buf) -> Result<(), NoMemory>
    ensures { OnOk result (out.new ≡ out.old ++ separated (codes ", ") gen_text gens.now) }
{
    match gens {
        [] => Ok(()),
        [first, rest @ ..] => {
            put_gen(first, out)?;
            for generator in rest {
                out.append(b", ")?;
                put_gen(generator, out)?;
            }
            Ok(())
        }
    }
}

/// Appends a generator.
#[cycle(exprs)]
fn put_gen(generator: &GenTree, out: &mut Buf) -> Result<(), NoMemory>
    ensures { OnOk result (out.new ≡ out.old ++ gen_text generator.now) }
{
    put_pattern(&generator.message, out)?;
    put_peer(&generator.peer, out)?;
    put_source_after(&generator.source, out)
}

// Appends what a generator goes through, after `in`.
fn put_source_after(source: &SourceTree, out: &mut Buf) -> Result<(), NoMemory>
    ensures { OnOk result (out.new ≡ out.old ++ (codes " in " ++ source_text source.now)) }
{
    out.append(b" in ")?;
    put_source(source, out)
}

/// Appends the pattern of the other process, where there is one.
#[cycle(exprs)]
#[tactic(auto, using(crate::proofs::TextRules::peer_rules), unfolding(crate::specs::Texts::other_text))]
fn put_peer(peer: &Option<PeerTree>, out: &mut Buf) -> Result<(), NoMemory>
    ensures { OnOk result (out.new ≡ out.old ++ other_text peer.now) }
{
    match peer {
        None => Ok(()),
        Some(PeerTree::From(pattern)) => put_pattern_after(b" from ", pattern, out),
        Some(PeerTree::To(pattern)) => put_pattern_after(b" to ", pattern, out),
    }
}

/// Appends a word, and after it a pattern.
#[cycle(exprs)]
fn put_pattern_after(word: &[u8], pattern: &PatternTree, out: &mut Buf) -> Result<(), NoMemory>
    ensures { OnOk result (out.new ≡ out.old ++ (word.now ++ pattern_text pattern.now)) }
{
    out.append(word)?;
    put_pattern(pattern, out)
}

/// Appends a pattern.
#[cycle(exprs)]
#[tactic(auto, using(crate::proofs::TextRules::pattern_rules))]
pub fn put_pattern(pattern: &PatternTree, out: &mut Buf) -> Result<(), NoMemory>
    ensures { OnOk result (out.new ≡ out.old ++ pattern_text pattern.now) }
{
    match pattern {
        PatternTree::Wild => out.append(b"_"),
        PatternTree::Name(name) => out.append(name.as_slice()),
        PatternTree::Int(number) => write_number(*number, out),
        PatternTree::Text(text) => put_string(text, out),
        PatternTree::Truth(b) => out.append(truth(*b)),
        PatternTree::Me => out.append(b"self"),
        PatternTree::Equal(x) => put_behind(b"=", Level::Signed, x.get(), out),
        PatternTree::Tuple(parts) => {
            out.append(b"(")?;
            put_patterns(parts.as_slice(), out)?;
            out.append(tuple_end_of(parts.len()))
        }
    }
}

/// Appends patterns with commas between.
#[cycle(exprs)]
fn put_patterns(patterns: &[PatternTree], out: &mut Buf) -> Result<(), NoMemory>
    ensures { OnOk result (out.new ≡ out.old ++ separated (codes ", ") pattern_text patterns.now) }
{
    match patterns {
        [] => Ok(()),
        [first, rest @ ..] => {
            put_pattern(first, out)?;
            for pattern in rest {
                put_pattern_after(b", ", pattern, out)?;
            }
            Ok(())
        }
    }
}
