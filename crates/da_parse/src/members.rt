//! The members of a class.
ghost use Rattle.std.specs.Prelude.{false, [], ◌∷◌, ◌≡◌, ◌≤◌, ◌<◌};
ghost use Rattle.da_phrases.specs.Lists.{separated};
ghost use Rattle.da_parse.specs.Members as spec;
ghost use Rattle.da_parse.specs.Members.{parts_at};
ghost use Rattle.da_phrases.specs.Reader.{Reads, word};
ghost use Rattle.da_phrases.specs.Types.{type_below};

use crate::stmts::block_at;
use da_lang::{Member, Name, Param, PatternTree, Ty};
use da_phrases::{Cursor, Stop, opening, pattern_at, type_at};
use da_values::{List, Mark, copy_bytes};
use std::alloc::Global;

/// A parameter with its type, in parentheses that were opened where `depth` things are open.
#[tactic(auto, unfolding(crate::specs::Members::typed_param), using(da_phrases::proofs::Depth::type_there))]
fn typed_param(alloc: Global, tokens: &mut Cursor<'_>, depth: usize) -> Result<Param, Stop>
    requires { depth < 32 }
    ensures { Reads (spec.typed_param (type_below depth) tokens.old) result tokens.new }
{
    let name = tokens.word(alloc, Mark::Name)?;
    tokens.expect(Mark::Colon)?;
    let ty = type_at(alloc, tokens, depth + 1)?;
    Ok(Param { name, ty })
}

/// The same, where the type may be missing. Then it is the tuple of no parts, which no tokens spell.
#[tactic(auto, unfolding(crate::specs::Members::loose_param), using(da_phrases::proofs::Depth::type_there))]
fn loose_param(alloc: Global, tokens: &mut Cursor<'_>, depth: usize) -> Result<Param, Stop>
    requires { depth < 32 }
    ensures { Reads (spec.loose_param (type_below depth) tokens.old) result tokens.new }
{
    let name = tokens.word(alloc, Mark::Name)?;
    if !tokens.eat(Mark::Colon) {
        let ty = Ty::Tuple(List::new(alloc));
        return Ok(Param { name, ty });
    }
    let ty = type_at(alloc, tokens, depth + 1)?;
    Ok(Param { name, ty })
}

/// A parameter, whose type may be missing if `loose`.
fn param(alloc: Global, tokens: &mut Cursor<'_>, depth: usize, loose: bool) -> Result<Param, Stop>
    requires { depth < 32 }
    ensures { Reads (spec.param_by loose (type_below depth) tokens.old) result tokens.new }
{
    if loose {
        loose_param(alloc, tokens, depth)
    } else {
        typed_param(alloc, tokens, depth)
    }
}

/// One or more parameters with commas between.
#[tactic(auto, using(da_phrases::proofs::Loops::separated_loop))]
fn some_params(
    alloc: Global,
    tokens: &mut Cursor<'_>,
    depth: usize,
    loose: bool,
) -> Result<List<Param>, Stop>
    requires { depth < 32 }
    ensures { Reads (separated Mark.Comma (spec.param_by loose (type_below depth)) [] tokens.old) result tokens.new }
{
    let mut found = List::new(alloc);
    for _turn in 0..tokens.left() {
        found.push(param(alloc, tokens, depth, loose)?)?;
        if !tokens.eat(Mark::Comma) {
            return Ok(found);
        }
    }
    Err(tokens.refuse())
}

/// Parameters after `(`, up to `)`.
#[tactic(auto, unfolding(crate::specs::Members::params, da_phrases::specs::Lists::closed))]
fn params(
    alloc: Global,
    tokens: &mut Cursor<'_>,
    depth: usize,
    loose: bool,
) -> Result<List<Param>, Stop>
    requires { depth < 32 }
    ensures { Reads (spec.params (parts_at loose depth) tokens.old) result tokens.new }
{
    if tokens.eat(Mark::CloseParen) {
        return Ok(List::new(alloc));
    }
    let all = some_params(alloc, tokens, depth, loose)?;
    tokens.expect(Mark::CloseParen)?;
    Ok(all)
}

/// What stands after `var`.
#[tactic(auto, unfolding(crate::specs::Members::variable))]
fn variable(alloc: Global, tokens: &mut Cursor<'_>, depth: usize, line: u32) -> Result<Member, Stop>
    requires { depth ≤ 32 }
    ensures { Reads (spec.variable (parts_at false depth) line tokens.old) result tokens.new }
{
    let name = tokens.word(alloc, Mark::Name)?;
    tokens.expect(Mark::Colon)?;
    let ty = type_at(alloc, tokens, depth)?;
    tokens.expect(Mark::Newline)?;
    Ok(Member::Var { name, ty, line })
}

/// What stands after `def setup`.
#[tactic(auto, unfolding(crate::specs::Members::setup))]
fn setup(
    alloc: Global,
    tokens: &mut Cursor<'_>,
    depth: usize,
    loose: bool,
    line: u32,
) -> Result<Member, Stop>
    ensures { Reads (spec.setup (parts_at loose depth) line tokens.old) result tokens.new }
{
    opening(tokens, Mark::OpenParen, depth)?;
    let params = params(alloc, tokens, depth, loose)?;
    let body = block_at(alloc, tokens, depth)?;
    Ok(Member::Setup { params, body, line })
}

/// What stands after `def run`.
#[tactic(auto, unfolding(crate::specs::Members::run))]
fn run(alloc: Global, tokens: &mut Cursor<'_>, depth: usize, line: u32) -> Result<Member, Stop>
    ensures { Reads (spec.run (parts_at false depth) line tokens.old) result tokens.new }
{
    opening(tokens, Mark::OpenParen, depth)?;
    tokens.expect(Mark::CloseParen)?;
    let body = block_at(alloc, tokens, depth)?;
    Ok(Member::Run { body, line })
}

/// What stands after `def` and a name.
#[tactic(auto, unfolding(crate::specs::Members::method))]
fn method(
    alloc: Global,
    tokens: &mut Cursor<'_>,
    depth: usize,
    loose: bool,
    name: Name,
    line: u32,
) -> Result<Member, Stop>
    ensures { Reads (spec.method (parts_at loose depth) name line tokens.old) result tokens.new }
{
    opening(tokens, Mark::OpenParen, depth)?;
    let params = params(alloc, tokens, depth, loose)?;
    let body = block_at(alloc, tokens, depth)?;
    Ok(Member::Method {
        name,
        params,
        body,
        line,
    })
}

/// What stands after `def`.
#[tactic(auto, unfolding(crate::specs::Members::definition), using(crate::proofs::SameReaders::run_same))]
fn definition(
    alloc: Global,
    tokens: &mut Cursor<'_>,
    depth: usize,
    loose: bool,
    line: u32,
) -> Result<Member, Stop>
    ensures { Reads (spec.definition (parts_at loose depth) line tokens.old) result tokens.new }
{
    match tokens.mark() {
        Some(Mark::Setup) => {
            tokens.take();
            setup(alloc, tokens, depth, loose, line)
        }
        Some(Mark::Run) => {
            tokens.take();
            run(alloc, tokens, depth, line)
        }
        Some(Mark::Name) => {
            let name = copy_bytes(alloc, tokens.take())?;
            method(alloc, tokens, depth, loose, name, line)
        }
        _ => Err(tokens.refuse()),
    }
}

/// `from` and a pattern, or nothing.
#[tactic(auto, unfolding(crate::specs::Members::sender))]
fn sender(alloc: Global, tokens: &mut Cursor<'_>, depth: usize) -> Result<Option<PatternTree>, Stop>
    requires { depth ≤ 32 }
    ensures { Reads (spec.sender (parts_at false depth) tokens.old) result tokens.new }
{
    if !tokens.eat(Mark::From) {
        return Ok(None);
    }
    Ok(Some(pattern_at(alloc, tokens, depth)?))
}

/// One or more names with commas between.
#[tactic(auto, using(da_phrases::proofs::Loops::separated_loop))]
fn names(alloc: Global, tokens: &mut Cursor<'_>) -> Result<List<Name>, Stop>
    ensures { Reads (separated Mark.Comma (word Mark.Name) [] tokens.old) result tokens.new }
{
    let mut found = List::new(alloc);
    for _turn in 0..tokens.left() {
        found.push(tokens.word(alloc, Mark::Name)?)?;
        if !tokens.eat(Mark::Comma) {
            return Ok(found);
        }
    }
    Err(tokens.refuse())
}

/// `at` and names, or nothing.
#[tactic(auto, unfolding(crate::specs::Members::labels))]
fn labels(alloc: Global, tokens: &mut Cursor<'_>) -> Result<List<Name>, Stop>
    ensures { Reads (spec.labels tokens.old) result tokens.new }
{
    if !tokens.eat(Mark::At) {
        return Ok(List::new(alloc));
    }
    names(alloc, tokens)
}

/// What stands after the patterns of a handler. (Patterns that are not kept are dropped by calls: where they are left to the end
/// of a way out, the check goes through the parts of each form of pattern there.)
fn handled(
    alloc: Global,
    tokens: &mut Cursor<'_>,
    depth: usize,
    message: PatternTree,
    from: Option<PatternTree>,
    line: u32,
) -> Result<Member, Stop>
    ensures { Reads (spec.handled (parts_at false depth) message from line tokens.old) result tokens.new }
{
    match labels(alloc, tokens) {
        Ok(at) => match block_at(alloc, tokens, depth) {
            Ok(body) => Ok(Member::Receive {
                message,
                from,
                at,
                body,
                line,
            }),
            Err(stop) => {
                drop(message);
                drop(from);
                Err(stop)
            }
        },
        Err(stop) => {
            drop(message);
            drop(from);
            Err(stop)
        }
    }
}

/// What stands after `receive`.
#[tactic(auto, unfolding(crate::specs::Members::handler))]
fn handler(alloc: Global, tokens: &mut Cursor<'_>, depth: usize, line: u32) -> Result<Member, Stop>
    requires { depth ≤ 32 }
    ensures { Reads (spec.handler (parts_at false depth) line tokens.old) result tokens.new }
{
    let message = pattern_at(alloc, tokens, depth)?;
    match sender(alloc, tokens, depth) {
        Ok(from) => handled(alloc, tokens, depth, message, from, line),
        Err(stop) => {
            drop(message);
            Err(stop)
        }
    }
}

/// A member of a class.
#[tactic(auto, unfolding(crate::specs::Members::member), using(crate::proofs::SameReaders::same_members))]
fn member(alloc: Global, tokens: &mut Cursor<'_>, depth: usize, loose: bool) -> Result<Member, Stop>
    requires { depth ≤ 32 }
    ensures { Reads (spec.member (parts_at loose depth) tokens.old) result tokens.new }
{
    let line = tokens.line();
    match tokens.mark() {
        Some(Mark::Var) => {
            tokens.take();
            variable(alloc, tokens, depth, line)
        }
        Some(Mark::Def) => {
            tokens.take();
            definition(alloc, tokens, depth, loose, line)
        }
        Some(Mark::Receive) => {
            tokens.take();
            handler(alloc, tokens, depth, line)
        }
        _ => Err(tokens.refuse()),
    }
}

/// The members of a class and its end; parameters may lack their types if `loose`.
#[tactic(auto, unfolding(crate::specs::Members::members), using(da_phrases::proofs::Loops::ended_loop))]
pub fn members(
    alloc: Global,
    tokens: &mut Cursor<'_>,
    depth: usize,
    loose: bool,
) -> Result<List<Member>, Stop>
    requires { depth ≤ 32 }
    ensures { Reads (spec.members (parts_at loose depth) tokens.old) result tokens.new }
{
    let mut found = List::new(alloc);
    for _turn in 0..tokens.left() {
        found.push(member(alloc, tokens, depth, loose)?)?;
        if tokens.eat(Mark::Dedent) {
            return Ok(found);
        }
    }
    Err(tokens.refuse())
}
