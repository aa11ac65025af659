//! Programs.
ghost use Rattle.std.specs.Prelude.{false, [], ◌∷◌, ◌≡◌, ◌≤◌, ◌<◌};
ghost use Rattle.da_phrases.specs.Lists.{begun, ended};
ghost use Rattle.da_parse.specs.Programs as spec;
ghost use Rattle.da_parse.specs.Programs.{outermost};
ghost use Rattle.da_phrases.specs.Reader.{Reads};

use crate::members::members;
use da_lang::{ChannelKind, ClassTree, Expr, MainLine, MessageDecl, Name, Tree};
use da_phrases::{Cursor, Level, Stop, closed_types, expr_at, opening};
use da_values::{List, Mark, copy_bytes};
use std::alloc::Global;

/// A colon, the end of the line and the beginning of a block, where nothing is open.
#[tactic(auto, unfolding(crate::specs::Programs::header_end))]
fn header_end(tokens: &mut Cursor<'_>) -> Result<(), Stop>
    ensures { Reads (spec.header_end (outermost false) tokens.old) result tokens.new }
{
    tokens.expect(Mark::Colon)?;
    tokens.expect(Mark::Newline)?;
    opening(tokens, Mark::Indent, 0)
}

/// What stands after `message`.
#[tactic(auto, unfolding(crate::specs::Programs::message))]
fn message(alloc: Global, tokens: &mut Cursor<'_>, line: u32) -> Result<MessageDecl, Stop>
    ensures { Reads (spec.message (outermost false) line tokens.old) result tokens.new }
{
    let tag = tokens.word(alloc, Mark::Name)?;
    opening(tokens, Mark::OpenParen, 0)?;
    let parts = closed_types(alloc, tokens, 0)?;
    tokens.expect(Mark::Newline)?;
    Ok(MessageDecl { tag, parts, line })
}

/// What stands after `class`.
#[tactic(auto, unfolding(crate::specs::Programs::class), using(crate::proofs::SameReaders::header_end_same))]
fn class(alloc: Global, tokens: &mut Cursor<'_>, loose: bool, line: u32) -> Result<ClassTree, Stop>
    ensures { Reads (spec.class (outermost loose) line tokens.old) result tokens.new }
{
    let name = tokens.word(alloc, Mark::Name)?;
    tokens.expect(Mark::Extends)?;
    tokens.expect(Mark::Process)?;
    header_end(tokens)?;
    let members = members(alloc, tokens, 1, loose)?;
    Ok(ClassTree {
        name,
        members,
        line,
    })
}

/// A comma and a number of processes, or nothing.
#[tactic(auto, unfolding(crate::specs::Programs::count))]
fn count(tokens: &mut Cursor<'_>) -> Result<Option<u64>, Stop>
    ensures { Reads (spec.count tokens.old) result tokens.new }
{
    if !tokens.eat(Mark::Comma) {
        return Ok(None);
    }
    Ok(Some(tokens.number()?))
}

/// What stands after a name in `main`.
#[tactic(auto, unfolding(crate::specs::Programs::new_line))]
fn new_line(alloc: Global, tokens: &mut Cursor<'_>, name: Name, line: u32) -> Result<MainLine, Stop>
    ensures { Reads (spec.new_line (outermost false) name line tokens.old) result tokens.new }
{
    tokens.expect(Mark::Assign)?;
    tokens.expect(Mark::New)?;
    opening(tokens, Mark::OpenParen, 1)?;
    let class = tokens.word(alloc, Mark::Name)?;
    let count = count(tokens)?;
    tokens.expect(Mark::CloseParen)?;
    tokens.expect(Mark::Newline)?;
    Ok(MainLine::New {
        name,
        class,
        count,
        line,
    })
}

/// An argument of `setup`, with the comma before it, which is the next token.
#[tactic(auto, using(da_phrases::proofs::Depth::expr_there))]
fn argument(alloc: Global, tokens: &mut Cursor<'_>) -> Result<Expr, Stop>
    ensures { Reads (spec.argument (outermost false) tokens.old) result tokens.new }
{
    tokens.take();
    expr_at(alloc, tokens, 2, Level::Disj)
}

/// Arguments, each with a comma before it.
#[tactic(auto, using(da_phrases::proofs::Loops::begun_loop))]
fn setup_args(alloc: Global, tokens: &mut Cursor<'_>) -> Result<List<Expr>, Stop>
    ensures { Reads (begun Mark.Comma (spec.argument (outermost false)) [] tokens.old) result tokens.new }
{
    let mut found = List::new(alloc);
    for _turn in 0..tokens.left() {
        if !tokens.sees(Mark::Comma) {
            return Ok(found);
        }
        found.push(argument(alloc, tokens)?)?;
    }
    Ok(found)
}

/// What stands after `setup` in `main`.
#[tactic(auto, unfolding(crate::specs::Programs::setup_line))]
fn setup_line(alloc: Global, tokens: &mut Cursor<'_>, line: u32) -> Result<MainLine, Stop>
    ensures { Reads (spec.setup_line (outermost false) line tokens.old) result tokens.new }
{
    opening(tokens, Mark::OpenParen, 1)?;
    let name = tokens.word(alloc, Mark::Name)?;
    let args = setup_args(alloc, tokens)?;
    tokens.expect(Mark::CloseParen)?;
    tokens.expect(Mark::Newline)?;
    Ok(MainLine::Setup { name, args, line })
}

/// A line of `main`.
#[tactic(auto, unfolding(crate::specs::Programs::main_line))]
fn main_line(alloc: Global, tokens: &mut Cursor<'_>) -> Result<MainLine, Stop>
    ensures { Reads (spec.main_line (outermost false) tokens.old) result tokens.new }
{
    let line = tokens.line();
    match tokens.mark() {
        Some(Mark::Name) => {
            let name = copy_bytes(alloc, tokens.take())?;
            new_line(alloc, tokens, name, line)
        }
        Some(Mark::Setup) => {
            tokens.take();
            setup_line(alloc, tokens, line)
        }
        _ => Err(tokens.refuse()),
    }
}

/// The lines of `main` and its end.
#[tactic(auto, using(da_phrases::proofs::Loops::ended_loop))]
fn main_lines(alloc: Global, tokens: &mut Cursor<'_>) -> Result<List<MainLine>, Stop>
    ensures { Reads (ended (spec.main_line (outermost false)) tokens.old) result tokens.new }
{
    let mut found = List::new(alloc);
    for _turn in 0..tokens.left() {
        found.push(main_line(alloc, tokens)?)?;
        if tokens.eat(Mark::Dedent) {
            return Ok(found);
        }
    }
    Err(tokens.refuse())
}

/// `main`.
#[tactic(auto, unfolding(crate::specs::Programs::main))]
fn main_body(alloc: Global, tokens: &mut Cursor<'_>) -> Result<List<MainLine>, Stop>
    ensures { Reads (spec.main (outermost false) tokens.old) result tokens.new }
{
    tokens.expect(Mark::Def)?;
    tokens.expect(Mark::Main)?;
    opening(tokens, Mark::OpenParen, 0)?;
    tokens.expect(Mark::CloseParen)?;
    header_end(tokens)?;
    main_lines(alloc, tokens)
}

/// Whether the next token has the first of two marks, where it must have one of them.
#[tactic(auto, unfolding(crate::specs::Programs::one_of))]
fn one_of(tokens: &mut Cursor<'_>, mark: Mark, other: Mark) -> Result<bool, Stop>
    ensures { Reads (spec.one_of mark other tokens.old) result tokens.new }
{
    if tokens.eat(mark) {
        return Ok(true);
    }
    tokens.expect(other)?;
    Ok(false)
}

fn kind_from(fifo: bool, reliable: bool) -> ChannelKind
    ensures { result ≡ spec.kind_from fifo reliable }
{
    match (fifo, reliable) {
        (true, true) => ChannelKind::FifoReliable,
        (false, true) => ChannelKind::UnorderedReliable,
        (true, false) => ChannelKind::FifoUnreliable,
        (false, false) => ChannelKind::UnorderedUnreliable,
    }
}

/// The `channel` line, or nothing.
#[tactic(auto, unfolding(crate::specs::Programs::kind))]
fn kind(tokens: &mut Cursor<'_>) -> Result<ChannelKind, Stop>
    ensures { Reads (spec.kind tokens.old) result tokens.new }
{
    if !tokens.eat(Mark::Channel) {
        return Ok(ChannelKind::UnorderedUnreliable);
    }
    let fifo = one_of(tokens, Mark::Fifo, Mark::Unordered)?;
    let reliable = one_of(tokens, Mark::Reliable, Mark::Unreliable)?;
    tokens.expect(Mark::Newline)?;
    Ok(kind_from(fifo, reliable))
}

/// `main`, after which no token is left, with what stands before it.
#[tactic(auto, unfolding(crate::specs::Programs::program_end), using(crate::proofs::SameReaders::main_same))]
fn program_end(
    alloc: Global,
    tokens: &mut Cursor<'_>,
    loose: bool,
    kind: ChannelKind,
    messages: List<MessageDecl>,
    classes: List<ClassTree>,
) -> Result<Tree, Stop>
    ensures { Reads (spec.program_end (outermost loose) kind messages classes tokens.old) result tokens.new }
{
    let main = main_body(alloc, tokens)?;
    if tokens.left() != 0 {
        return Err(tokens.refuse());
    }
    Ok(Tree {
        kind,
        messages,
        classes,
        main,
    })
}

/// What stands after the `channel` line.
#[tactic(auto, using(crate::proofs::Decls::decls_loop, crate::proofs::SameReaders::message_same))]
fn decls(
    alloc: Global,
    tokens: &mut Cursor<'_>,
    loose: bool,
    kind: ChannelKind,
) -> Result<Tree, Stop>
    ensures { Reads (spec.decls (outermost loose) kind tokens.old) result tokens.new }
{
    let mut messages = List::new(alloc);
    let mut classes = List::new(alloc);
    for _turn in 0..tokens.left() {
        let line = tokens.line();
        match tokens.mark() {
            Some(Mark::Message) => {
                tokens.take();
                messages.push(message(alloc, tokens, line)?)?;
            }
            Some(Mark::Class) => {
                tokens.take();
                classes.push(class(alloc, tokens, loose, line)?)?;
            }
            _ => return program_end(alloc, tokens, loose, kind, messages, classes),
        }
    }
    program_end(alloc, tokens, loose, kind, messages, classes)
}

/// The program that the tokens spell; its parameters may lack their types if `loose`.
#[tactic(auto, unfolding(crate::specs::Programs::program))]
pub fn program(alloc: Global, tokens: &mut Cursor<'_>, loose: bool) -> Result<Tree, Stop>
    ensures { Reads (spec.program (outermost loose) tokens.old) result tokens.new }
{
    let kind = kind(tokens)?;
    decls(alloc, tokens, loose, kind)
}
