//! Programs, from their texts: each step does what the one before it does, and one thing more.
ghost use Rattle.da_core.specs.Compiled.{IsCompiled, program_of};
ghost use Rattle.da_lang.specs.Accepted.{IsResolved, IsWritten};
ghost use Rattle.da_values.specs.TokenFacts.{IsOnLine};
ghost use Rattle.da_values.specs.Tokens.{tokens as tokens_of};
ghost use Rattle.da_front.specs.Verdict.{Accepts, HasProgram, HasTree, HasTyped, IsNotCutAs, IsRefusedAs};
ghost use Rattle.std.specs.List.{All};
ghost use Rattle.std.specs.Prelude.{◌≡◌, ◌≤◌, IfErr, IfOk, Ok, length};

use crate::refusal::{ProgramFault, RefusedKind};
use da_core::{Compiled, compile};
use da_lang::{Program, Tree};
use da_lex::{LexFault, Tokens, lex};
use da_parse::{ParseFault, parse};
use da_scope::resolve;
use da_types::{Typed, check_types};
use std::alloc::Global;

/// The bytes that the text of a program may have.
pub const PROGRAM_LIMIT: usize = 1_048_576;

/// The program of a text, compiled: its tokens are cut, the tree that they spell is read, the names of the tree are resolved
/// within the limits, its types are checked, and its classes get code and plans, in this order. The first of these that
/// fails gives the refusal, and before them the size of the text.
pub fn read_program(alloc: Global, text: &[u8]) -> Result<Compiled, ProgramFault>
    ensures compiled { IfOk result IsCompiled }
    ensures read { IfOk result (λ compiled. Accepts text.now (program_of compiled)) }
    ensures refused { IfErr result (IsRefusedAs text.now) }
{
    let typed = read_typed(alloc, text)?;
    Ok(compile(alloc, typed)?)
}

/// The program of a text, with its types.
#[tactic(auto, using(crate::proofs::ProgramLemmas::has_typed, crate::proofs::ProgramLemmas::not_typed))]
pub fn read_typed(alloc: Global, text: &[u8]) -> Result<Typed, ProgramFault>
    ensures ok { IfOk result (HasTyped text.now) }
    ensures refused { IfErr result (IsRefusedAs text.now) }
{
    let program = read_resolved(alloc, text)?;
    Ok(check_types(alloc, program)?)
}

/// The program of a text, with its names resolved.
#[tactic(auto, using(crate::proofs::ProgramLemmas::has_program, crate::proofs::ProgramLemmas::not_resolved))]
pub fn read_resolved(alloc: Global, text: &[u8]) -> Result<Program, ProgramFault>
    ensures ok { IfOk result (HasProgram text.now) }
    ensures resolved { IfOk result IsResolved }
    ensures refused { IfErr result (IsRefusedAs text.now) }
{
    let tree = read_tree(alloc, text)?;
    Ok(resolve(alloc, &tree)?)
}

/// The tree of a text.
#[tactic(auto, using(crate::proofs::ProgramLemmas::cut_refused, crate::proofs::ProgramLemmas::is_written))]
pub fn read_tree(alloc: Global, text: &[u8]) -> Result<Tree, ProgramFault>
    ensures ok { IfOk result (HasTree text.now) }
    ensures written { IfOk result IsWritten }
    ensures refused { IfErr result (IsRefusedAs text.now) }
{
    let tokens = read_tokens(alloc, text)?;
    match parse(alloc, &tokens) {
        Ok(tree) => Ok(tree),
        Err(ParseFault::Memory) => Err(ProgramFault::Memory),
        Err(ParseFault::Syntax { line }) => Err(ProgramFault::Refused {
            kind: RefusedKind::Syntax,
            line,
        }),
        Err(ParseFault::Deep { line }) => Err(ProgramFault::Refused {
            kind: RefusedKind::Deep,
            line,
        }),
    }
}

/// The tokens of a text.
pub fn read_tokens<'a>(alloc: Global, text: &'a [u8]) -> Result<Tokens<'a>, ProgramFault>
    ensures size { IfOk result (λ tokens. length text.now ≤ PROGRAM_LIMIT) }
    ensures ok { IfOk result (λ tokens. tokens_of text.now ≡ Ok tokens.list) }
    ensures text { IfOk result (λ tokens. tokens.text.now ≡ text.now) }
    ensures lines { IfOk result (λ tokens. All (IsOnLine text.now) tokens.list) }
    ensures refused { IfErr result (IsNotCutAs text.now) }
{
    if text.len() > PROGRAM_LIMIT {
        return Err(ProgramFault::Refused {
            kind: RefusedKind::Size,
            line: 0,
        });
    }
    match lex(alloc, text) {
        Ok(tokens) => Ok(tokens),
        Err(LexFault::Memory) => Err(ProgramFault::Memory),
        Err(LexFault::Refused { kind, line }) => Err(ProgramFault::Refused {
            kind: RefusedKind::from(kind),
            line,
        }),
    }
}
