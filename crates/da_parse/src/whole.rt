//! The whole text.
ghost use Rattle.std.specs.Prelude.{◌≡◌, ◌≢◌, ℕ, Bool, true, false, List, Ok, IfErr, IfOk, MatchResult};
ghost use Rattle.std.specs.List.{All};
ghost use Rattle.da_values.specs.Marks.{Tok, toks};
ghost use Rattle.da_values.specs.TokenFacts.{IsOnLine};
ghost use Rattle.da_values.specs.Tokens.{tokens as tokens_of};
ghost use Rattle.da_lang.specs.Grammar.{Spells, SpellsWithin};
ghost use Rattle.da_lang.specs.declared.tree.Tree.{Tree};
ghost use Rattle.da_lang.specs.declared.ty.Ty.{Ty};
ghost use Rattle.da_lang.specs.TypeGrammar.{TypeIn};
ghost use Rattle.da_parse.specs.FirstFault.{Fault, IsFirst};
ghost use Rattle.da_parse.specs.Loose.{LooselyAnswers, is_open, loose_of};
ghost use Rattle.da_parse.specs.Parameters.{IsFirstBy, SpellsBy, SpellsWithinBy};
ghost use Rattle.da_parse.specs.Parse as spec;
ghost use Rattle.da_parse.specs.Parse.{Answers, IsLineOf, NamesLine};

use crate::loose::{LooseTree, with_types};
use crate::programs::program;
use da_lang::Tree;
use da_lex::Tokens;
use da_phrases::{Cursor, Stop};
use da_values::{NoMemory, Token};
use std::alloc::Global;
use thiserror::Error;

/// Why there is no tree. Lines are counted from 1; the end of the text has the line of the last token, or 1.
#[derive(Clone, Copy, Debug, Error)]
pub enum ParseFault {
    /// No program goes on with the token on this line.
    #[error("line {line}: no program goes on so")]
    Syntax { line: u32 },
    /// The token on this line opens a thing where 32 are open.
    #[error("line {line}: more than 32 things are open")]
    Deep { line: u32 },
    /// Memory was refused.
    #[error("no memory is left")]
    Memory,
}

/// The line of the place from which so many tokens are left: at the end that of the last token, or 1.
#[tactic(auto, unfolding(crate::specs::Parse::line_at), using(crate::proofs::Lines::line_there, crate::proofs::Lines::line_in_text))]
fn line_at(tokens: &[Token], left: usize) -> u32
    ensures is { (text : List ℕ) → result ≡ spec.line_at (toks text tokens.now) left }
    ensures in_text { (text : List ℕ) → All (IsOnLine text) tokens.now → IsLineOf text result }
{
    let (_, rest) = tokens.split_at(tokens.len().saturating_sub(left.max(1)));
    match rest {
        [] => 1,
        [token, ..] => token.line,
    }
}

// What the reader answers.
#[tactic(auto, unfolding(crate::specs::Parse::parsed_by))]
fn read_tree(alloc: Global, tokens: &Tokens<'_>, loose: bool) -> Result<Tree, ParseFault>
    ensures answer { Answers result (spec.parsed_by loose (toks tokens.now.text.now tokens.now.list)) }
    ensures line { IfErr result (λ fault. All (IsOnLine tokens.now.text.now) tokens.now.list → NamesLine tokens.now.text.now fault) }
{
    let list = tokens.list.as_slice();
    match program(alloc, &mut Cursor::new(tokens.text, list), loose) {
        Ok(tree) => Ok(tree),
        Err(Stop::Memory) => Err(ParseFault::Memory),
        Err(Stop::Syntax(left)) => Err(ParseFault::Syntax {
            line: line_at(list, left),
        }),
        Err(Stop::Deep(left)) => Err(ParseFault::Deep {
            line: line_at(list, left),
        }),
    }
}

/// Reads a whole text by the grammar. The tree of an answer is spelled by the tokens with at most 32 things open at a time,
/// and a tree that is spelled so is the answer, or memory ran out; the same tokens spell no second one. A refusal names the
/// first token at fault, by its line: `Syntax` where the tokens before it begin a program and with it they do not, `Deep`
/// where the tokens up to it begin a program in which it opens one thing more than 32. After the last token stands the end
/// of the text, with the line of that token, or 1.
pub fn parse(alloc: Global, tokens: &Tokens<'_>) -> Result<Tree, ParseFault>
    // What is read is spelled so, where the tokens are those of their text.
    ensures spelled { tokens_of tokens.now.text.now ≡ Ok tokens.now.list → IfOk result (λ tree. SpellsWithin 32 tree (toks tokens.now.text.now tokens.now.list)) }

    // What is spelled so is read, or memory was refused.
    ensures only { (tree : Tree) → SpellsWithin 32 tree (toks tokens.now.text.now tokens.now.list)
        → MatchResult result (λ found. found ≡ tree) (λ fault. fault ≡ ParseFault.Memory) }

    // No tokens spell two trees, however many things are open.
    ensures one { (tree other : Tree) → Spells tree (toks tokens.now.text.now tokens.now.list) → Spells other (toks tokens.now.text.now tokens.now.list) → tree ≡ other }

    // What is reported, but want of memory, is the first fault in the tokens of a text.
    ensures first { tokens_of tokens.now.text.now ≡ Ok tokens.now.list
        → IfErr result (λ fault. fault ≢ ParseFault.Memory → IsFirst (toks tokens.now.text.now tokens.now.list) fault) }

    // The first fault is reported, or memory was refused.
    ensures told { tokens_of tokens.now.text.now ≡ Ok tokens.now.list → (why : Fault) → IsFirst (toks tokens.now.text.now tokens.now.list) why
        → MatchResult result (λ tree. ⊥) (λ fault. fault ≢ ParseFault.Memory → fault ≡ why) }

    // The answer is that of the reader, and a fault is on a line of the text.
    ensures answer { Answers result (spec.parsed (toks tokens.now.text.now tokens.now.list)) }
    ensures line { IfErr result (λ fault. All (IsOnLine tokens.now.text.now) tokens.now.list → NamesLine tokens.now.text.now fault) }
{
    read_tree(alloc, tokens, false)
}

/// What is made of the tree with parameters that may lack their types.
fn made_of(alloc: Global, tree: Tree) -> Result<LooseTree, ParseFault>
    ensures made { IfOk result (λ found. found ≡ loose_of tree) }
    ensures memory { IfErr result (λ fault. fault ≡ ParseFault.Memory) }
{
    match with_types(alloc, tree) {
        Ok(found) => Ok(found),
        Err(NoMemory) => Err(ParseFault::Memory),
    }
}

// What the reader answers where parameters may lack their types.
#[tactic(auto, using(crate::proofs::LooseAnswers::fault_answers, crate::proofs::LooseAnswers::tree_answers, crate::proofs::LooseAnswers::memory_line))]
fn read_loose(alloc: Global, tokens: &Tokens<'_>) -> Result<LooseTree, ParseFault>
    ensures answer { LooselyAnswers result (spec.parsed_by true (toks tokens.now.text.now tokens.now.list)) }
    ensures line { IfErr result (λ fault. All (IsOnLine tokens.now.text.now) tokens.now.list → NamesLine tokens.now.text.now fault) }
{
    let tree = read_tree(alloc, tokens, true)?;
    made_of(alloc, tree)
}

/// Reads a whole text by the grammar in which a parameter may lack its type. The answer is made of the tree that the tokens
/// spell with at most 32 things open at a time: it has `int` in each place without a type, and a list of these places. The
/// same tokens spell no second tree. A refusal names the first token at fault, as that of `parse` does, by this grammar.
/// A place past 2^32, which no text of fewer tokens has, is refused like memory.
pub fn parse_loose(alloc: Global, tokens: &Tokens<'_>) -> Result<LooseTree, ParseFault>
    // What is read is made of a tree that is spelled so, where the tokens are those of their text.
    ensures spelled { tokens_of tokens.now.text.now ≡ Ok tokens.now.list
        → IfOk result (λ found. (tree : Tree) × SpellsWithinBy true 32 tree (toks tokens.now.text.now tokens.now.list) × (found ≡ loose_of tree)) }

    // What is spelled so is read, or memory was refused.
    ensures only { (tree : Tree) → SpellsWithinBy true 32 tree (toks tokens.now.text.now tokens.now.list)
        → MatchResult result (λ found. found ≡ loose_of tree) (λ fault. fault ≡ ParseFault.Memory) }

    // No tokens spell two trees, however many things are open.
    ensures one { (tree other : Tree) → SpellsBy true tree (toks tokens.now.text.now tokens.now.list) → SpellsBy true other (toks tokens.now.text.now tokens.now.list) → tree ≡ other }

    // What is told, but want of memory, is the first fault in the tokens of a text.
    ensures first { tokens_of tokens.now.text.now ≡ Ok tokens.now.list
        → IfErr result (λ fault. fault ≢ ParseFault.Memory → IsFirstBy true (toks tokens.now.text.now tokens.now.list) fault) }

    // The first fault is told, or memory was refused.
    ensures told { tokens_of tokens.now.text.now ≡ Ok tokens.now.list → (why : Fault) → IsFirstBy true (toks tokens.now.text.now tokens.now.list) why
        → MatchResult result (λ found. ⊥) (λ fault. fault ≢ ParseFault.Memory → fault ≡ why) }

    // No tokens spell the type that stands for a missing one, however many things are open.
    ensures written { (f d : ℕ) (type_ : Ty) (here rest : List Tok) → TypeIn (λ d t. Unit {0}) f d type_ here rest → is_open type_ ≡ false }

    // The answer is made of that of the reader, and a fault is on a line of the text.
    ensures answer { LooselyAnswers result (spec.parsed_by true (toks tokens.now.text.now tokens.now.list)) }
    ensures line { IfErr result (λ fault. All (IsOnLine tokens.now.text.now) tokens.now.list → NamesLine tokens.now.text.now fault) }
{
    read_loose(alloc, tokens)
}
