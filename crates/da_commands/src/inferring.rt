//! The command `infer`.
ghost use Rattle.da_outside.specs.Outside.{HasCause, Rose};
ghost use Rattle.da_unparse.specs.Programs.{tree_text};
ghost use Rattle.da_commands.specs.Faults.{after_infer as refusal_of};
ghost use Rattle.da_commands.specs.InferReplies.{HasLoose, InferReply, IsCompleted, IsLooselyRefusedAs};
ghost use Rattle.da_commands.specs.Replies.{IsEnd};
ghost use Rattle.da_commands.specs.Told.{HasReplied, HasSaid, OfTold};
ghost use Rattle.std.specs.Prelude.{ℕ, ◌≡◌, ◌+◌, ◌<◌, ◌≤◌, IfErr, IfOk, List, take};

use crate::endings::{refuse, say};
use crate::status::Status;
use da_front::{PROGRAM_LIMIT, ProgramFault, RefusedKind, read_tokens};
use da_infer::{InferFault, infer};
use da_lang::Tree;
use da_outside::{Files, Sink, Trouble, read_all};
use da_parse::{LooseTree, ParseFault, parse_loose};
use da_unparse::print_tree;
use std::alloc::Global;

/// Reads a program that may lack declarations, and refuses it or writes it with them.
#[tactic(auto, using(crate::proofs::InferLemmas::none_completed))]
pub fn write_declared<F: Files, K: Sink>(
    alloc: Global,
    program: &str,
    files: &mut F,
    out: &mut K,
) -> Status
    ensures replies { OfTold (F.told files.old program.now)
        (λ t. HasReplied (InferReply t) result (K.taken out.old) (K.taken out.new)) }
    ensures ends { IsEnd result }
    ensures read { result ≡ Status.ReadFault → Rose (F.faults files.old program.now) (F.faults files.new program.now) }
    ensures unread { result ≡ Status.ReadFault → K.taken out.new ≡ K.taken out.old }
    ensures told { (x : List ℕ) → F.told files.new x ≡ F.told files.old x }
    ensures later { (x : List ℕ) → F.faults files.old x ≤ F.faults files.new x }
    ensures rises { (x : List ℕ) → F.faults files.old x < F.faults files.new x → result ≡ Status.ReadFault }
    ensures write { HasCause (K.faults out.old) (K.faults out.new) (result ≡ Status.WriteFault) }
{
    match read_all(alloc, files, program, PROGRAM_LIMIT) {
        Ok(text) => answer_text(alloc, text.as_slice(), out),
        Err(Trouble::Failed) => Status::ReadFault,
        Err(Trouble::Memory) => Status::Memory,
    }
}

// Refuses the program, or writes it with its declarations.
#[tactic(auto, using(crate::proofs::ToldLemmas::begins_nothing))]
fn answer_text<K: Sink>(alloc: Global, text: &[u8], out: &mut K) -> Status
    ensures replies { (t : List ℕ) → text.now ≡ take (PROGRAM_LIMIT + 1) t
        → HasReplied (InferReply t) result (K.taken out.old) (K.taken out.new) }
    ensures ends { IsEnd result }
    ensures read { result ≡ Status.ReadFault → ⊥ }
    ensures write { HasCause (K.faults out.old) (K.faults out.new) (result ≡ Status.WriteFault) }
{
    match complete(alloc, text) {
        Ok(tree) => answer_tree(alloc, &tree, out),
        Err(ProgramFault::Refused { kind, line }) => refuse(alloc, out, kind, line),
        Err(ProgramFault::Memory) => Status::Memory,
    }
}

// The program of a text, with the declarations that it lacks.
#[tactic(auto, using(crate::proofs::InferLemmas::is_completed, crate::proofs::InferLemmas::not_inferred))]
fn complete(alloc: Global, text: &[u8]) -> Result<Tree, ProgramFault>
    ensures completed { IfOk result (IsCompleted text.now) }
    ensures refused { IfErr result (IsLooselyRefusedAs text.now) }
{
    let loose = read_loose(alloc, text)?;
    match infer(alloc, &loose) {
        Ok(tree) => Ok(tree),
        Err(why) => Err(after_infer(why)),
    }
}

// The refusal of a text that gets no declarations.
fn after_infer(why: InferFault) -> ProgramFault
    ensures { result ≡ refusal_of why }
{
    match why {
        InferFault::Name { kind, line } => ProgramFault::Refused {
            kind: RefusedKind::from(kind),
            line,
        },
        InferFault::Limit { which, line } => ProgramFault::Refused {
            kind: RefusedKind::from(which),
            line,
        },
        InferFault::NoTypes { line } => ProgramFault::Refused {
            kind: RefusedKind::Infer,
            line,
        },
        InferFault::Memory => ProgramFault::Memory,
    }
}

// What a text spells by the grammar in which parameters may lack their types.
#[tactic(auto, using(crate::proofs::InferLemmas::cut_loosely, crate::proofs::InferLemmas::has_loose))]
fn read_loose(alloc: Global, text: &[u8]) -> Result<LooseTree, ProgramFault>
    ensures ok { IfOk result (HasLoose text.now) }
    ensures refused { IfErr result (IsLooselyRefusedAs text.now) }
{
    let tokens = read_tokens(alloc, text)?;
    match parse_loose(alloc, &tokens) {
        Ok(loose) => Ok(loose),
        Err(ParseFault::Memory) => Err(ProgramFault::Memory),
        Err(ParseFault::Syntax { line }) => Err(ProgramFault::Refused {
            kind: RefusedKind::Syntax,
            line,
        }),
        Err(ParseFault::Deep { line }) => Err(ProgramFault::Refused {
            kind: RefusedKind::Deep,
            line,
        }),
    }
}

// Writes a program that has its declarations.
#[tactic(auto, using(crate::proofs::ToldLemmas::memory_said, crate::proofs::ToldLemmas::said_ends, crate::proofs::ToldLemmas::said_unread))]
fn answer_tree<K: Sink>(alloc: Global, tree: &Tree, out: &mut K) -> Status
    ensures said { HasSaid Status.Done (tree_text tree.now) result (K.taken out.old) (K.taken out.new) }
    ensures ends { IsEnd result }
    ensures read { result ≡ Status.ReadFault → ⊥ }
    ensures write { HasCause (K.faults out.old) (K.faults out.new) (result ≡ Status.WriteFault) }
{
    match print_tree(alloc, tree) {
        Ok(text) => say(out, text.as_slice(), Status::Done),
        Err(_) => Status::Memory,
    }
}
