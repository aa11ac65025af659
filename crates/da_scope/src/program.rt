//! Programs.
ghost use Rattle.da_lang.specs.Resolution.{resolved, resolved_class};
ghost use Rattle.da_lang.specs.Limits.{limit_refusals};
ghost use Rattle.std.specs.Prelude.{◌≡◌, [], IfOk, map};

use crate::class::build_class;
use crate::making::processes;
use da_lang::{Class, ClassTree, MessageDecl, Program, Tree, copy_types};
use da_values::{List, NoMemory, copy_bytes};
use std::alloc::Global;

/// The program of a tree that no rule of names and no limit refuses.
#[tactic(auto, unfolding(da_lang::specs::Resolution::resolved))]
pub fn build_program(alloc: Global, t: &Tree) -> Result<Program, NoMemory>
    requires { limit_refusals t.now ≡ [] }
    ensures { IfOk result (λ program. program ≡ resolved t.now) }
{
    let messages = copy_messages(alloc, t.messages.as_slice())?;
    let classes = build_classes(alloc, t.classes.as_slice())?;
    let procs = processes(alloc, t)?;
    Ok(Program {
        kind: t.kind,
        messages,
        classes,
        procs,
    })
}

// The classes.
fn build_classes(alloc: Global, classes: &[ClassTree]) -> Result<List<Class>, NoMemory>
    ensures { IfOk result (λ found. found ≡ map resolved_class classes.now) }
{
    let mut found = List::new(alloc);
    for class in classes {
        found.push(build_class(alloc, class)?)?;
    }
    Ok(found)
}

// Copies of messages.
fn copy_messages(alloc: Global, messages: &[MessageDecl]) -> Result<List<MessageDecl>, NoMemory>
    ensures { IfOk result (λ copy. copy ≡ messages.now) }
{
    let mut copy = List::new(alloc);
    for message in messages {
        let tag = copy_bytes(alloc, message.tag.as_slice())?;
        let parts = copy_types(alloc, message.parts.as_slice())?;
        copy.push(MessageDecl {
            tag,
            parts,
            line: message.line,
        })?;
    }
    Ok(copy)
}
