//! What `check` says of a text, as diagnostics.
ghost use Rattle.da_commands.specs.Lines.{refused_text};
ghost use Rattle.da_front.specs.Verdict.{IsRefusedAs, Refuses};
ghost use Rattle.lsp_server.specs.Notices.{IsDiagnosed};
ghost use Rattle.serde_json.specs.Data.{string};
ghost use Rattle.serde_json.specs.Find.{get};
ghost use Rattle.serde_json.specs.View.{items_view, view};
ghost use Rattle.std.specs.Prelude.{◌≡◌, Some, IfOk, codes};

use crate::json::{put_item, put_text};
use crate::warnings::warnings_of;
use da_commands::refused_line;
use da_front::{ProgramFault, RefusedKind, read_program};
use da_values::NoMemory;
use editor_answers::shown_refusal;
use serde_json::Value;
use std::alloc::Global;

/// The diagnostics of a text: warnings where it is accepted, and else the one error.
pub fn diagnostics_of(alloc: Global, text: &[u8]) -> Result<Vec<Value>, NoMemory>
    ensures { IfOk result (λ list. IsDiagnosed text.now (items_view list.items)) }
{
    match read_program(alloc, text) {
        Ok(compiled) => {
            drop(compiled);
            warnings_of(alloc, text)
        }
        Err(fault) => error_by(alloc, text, fault),
    }
}

// The one error of a text that gives no program.
fn error_by(alloc: Global, text: &[u8], fault: ProgramFault) -> Result<Vec<Value>, NoMemory>
    ensures { IfOk result (λ list. IsRefusedAs text.now fault → IsDiagnosed text.now (items_view list.items)) }
{
    match fault {
        ProgramFault::Memory => Err(NoMemory),
        ProgramFault::Refused { kind, line } => error_of(alloc, text, kind, line),
    }
}

// The list of the one diagnostic of a refusal at a line, or at 0 where no line is to blame.
fn error_of(
    alloc: Global,
    text: &[u8],
    kind: RefusedKind,
    line: u32,
) -> Result<Vec<Value>, NoMemory>
    ensures { IfOk result (λ list. Refuses text.now kind line → IsDiagnosed text.now (items_view list.items)) }
{
    let item = diagnostic(alloc, text, kind, line)?;
    let mut list = Vec::new(alloc);
    put_item(item, &mut list)?;
    Ok(list)
}

// The diagnostic of a refusal. Its data is the line that `check` answers.
fn diagnostic(alloc: Global, text: &[u8], kind: RefusedKind, line: u32) -> Result<Value, NoMemory>
    ensures { IfOk result (λ v. get (codes "data") (view v) ≡ Some (string (refused_text kind line))) }
{
    let answer = refused_line(alloc, kind, line)?;
    let told = answer.as_slice();
    let mut members = shown_refusal(alloc, text, kind, line, told);
    put_text(alloc, "data", told, &mut members)?;
    Ok(Value::Object(members))
}
