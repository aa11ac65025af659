//! Requests, and what each is answered with.
ghost use Rattle.lsp_server.specs.Session as spec;
ghost use Rattle.serde_json.specs.View.{view};
ghost use Rattle.std.specs.Prelude.{IfOk};

use crate::documents::Documents;
use crate::due::{Due, due_of};
use crate::fault::Fault;
use crate::letters::{answer, answer_null, refusal};
use crate::noted::uri_of;
use crate::phase::Phase;
use da_values::{Buf, NoMemory};
use editor_answers::{Question, abilities, answer_to};
use serde_json::Value;
use std::alloc::Global;

/// The bytes that answer a request in a phase.
pub fn ask(
    alloc: Global,
    phase: Phase,
    documents: &Documents,
    id: &Value,
    method: &str,
    value: &Value,
) -> Result<Buf, NoMemory>
    ensures { IfOk result (spec.Answers (spec.due phase method.now) (view id.now)) }
{
    match due_of(phase, method) {
        Due::Begins => answer(alloc, id, abilities(alloc)),
        Due::Ends => answer_null(alloc, id),
        Due::Known => ask_known(alloc, documents, id, method, value),
        Due::Fails(fault) => refusal(alloc, id, fault),
    }
}

// The answer to a request on a document.
fn ask_known(
    alloc: Global,
    documents: &Documents,
    id: &Value,
    method: &str,
    value: &Value,
) -> Result<Buf, NoMemory>
    ensures { IfOk result (spec.Answers spec.tried (view id.now)) }
{
    match tried(alloc, documents, method, value) {
        Some(done) => answer(alloc, id, done),
        None => refusal(alloc, id, Fault::BadParams),
    }
}

// What a request on a document is answered with, or `None` where its parameters lack something or the document is not open.
fn tried(alloc: Global, documents: &Documents, method: &str, value: &Value) -> Option<Value> {
    let uri = uri_of(value)?;
    let text = documents.text(uri)?;
    let question = Question {
        alloc,
        value,
        uri,
        text,
    };
    answer_to(method, &question)
}
