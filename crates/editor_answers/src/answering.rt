//! Requests on documents, by their methods.

use crate::completing::complete;
use crate::cures::code_actions;
use crate::hovering::hover;
use crate::lenses::code_lenses;
use crate::outlining::symbols;
use crate::question::Question;
use crate::renaming::{prepare_rename, rename};
use crate::uses::{definition, references};
use serde_json::Value;

/// What a request on a document is answered with, by its method; all that no other method is named for is taken for a completion. It
/// is `None` where the parameters lack something, or give a name that the rules of names do not allow.
pub fn answer_to(method: &str, question: &Question<'_>) -> Option<Value> {
    match method.as_bytes() {
        b"textDocument/hover" => hover(question),
        b"textDocument/definition" => definition(question),
        b"textDocument/references" => references(question),
        b"textDocument/documentSymbol" => symbols(question),
        b"textDocument/prepareRename" => prepare_rename(question),
        b"textDocument/rename" => rename(question),
        b"textDocument/codeAction" => code_actions(question),
        b"textDocument/codeLens" => code_lenses(question),
        _ => complete(question),
    }
}
