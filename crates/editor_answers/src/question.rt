//! What is asked of a document.

use serde_json::Value;
use std::alloc::Global;

/// A request on a document: its message, the URI and the text of the document.
#[derive(Clone, Copy)]
pub struct Question<'v> {
    pub alloc: Global,
    pub value: &'v Value,
    pub uri: &'v str,
    pub text: &'v [u8],
}
