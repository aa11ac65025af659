//! What `lint` remarks on a text, as diagnostics.
ghost use Rattle.lsp_server.specs.Notices.{AreWarnings, IsWarning};
ghost use Rattle.serde_json.specs.View.{items_view, view};
ghost use Rattle.std.specs.Prelude.{IfOk};

use crate::json::{put_item, put_member};
use da_lint::{Remark, remarks_on};
use da_values::NoMemory;
use editor_answers::shown_remark;
use serde_json::Value;
use std::alloc::Global;

/// The severity of a warning.
const WARNING: u64 = 2;

/// A warning for each remark on a text that is accepted, in its order.
pub fn warnings_of(alloc: Global, text: &[u8]) -> Result<Vec<Value>, NoMemory>
    ensures { IfOk result (λ list. AreWarnings (items_view list.items)) }
{
    let mut list = Vec::new(alloc);
    let remarks = remarks_on(alloc, text);
    for remark in remarks.as_slice() {
        let item = warning(alloc, text, remark)?;
        put_item(item, &mut list)?;
    }
    Ok(list)
}

// The warning of a remark.
fn warning(alloc: Global, text: &[u8], remark: &Remark) -> Result<Value, NoMemory>
    ensures { IfOk result (λ v. IsWarning (view v)) }
{
    let mut members = shown_remark(alloc, text, remark);
    put_member(alloc, "severity", Value::from(WARNING), &mut members)?;
    Ok(Value::Object(members))
}
