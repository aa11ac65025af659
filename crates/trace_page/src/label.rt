//! What is written beside the mark of an action, and its whole line.
ghost use Rattle.da_values.specs.Text.{separated, value_text};
ghost use Rattle.da_values.specs.Value.{vals};
ghost use Rattle.da_values.specs.declared.val.Val.TheVariants as val;
ghost use Rattle.sched_text.specs.ActionLine.{bare_line as bare_line_def};
ghost use Rattle.sched_text.specs.ActionText.{fault_word as fault_word_def};
ghost use Rattle.std.specs.Prelude.{◌≡◌, ◌==◌, ◌++◌, if◌then◌else◌, [], codes, decimal, map, IfOk, OnOk};
ghost use Rattle.trace_page.specs.Shapes.{is_left as is_left_def, label_of as label_def, shape_of as shape_def, word_of as word_def};

use crate::markup::Markup;
use da_lang::{Action, FaultKind};
use da_values::{Buf, List, NoMemory, Value, write_number, write_value};
use sched_text::write_action;
use std::alloc::Global;

/// The word of an action's kind.
pub(crate) fn word_of(action: &Action) -> Markup
    ensures { result ≡ word_def action.now }
{
    match action {
        Action::Took { .. } => Markup::WordTook,
        Action::Sent { .. } => Markup::WordSent,
        Action::Got { .. } => Markup::WordGot,
        Action::Lost { .. } => Markup::WordLost,
        Action::Again { .. } => Markup::WordAgain,
        Action::Out { .. } => Markup::WordOut,
        Action::End { .. } => Markup::WordEnd,
        Action::Fault { .. } => Markup::WordFault,
        Action::Answer { .. } => Markup::WordAnswer,
        Action::Kept { .. } => Markup::WordKept,
        Action::Stop { .. } => Markup::WordStop,
    }
}

/// The shape of its mark.
pub(crate) fn shape_of(action: &Action) -> Markup
    ensures { result ≡ shape_def action.now }
{
    match action {
        Action::Took { .. } => Markup::ShapeTook,
        Action::Sent { .. } => Markup::ShapeSent,
        Action::Got { .. } => Markup::ShapeGot,
        Action::Lost { .. } => Markup::ShapeLost,
        Action::Again { .. } => Markup::ShapeAgain,
        Action::Out { .. } => Markup::ShapeOut,
        Action::End { .. } => Markup::ShapeEnd,
        Action::Fault { .. } => Markup::ShapeFault,
        Action::Answer { .. } => Markup::ShapeAnswer,
        Action::Kept { .. } => Markup::ShapeKept,
        Action::Stop { .. } => Markup::ShapeStop,
    }
}

/// Whether the label of an action stands on the left of its mark: its arrow is on the right.
pub(crate) fn is_left(action: &Action) -> bool
    ensures { result ≡ is_left_def action.now }
{
    match action {
        Action::Sent { p, q, .. } => *p < *q,
        Action::Got { q, p, .. } => *q < *p,
        _ => false,
    }
}

/// The line of an action, without its end.
pub(crate) fn bare_line(alloc: Global, action: &Action) -> Result<Buf, NoMemory>
    ensures { IfOk result (λ line. line ≡ bare_line_def action.now) }
{
    let mut line = List::new(alloc);
    write_action(action, &mut line)?;
    line.pop();
    Ok(line)
}

/// What is written beside the mark of an action.
pub(crate) fn label_of(alloc: Global, action: &Action) -> Result<Buf, NoMemory>
    ensures { IfOk result (λ label. label ≡ label_def action.now) }
{
    let mut label = List::new(alloc);
    put_label(action, &mut label)?;
    Ok(label)
}

fn put_label(action: &Action, out: &mut Buf) -> Result<(), NoMemory>
    ensures { OnOk result (out.new ≡ out.old ++ label_def action.now) }
{
    match action {
        Action::Took { k, .. } => put_alternative(*k, out),
        Action::Sent { v, .. } => write_value(v, out),
        Action::Got { v, .. } => write_value(v, out),
        Action::Lost { .. } => Ok(()),
        Action::Again { .. } => Ok(()),
        Action::Out { v, .. } => write_value(v, out),
        Action::End { .. } => out.append(b"end"),
        Action::Fault { kind, line, .. } => put_fault(*kind, *line, out),
        Action::Answer { n, rows, .. } => put_answer(*n, rows.as_slice(), out),
        Action::Kept { n, .. } => put_kept(*n, out),
        Action::Stop { i } => write_number(*i, out),
    }
}

fn put_alternative(k: u32, out: &mut Buf) -> Result<(), NoMemory>
    ensures { OnOk result (out.new ≡ out.old ++ (if k == 0 then [] else codes "alternative " ++ decimal k)) }
{
    if k == 0 {
        return Ok(());
    }
    out.append(b"alternative ")?;
    write_number(k, out)
}

fn put_fault(kind: FaultKind, line: u32, out: &mut Buf) -> Result<(), NoMemory>
    ensures { OnOk result (out.new ≡ out.old ++ codes "fault " ++ fault_word_def kind ++ codes " " ++ decimal line) }
{
    out.append(b"fault ")?;
    out.append(fault_word(kind))?;
    out.append(b" ")?;
    write_number(line, out)
}

fn fault_word(kind: FaultKind) -> &'static [u8]
    ensures { result.now ≡ fault_word_def kind }
{
    match kind {
        FaultKind::Overflow => b"overflow",
        FaultKind::Divide => b"divide",
        FaultKind::Range => b"range",
        FaultKind::Message => b"message",
        FaultKind::TooLong => b"toolong",
    }
}

fn put_answer(n: u32, rows: &[Value], out: &mut Buf) -> Result<(), NoMemory>
    ensures { OnOk result (out.new ≡ out.old ++ codes "query " ++ decimal n ++ codes " " ++ value_text (val.Set (vals rows.now))) }
{
    out.append(b"query ")?;
    write_number(n, out)?;
    out.append(b" {")?;
    put_separated(rows, out)?;
    out.append(b"}")
}

// Appends the texts of some values, with a comma and a space between.
fn put_separated(values: &[Value], out: &mut Buf) -> Result<(), NoMemory>
    ensures { OnOk result (out.new ≡ out.old ++ separated (map value_text (vals values.now))) }
{
    for (place, value) in values.iter().enumerate() {
        if place > 0 {
            out.append(b", ")?;
        }
        write_value(value, out)?;
    }
    Ok(())
}

fn put_kept(n: u128, out: &mut Buf) -> Result<(), NoMemory>
    ensures { OnOk result (out.new ≡ out.old ++ codes "kept " ++ decimal n) }
{
    out.append(b"kept ")?;
    write_number(n, out)
}
