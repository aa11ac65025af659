//! The marks of a picture: one for each action.
ghost use Rattle.std.specs.Prelude.{◌≡◌, ◌≤◌, ◌+◌, ◌-◌, ◌++◌, if◌then◌else◌, OnOk, take};
ghost use Rattle.sched_text.specs.ActionLine.{bare_line as bare_line_def};
ghost use Rattle.trace_page.specs.PageText.{dots as dots_def, mark_parts, mark_text, past_parts, past_text, stop_parts};
ghost use Rattle.trace_page.specs.Parts.{parts_text};
ghost use Rattle.trace_page.specs.Sheets.{IsSheet, action_at};
ghost use Rattle.trace_page.specs.Shapes.{label_of as label_def};

use crate::label::{bare_line, is_left, label_of, shape_of, word_of};
use crate::layout::{column_of, height_of, width_of, x_of, y_of};
use crate::markup::Markup;
use crate::piece::{Piece, put_pieces};
use crate::rows::process_of;
use crate::sheet::Sheet;
use crate::spots::ActionAt;
use da_lang::Action;
use da_values::{Buf, NoMemory};

/// The most bytes of a label that are shown.
const LABEL_MOST: usize = 22;

/// Appends the mark of an action, with its whole line for whoever points at it.
pub(crate) fn put_mark(sheet: &Sheet<'_>, at: &ActionAt<'_>, out: &mut Buf) -> Result<(), NoMemory>
    requires { IsSheet sheet.now }
    ensures { OnOk result (out.new ≡ out.old ++ mark_text sheet.now.page.now (action_at at.now)) }
{
    let line = bare_line(sheet.alloc, at.action)?;
    let label = label_of(sheet.alloc, at.action)?;
    put_form(sheet, at, line.as_slice(), label.as_slice(), out)
}

// Appends the mark of an action that has this line and this label.
fn put_form(
    sheet: &Sheet<'_>,
    at: &ActionAt<'_>,
    line: &[u8],
    label: &[u8],
    out: &mut Buf,
) -> Result<(), NoMemory>
    requires sheet { IsSheet sheet.now }
    requires line { line.now ≡ bare_line_def at.now.action.now }
    requires label { label.now ≡ label_def at.now.action.now }
    ensures { OnOk result (out.new ≡ out.old ++ mark_text sheet.now.page.now (action_at at.now)) }
{
    match at.action {
        Action::Stop { .. } => put_stop(sheet, at, line, label, out),
        _ => put_shape(sheet, at, line, label, out),
    }
}

// Appends the mark of an action in the column of its process.
fn put_shape<'t>(
    sheet: &Sheet<'_>,
    at: &ActionAt<'_>,
    line: &'t [u8],
    label: &'t [u8],
    out: &mut Buf,
) -> Result<(), NoMemory>
    requires sheet { IsSheet sheet.now }
    requires line { line.now ≡ bare_line_def at.now.action.now }
    requires label { label.now ≡ label_def at.now.action.now }
    ensures { OnOk result (out.new ≡ out.old ++ parts_text (mark_parts sheet.now.page.now at.now.event at.now.line at.now.action.now)) }
{
    let process = process_of(at.action);
    let x = x_of(sheet.page, process);
    let y = y_of(at.line);
    let on_left = is_left(at.action);
    put_pieces(
        &[
            Piece::Mark(Markup::MarkOpen),
            Piece::Mark(word_of(at.action)),
            Piece::Mark(Markup::InColumn),
            Piece::Number(column_of(sheet.page, process) + 1),
            Piece::Mark(Markup::OfEvent),
            Piece::Number(u64::from(at.event)),
            Piece::Mark(Markup::Title),
            Piece::Text(line),
            Piece::Mark(Markup::ShapeAt),
            Piece::Number(x),
            Piece::Mark(Markup::Space),
            Piece::Number(y),
            Piece::Mark(shape_of(at.action)),
            Piece::Mark(Markup::Label),
            Piece::Number(label_x(x, on_left)),
            Piece::Mark(Markup::Y),
            Piece::Number(y + 4),
            Piece::Mark(label_word(on_left)),
            Piece::Text(front(label, LABEL_MOST)),
            Piece::Mark(dots(label)),
            Piece::Mark(Markup::MarkEnd),
        ],
        out,
    )
}

// Where a label begins, or where it ends that stands on the left of its mark.
fn label_x(x: u64, on_left: bool) -> u64
    requires { x ≤ 16777216 }
    ensures { result ≡ (if on_left then x - 10 else x + 10) }
{
    if on_left {
        x.saturating_sub(10)
    } else {
        x + 10
    }
}

fn label_word(on_left: bool) -> Markup
    ensures { result ≡ (if on_left then Markup.LabelLeft else Markup.LabelOpen) }
{
    if on_left {
        Markup::LabelLeft
    } else {
        Markup::LabelOpen
    }
}

// Appends the stop of a run: a line across.
fn put_stop<'t>(
    sheet: &Sheet<'_>,
    at: &ActionAt<'_>,
    line: &'t [u8],
    label: &'t [u8],
    out: &mut Buf,
) -> Result<(), NoMemory>
    requires sheet { IsSheet sheet.now }
    requires line { line.now ≡ bare_line_def at.now.action.now }
    requires label { label.now ≡ label_def at.now.action.now }
    ensures { OnOk result (out.new ≡ out.old ++ parts_text (stop_parts sheet.now.page.now at.now.event at.now.line at.now.action.now)) }
{
    let y = y_of(at.line);
    put_pieces(
        &[
            Piece::Mark(Markup::StopOpen),
            Piece::Number(u64::from(at.event)),
            Piece::Mark(Markup::Title),
            Piece::Text(line),
            Piece::Mark(Markup::Across),
            Piece::Number(y),
            Piece::Mark(Markup::AcrossTo),
            Piece::Number(width_of(sheet.page)),
            Piece::Mark(Markup::Space),
            Piece::Number(y),
            Piece::Mark(Markup::StopLabel),
            Piece::Number(y + 4),
            Piece::Mark(Markup::LabelOpen),
            Piece::Mark(Markup::StopWords),
            Piece::Text(label),
            Piece::Mark(Markup::LabelClose),
            Piece::Mark(Markup::MarkEnd),
        ],
        out,
    )
}

/// Appends the line of a process below its end, which lies over the line of its column.
pub(crate) fn put_past(sheet: &Sheet<'_>, at: &ActionAt<'_>, out: &mut Buf) -> Result<(), NoMemory>
    requires { IsSheet sheet.now }
    ensures { OnOk result (out.new ≡ out.old ++ past_text sheet.now.page.now (action_at at.now)) }
{
    match at.action {
        Action::End { p } => put_faint(sheet, *p, at.line, out),
        Action::Fault { p, .. } => put_faint(sheet, *p, at.line, out),
        _ => Ok(()),
    }
}

fn put_faint(sheet: &Sheet<'_>, p: u16, line: u32, out: &mut Buf) -> Result<(), NoMemory>
    requires { IsSheet sheet.now }
    ensures { OnOk result (out.new ≡ out.old ++ parts_text (past_parts sheet.now.page.now p line)) }
{
    let x = x_of(sheet.page, p);
    put_pieces(
        &[
            Piece::Mark(Markup::Past),
            Piece::Number(x),
            Piece::Mark(Markup::Space),
            Piece::Number(y_of(line)),
            Piece::Mark(Markup::LineTo),
            Piece::Number(x),
            Piece::Mark(Markup::Space),
            Piece::Number(height_of(sheet)),
            Piece::Mark(Markup::PathEnd),
        ],
        out,
    )
}

/// The first bytes of a text, at most so many.
pub(crate) fn front(text: &[u8], most: usize) -> &[u8]
    ensures { result.now ≡ take most text.now }
{
    if text.len() > most {
        &text[..most]
    } else {
        text
    }
}

// How a label ends.
fn dots(label: &[u8]) -> Markup
    ensures { result ≡ dots_def label.now }
{
    if label.len() > LABEL_MOST {
        Markup::DotsClose
    } else {
        Markup::LabelClose
    }
}
