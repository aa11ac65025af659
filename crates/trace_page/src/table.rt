//! The table of a page, and the text of the program.
ghost use Rattle.std.specs.List.{flat_map};
ghost use Rattle.std.specs.Prelude.{◌≡◌, ◌++◌, ◌∷◌, [], if◌then◌else◌, length, nat_lt, OnOk};
ghost use Rattle.std.specs.Str.Lines.{lines};
ghost use Rattle.trace_page.specs.PageText.{action_item, change_item, changes_text, program_line, program_text, row_text, row_word as row_def, table_word as table_def};
ghost use Rattle.trace_page.specs.Parts.{frame, number, parts_text, text};
ghost use Rattle.trace_page.specs.Sheets.{row_at, rows_at};

use crate::label::bare_line;
use crate::line::split_line;
use crate::marks::front;
use crate::markup::Frame;
use crate::page::{Change, Kind, Row};
use crate::piece::{Piece, put_frame, put_pieces};
use crate::spots::RowAt;
use da_lang::Action;
use da_values::{Buf, NoMemory};
use std::alloc::Global;

/// The most bytes of a value that are shown.
const VALUE_MOST: usize = 1_000;

/// Appends the end of the picture, and the text of the program where the page is that of a run.
pub(crate) fn put_program(kind: Kind, program: &[u8], out: &mut Buf) -> Result<(), NoMemory>
    ensures { OnOk result (out.new ≡ out.old ++ program_text kind program.now) }
{
    match kind {
        Kind::Trace => put_frame(Frame::PictureEnd, out),
        Kind::Run => put_lines(program, out),
    }
}

fn put_lines(program: &[u8], out: &mut Buf) -> Result<(), NoMemory>
    ensures { OnOk result (out.new ≡ out.old ++ parts_text (frame Frame.Program ∷ []) ++ flat_map program_line (lines program.now) ++ parts_text (frame Frame.ProgramEnd ∷ [])) }
{
    put_frame(Frame::Program, out)?;
    put_each(program, out)?;
    put_frame(Frame::ProgramEnd, out)
}

// Appends each line of the program.
fn put_each(program: &[u8], out: &mut Buf) -> Result<(), NoMemory>
    ensures { OnOk result (out.new ≡ out.old ++ flat_map program_line (lines program.now)) }
{
    let mut rest = program;
    'lines: while rest.len() > 0 {
        let (line, others) = split_line(rest);
        put_line(line, out)?;
        rest = others;
    }
    Ok(())
}

fn put_line(line: &[u8], out: &mut Buf) -> Result<(), NoMemory>
    ensures { OnOk result (out.new ≡ out.old ++ program_line line.now) }
{
    put_pieces(
        &[
            Piece::Framed(Frame::ProgramLine),
            Piece::Text(line),
            Piece::Framed(Frame::ItemEnd),
        ],
        out,
    )
}

/// The head of the table.
pub(crate) fn table_word(kind: Kind) -> Frame
    ensures { result ≡ table_def kind }
{
    match kind {
        Kind::Trace => Frame::TableOfTrace,
        Kind::Run => Frame::TableOfRun,
    }
}

/// Appends the rows of the table.
pub(crate) fn put_rows(
    alloc: Global,
    kind: Kind,
    rows: &[RowAt<'_>],
    out: &mut Buf,
) -> Result<(), NoMemory>
    ensures { OnOk result (out.new ≡ out.old ++ flat_map (row_text kind) (rows_at rows.now)) }
{
    for row in rows {
        put_row(alloc, kind, row, out)?;
    }
    Ok(())
}

fn put_row(alloc: Global, kind: Kind, at: &RowAt<'_>, out: &mut Buf) -> Result<(), NoMemory>
    ensures { OnOk result (out.new ≡ out.old ++ row_text kind (row_at at.now)) }
{
    put_row_head(at.event, at.row, out)?;
    put_actions(alloc, at.row.actions.as_slice(), out)?;
    put_frame(Frame::CellEnd, out)?;
    put_changes(kind, at.row.changes.as_slice(), out)?;
    put_frame(Frame::RowEnd, out)
}

fn put_row_head(event: u32, row: &Row, out: &mut Buf) -> Result<(), NoMemory>
    ensures { OnOk result (out.new ≡ out.old ++ parts_text (frame (row_def row.now.is_marked) ∷ number event ∷ frame Frame.RowNumber ∷ number event
        ∷ frame Frame.RowWords ∷ text row.now.words ∷ frame Frame.CellNext ∷ [])) }
{
    let number = u64::from(event);
    put_pieces(
        &[
            Piece::Framed(row_word(row.is_marked)),
            Piece::Number(number),
            Piece::Framed(Frame::RowNumber),
            Piece::Number(number),
            Piece::Framed(Frame::RowWords),
            Piece::Text(row.words.as_slice()),
            Piece::Framed(Frame::CellNext),
        ],
        out,
    )
}

fn row_word(is_marked: bool) -> Frame
    ensures { result ≡ row_def is_marked }
{
    if is_marked {
        Frame::MarkedRow
    } else {
        Frame::RowOpen
    }
}

// Appends the lines of actions.
fn put_actions(alloc: Global, actions: &[Action], out: &mut Buf) -> Result<(), NoMemory>
    ensures { OnOk result (out.new ≡ out.old ++ flat_map action_item actions.now) }
{
    for action in actions {
        put_action(alloc, action, out)?;
    }
    Ok(())
}

fn put_action(alloc: Global, action: &Action, out: &mut Buf) -> Result<(), NoMemory>
    ensures { OnOk result (out.new ≡ out.old ++ action_item action.now) }
{
    let line = bare_line(alloc, action)?;
    put_pieces(
        &[Piece::Text(line.as_slice()), Piece::Framed(Frame::Break)],
        out,
    )
}

// Appends what a row changes, where the page is that of a run.
fn put_changes(kind: Kind, changes: &[Change], out: &mut Buf) -> Result<(), NoMemory>
    ensures { OnOk result (out.new ≡ out.old ++ changes_text kind changes.now) }
{
    match kind {
        Kind::Trace => Ok(()),
        Kind::Run => put_all_changes(changes, out),
    }
}

fn put_all_changes(changes: &[Change], out: &mut Buf) -> Result<(), NoMemory>
    ensures { OnOk result (out.new ≡ out.old ++ parts_text (frame Frame.Changes ∷ []) ++ flat_map change_item changes.now ++ parts_text (frame Frame.ChangesEnd ∷ [])) }
{
    put_frame(Frame::Changes, out)?;
    put_each_change(changes, out)?;
    put_frame(Frame::ChangesEnd, out)
}

fn put_each_change(changes: &[Change], out: &mut Buf) -> Result<(), NoMemory>
    ensures { OnOk result (out.new ≡ out.old ++ flat_map change_item changes.now) }
{
    for change in changes {
        put_change(change, out)?;
    }
    Ok(())
}

fn put_change(change: &Change, out: &mut Buf) -> Result<(), NoMemory>
    ensures { OnOk result (out.new ≡ out.old ++ change_item change.now) }
{
    let process = u64::from(change.process);
    let value = change.value.as_slice();
    put_pieces(
        &[
            Piece::Framed(Frame::ChangeOf),
            Piece::Number(process),
            Piece::Framed(Frame::ChangeAt),
            Piece::Number(u64::from(change.place)),
            Piece::Framed(Frame::ChangeOpen),
            Piece::Number(process),
            Piece::Framed(Frame::ChangeName),
            Piece::Text(change.name.as_slice()),
            Piece::Framed(Frame::ChangeValue),
            Piece::Text(front(value, VALUE_MOST)),
            Piece::Framed(change_end(value)),
        ],
        out,
    )
}

// How a value ends.
fn change_end(value: &[u8]) -> Frame
    ensures { result ≡ (if nat_lt 1000 (length value.now) then Frame.ChangeCut else Frame.ChangeEnd) }
{
    if value.len() > VALUE_MOST {
        Frame::ChangeCut
    } else {
        Frame::ChangeEnd
    }
}
