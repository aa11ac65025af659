//! The picture of a page: its bands, its columns, its arrows and its marks, in this order.
ghost use Rattle.std.specs.List.{flat_map};
ghost use Rattle.std.specs.Prelude.{◌≡◌, ◌++◌, ◌∷◌, ◌*◌, [], IfOk, OnOk};
ghost use Rattle.trace_page.specs.Arrows.{arrow_text};
ghost use Rattle.trace_page.specs.PageText.{band_text, band_word as band_def, diagram_text, life_text, mark_text, name_text, past_text, picture_text};
ghost use Rattle.trace_page.specs.Parts.{mark, parts_text};
ghost use Rattle.trace_page.specs.Rows.{height as height_def};
ghost use Rattle.trace_page.specs.Sheets.{IsNarrow, IsSheet, actions_at, row_at, rows_at};

use crate::layout::{height_of, top_of, width_of, x_of};
use crate::marks::{put_mark, put_past};
use crate::markup::Markup;
use crate::page::{Column, Page, Row};
use crate::piece::{Piece, put_markup, put_pieces};
use crate::sheet::Sheet;
use crate::spots::{RowAt, height};
use crate::ways::put_arrow;
use da_values::{Buf, NoMemory};

/// Appends the names of the columns.
pub(crate) fn put_names(page: &Page, out: &mut Buf) -> Result<(), NoMemory>
    requires { IsNarrow page.now }
    ensures { OnOk result (out.new ≡ out.old ++ flat_map (name_text page.now) page.now.columns) }
{
    for column in page.columns.as_slice() {
        put_name(page, column, out)?;
    }
    Ok(())
}

fn put_name(page: &Page, column: &Column, out: &mut Buf) -> Result<(), NoMemory>
    requires { IsNarrow page.now }
    ensures { OnOk result (out.new ≡ out.old ++ name_text page.now column.now) }
{
    put_pieces(
        &[
            Piece::Mark(Markup::Name),
            Piece::Number(x_of(page, column.process)),
            Piece::Mark(Markup::LabelOpen),
            Piece::Text(column.name.as_slice()),
            Piece::Mark(Markup::Space),
            Piece::Number(u64::from(column.process)),
            Piece::Mark(Markup::LabelClose),
        ],
        out,
    )
}

/// Appends the drawing.
pub(crate) fn put_picture(sheet: &Sheet<'_>, out: &mut Buf) -> Result<(), NoMemory>
    requires { IsSheet sheet.now }
    ensures { OnOk result (out.new ≡ out.old ++ picture_text sheet.now.page.now (rows_at sheet.now.rows) (actions_at sheet.now.spots)) }
{
    put_opening(sheet, out)?;
    put_bands(sheet, out)?;
    put_columns(sheet, out)?;
    put_arrows(sheet, out)?;
    put_marks(sheet, out)
}

// The beginning of the drawing.
fn put_opening(sheet: &Sheet<'_>, out: &mut Buf) -> Result<(), NoMemory>
    requires { IsSheet sheet.now }
    ensures { OnOk result (out.new ≡ out.old ++ diagram_text sheet.now.page.now) }
{
    let width = width_of(sheet.page);
    let height = height_of(sheet);
    put_pieces(
        &[
            Piece::Mark(Markup::Diagram),
            Piece::Number(width),
            Piece::Mark(Markup::Height),
            Piece::Number(height),
            Piece::Mark(Markup::ViewBox),
            Piece::Number(width),
            Piece::Mark(Markup::Space),
            Piece::Number(height),
            Piece::Mark(Markup::DiagramOpen),
        ],
        out,
    )
}

// The bands of the rows.
fn put_bands(sheet: &Sheet<'_>, out: &mut Buf) -> Result<(), NoMemory>
    requires { IsSheet sheet.now }
    ensures { OnOk result (out.new ≡ out.old ++ flat_map (band_text sheet.now.page.now) (rows_at sheet.now.rows)) }
{
    for row in sheet.rows.as_slice() {
        put_band(sheet.page, row, out)?;
    }
    Ok(())
}

fn put_band(page: &Page, at: &RowAt<'_>, out: &mut Buf) -> Result<(), NoMemory>
    requires { IsNarrow page.now }
    ensures { OnOk result (out.new ≡ out.old ++ band_text page.now (row_at at.now)) }
{
    let top = top_of(at.line);
    let event = u64::from(at.event);
    let high = high_of(at.row)?;
    put_pieces(
        &[
            Piece::Mark(band_word(at.row.is_marked)),
            Piece::Number(event),
            Piece::Mark(Markup::BandAt),
            Piece::Number(top),
            Piece::Mark(Markup::Width),
            Piece::Number(width_of(page)),
            Piece::Mark(Markup::Height),
            Piece::Number(high),
            Piece::Mark(Markup::LinkTo),
            Piece::Number(event),
            Piece::Mark(Markup::BandLabel),
            Piece::Number(top + 13),
            Piece::Mark(Markup::LabelOpen),
            Piece::Number(event),
            Piece::Mark(Markup::Space),
            Piece::Text(at.row.words.as_slice()),
            Piece::Mark(Markup::BandEnd),
        ],
        out,
    )
}

// How high the band of a row is. No memory has room for a row that is higher than what 64 bits count.
fn high_of(row: &Row) -> Result<u64, NoMemory>
    ensures { IfOk result (λ high. high ≡ 18 * height_def row.now) }
{
    match (height(row) as u64).checked_mul(18) {
        Some(high) => Ok(high),
        None => Err(NoMemory),
    }
}

fn band_word(is_marked: bool) -> Markup
    ensures { result ≡ band_def is_marked }
{
    if is_marked {
        Markup::MarkedBand
    } else {
        Markup::Band
    }
}

// The columns, and over them what is faint.
fn put_columns(sheet: &Sheet<'_>, out: &mut Buf) -> Result<(), NoMemory>
    requires { IsSheet sheet.now }
    ensures { OnOk result (out.new ≡ out.old ++ parts_text (mark Markup.Lives ∷ []) ++ flat_map (life_text sheet.now.page.now) sheet.now.page.now.columns
        ++ flat_map (past_text sheet.now.page.now) (actions_at sheet.now.spots)) }
{
    put_markup(Markup::Lives, out)?;
    put_lives(sheet, out)?;
    put_pasts(sheet, out)
}

fn put_lives(sheet: &Sheet<'_>, out: &mut Buf) -> Result<(), NoMemory>
    requires { IsSheet sheet.now }
    ensures { OnOk result (out.new ≡ out.old ++ flat_map (life_text sheet.now.page.now) sheet.now.page.now.columns) }
{
    for column in sheet.page.columns.as_slice() {
        put_life(sheet, column, out)?;
    }
    Ok(())
}

fn put_life(sheet: &Sheet<'_>, column: &Column, out: &mut Buf) -> Result<(), NoMemory>
    requires { IsSheet sheet.now }
    ensures { OnOk result (out.new ≡ out.old ++ life_text sheet.now.page.now column.now) }
{
    let x = x_of(sheet.page, column.process);
    put_pieces(
        &[
            Piece::Mark(Markup::Life),
            Piece::Number(x),
            Piece::Mark(Markup::Space),
            Piece::Number(0),
            Piece::Mark(Markup::LineTo),
            Piece::Number(x),
            Piece::Mark(Markup::Space),
            Piece::Number(height_of(sheet)),
            Piece::Mark(Markup::PathEnd),
        ],
        out,
    )
}

fn put_pasts(sheet: &Sheet<'_>, out: &mut Buf) -> Result<(), NoMemory>
    requires { IsSheet sheet.now }
    ensures { OnOk result (out.new ≡ out.old ++ flat_map (past_text sheet.now.page.now) (actions_at sheet.now.spots)) }
{
    for spot in sheet.spots.as_slice() {
        put_past(sheet, spot, out)?;
    }
    Ok(())
}

// The arrows, which lie below all marks.
fn put_arrows(sheet: &Sheet<'_>, out: &mut Buf) -> Result<(), NoMemory>
    requires { IsSheet sheet.now }
    ensures { OnOk result (out.new ≡ out.old ++ parts_text (mark Markup.Arrows ∷ [])
        ++ flat_map (arrow_text sheet.now.page.now (actions_at sheet.now.spots)) (actions_at sheet.now.spots)) }
{
    put_markup(Markup::Arrows, out)?;
    for spot in sheet.spots.as_slice() {
        put_arrow(sheet, spot, out)?;
    }
    Ok(())
}

// The marks.
fn put_marks(sheet: &Sheet<'_>, out: &mut Buf) -> Result<(), NoMemory>
    requires { IsSheet sheet.now }
    ensures { OnOk result (out.new ≡ out.old ++ parts_text (mark Markup.Marks ∷ []) ++ flat_map (mark_text sheet.now.page.now) (actions_at sheet.now.spots)) }
{
    put_markup(Markup::Marks, out)?;
    for spot in sheet.spots.as_slice() {
        put_mark(sheet, spot, out)?;
    }
    Ok(())
}
