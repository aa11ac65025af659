//! Whole pages.
ghost use Rattle.std.specs.List.{flat_map};
ghost use Rattle.std.specs.Prelude.{◌≡◌, ◌++◌, ◌∷◌, [], OnOk};
ghost use Rattle.trace_page.specs.PageText.{counts_text, event_count as event_count_def, name_text, page_text, remark_text};
ghost use Rattle.trace_page.specs.Parts.{frame, parts_text};
ghost use Rattle.trace_page.specs.Sheets.{IsSheet, actions_at, sheet_text};

use crate::layout::width_of;
use crate::markup::Frame;
use crate::page::{Kind, Page};
use crate::picture::{put_names, put_picture};
use crate::piece::{Piece, put_frame, put_pieces};
use crate::sheet::{Sheet, sheet_of};
use crate::table::{put_program, put_rows, table_word};
use da_values::{Buf, NoMemory};
use std::alloc::Global;

/// The most columns that a page may have.
const MOST_COLUMNS: usize = 65_536;

/// Appends the bytes of a page, with the text of a program where it is the page of a run. More than 65,536 columns count as want
/// of memory. Where memory is refused, a part of the page.
pub fn put_page(alloc: Global, page: &Page, program: &[u8], out: &mut Buf) -> Result<(), NoMemory>
    ensures { OnOk result (out.new ≡ out.old ++ page_text page.now program.now) }
{
    if page.columns.len() > MOST_COLUMNS {
        return Err(NoMemory);
    }
    let sheet = sheet_of(alloc, page)?;
    put_sheet(&sheet, program, out)
}

// Appends the page of a sheet.
fn put_sheet(sheet: &Sheet<'_>, program: &[u8], out: &mut Buf) -> Result<(), NoMemory>
    requires { IsSheet sheet.now }
    ensures { OnOk result (out.new ≡ out.old ++ sheet_text sheet.now program.now) }
{
    put_head(sheet, out)?;
    put_picture(sheet, out)?;
    put_program(sheet.page.kind, program, out)?;
    put_frame(table_word(sheet.page.kind), out)?;
    put_rows(sheet.alloc, sheet.page.kind, sheet.rows.as_slice(), out)?;
    put_frame(Frame::Foot, out)
}

// Appends the head, the remarks, and the names of the columns.
fn put_head(sheet: &Sheet<'_>, out: &mut Buf) -> Result<(), NoMemory>
    requires { IsSheet sheet.now }
    ensures { OnOk result (out.new ≡ out.old ++ parts_text (frame Frame.Head ∷ []) ++ flat_map remark_text sheet.now.page.now.remarks
        ++ counts_text sheet.now.page.now (actions_at sheet.now.spots) ++ flat_map (name_text sheet.now.page.now) sheet.now.page.now.columns) }
{
    put_frame(Frame::Head, out)?;
    put_remarks(sheet.page.remarks.as_slice(), out)?;
    put_counts(sheet, out)?;
    put_names(sheet.page, out)
}

fn put_remarks(remarks: &[Buf], out: &mut Buf) -> Result<(), NoMemory>
    ensures { OnOk result (out.new ≡ out.old ++ flat_map remark_text remarks.now) }
{
    for remark in remarks {
        put_remark(remark.as_slice(), out)?;
    }
    Ok(())
}

fn put_remark(remark: &[u8], out: &mut Buf) -> Result<(), NoMemory>
    ensures { OnOk result (out.new ≡ out.old ++ remark_text remark.now) }
{
    put_pieces(
        &[
            Piece::Framed(Frame::Remark),
            Piece::Text(remark),
            Piece::Framed(Frame::ParagraphEnd),
        ],
        out,
    )
}

// Appends how much the run is, and the key of the picture.
fn put_counts(sheet: &Sheet<'_>, out: &mut Buf) -> Result<(), NoMemory>
    requires { IsSheet sheet.now }
    ensures { OnOk result (out.new ≡ out.old ++ counts_text sheet.now.page.now (actions_at sheet.now.spots)) }
{
    let width = width_of(sheet.page);
    put_pieces(
        &[
            Piece::Framed(Frame::Events),
            Piece::Number(event_count(sheet.page)),
            Piece::Framed(Frame::Actions),
            Piece::Number(sheet.spots.len() as u64),
            Piece::Framed(Frame::Processes),
            Piece::Number(sheet.page.columns.len() as u64),
            Piece::Framed(Frame::Names),
            Piece::Number(width),
            Piece::Framed(Frame::NamesBox),
            Piece::Number(width),
            Piece::Framed(Frame::NamesOpen),
        ],
        out,
    )
}

// How many events there are: the opening of a run is none.
fn event_count(page: &Page) -> u64
    ensures { result ≡ event_count_def page.now }
{
    match page.kind {
        Kind::Trace => page.rows.len() as u64,
        Kind::Run => (page.rows.len() as u64).saturating_sub(1),
    }
}
