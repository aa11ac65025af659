//! Where on the drawing everything stands, in pixels from the left and from the top.
ghost use Rattle.std.specs.Prelude.{◌≡◌, ◌<◌, ◌≤◌, ◌^◌, if◌then◌else◌, length, nat_lt};
ghost use Rattle.trace_page.specs.Layout.{beside as beside_def, column_in, height_of as height_def, left as left_def, top_of as top_def, width_of as width_def, x_of as x_def, y_of as y_def};
ghost use Rattle.trace_page.specs.Sheets.{IsNarrow, IsSheet};

use crate::page::{Column, Kind, Page};
use crate::sheet::Sheet;

/// How far a message that did not arrive is drawn aside.
const ASIDE: u64 = 32;

/// How far the first column lies from the left.
fn left(kind: Kind) -> u64
    ensures value { result ≡ left_def kind }
    ensures few { result ≤ 300 }
{
    match kind {
        Kind::Trace => 190,
        Kind::Run => 300,
    }
}

/// How many columns of a page stand before that of a process.
pub(crate) fn column_of(page: &Page, p: u16) -> u64
    ensures value { result ≡ column_in page.now.columns p }
    ensures within { result ≤ length page.now.columns }
{
    let mut before = 0;
    for column in page.columns.as_slice() {
        before += stands_before(column, p);
    }
    before
}

// 1 for a column before that of a process, and 0 for any other.
fn stands_before(column: &Column, p: u16) -> u64
    ensures value { result ≡ (if nat_lt column.now.process p then 1 else 0) }
    ensures few { result ≤ 1 }
{
    if column.process < p { 1 } else { 0 }
}

/// Where the line of a process stands.
pub(crate) fn x_of(page: &Page, p: u16) -> u64
    requires { IsNarrow page.now }
    ensures value { result ≡ x_def page.now p }
    ensures few { result ≤ 16777216 }
{
    left(page.kind) + 160 * column_of(page, p)
}

/// The top of a line.
pub(crate) fn top_of(line: u32) -> u64
    ensures value { result ≡ top_def line }
    ensures few { result < 2 ^ 40 }
{
    20 + 18 * u64::from(line)
}

/// The middle of a line.
pub(crate) fn y_of(line: u32) -> u64
    ensures value { result ≡ y_def line }
    ensures few { result < 2 ^ 40 }
{
    29 + 18 * u64::from(line)
}

/// The width of the drawing.
pub(crate) fn width_of(page: &Page) -> u64
    requires { IsNarrow page.now }
    ensures { result ≡ width_def page.now }
{
    left(page.kind) + 160 * page.columns.len() as u64 + 30
}

/// The height of the drawing.
pub(crate) fn height_of(sheet: &Sheet<'_>) -> u64
    requires { IsSheet sheet.now }
    ensures { result ≡ height_def sheet.now.page.now }
{
    40 + 18 * u64::from(sheet.lines)
}

/// A little way from one column to another.
pub(crate) fn beside(from: u64, to: u64) -> u64
    requires { from ≤ 16777216 }
    ensures { result ≡ beside_def from to }
{
    if to < from {
        from.saturating_sub(ASIDE)
    } else {
        from + ASIDE
    }
}
