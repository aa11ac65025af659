//! The arrows of a picture.
ghost use Rattle.std.specs.Prelude.{◌≡◌, ◌==◌, ◌++◌, ◌+◌, ◌-◌, false, if◌then◌else◌, None, OnOk, Some};
ghost use Rattle.trace_page.specs.Arrows.{arrow_text, got_parts, has_end, lost_parts, sent_at, sent_parts, way_parts};
ghost use Rattle.trace_page.specs.Layout.{beside as beside_def, x_of as x_def, y_of as y_def};
ghost use Rattle.trace_page.specs.Parts.{parts_text};
ghost use Rattle.trace_page.specs.Sheets.{IsNarrow, IsSheet, action_at, actions_at};

use crate::layout::{beside, column_of, x_of, y_of};
use crate::markup::Markup;
use crate::page::Page;
use crate::piece::{Piece, put_pieces};
use crate::sheet::{Place, Sheet, is_ended, sent_from};
use crate::spots::ActionAt;
use da_lang::Action;
use da_values::{Buf, NoMemory};

/// A point of the drawing.
#[derive(Clone, Copy)]
pub(crate) struct Point {
    pub x: u64,
    pub y: u64,
}

/// A way: its markup, the processes of its message, and the events and points between which it goes.
#[derive(Clone, Copy)]
struct Way {
    opening: Markup,
    p: u16,
    q: u16,
    from: u32,
    to: u32,
    a: Point,
    b: Point,
}

/// Appends the arrow of an action, if it has one.
pub(crate) fn put_arrow(sheet: &Sheet<'_>, at: &ActionAt<'_>, out: &mut Buf) -> Result<(), NoMemory>
    requires { IsSheet sheet.now }
    ensures { OnOk result (out.new ≡ out.old ++ arrow_text sheet.now.page.now (actions_at sheet.now.spots) (action_at at.now)) }
{
    match at.action {
        Action::Got { q, p, t, .. } => put_got(sheet, *p, *q, *t, at, out),
        Action::Lost { p, q, t } => put_lost(sheet, *p, *q, *t, at, out),
        Action::Sent { p, q, t, .. } => put_sent(sheet, *p, *q, *t, at, out),
        _ => Ok(()),
    }
}

// A message that q got from p, which was sent at this time.
fn put_got(
    sheet: &Sheet<'_>,
    p: u16,
    q: u16,
    t: u64,
    at: &ActionAt<'_>,
    out: &mut Buf,
) -> Result<(), NoMemory>
    requires { IsSheet sheet.now }
    ensures { OnOk result (out.new ≡ out.old ++ parts_text (got_parts sheet.now.page.now p q at.now.event at.now.line (sent_at (actions_at sheet.now.spots) p t))) }
{
    match sent_from(sheet, p, t) {
        Some(place) => put_came(sheet.page, p, q, place, at, out),
        None => put_unsent(sheet.page, p, q, at, out),
    }
}

// The arrow of a message from where it was sent.
fn put_came(
    page: &Page,
    p: u16,
    q: u16,
    place: Place,
    at: &ActionAt<'_>,
    out: &mut Buf,
) -> Result<(), NoMemory>
    requires { IsNarrow page.now }
    ensures { OnOk result (out.new ≡ out.old ++ parts_text (got_parts page.now p q at.now.event at.now.line (Some place))) }
{
    let a = point_at(page, p, place.line);
    let b = point_at(page, q, at.line);
    let way = Way {
        opening: Markup::Arrow,
        p,
        q,
        from: place.event,
        to: at.event,
        a,
        b,
    };
    put_way(page, way, out)
}

// The arrow of a message that nothing sent, which comes from nowhere.
fn put_unsent(page: &Page, p: u16, q: u16, at: &ActionAt<'_>, out: &mut Buf) -> Result<(), NoMemory>
    requires { IsNarrow page.now }
    ensures { OnOk result (out.new ≡ out.old ++ parts_text (got_parts page.now p q at.now.event at.now.line None)) }
{
    let a = nowhere(page, p, q, at.line);
    let b = point_at(page, q, at.line);
    let way = Way {
        opening: Markup::Arrow,
        p,
        q,
        from: at.event,
        to: at.event,
        a,
        b,
    };
    put_way(page, way, out)
}

// A message that is lost. Where nothing sent it there is no arrow.
fn put_lost(
    sheet: &Sheet<'_>,
    p: u16,
    q: u16,
    t: u64,
    at: &ActionAt<'_>,
    out: &mut Buf,
) -> Result<(), NoMemory>
    requires { IsSheet sheet.now }
    ensures { OnOk result (out.new ≡ out.old ++ parts_text (lost_parts sheet.now.page.now p q at.now.event at.now.line (sent_at (actions_at sheet.now.spots) p t))) }
{
    match sent_from(sheet, p, t) {
        Some(place) => put_broken(sheet.page, p, q, place, at, out),
        None => Ok(()),
    }
}

// The arrow of a message that is lost, from where it was sent; it ends in its sender's column.
fn put_broken(
    page: &Page,
    p: u16,
    q: u16,
    place: Place,
    at: &ActionAt<'_>,
    out: &mut Buf,
) -> Result<(), NoMemory>
    requires { IsNarrow page.now }
    ensures { OnOk result (out.new ≡ out.old ++ parts_text (lost_parts page.now p q at.now.event at.now.line (Some place))) }
{
    let a = point_at(page, p, place.line);
    let b = point_at(page, p, at.line);
    let way = Way {
        opening: Markup::Broken,
        p,
        q,
        from: place.event,
        to: at.event,
        a,
        b,
    };
    put_way(page, way, out)
}

// A message that is sent. One of which nothing more is told has an arrow.
fn put_sent(
    sheet: &Sheet<'_>,
    p: u16,
    q: u16,
    t: u64,
    at: &ActionAt<'_>,
    out: &mut Buf,
) -> Result<(), NoMemory>
    requires { IsSheet sheet.now }
    ensures { OnOk result (out.new ≡ out.old ++ parts_text (sent_parts sheet.now.page.now p q at.now.event at.now.line (has_end (actions_at sheet.now.spots) p t))) }
{
    if is_ended(sheet, p, t) {
        return Ok(());
    }
    put_stub(sheet.page, p, q, at, out)
}

// The arrow of a message of which nothing more is told, a little way.
fn put_stub(page: &Page, p: u16, q: u16, at: &ActionAt<'_>, out: &mut Buf) -> Result<(), NoMemory>
    requires { IsNarrow page.now }
    ensures { OnOk result (out.new ≡ out.old ++ parts_text (sent_parts page.now p q at.now.event at.now.line false)) }
{
    let a = point_at(page, p, at.line);
    let b = below(page, p, q, at.line);
    let way = Way {
        opening: Markup::Stub,
        p,
        q,
        from: at.event,
        to: at.event,
        a,
        b,
    };
    put_way(page, way, out)
}

// Where the arrow of a message to q from p ends of which nothing more is told.
fn below(page: &Page, p: u16, q: u16, line: u32) -> Point
    requires { IsNarrow page.now }
    ensures x { result.x ≡ beside_def (x_def page.now p) (x_def page.now q) }
    ensures y { result.y ≡ y_def line + 9 }
{
    Point {
        x: beside(x_of(page, p), x_of(page, q)),
        y: y_of(line) + 9,
    }
}

// Where the arrow of a message to q from p begins that nothing sent.
fn nowhere(page: &Page, p: u16, q: u16, line: u32) -> Point
    requires { IsNarrow page.now }
    ensures x { result.x ≡ beside_def (x_def page.now q) (x_def page.now p) }
    ensures y { result.y ≡ y_def line - 9 }
{
    Point {
        x: beside(x_of(page, q), x_of(page, p)),
        y: y_of(line).saturating_sub(9),
    }
}

// The middle of a line in the column of a process.
fn point_at(page: &Page, p: u16, line: u32) -> Point
    requires { IsNarrow page.now }
    ensures x { result.x ≡ x_def page.now p }
    ensures y { result.y ≡ y_def line }
{
    Point {
        x: x_of(page, p),
        y: y_of(line),
    }
}

// Appends a way. Within one column it goes out to the left.
fn put_way(page: &Page, way: Way, out: &mut Buf) -> Result<(), NoMemory>
    requires { IsNarrow page.now }
    ensures { OnOk result (out.new ≡ out.old ++ parts_text (way_parts page.now way.opening way.p way.q way.from way.to
        (record { x = way.a.x; y = way.a.y }) (record { x = way.b.x; y = way.b.y }))) }
{
    put_pieces(
        &[
            Piece::Mark(way.opening),
            Piece::Number(column_of(page, way.p) + 1),
            Piece::Mark(Markup::InColumn),
            Piece::Number(column_of(page, way.q) + 1),
            Piece::Mark(Markup::FromEvent),
            Piece::Number(u64::from(way.from)),
            Piece::Mark(Markup::ToEvent),
            Piece::Number(u64::from(way.to)),
            Piece::Mark(Markup::PathAt),
            Piece::Number(way.a.x),
            Piece::Mark(Markup::Space),
            Piece::Number(way.a.y),
            Piece::Mark(Markup::CurveTo),
            Piece::Number(bent(way.a.x, way.b.x)),
            Piece::Mark(Markup::Space),
            Piece::Number(way.a.y),
            Piece::Mark(Markup::Space),
            Piece::Number(way.b.x),
            Piece::Mark(Markup::Space),
            Piece::Number(way.b.y),
            Piece::Mark(Markup::PathEnd),
        ],
        out,
    )
}

// Towards which column a way first goes.
fn bent(from: u64, to: u64) -> u64
    ensures { result ≡ (if from == to then from - 40 else from) }
{
    if from == to {
        from.saturating_sub(40)
    } else {
        from
    }
}
