//! The pieces of a page, and their bytes.
ghost use Rattle.std.specs.Prelude.{◌≡◌, ◌++◌, ◌∷◌, [], OnOk};
ghost use Rattle.trace_page.specs.Parts.{entity as entity_def, escaped, frame, mark, part_of, part_text, parts_text, pieces_text};

use crate::markup::{Frame, Markup, bytes_of, frame_bytes};
use da_values::{Buf, NoMemory, write_number};

/// A piece of a page. What a run says comes into a page as `Text` alone, and so never as markup.
#[derive(Clone, Copy)]
pub(crate) enum Piece<'t> {
    Mark(Markup),
    Framed(Frame),
    Number(u64),
    Text(&'t [u8]),
}

/// Appends the bytes of pieces. Where memory is refused, some of them.
pub(crate) fn put_pieces(pieces: &[Piece<'_>], out: &mut Buf) -> Result<(), NoMemory>
    ensures { OnOk result (out.new ≡ out.old ++ pieces_text pieces.now) }
{
    for piece in pieces {
        put_piece(piece, out)?;
    }
    Ok(())
}

/// Appends markup.
pub(crate) fn put_markup(markup: Markup, out: &mut Buf) -> Result<(), NoMemory>
    ensures { OnOk result (out.new ≡ out.old ++ parts_text (mark markup ∷ [])) }
{
    put_pieces(&[Piece::Mark(markup)], out)
}

/// Appends markup that stands round a picture.
pub(crate) fn put_frame(framed: Frame, out: &mut Buf) -> Result<(), NoMemory>
    ensures { OnOk result (out.new ≡ out.old ++ parts_text (frame framed ∷ [])) }
{
    put_pieces(&[Piece::Framed(framed)], out)
}

fn put_piece(piece: &Piece<'_>, out: &mut Buf) -> Result<(), NoMemory>
    ensures { OnOk result (out.new ≡ out.old ++ part_text (part_of piece.now)) }
{
    match piece {
        Piece::Mark(markup) => out.append(bytes_of(*markup)),
        Piece::Framed(frame) => out.append(frame_bytes(*frame)),
        Piece::Number(number) => write_number(*number, out),
        Piece::Text(text) => put_escaped(text, out),
    }
}

// Appends a text of which a browser makes no markup.
fn put_escaped(text: &[u8], out: &mut Buf) -> Result<(), NoMemory>
    ensures { OnOk result (out.new ≡ out.old ++ escaped text.now) }
{
    for byte in text {
        put_byte(*byte, out)?;
    }
    Ok(())
}

fn put_byte(byte: u8, out: &mut Buf) -> Result<(), NoMemory>
    ensures { OnOk result (out.new ≡ out.old ++ entity_def byte) }
{
    match byte {
        b'&' => out.append(b"&amp;"),
        b'<' => out.append(b"&lt;"),
        b'>' => out.append(b"&gt;"),
        b'"' => out.append(b"&quot;"),
        b'\'' => out.append(b"&#39;"),
        other => out.append(&[other]),
    }
}
