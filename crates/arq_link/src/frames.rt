//! Frames: a header of 14 bytes, and after it the payload of data.
ghost use Rattle.arq_link.specs.Endpoint.{Acknowledgement, Data, Frame};
ghost use Rattle.arq_link.specs.Frames.{frame_bytes, frame_of, frame_with, mark};
ghost use Rattle.std.specs.Int.{to_be_bytes, w16, w64};
ghost use Rattle.std.specs.Prelude.{◌≡◌, ◌++◌, ℕ, List as Bytes, IfOk, MatchOption, None, Some, drop};

use da_values::{Buf, List, NoMemory};
use std::alloc::Global;

/// So many bytes of a frame stand before its payload.
pub(crate) const HEADER_LEN: usize = 14;

// The version of frames. Packets have another one in its place.
const VERSION: u8 = 2;

const DATA: u8 = 0;

const ACKNOWLEDGEMENT: u8 = 1;

/// Whether a frame is data or an acknowledgement.
#[derive(Clone, Copy)]
pub(crate) enum FrameKind {
    Data,
    Acknowledgement,
}

/// What the bytes of a frame before its payload say.
#[derive(Clone, Copy)]
pub(crate) struct Header {
    pub(crate) kind: FrameKind,
    pub(crate) sender: u16,
    pub(crate) number: u64,
}

/// The header of the frame that has exactly these bytes, or nothing where they are no frame.
pub(crate) fn read_header(bytes: &[u8]) -> Option<Header>
    ensures is { MatchOption result
        (frame_of bytes.now ≡ None)
        (λ header. frame_of bytes.now ≡ Some (frame_with header (drop 14 bytes.now))) }
    ensures exact { MatchOption result
        ((frame : Frame) → bytes.now ≡ frame_bytes frame → ⊥)
        (λ header. bytes.now ≡ frame_bytes (frame_with header (drop 14 bytes.now))) }
{
    let rest = after_mark(bytes)?;
    let (kind, rest) = rest.split_first()?;
    let (sender, rest) = rest.split_first_chunk::<2>()?;
    let (number, payload) = rest.split_first_chunk::<8>()?;
    let kind = match *kind {
        DATA => FrameKind::Data,
        ACKNOWLEDGEMENT if payload.is_empty() => FrameKind::Acknowledgement,
        _ => return None,
    };
    Some(Header {
        kind,
        sender: u16::from_be_bytes(*sender),
        number: u64::from_be_bytes(*number),
    })
}

// What follows the mark of a frame, or nothing where the bytes begin otherwise.
fn after_mark(bytes: &[u8]) -> Option<&[u8]>
    ensures { MatchOption result
        ((rest : Bytes ℕ) → bytes.now ≡ mark ++ rest → ⊥)
        (λ rest. bytes.now ≡ mark ++ rest.now) }
{
    match bytes {
        [b'D', b'A', VERSION, rest @ ..] => Some(rest),
        _ => None,
    }
}

/// The bytes of data.
pub(crate) fn data_frame(
    alloc: Global,
    sender: u16,
    number: u64,
    payload: &[u8],
) -> Result<Buf, NoMemory>
    ensures is { IfOk result (λ frame. frame ≡ frame_bytes (Data sender number payload.now)) }
    ensures back { IfOk result (λ frame. frame_of frame ≡ Some (Data sender number payload.now)) }
{
    let mut frame = List::new(alloc);
    frame.append(&[b'D', b'A', VERSION, DATA])?;
    frame.append(&sender.to_be_bytes())?;
    frame.append(&number.to_be_bytes())?;
    frame.append(payload)?;
    Ok(frame)
}

/// The bytes of an acknowledgement. They take no memory.
pub(crate) fn acknowledgement_frame(sender: u16, number: u64) -> [u8; HEADER_LEN]
    ensures is { result ≡ frame_bytes (Acknowledgement sender number) }
    ensures back { frame_of result ≡ Some (Acknowledgement sender number) }
{
    let [a, b] = sender.to_be_bytes();
    let [c, d, e, f, g, h, i, j] = number.to_be_bytes();
    [
        b'D',
        b'A',
        VERSION,
        ACKNOWLEDGEMENT,
        a,
        b,
        c,
        d,
        e,
        f,
        g,
        h,
        i,
        j,
    ]
}
