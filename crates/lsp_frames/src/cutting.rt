//! The frame at the front of a stream.
ghost use Rattle.lsp_frames.specs.Frames as spec;
ghost use Rattle.std.specs.Prelude.{◌≡◌, [], None};

use crate::header::{blank_end, told_length};

/// The bytes that a header has at most, with the empty line at its end.
pub const HEADER_MAX: usize = 4_096;

/// The bytes that a content has at most.
pub const CONTENT_MAX: usize = 67_108_864;

/// What stands at the front of a stream, as far as it has come.
#[derive(Clone, Copy)]
pub enum Cut {
    /// No whole frame.
    More,
    /// A frame whose header has `first` bytes, and whose content has `length` bytes.
    Content { first: usize, length: usize },
    /// So many bytes, which are a header that tells no length, or begin no header.
    Unread(usize),
    /// A header of `first` bytes, which tells of a content of more than `CONTENT_MAX` bytes.
    Large { first: usize, length: u64 },
}

/// What stands at the front of a stream of which these bytes have come.
#[tactic(auto, using(crate::proofs::Facts::parts), unfolding(crate::specs::Frames::cut))]
pub fn cut_front(bytes: &[u8]) -> Cut
    ensures { result ≡ spec.cut bytes.now }
{
    let (front, _) = bytes.split_at(HEADER_MAX.min(bytes.len()));
    match blank_end(front) {
        Some(first) => cut_behind(first, front, bytes.len()),
        None => cut_none(bytes.len()),
    }
}

// The same, where no header has ended and so many bytes have come.
fn cut_none(come: usize) -> Cut
    ensures { result ≡ spec.cut_at None [] come }
{
    if come < HEADER_MAX {
        Cut::More
    } else {
        Cut::Unread(HEADER_MAX)
    }
}

// The same, where the header has so many bytes, and so many bytes have come.
#[tactic(auto, using(crate::proofs::Facts::parts))]
fn cut_behind(first: usize, front: &[u8], come: usize) -> Cut
    ensures { result ≡ spec.cut_behind first front.now come }
{
    let (header, _) = front.split_at(first.min(front.len()));
    match told_length(header) {
        None => Cut::Unread(first),
        Some(length) if length > CONTENT_MAX as u64 => Cut::Large { first, length },
        Some(length) => cut_content(first, length as usize, come),
    }
}

// The same, where the content has so many bytes.
fn cut_content(first: usize, length: usize, come: usize) -> Cut
    ensures { result ≡ spec.cut_content first length come }
{
    if first <= come && length <= come - first {
        Cut::Content { first, length }
    } else {
        Cut::More
    }
}
