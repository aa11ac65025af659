//! How far a process has come along its trace.
ghost use Rattle.std.specs.Prelude.{◌≡◌, ◌<◌, ◌-◌, [], IsFalse, MatchOption, Some, false, length, slice_get};
ghost use Rattle.trace_join.specs.Tracks.{FitsNext, IsNext};

use crate::piece::Piece;
use da_lang::Action;

/// What is left of the trace of a process, and of the pieces into which it is cut.
#[derive(Clone, Copy)]
pub(crate) struct Track<'t> {
    pub left: &'t [Action],
    pub pieces: &'t [Piece],
    /// For each action of the trace, counted from the last one, whether it gets a message that is got again later.
    pub repeats: &'t [bool],
}

/// The next step of a process: what it is asked by, all that it tells, and where it leads.
#[derive(Clone, Copy)]
pub(crate) struct Next<'t> {
    pub asked: &'t Action,
    pub told: &'t [Action],
    pub times_out: bool,
    /// Whether it gets a message that is got again later.
    pub again: bool,
    pub behind: Track<'t>,
}

/// The next step, or `None` where no piece is left.
pub(crate) fn next_step<'t>(track: &Track<'t>) -> Option<Next<'t>>
    requires { FitsNext track.now }
    ensures { MatchOption result (track.now.pieces.now ≡ []) (IsNext track.now) }
{
    let (piece, pieces) = track.pieces.split_first()?;
    let (told, left) = track.left.split_at(piece.size);
    let asked = told.first()?;
    Some(Next {
        asked,
        told,
        times_out: piece.times_out,
        again: is_repeated(track),
        behind: Track {
            left,
            pieces,
            repeats: track.repeats,
        },
    })
}

// Whether what the first action gets is got again later. Where the repeats are not known, the answer is `true`.
fn is_repeated(track: &Track<'_>) -> bool
    ensures { IsFalse result → 0 < length track.now.left.now → slice_get track.now.repeats.now (length track.now.left.now - 1) ≡ Some false }
{
    let Some(place) = track.left.len().checked_sub(1) else {
        return true;
    };
    match track.repeats.get(place) {
        Some(again) => *again,
        None => true,
    }
}
