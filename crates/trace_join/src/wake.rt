//! Which processes wait.
ghost use Rattle.da_system.specs.Channels.{MessageInFlight};
ghost use Rattle.da_values.specs.Sets.{Has};
ghost use Rattle.std.specs.Prelude.{◌≡◌, [], ◌∷◌, IsFalse, length};
ghost use Rattle.trace_join.specs.Waiting.{AreWoken, wanted_from};

use crate::track::Track;
use da_lang::Action;
use da_values::List;

/// Processes that wait for a message which process `me` sends by these actions wait no longer.
#[tactic(auto, using(crate::proofs::WakeLaws::woken_none, crate::proofs::WakeLaws::woken_on, crate::proofs::WakeLaws::woken_all))]
pub(crate) fn wake(waits: &mut List<bool>, tracks: &[Track<'_>], me: u32, told: &[Action])
    requires { length waits.old ≡ length tracks.now }
    ensures length { length waits.new ≡ length waits.old }
    ensures woken { AreWoken me told.now tracks.now waits.old waits.new }
{
    for action in told {
        wake_one(waits, tracks, me, action);
    }
}

// The same of one action.
fn wake_one(waits: &mut List<bool>, tracks: &[Track<'_>], me: u32, action: &Action)
    requires { length waits.old ≡ length tracks.now }
    ensures length { length waits.new ≡ length waits.old }
    ensures woken { AreWoken me (action.now ∷ []) tracks.now waits.old waits.new }
{
    let Action::Sent { q, t, .. } = action else {
        return;
    };
    let to = usize::from(*q);
    if to == 0 || to > tracks.len() {
        return;
    }
    if wants(&tracks[to - 1], me, *t) {
        waits.set(to - 1, false);
    }
}

// Whether the trace of a process goes on with a message of this time from process `from`.
fn wants(track: &Track<'_>, from: u32, time: u64) -> bool
    ensures { IsFalse result → (l : MessageInFlight) → Has (wanted_from from track.now.left.now) l → l.time ≡ time → ⊥ }
{
    match track.left.first() {
        Some(Action::Got { p, t, .. }) => u32::from(*p) == from && *t == time,
        _ => false,
    }
}
