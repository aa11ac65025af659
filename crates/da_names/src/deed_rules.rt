//! Rules on what the statements of a body do.
ghost use Rattle.da_lang.specs.declared.refusal.ScopeKind.TheVariants.{Setup};
ghost use Rattle.da_lang.specs.NameRules.{acts as acts_of, lines_where};
ghost use Rattle.da_lang.specs.Scopes.{at_lines};
ghost use Rattle.da_lang.specs.Written.{asks};
ghost use Rattle.da_names.specs.DeedView.{deeds_in, doing_of, said_of};
ghost use Rattle.da_names.specs.Early.{asks_early as asks_early_of};
ghost use Rattle.da_bodies.specs.Telling.{telling};
ghost use Rattle.std.specs.List.{list_any};
ghost use Rattle.std.specs.Prelude.{◌≡◌, ◌||◌};

use crate::deeds::{Deed, Doing, Said};
use crate::early::{asks_early, some_asks_early};
use da_bodies::Earliest;
use da_lang::ScopeKind;

/// Tells the lines of `setup` that send, print, loop, call or ask.
pub fn tell_early(deeds: &[Deed<'_>], least: &mut Earliest<ScopeKind>)
    ensures { least.new ≡ telling least.old (at_lines Setup (lines_where (λ d. acts_of d.does || list_any asks d.says) (deeds_in deeds.now))) }
{
    for deed in deeds {
        if is_early(*deed) {
            least.tell(ScopeKind::Setup, deed.line);
        }
    }
}

/// Whether `setup` may not hold this.
#[tactic(auto, using(crate::proofs::DeedLaws::asks_early_false))]
fn is_early(deed: Deed<'_>) -> bool
    ensures { result ≡ (acts_of (doing_of deed.entry.does) || list_any asks (said_of deed.entry.says)) }
{
    acts(deed.does) || said_asks_early(false, deed.says)
}

/// Whether this sends, prints, loops or calls.
fn acts(does: Doing<'_>) -> bool
    ensures { result ≡ acts_of (doing_of does.entry) }
{
    match does {
        Doing::Sends | Doing::Outputs | Doing::Loops | Doing::Calls(_) => true,
        Doing::Labels(_) | Doing::Awaits | Doing::TimesOut | Doing::Other => false,
    }
}

/// Whether one of these expressions holds a query or, where that is asked for, reads the clock.
fn said_asks_early(clock: bool, says: Said<'_>) -> bool
    ensures { result ≡ list_any (asks_early_of clock) (said_of says.entry) }
{
    match says {
        Said::Nothing => false,
        Said::One(x) => asks_early(clock, x),
        Said::Two(x, y) => asks_early(clock, x) || asks_early(clock, y),
        Said::Many(xs) => some_asks_early(clock, xs),
    }
}
