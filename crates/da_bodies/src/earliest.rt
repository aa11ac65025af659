//! The refusal that is reported: of all, the one on the earliest line, and on one line the one of the least kind.
ghost use Rattle.da_lang.specs.Scopes.{sooner};
ghost use Rattle.da_bodies.specs.Telling.{refusal_of, telling_by};
ghost use Rattle.std.specs.Prelude.{◌≡◌, [], ◌∷◌, option_map};

use da_lang::{LimitKind, ScopeKind};
use std::marker::Model;

/// What a program may break, with the order in which it is reported on one line.
pub trait Kind: Copy {
    ghost use Rattle.std.specs.Prelude.{◌≡◌, ℕ};

    ghost rank: { Self → ℕ };

    /// The place in that order, the first 0.
    fn rank(self) -> u8
        ensures { result ≡ rank self };
}

impl Kind for ScopeKind {
    ghost use Rattle.da_lang.specs.NameRules.{rank as rank_of};

    ghost rank = { rank_of };

    fn rank(self) -> u8 {
        match self {
            ScopeKind::Unknown => 0,
            ScopeKind::Twice => 1,
            ScopeKind::Shadow => 2,
            ScopeKind::Recursive => 3,
            ScopeKind::Yield => 4,
            ScopeKind::Setup => 5,
            ScopeKind::NoRun => 6,
            ScopeKind::Arity => 7,
        }
    }
}

impl Kind for LimitKind {
    ghost use Rattle.da_lang.specs.Limits.{rank as rank_of};

    ghost rank = { rank_of };

    fn rank(self) -> u8 {
        match self {
            LimitKind::Classes => 0,
            LimitKind::Processes => 1,
            LimitKind::Items => 2,
            LimitKind::Blocks => 3,
            LimitKind::Variables => 4,
            LimitKind::Parts => 5,
            LimitKind::Generators => 6,
        }
    }
}

/// What a program breaks, and the line where it does.
#[derive(Clone, Copy)]
pub struct Fault<K> {
    /// What is broken.
    pub kind: K,
    /// The line, counted from 1.
    pub line: u32,
}

/// A rule of names that is broken.
pub type NameFault = Fault<ScopeKind>;

/// A limit that is exceeded.
pub type LimitFault = Fault<LimitKind>;

/// The refusal to be reported of those that were found so far.
#[derive(Drop)]
pub struct Earliest<K> {
    found: Option<Fault<K>>,
}

impl<K> Model for Earliest<K> {
    ghost use Rattle.da_lang.specs.Scopes.{Refused};
    ghost use Rattle.da_bodies.specs.Telling.{refusal_of};
    ghost use Rattle.std.specs.Prelude.{Option, option_map};

    ghost Value = { Option (Refused K) };

    ghost view = { λ least. option_map refusal_of least.found };
}

impl<K: Kind> Earliest<K> {
    /// Nothing is found.
    pub fn new() -> Earliest<K>
        ensures { result ≡ None }
    {
        Earliest { found: None }
    }

    /// One more refusal is found.
    #[tactic(auto, unfolding(crate::specs::Telling::telling_by))]
    pub fn tell(&mut self, kind: K, line: u32)
        ensures { self.new ≡ telling_by K.rank self.old (record { kind = kind; line = line } ∷ []) }
    {
        let fault = Fault { kind, line };
        match self.found {
            None => self.found = Some(fault),
            Some(told) => {
                if !is_sooner(told, fault) {
                    self.found = Some(fault);
                }
            }
        }
    }

    /// The refusal that is reported.
    pub fn fault(&self) -> Option<Fault<K>>
        ensures { option_map refusal_of result ≡ self.now }
    {
        self.found
    }
}

/// Whether the first is reported before the second.
fn is_sooner<K: Kind>(first: Fault<K>, second: Fault<K>) -> bool
    ensures { result ≡ sooner K.rank (refusal_of first) (refusal_of second) }
{
    first.line < second.line
        || (first.line == second.line && first.kind.rank() < second.kind.rank())
}
