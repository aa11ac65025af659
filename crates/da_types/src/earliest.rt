//! The earliest of the lines that break a rule.
ghost use Rattle.da_lang.specs.Typing.{unless};
ghost use Rattle.da_types.specs.Telling.{telling};
ghost use Rattle.std.specs.Prelude.{◌≡◌, [], ◌∷◌};

use std::marker::Model;

/// The earliest line of those that were found so far.
#[derive(Drop)]
pub struct Earliest {
    found: Option<u32>,
}

impl Model for Earliest {
    ghost use Rattle.std.specs.Prelude.{ℕ, Option};

    ghost Value = { Option ℕ };

    ghost view = { λ least. least.found };
}

impl Earliest {
    /// No line is found.
    pub fn new() -> Earliest
        ensures { result ≡ None }
    {
        Earliest { found: None }
    }

    /// One more line is found.
    #[tactic(auto, unfolding(crate::specs::Telling::telling))]
    pub fn tell(&mut self, line: u32)
        ensures { self.new ≡ telling self.old (line ∷ []) }
    {
        match self.found {
            None => self.found = Some(line),
            Some(told) => {
                if line < told {
                    self.found = Some(line);
                }
            }
        }
    }

    /// One more line is found, unless a rule is kept there.
    #[tactic(auto, unfolding(crate::specs::Telling::telling))]
    pub fn tell_unless(&mut self, holds: bool, line: u32)
        ensures { self.new ≡ telling self.old (unless line holds) }
    {
        if !holds {
            self.tell(line);
        }
    }

    /// The earliest line.
    pub fn line(&self) -> Option<u32>
        ensures { result ≡ self.now }
    {
        self.found
    }
}
