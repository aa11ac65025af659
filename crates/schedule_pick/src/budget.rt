//! How many losses and repetitions a schedule may have.
ghost use Rattle.da_system.specs.State.{IsReady, Whichever, is_spent, program_of};
ghost use Rattle.schedule_pick.specs.Budgets.{ListsPickable, spent, without_loss, without_repetition};
ghost use Rattle.std.specs.Prelude.{◌≡◌, IfOk, false, length, nat_lt};

use da_lang::Event;
use da_system::System;
use da_values::{List, NoMemory};
use schedule_walk::allowed_with;
use std::alloc::Global;

/// How many losses and how many repetitions may still come.
#[derive(Clone, Copy)]
pub struct Budget {
    pub losses: u8,
    pub repetitions: u8,
}

impl Budget {
    /// Whether a loss may still come.
    pub fn may_lose(self) -> bool
        ensures { result ≡ nat_lt 0 self.losses }
    {
        self.losses > 0
    }

    /// Whether a repetition may still come.
    pub fn may_repeat(self) -> bool
        ensures { result ≡ nat_lt 0 self.repetitions }
    {
        self.repetitions > 0
    }

    /// What an event leaves of it.
    pub fn after(self, event: &Event) -> Budget
        ensures { result ≡ spent self event.now }
    {
        match event {
            Event::Move { .. } => self,
            Event::Take { .. } => self,
            Event::Timeout { .. } => self,
            Event::Deliver { .. } => self,
            Event::Lose { .. } => self.after_loss(),
            Event::Repeat { .. } => self.after_repetition(),
            Event::Show { .. } => self,
            Event::Stat { .. } => self,
        }
    }

    // What a loss leaves of it.
    fn after_loss(self) -> Budget
        ensures { result ≡ without_loss self }
    {
        let losses = self.losses.saturating_sub(1);
        Budget {
            losses,
            repetitions: self.repetitions,
        }
    }

    // What a repetition leaves of it.
    fn after_repetition(self) -> Budget
        ensures { result ≡ without_repetition self }
    {
        let repetitions = self.repetitions.saturating_sub(1);
        Budget {
            losses: self.losses,
            repetitions,
        }
    }
}

/// The events that may be picked in the state of a system of so many processes: those that are allowed but for `show` and `stat`,
/// without losses and without repetitions where the budget has none left.
pub fn pickable_events(
    alloc: Global,
    system: &System,
    processes: u32,
    budget: Budget,
) -> Result<List<Event>, NoMemory>
    requires ready { IsReady system.now }
    requires unspent { is_spent system.now ≡ false }
    requires count { processes ≡ length (program_of system.now).procs }
    ensures { IfOk result (λ events. Whichever system.now (λ s. ListsPickable (program_of system.now) s budget events)) }
{
    let losses = budget.may_lose();
    let repetitions = budget.may_repeat();
    allowed_with(alloc, system, processes, losses, repetitions)
}
