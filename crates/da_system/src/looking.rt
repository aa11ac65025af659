//! What a person may want to see of a system between two events.
ghost use Rattle.da_core.specs.Made.{phase_at};
ghost use Rattle.da_lang.specs.World.{World, at_number};
ghost use Rattle.da_system.specs.Channels.{channel};
ghost use Rattle.da_system.specs.Queues.{message_of};
ghost use Rattle.da_system.specs.Looking.{answers_at, slots_at};
ghost use Rattle.da_system.specs.State.{IsReady, Whichever, is_spent, program_of};
ghost use Rattle.std.specs.Option.{option_copied, option_map};
ghost use Rattle.std.specs.Prelude.{◌≡◌, ◌++◌, IfOk, OnOk, false};

use crate::queue::InFlight;
use crate::system::System;
use da_core::Place;
use da_lang::Action;
use da_values::{List, NoMemory, Row};

impl System<'_> {
    /// Where process `p` stands, or `None` where there is no such process. It takes no memory.
    pub fn place(&self, p: u32) -> Option<Place>
        ensures { Whichever self.now (λ s.
            option_map (λ (w : World). w.phase) (at_number s.worlds p) ≡ option_map phase_at result) }
    {
        match self.network.core(p) {
            Some(core) => Some(core.place()),
            None => None,
        }
    }

    /// The number of the label or `await` where process `p` waits, counted from 0 in the order of the text of `run` with calls
    /// inlined; `None` where there is no such process, or where it does not wait. It takes no memory.
    pub fn yield_number(&self, p: u32) -> Option<u32> {
        let core = self.network.core(p)?;
        core.yield_number()
    }

    /// Copies of the values of the slots of process `p`, in the order of their numbers; none where there is no such process.
    pub fn slots(&self, p: u32) -> Result<Row, NoMemory>
        ensures { IfOk result (λ values. Whichever self.now (λ s. values ≡ slots_at (at_number s.worlds p))) }
    {
        match self.network.core(p) {
            Some(core) => core.slots(),
            None => Ok(Row::new(self.network.alloc)),
        }
    }

    /// Tells the answers of all queries of process `p`, ascending by number, in `out`; none where there is no such process. Where
    /// memory is refused, `out` has some of them besides.
    pub fn answers(&self, p: u32, out: &mut List<Action>) -> Result<(), NoMemory>
        requires ready { IsReady self.now }
        requires unspent { is_spent self.now ≡ false }
        ensures { OnOk result (Whichever self.now (λ s.
            out.new ≡ out.old ++ answers_at (program_of self.now) p (at_number s.worlds p))) }
    {
        match self.network.core(p) {
            Some(core) => core.answers(out),
            None => Ok(()),
        }
    }

    /// Message `i` of those that are in flight from process `p` to process `q`, counted from 1, or `None` where there is no
    /// such message. It takes no memory.
    pub fn message(&self, p: u32, q: u32, i: u32) -> Option<&InFlight>
        ensures { Whichever self.now (λ s.
            option_map message_of (option_copied result) ≡ at_number (channel s.channels p q) i) }
    {
        self.network.channels.message(p, q, i)
    }
}
