//! The processes of a program as one system, and its steps.
ghost use Rattle.da_core.specs.Compiled.{IsCompiled, program_of as compiled_program};
ghost use Rattle.da_lang.specs.Accepted.{IsAccepted};
ghost use Rattle.da_system.specs.Channels.{channel};
ghost use Rattle.da_system.specs.Network.{HasBegun};
ghost use Rattle.da_system.specs.SoundState.{IsSoundState, StaysSound};
ghost use Rattle.da_system.specs.State.{Answers, HasStepped, IsReady, StandAlike, Stands, Whichever, is_spent, program_of};
ghost use Rattle.da_system.specs.SystemStep.{start, sys_step};
ghost use Rattle.std.specs.Prelude.{◌≡◌, ◌↔◌, None, IfOk, IsErrOf, IsSome, IsTrue, OnOk, false, length, true};

use crate::counts::Counts;
use crate::network::Network;
use crate::renewal::{follow, renew_all};
use da_core::{Compiled, StepFault};
use da_lang::{Action, Event};
use da_values::{List, NoMemory};
use std::alloc::Global;

/// The processes of a compiled program, which run by the events of a schedule. Contracts see the states that they stand
/// for, by `Stands`. It keeps how many events may be picked, which each step counts anew where it changes them.
#[derive(Drop)]
pub struct System<'c> {
    pub(crate) network: Network<'c>,
    pub(crate) counts: Counts,
}

impl<'c> System<'c> {
    /// The system before any event. `NoMemory` comes where memory is refused, where a value would have 2^128 holders, and where a
    /// sum is outside an i128.
    pub fn new(alloc: Global, compiled: &'c Compiled) -> Result<System<'c>, NoMemory>
        requires { IsCompiled compiled.now }
        ensures ready { IfOk result IsReady }
        ensures program { IfOk result (λ system.
            program_of system ≡ compiled_program compiled.now) }
        ensures start { IfOk result (λ system.
            Stands system (start (compiled_program compiled.now))) }

        // That state is sound.
        ensures sound { let p = compiled_program compiled.now in IsSoundState p (start p) }
    {
        let count = compiled.program().procs.len();
        let network = Network::new(alloc, compiled)?;
        let mut counts = Counts::zeros(alloc, count)?;
        renew_all(&network, &mut counts);
        Ok(System { network, counts })
    }

    /// Whether the event is allowed. On a spent system none is. It takes no memory.
    pub fn enabled(&self, e: &Event) -> bool
        ensures spent { is_spent self.now ≡ true → result ≡ false }
        ensures allowed { Whichever self.now (λ s.
            IsTrue result ↔ IsSome (sys_step (program_of self.now) s e.now)) }
    {
        let spent = self.network.spent;
        if spent {
            return false;
        }
        self.network.may_step(e)
    }

    /// Makes the step of the event, and adds its actions to `out`. `Spent` comes exactly where an earlier step found no
    /// memory, and else `Forbidden` exactly where the event is not allowed; nothing has changed then. `Memory` leaves a
    /// spent system, and `out` has a prefix of the actions of the step besides.
    pub fn step(&mut self, e: &Event, out: &mut List<Action>) -> Result<(), StepFault>
        requires { IsReady self.old }
        ensures ready { IsReady self.new }
        ensures program { program_of self.new ≡ program_of self.old }
        ensures steps { OnOk result (Whichever self.old (λ s.
            HasStepped (sys_step (program_of self.old) s e.now) self.new out.old out.new)) }
        ensures spent { is_spent self.old ≡ true → IsErrOf result StepFault.Spent }
        ensures only_spent { IsErrOf result StepFault.Spent
            → (is_spent self.old ≡ true) × (self.new ≡ self.old) × (out.new ≡ out.old) }
        ensures forbidden { IsErrOf result StepFault.Forbidden → Whichever self.old (λ s.
            sys_step (program_of self.old) s e.now ≡ None) }
        ensures allowed { Whichever self.old (λ s.
            sys_step (program_of self.old) s e.now ≡ None → IsErrOf result StepFault.Forbidden) }
        ensures same { IsErrOf result StepFault.Forbidden
            → StandAlike self.old self.new × (out.new ≡ out.old) }
        ensures memory { IsErrOf result StepFault.Memory → is_spent self.new ≡ true }
        ensures prefix { IsErrOf result StepFault.Memory → Whichever self.old (λ s.
            HasBegun (sys_step (program_of self.old) s e.now) out.old out.new) }

        // Of an accepted program each state stays sound: where the event is allowed, it leads to a sound one.
        ensures sound { IsAccepted (program_of self.old)
            → Whichever self.old (λ s. StaysSound (program_of self.old) s e.now) }
    {
        let spent = self.network.spent;
        if spent {
            return Err(StepFault::Spent);
        }
        self.execute(e, out)
    }

    /// How many messages are in flight from process `p` to process `q`. It takes no memory.
    pub fn in_flight(&self, p: u32, q: u32) -> usize
        ensures { Whichever self.now (λ s. result ≡ length (channel s.channels p q)) }
    {
        self.network.in_flight(p, q)
    }
}

impl System<'_> {
    // Makes the step of the event, where the system is not spent, and counts anew what it may have changed.
    fn execute(&mut self, e: &Event, out: &mut List<Action>) -> Result<(), StepFault>
        requires ready { IsReady self.old }
        requires unspent { is_spent self.old ≡ false }
        ensures program { program_of self.new ≡ program_of self.old }
        ensures answers { Answers (λ s. sys_step (program_of self.old) s e.now)
            self.old result self.new out.old out.new }
    {
        let told = out.len();
        match self.network.execute(e, out) {
            Ok(_) => {
                follow(&self.network, &mut self.counts, e, told, out);
                Ok(())
            }
            Err(fault) => Err(fault),
        }
    }
}

// Each field by its name: a further one is refused here until it is named. None of them is a list of past messages.
fn fields_are_whole(system: &System<'_>) {
    let System {
        network: _,
        counts: _,
    } = system;
}
