//! The processes of a program with the messages between them, and their steps.
ghost use Rattle.da_core.specs.Compiled.{IsCompiled, program_of as compiled_program};
ghost use Rattle.da_lang.specs.Steps.{TimeOut, move_step};
ghost use Rattle.da_lang.specs.World.{at_number};
ghost use Rattle.da_system.specs.Channels.{channel};
ghost use Rattle.da_system.specs.Network.{Answers, HasPosted, IsReady, Stands, Whichever, is_spent, program_of};
ghost use Rattle.da_system.specs.Queues.{AreSent, count_of};
ghost use Rattle.da_system.specs.SoundState.{IsSoundState};
ghost use Rattle.da_system.specs.SystemStep.{deliver, lose, process_step, repeat, show, start, stat, sys_step};
ghost use Rattle.std.specs.Prelude.{◌≡◌, ◌↔◌, ◌+◌, ◌<◌, ◌≤◌, MatchOption, None, IfErr, IfOk, IsSome, IsTrue, OnOk, drop, false, is_some, length, option_copied, true};

use crate::channels::{Channels, may_arrive, may_lose, may_repeat};
use crate::queue::InFlight;
use da_core::{Compiled, Core, StepFault};
use da_lang::{Action, ChannelKind, Event};
use da_values::{List, NoMemory};
use std::alloc::Global;

/// The processes of a compiled program with their channels. Contracts see the states that they stand for, by `Stands`.
#[derive(Drop)]
pub struct Network<'c> {
    pub(crate) alloc: Global,
    compiled: &'c Compiled,
    cores: Vec<Core<'c>>,
    pub(crate) channels: Channels,
    pub(crate) spent: bool,
}

impl<'c> Network<'c> {
    /// The network before any event. `NoMemory` comes where memory is refused, where a value would have 2^128 holders, and where a
    /// sum is outside an i128.
    pub(crate) fn new(alloc: Global, compiled: &'c Compiled) -> Result<Network<'c>, NoMemory>
        requires { IsCompiled compiled.now }
        ensures ready { IfOk result IsReady }
        ensures program { IfOk result (λ network.
            program_of network ≡ compiled_program compiled.now) }
        ensures start { IfOk result (λ network.
            Stands network (start (compiled_program compiled.now))) }

        // That state is sound.
        ensures sound { let p = compiled_program compiled.now in IsSoundState p (start p) }
    {
        let count = compiled.program().procs.len();
        let mut cores = Vec::new(alloc);
        for place in 0..count {
            let core = Core::start(alloc, compiled, place as u16 + 1)?;
            if cores.push(core).is_err() {
                return Err(NoMemory);
            }
        }
        let channels = Channels::new(alloc, count)?;
        Ok(Network {
            alloc,
            compiled,
            cores,
            channels,
            spent: false,
        })
    }

    /// How many messages are in flight from process `p` to process `q`. It takes no memory.
    pub(crate) fn in_flight(&self, p: u32, q: u32) -> usize
        ensures { Whichever self.now (λ s. result ≡ length (channel s.channels p q)) }
    {
        self.channels.in_flight(p, q)
    }
}

impl Network<'_> {
    // Whether the event is allowed, where the network is not spent.
    pub(crate) fn may_step(&self, e: &Event) -> bool
        ensures { Whichever self.now (λ s.
            IsTrue result ↔ IsSome (sys_step (program_of self.now) s e.now)) }
    {
        match e {
            Event::Move { p } => self.may_move(*p, 0),
            Event::Take { p, k } => *k > 0 && self.may_move(*p, *k),
            Event::Timeout { p } => self.may_time_out(*p),
            Event::Deliver { p, q, i } => self.may_deliver(*p, *q, *i),
            Event::Lose { p, q, i } => self.can_lose(*p, *q, *i),
            Event::Repeat { p, q, i } => self.can_repeat(*p, *q, *i),
            Event::Show { p } => self.has_process(*p),
            Event::Stat { p } => self.has_process(*p),
        }
    }

    /// Makes the step of the event, where the network is not spent, and adds its actions to `out`. `Forbidden` comes exactly
    /// where the event is not allowed; nothing has changed then. `Memory` leaves a spent network, and `out` has a prefix of
    /// the actions of the step besides.
    pub(crate) fn execute(&mut self, e: &Event, out: &mut List<Action>) -> Result<(), StepFault>
        requires ready { IsReady self.old }
        requires unspent { is_spent self.old ≡ false }
        ensures program { program_of self.new ≡ program_of self.old }
        ensures answers { Answers (λ s. sys_step (program_of self.old) s e.now)
            self.old result self.new out.old out.new }
    {
        match e {
            Event::Move { p } => self.make_move(*p, 0, out),
            Event::Take { p, k } => self.take(*p, *k, out),
            Event::Timeout { p } => self.time_out(*p, out),
            Event::Deliver { p, q, i } => self.deliver(*p, *q, *i, out),
            Event::Lose { p, q, i } => self.lose(*p, *q, *i, out),
            Event::Repeat { p, q, i } => self.repeat(*p, *q, *i, out),
            Event::Show { p } => self.show(*p, out),
            Event::Stat { p } => self.stat(*p, out),
        }
    }

    // The place of process `p` among the cores, or `None` where there is no such process.
    fn place_of(&self, p: u32) -> Option<usize>
        ensures { MatchOption result (at_number self.now.cores.items p ≡ None)
            (λ place. (p ≡ place + 1) × (place < length self.now.cores.items)) }
    {
        let place = (p as usize).checked_sub(1)?;
        if place < self.cores.len() {
            Some(place)
        } else {
            None
        }
    }

    // The core of process `p`, or `None` where there is no such process.
    pub(crate) fn core(&self, p: u32) -> Option<&Core<'_>>
        ensures { option_copied result ≡ at_number self.now.cores.items p }
    {
        let place = (p as usize).checked_sub(1)?;
        self.cores.get(place)
    }

    // Whether there is a process of this number.
    fn has_process(&self, p: u32) -> bool
        ensures { result ≡ is_some (at_number self.now.cores.items p) }
    {
        self.core(p).is_some()
    }

    // Whether process `p` may make the move of number `k`.
    fn may_move(&self, p: u32, k: u32) -> bool
        ensures { Whichever self.now (λ s.
            IsTrue result ↔ IsSome (process_step (program_of self.now) s p (move_step k))) }
    {
        match self.core(p) {
            Some(core) => core.can_move(k),
            None => false,
        }
    }

    // Whether the time may run out at the `await` where process `p` waits.
    fn may_time_out(&self, p: u32) -> bool
        ensures { Whichever self.now (λ s.
            IsTrue result ↔ IsSome (process_step (program_of self.now) s p TimeOut)) }
    {
        match self.core(p) {
            Some(core) => core.can_timeout(),
            None => false,
        }
    }

    // The move of number `k` of process `p`.
    fn make_move(&mut self, p: u32, k: u32, out: &mut List<Action>) -> Result<(), StepFault>
        requires ready { IsReady self.old }
        requires unspent { is_spent self.old ≡ false }
        ensures program { program_of self.new ≡ program_of self.old }
        ensures answers { Answers (λ s. process_step (program_of self.old) s p (move_step k))
            self.old result self.new out.old out.new }
    {
        let Some(place) = self.place_of(p) else {
            return Err(StepFault::Forbidden);
        };
        let told = out.len();
        let core = &mut self.cores[place];
        match core.make_move(k, out) {
            Ok(_) => self.post(told, out),
            Err(StepFault::Memory) => {
                self.spent = true;
                Err(StepFault::Memory)
            }
            Err(StepFault::Forbidden) => Err(StepFault::Forbidden),
            Err(StepFault::Spent) => Err(StepFault::Spent),
        }
    }

    // The timeout of process `p`.
    fn time_out(&mut self, p: u32, out: &mut List<Action>) -> Result<(), StepFault>
        requires ready { IsReady self.old }
        requires unspent { is_spent self.old ≡ false }
        ensures program { program_of self.new ≡ program_of self.old }
        ensures answers { Answers (λ s. process_step (program_of self.old) s p TimeOut)
            self.old result self.new out.old out.new }
    {
        let Some(place) = self.place_of(p) else {
            return Err(StepFault::Forbidden);
        };
        let told = out.len();
        let core = &mut self.cores[place];
        match core.make_timeout(out) {
            Ok(_) => self.post(told, out),
            Err(StepFault::Memory) => {
                self.spent = true;
                Err(StepFault::Memory)
            }
            Err(StepFault::Forbidden) => Err(StepFault::Forbidden),
            Err(StepFault::Spent) => Err(StepFault::Spent),
        }
    }

    // The messages that the actions after the first `told` ones send go into their channels.
    fn post(&mut self, told: usize, out: &List<Action>) -> Result<(), StepFault>
        requires told { told ≤ length out.now }
        requires sent { AreSent (count_of self.old.channels) (drop told out.now) }
        ensures program { program_of self.new ≡ program_of self.old }
        ensures posted { OnOk result (HasPosted self.old (drop told out.now) self.new) }
        ensures memory { IfErr result (λ fault.
            (fault ≡ StepFault.Memory) × (is_spent self.new ≡ true)) }
    {
        if self.channels.post(&out.as_slice()[told..]).is_err() {
            self.spent = true;
            return Err(StepFault::Memory);
        }
        Ok(())
    }

    // The kind of the channels.
    fn kind(&self) -> ChannelKind
        ensures { result ≡ (program_of self.now).kind }
    {
        self.compiled.program().kind
    }

    // Whether there is a message of number `i` among those that are in flight from `p` to `q`.
    fn has_message(&self, p: u32, q: u32, i: u32) -> bool
        ensures { Whichever self.now (λ s. result ≡ is_some (at_number (channel s.channels p q) i)) }
    {
        self.channels.message(p, q, i).is_some()
    }

    // Whether message `i` of the channel from `p` to `q` may arrive: its receiver waits and takes it.
    fn may_deliver(&self, p: u32, q: u32, i: u32) -> bool
        ensures { Whichever self.now (λ s.
            IsTrue result ↔ IsSome (deliver (program_of self.now) s p q i)) }
    {
        if !may_arrive(self.kind(), i) {
            return false;
        }
        let Some(message) = self.channels.message(p, q, i) else {
            return false;
        };
        match self.core(q) {
            Some(core) => core.can_take(p as u16, &message.value),
            None => false,
        }
    }

    // Whether message `i` of the channel from `p` to `q` may be lost.
    fn can_lose(&self, p: u32, q: u32, i: u32) -> bool
        ensures { Whichever self.now (λ s. IsTrue result ↔ IsSome (lose s p q i)) }
    {
        may_lose(self.kind()) && self.has_message(p, q, i)
    }

    // Whether message `i` of the channel from `p` to `q` may be doubled.
    fn can_repeat(&self, p: u32, q: u32, i: u32) -> bool
        ensures { Whichever self.now (λ s. IsTrue result ↔ IsSome (repeat s p q i)) }
    {
        may_repeat(self.kind()) && self.has_message(p, q, i)
    }

    // The delivery of message `i` of the channel from `p` to `q`.
    fn deliver(&mut self, p: u32, q: u32, i: u32, out: &mut List<Action>) -> Result<(), StepFault>
        requires ready { IsReady self.old }
        requires unspent { is_spent self.old ≡ false }
        ensures program { program_of self.new ≡ program_of self.old }
        ensures answers { Answers (λ s. deliver (program_of self.old) s p q i)
            self.old result self.new out.old out.new }
    {
        if !self.may_deliver(p, q, i) {
            return Err(StepFault::Forbidden);
        }
        let Some(place) = self.place_of(q) else {
            unreachable!()
        };
        let Some(message) = self.channels.remove(p, q, i) else {
            unreachable!()
        };
        let InFlight { value, time } = message;
        let told = out.len();
        let core = &mut self.cores[place];
        match core.take(p as u16, time, value, out) {
            Ok(_) => self.post(told, out),
            Err(StepFault::Memory) => {
                self.spent = true;
                Err(StepFault::Memory)
            }
            Err(StepFault::Forbidden) => Err(StepFault::Forbidden),
            Err(StepFault::Spent) => Err(StepFault::Spent),
        }
    }

    // The loss of message `i` of the channel from `p` to `q`.
    fn lose(&mut self, p: u32, q: u32, i: u32, out: &mut List<Action>) -> Result<(), StepFault>
        requires ready { IsReady self.old }
        requires unspent { is_spent self.old ≡ false }
        ensures program { program_of self.new ≡ program_of self.old }
        ensures answers { Answers (λ s. lose s p q i) self.old result self.new out.old out.new }
    {
        if !may_lose(self.kind()) {
            return Err(StepFault::Forbidden);
        }
        let Some(message) = self.channels.message(p, q, i) else {
            return Err(StepFault::Forbidden);
        };
        let lost = Action::Lost {
            p: p as u16,
            q: q as u16,
            t: message.time,
        };
        if out.push(lost).is_err() {
            self.spent = true;
            return Err(StepFault::Memory);
        }
        self.channels.remove(p, q, i);
        Ok(())
    }

    // The repetition of message `i` of the channel from `p` to `q`: a copy goes to the end.
    fn repeat(&mut self, p: u32, q: u32, i: u32, out: &mut List<Action>) -> Result<(), StepFault>
        requires ready { IsReady self.old }
        requires unspent { is_spent self.old ≡ false }
        ensures program { program_of self.new ≡ program_of self.old }
        ensures answers { Answers (λ s. repeat s p q i) self.old result self.new out.old out.new }
    {
        if !may_repeat(self.kind()) {
            return Err(StepFault::Forbidden);
        }
        let Some(message) = self.channels.message(p, q, i) else {
            return Err(StepFault::Forbidden);
        };
        let doubled = Action::Again {
            p: p as u16,
            q: q as u16,
            t: message.time,
        };
        if out.push(doubled).is_err() || self.channels.repeat(p, q, i).is_err() {
            self.spent = true;
            return Err(StepFault::Memory);
        }
        Ok(())
    }

    // The move of process `p` by alternative `k`. Alternatives are numbered from 1.
    fn take(&mut self, p: u32, k: u32, out: &mut List<Action>) -> Result<(), StepFault>
        requires ready { IsReady self.old }
        requires unspent { is_spent self.old ≡ false }
        ensures program { program_of self.new ≡ program_of self.old }
        ensures answers { Answers (λ s. sys_step (program_of self.old) s (Event.Take p k))
            self.old result self.new out.old out.new }
    {
        if k == 0 {
            return Err(StepFault::Forbidden);
        }
        self.make_move(p, k, out)
    }

    // Tells the answers of process `p`.
    fn show(&mut self, p: u32, out: &mut List<Action>) -> Result<(), StepFault>
        requires ready { IsReady self.old }
        requires unspent { is_spent self.old ≡ false }
        ensures program { program_of self.new ≡ program_of self.old }
        ensures answers { Answers (λ s. show (program_of self.old) s p)
            self.old result self.new out.old out.new }
    {
        let Some(core) = self.core(p) else {
            return Err(StepFault::Forbidden);
        };
        if core.answers(out).is_err() {
            self.spent = true;
            return Err(StepFault::Memory);
        }
        Ok(())
    }

    // Tells how many rows process `p` keeps.
    fn stat(&mut self, p: u32, out: &mut List<Action>) -> Result<(), StepFault>
        requires ready { IsReady self.old }
        requires unspent { is_spent self.old ≡ false }
        ensures program { program_of self.new ≡ program_of self.old }
        ensures answers { Answers (λ s. stat (program_of self.old) s p)
            self.old result self.new out.old out.new }
    {
        let Some(core) = self.core(p) else {
            return Err(StepFault::Forbidden);
        };
        let kept = Action::Kept {
            p: p as u16,
            n: core.kept(),
        };
        if out.push(kept).is_err() {
            self.spent = true;
            return Err(StepFault::Memory);
        }
        Ok(())
    }
}

// Each field by its name: a further one is refused here until it is named. None of them is a list of past messages.
fn fields_are_whole(network: &Network<'_>) {
    let Network {
        alloc: _,
        compiled: _,
        cores: _,
        channels: _,
        spent: _,
    } = network;
}
