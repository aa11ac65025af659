//! A process in code, its moves and deliveries.
ghost use Rattle.da_core.specs.Arrivals.{MayArrive, arrival};
ghost use Rattle.da_core.specs.Begins.{CanMove, alternative_at as alternative_def, settled};
ghost use Rattle.da_core.specs.Compiled.{IsCompiled, code_of, program_of as compiled_program};
ghost use Rattle.da_core.specs.HeldCells.{AreHeldCells};
ghost use Rattle.da_core.specs.Made.{HasBegun, HasMade, phase_at, stopped_at as stopped_def};
ghost use Rattle.da_core.specs.declared.compiled.ClassCode.{ClassCode as ClassCodeOf};
ghost use Rattle.da_core.specs.StandsFor.{BeginsWith, IsPlace, IsReady, StandsFor, Whichever, compiled_of, is_spent, program_of};
ghost use Rattle.da_core.specs.Told.{answers_of, kept_of};
ghost use Rattle.da_lang.specs.declared.program.Alt.{Alt as AltOf};
ghost use Rattle.da_lang.specs.declared.program.Item.{Item as ItemOf};
ghost use Rattle.da_lang.specs.declared.program.ItemKind.TheOpen as kind;
ghost use Rattle.da_lang.specs.declared.program.ItemKind.TheViews.{out-Alt};
ghost use Rattle.da_lang.specs.Queries.{holds};
ghost use Rattle.da_lang.specs.Shaped.{IsProcess};
ghost use Rattle.da_lang.specs.Steps.{Step, TimeOut, move_step, proc_step};
ghost use Rattle.da_lang.specs.World.{Waiting, World, class_of, opening};
ghost use Rattle.da_machine.specs.RunsTo.{AddsPrefix};
ghost use Rattle.std.specs.Option.{option_copied};
ghost use Rattle.std.specs.Prelude.{◌≡◌, ◌↔◌, ◌++◌, ◌+◌, [], ℕ, IfOk, IsErrOf, IsSome, IsTrue, List as Seq, MatchOption, None, OnErr, OnOk, Option as Opt, Some, slice_get, slice_set, true, false};

use crate::answers::{slot_values, tell_answers};
use crate::compiled::{ClassCode, Compiled};
use crate::deliveries::{Delivery, take_in};
use crate::known::Known;
use crate::moves::{Begin, alternative_at, begin_in, label_at, run_from, timeout_in, yield_at};
use crate::opened::is_taken;
use crate::opening::first_values;
use crate::place::{Place, StepFault, Stopped};
use crate::waits::Alternative;
use da_lang::{Action, Class};
use da_machine::Machine;
use da_values::{List, NoMemory, Row, Steps, Value, copy_value};
use delta_rules::Answers;
use row_pool::Pool;
use std::alloc::Global;
use std::mem;
use std::sync::ledger::Ledger;

/// A process of a compiled program. Contracts see the worlds that it stands for, by `StandsFor`.
#[derive(Drop)]
pub struct Core<'c> {
    pub(crate) alloc: Global,
    compiled: &'c Compiled,
    pub(crate) known: Known<'c>,
    pub(crate) machine: Machine,
    pub(crate) place: Place,
    spent: bool,
}

impl<'c> Core<'c> {
    /// A process before its first event. `NoMemory` comes where memory is refused, where a value would have 2^128 holders, and
    /// where a sum is outside an i128.
    pub fn start(alloc: Global, compiled: &'c Compiled, me: u16) -> Result<Core<'c>, NoMemory>
        requires compiled { IsCompiled compiled.now }
        requires there { IsProcess (compiled_program compiled.now) me }
        ensures program { IfOk result (λ core. program_of core ≡ compiled_program compiled.now) }
        ensures compiled { IfOk result (λ core. compiled_of core ≡ compiled.now) }
        ensures stands { IfOk result (λ core.
            StandsFor core (opening (compiled_program compiled.now) me)) }
    {
        let Some(class) = compiled.class_of(me) else {
            unreachable!()
        };
        let Some(code) = compiled.code_of(me) else {
            unreachable!()
        };
        let Some(entry) = compiled.start_of(me) else {
            unreachable!()
        };
        let slots = first_values(alloc, me, class.slots.as_slice())?;
        let mut pool = Pool::new(alloc);
        let known = Known {
            alloc,
            plan: &code.plan,
            stored: &code.stored,
            clock: 0,
            answers: Answers::new(alloc, &code.stored.plan, me, &slots, &mut pool)?,
            pool,
            actions: List::new(alloc),
        };
        Ok(Core {
            alloc,
            compiled,
            known,
            machine: Machine::new(alloc, entry),
            place: Place::New,
            spent: false,
        })
    }

    /// Where the process stands. It takes no memory.
    #[tactic(auto, using(crate::proofs::Moving::stands_in_phase))]
    pub fn place(&self) -> Place
        ensures phase { Whichever self.now (λ w. w.phase ≡ phase_at result) }
        ensures place { Whichever self.now (λ w. IsPlace w.todo result w.phase) }
    {
        self.place
    }

    /// The number of the label or `await` where the process waits, counted from 0 in the order of the text of `run` with calls
    /// inlined; `None` where it does not wait. It tells a person where to look, and no clause speaks of it. It takes no memory.
    pub fn yield_number(&self) -> Option<u32> {
        if !self.is_waiting() {
            return None;
        }
        let code = self.compiled.code_of(self.known.answers.me)?;
        yield_at(code, self.machine.place)
    }

    /// Whether an earlier event found no memory. It takes no memory.
    pub fn is_spent(&self) -> bool
        ensures { result ≡ is_spent self.now }
    {
        self.spent
    }

    /// How many rows the process keeps of its histories. It takes no memory.
    pub fn kept(&self) -> u128
        ensures { Whichever self.now (λ w.
            result ≡ kept_of (class_of (program_of self.now) w.data'.me) w.data') }
    {
        self.known.answers.kept()
    }

    /// How many values the process keeps: each once that is the value of a slot, or a part of a row of a node of the plan of its
    /// class or of a live row, or is within one of these. It takes no memory.
    pub fn held(&self) -> usize
        ensures { Whichever self.now (λ w.
            AreHeldCells (class_of (program_of self.now) w.data'.me) w.data' result) }
    {
        self.known.pool.live()
    }

    /// Copies of the values of the slots of the process, in the order of their numbers.
    pub fn slots(&self) -> Result<Row, NoMemory>
        ensures { IfOk result (λ values. Whichever self.now (λ w. values ≡ w.data'.slots)) }
    {
        slot_values(&self.known)
    }

    /// Tells the answers of all queries of the process, ascending by number, in `out`. Where memory is refused, `out` has a
    /// prefix of them besides.
    pub fn answers(&self, out: &mut List<Action>) -> Result<(), NoMemory>
        requires ready { IsReady self.now }
        requires unspent { is_spent self.now ≡ false }
        ensures told { OnOk result (Whichever self.now (λ w. out.new ≡ out.old
            ++ answers_of w.data'.me (class_of (program_of self.now) w.data'.me) w.data')) }
        ensures prefix { OnErr result (Whichever self.now (λ w. AddsPrefix out.old out.new
            (answers_of w.data'.me (class_of (program_of self.now) w.data'.me) w.data'))) }
    {
        tell_answers(&self.known, out)
    }

    /// Whether the move of this number is allowed: 0 is the one from the opening or a label, and each other number takes
    /// that alternative. On a spent core no move is. It takes no memory.
    pub fn can_move(&self, k: u32) -> bool
        ensures spent { is_spent self.now ≡ true → result ≡ false }
        ensures allowed { Whichever self.now (λ w.
            IsTrue result ↔ IsSome (proc_step (program_of self.now) w (move_step k))) }
    {
        !self.spent && self.begin(k).is_some()
    }

    /// Whether the time may run out: the process waits at an `await` with a block for that, and none of its alternatives may be
    /// taken. On a spent core it may not. It takes no memory.
    pub fn can_timeout(&self) -> bool
        ensures spent { is_spent self.now ≡ true → result ≡ false }
        ensures allowed { Whichever self.now (λ w.
            IsTrue result ↔ IsSome (proc_step (program_of self.now) w TimeOut)) }
    {
        !self.spent && self.begin_timeout().is_some()
    }

    /// Whether a message that process `from` sent may arrive: the process waits, and no handler may match the message, or one
    /// that is open where it waits may, whatever its slots hold. On a spent core none may. It takes no memory.
    pub fn can_take(&self, from: u16, m: &Value) -> bool
        ensures spent { is_spent self.now ≡ true → result ≡ false }
        ensures allowed { Whichever self.now (λ w. (time : ℕ) →
            IsTrue result ↔ IsSome (proc_step (program_of self.now) w (arrival m.now from time))) }
    {
        !self.spent && self.lets_arrive(from, m)
    }

    /// Whether the condition of the alternative of this number holds, where the process waits at an `await`. It takes one step
    /// and no memory, and reads no row.
    pub fn flag_of<L: Ledger>(&self, k: u32, steps: &mut Steps<L>) -> bool
        ensures holds { Whichever self.now (λ w. (alts : Seq AltOf) (timeout : Opt (Seq ItemOf)) (label : Opt ℕ) (place : ℕ) (alt : AltOf)
            → w.phase ≡ Waiting → BeginsWith w.todo (kind.Await alts timeout label) → k ≡ place + 1 → slice_get alts place ≡ Some alt
            → result ≡ holds w.data' (out-Alt alt).cond []) }
        ensures steps { steps.new ≡ steps.old + 1 }
    {
        steps.tick();
        match self.alternative(k) {
            Some(alternative) => self.known.answers.flag(self.known.stored, alternative.flag),
            None => false,
        }
    }

    /// Makes the move of this number, and adds its actions to `out`. `Spent` comes exactly where an earlier event found no
    /// memory, and else `Forbidden` exactly where the move is not allowed; nothing has changed then. `Memory` leaves a
    /// spent core, and `out` has a prefix of the actions of the move besides.
    pub fn make_move(&mut self, k: u32, out: &mut List<Action>) -> Result<Stopped, StepFault>
        requires { IsReady self.old }
        ensures ready { IsReady self.new }
        ensures program { program_of self.new ≡ program_of self.old }
        ensures compiled { compiled_of self.new ≡ compiled_of self.old }
        ensures moves { IfOk result (λ stopped. Whichever self.old (λ w.
            HasMade self.old w (move_step k) self.new stopped out.old out.new)) }
        ensures spent { is_spent self.old ≡ true → IsErrOf result StepFault.Spent }
        ensures only_spent { IsErrOf result StepFault.Spent
            → (is_spent self.old ≡ true) × (self.new ≡ self.old) × (out.new ≡ out.old) }
        ensures forbidden { IsErrOf result StepFault.Forbidden → Whichever self.old (λ w.
            proc_step (program_of self.old) w (move_step k) ≡ None) }
        ensures allowed { Whichever self.old (λ w.
            proc_step (program_of self.old) w (move_step k) ≡ None
            → IsErrOf result StepFault.Forbidden) }
        ensures same { IsErrOf result StepFault.Forbidden
            → (self.new ≡ self.old) × (out.new ≡ out.old) }
        ensures memory { IsErrOf result StepFault.Memory → is_spent self.new ≡ true }
        ensures prefix { IsErrOf result StepFault.Memory → Whichever self.old (λ w.
            HasBegun self.old w (move_step k) out.old out.new) }
    {
        if self.spent {
            return Err(StepFault::Spent);
        }
        let Some((code, begin)) = self.begin(k) else {
            return Err(StepFault::Forbidden);
        };
        let stopped = self.run_move(code, begin, k, out)?;
        Ok(stopped)
    }

    /// Lets the time run out at the `await` where the process waits, and adds the actions to `out`; it is told with the number
    /// that is one more than there are alternatives. `Spent`, `Forbidden` and `Memory` come as those of a move.
    pub fn make_timeout(&mut self, out: &mut List<Action>) -> Result<Stopped, StepFault>
        requires { IsReady self.old }
        ensures ready { IsReady self.new }
        ensures program { program_of self.new ≡ program_of self.old }
        ensures compiled { compiled_of self.new ≡ compiled_of self.old }
        ensures moves { IfOk result (λ stopped. Whichever self.old (λ w.
            HasMade self.old w TimeOut self.new stopped out.old out.new)) }
        ensures spent { is_spent self.old ≡ true → IsErrOf result StepFault.Spent }
        ensures only_spent { IsErrOf result StepFault.Spent
            → (is_spent self.old ≡ true) × (self.new ≡ self.old) × (out.new ≡ out.old) }
        ensures forbidden { IsErrOf result StepFault.Forbidden → Whichever self.old (λ w.
            proc_step (program_of self.old) w TimeOut ≡ None) }
        ensures allowed { Whichever self.old (λ w.
            proc_step (program_of self.old) w TimeOut ≡ None
            → IsErrOf result StepFault.Forbidden) }
        ensures same { IsErrOf result StepFault.Forbidden
            → (self.new ≡ self.old) × (out.new ≡ out.old) }
        ensures memory { IsErrOf result StepFault.Memory → is_spent self.new ≡ true }
        ensures prefix { IsErrOf result StepFault.Memory → Whichever self.old (λ w.
            HasBegun self.old w TimeOut out.old out.new) }
    {
        if self.spent {
            return Err(StepFault::Spent);
        }
        let Some((code, begin, k)) = self.begin_timeout() else {
            return Err(StepFault::Forbidden);
        };
        let stopped = self.run_move(code, begin, k, out)?;
        Ok(stopped)
    }

    // Makes the step that is told with this number and is the run from this entry, and adds its actions to `out`. Where memory is
    // refused the core is spent, and `out` has a prefix of them besides.
    fn run_move(
        &mut self,
        code: &ClassCode,
        begin: Begin,
        k: u32,
        out: &mut List<Action>,
    ) -> Result<Stopped, NoMemory>
        requires { (w : World) × (step : Step) × StandsFor self.old w × CanMove self.old w step k code.now begin }
        ensures ready { IsReady self.new }
        ensures program { program_of self.new ≡ program_of self.old }
        ensures compiled { compiled_of self.new ≡ compiled_of self.old }
        ensures moves { IfOk result (λ stopped. Whichever self.old (λ w. (step : Step) → CanMove self.old w step k code.now begin
            → HasMade self.old w step self.new stopped out.old out.new)) }
        ensures memory { OnErr result (is_spent self.new ≡ true) }
        ensures prefix { OnErr result (Whichever self.old (λ w. (step : Step) → CanMove self.old w step k code.now begin
            → HasBegun self.old w step out.old out.new)) }
    {
        self.spent = true;
        self.known.actions = mem::replace(out, List::new(self.alloc));
        let run = run_from(
            self.alloc,
            code,
            begin,
            k,
            &mut self.known,
            &mut self.machine,
        );
        *out = mem::replace(&mut self.known.actions, List::new(self.alloc));
        let place = run?;
        Ok(self.settle(place))
    }

    /// Takes in a message that process `from` sent at this time, and adds the actions of the delivery to `out`: the message
    /// joins the history first, and then the handlers that are open where the process waits are tried in text order. `Spent`
    /// comes exactly where an earlier event found no memory, and else `Forbidden` exactly where the message may not arrive
    /// (`can_take`); nothing has changed then. `Memory` leaves a spent core, and `out` has a prefix of the actions of the
    /// delivery besides.
    pub fn deliver(
        &mut self,
        from: u16,
        time: u64,
        m: &Value,
        out: &mut List<Action>,
    ) -> Result<Stopped, StepFault>
        requires ready { IsReady self.old }
        requires arrives { MayArrive (program_of self.old) m.now from time }
        ensures ready { IsReady self.new }
        ensures program { program_of self.new ≡ program_of self.old }
        ensures compiled { compiled_of self.new ≡ compiled_of self.old }
        ensures delivers { IfOk result (λ stopped. Whichever self.old (λ w.
            HasMade self.old w (arrival m.now from time) self.new stopped out.old out.new)) }
        ensures spent { is_spent self.old ≡ true → IsErrOf result StepFault.Spent }
        ensures only_spent { IsErrOf result StepFault.Spent
            → (is_spent self.old ≡ true) × (self.new ≡ self.old) × (out.new ≡ out.old) }
        ensures forbidden { IsErrOf result StepFault.Forbidden → Whichever self.old (λ w.
            proc_step (program_of self.old) w (arrival m.now from time) ≡ None) }
        ensures allowed { Whichever self.old (λ w.
            proc_step (program_of self.old) w (arrival m.now from time) ≡ None
            → IsErrOf result StepFault.Forbidden) }
        ensures same { IsErrOf result StepFault.Forbidden
            → (self.new ≡ self.old) × (out.new ≡ out.old) }
        ensures memory { IsErrOf result StepFault.Memory → is_spent self.new ≡ true }
        ensures prefix { IsErrOf result StepFault.Memory → Whichever self.old (λ w.
            HasBegun self.old w (arrival m.now from time) out.old out.new) }
    {
        if self.spent {
            return Err(StepFault::Spent);
        }
        if !self.lets_arrive(from, m) {
            return Err(StepFault::Forbidden);
        }
        let Ok(message) = copy_value(self.alloc, m) else {
            self.spent = true;
            return Err(StepFault::Memory);
        };
        let stopped = self.run_delivery(from, time, message, out)?;
        Ok(stopped)
    }

    /// The same of a message that it takes over, so that none is copied to be told.
    pub fn take(
        &mut self,
        from: u16,
        time: u64,
        m: Value,
        out: &mut List<Action>,
    ) -> Result<Stopped, StepFault>
        requires ready { IsReady self.old }
        requires arrives { MayArrive (program_of self.old) m from time }
        ensures ready { IsReady self.new }
        ensures program { program_of self.new ≡ program_of self.old }
        ensures compiled { compiled_of self.new ≡ compiled_of self.old }
        ensures delivers { IfOk result (λ stopped. Whichever self.old (λ w.
            HasMade self.old w (arrival m from time) self.new stopped out.old out.new)) }
        ensures spent { is_spent self.old ≡ true → IsErrOf result StepFault.Spent }
        ensures only_spent { IsErrOf result StepFault.Spent
            → (is_spent self.old ≡ true) × (self.new ≡ self.old) × (out.new ≡ out.old) }
        ensures forbidden { IsErrOf result StepFault.Forbidden → Whichever self.old (λ w.
            proc_step (program_of self.old) w (arrival m from time) ≡ None) }
        ensures allowed { Whichever self.old (λ w.
            proc_step (program_of self.old) w (arrival m from time) ≡ None
            → IsErrOf result StepFault.Forbidden) }
        ensures same { IsErrOf result StepFault.Forbidden
            → (self.new ≡ self.old) × (out.new ≡ out.old) }
        ensures memory { IsErrOf result StepFault.Memory → is_spent self.new ≡ true }
        ensures prefix { IsErrOf result StepFault.Memory → Whichever self.old (λ w.
            HasBegun self.old w (arrival m from time) out.old out.new) }
    {
        if self.spent {
            return Err(StepFault::Spent);
        }
        if !self.lets_arrive(from, &m) {
            return Err(StepFault::Forbidden);
        }
        let stopped = self.run_delivery(from, time, m, out)?;
        Ok(stopped)
    }

    // Takes in a message that may arrive, and adds the actions of the delivery to `out`. Where memory is refused the core is spent,
    // and `out` has a prefix of them besides.
    fn run_delivery(
        &mut self,
        from: u16,
        time: u64,
        m: Value,
        out: &mut List<Action>,
    ) -> Result<Stopped, NoMemory>
        requires ready { IsReady self.old }
        requires unspent { is_spent self.old ≡ false }
        requires arrives { MayArrive (program_of self.old) m from time }
        requires taken { Whichever self.old (λ w. IsSome (proc_step (program_of self.old) w (arrival m from time))) }
        ensures ready { IsReady self.new }
        ensures program { program_of self.new ≡ program_of self.old }
        ensures compiled { compiled_of self.new ≡ compiled_of self.old }
        ensures delivers { IfOk result (λ stopped. Whichever self.old (λ w.
            HasMade self.old w (arrival m from time) self.new stopped out.old out.new)) }
        ensures memory { OnErr result (is_spent self.new ≡ true) }
        ensures prefix { OnErr result (Whichever self.old (λ w.
            HasBegun self.old w (arrival m from time) out.old out.new)) }
    {
        let me = self.known.answers.me;
        let compiled = self.compiled;
        let (Some(class), Some(code)) = (compiled.class_of(me), compiled.code_of(me)) else {
            unreachable!()
        };
        let label = label_at(code, self.machine.place);
        let delivery = delivery_of(class, code, &m, from, label);
        let told = out.len();
        self.spent = true;
        self.known.actions = mem::replace(out, List::new(self.alloc));
        let run = take_in(&delivery, time, self.machine.place, &mut self.known);
        *out = mem::replace(&mut self.known.actions, List::new(self.alloc));
        let got = Action::Got {
            q: me,
            p: from,
            t: time,
            v: m,
        };
        put_in(out, told, got);
        let place = run?;
        Ok(self.settle(place))
    }

    // Stands at this place after an event, and tells how the process has stopped.
    fn settle(&mut self, place: Place) -> Stopped
        ensures stopped { result ≡ stopped_def place }
        ensures settled { self.new ≡ settled self.old place }
    {
        self.place = place;
        self.spent = false;
        stopped_at(place)
    }

    // Whether the process waits and takes a message that this process sent.
    fn lets_arrive(&self, from: u16, m: &Value) -> bool
        ensures { Whichever self.now (λ w. (time : ℕ) →
            IsTrue result ↔ IsSome (proc_step (program_of self.now) w (arrival m.now from time))) }
    {
        if !self.is_waiting() {
            return false;
        }
        let me = self.known.answers.me;
        let compiled = self.compiled;
        let (Some(class), Some(code)) = (compiled.class_of(me), compiled.code_of(me)) else {
            return false;
        };
        let label = label_at(code, self.machine.place);
        let delivery = delivery_of(class, code, m, from, label);
        is_taken(self.alloc, &delivery, me)
    }

    // Whether the process waits at a label or an `await`.
    fn is_waiting(&self) -> bool
        ensures { Whichever self.now (λ w. IsTrue result ↔ (w.phase ≡ Waiting)) }
    {
        matches!(self.place, Place::Label | Place::Await(_))
    }

    // The code of the process, and where the move of this number goes on in it, or `None` where it is not allowed.
    #[tactic(auto, using(crate::proofs::Entering::begin_found, crate::proofs::Entering::no_code))]
    fn begin(&self, k: u32) -> Option<(&'c ClassCode, Begin)>
        ensures { Whichever self.now (λ w. MatchOption result
            (proc_step (program_of self.now) w (move_step k) ≡ None)
            (λ found. CanMove self.now w (move_step k) k found.0.now found.1)) }
    {
        let compiled = self.compiled;
        let code = compiled.code_of(self.known.answers.me)?;
        let begin = begin_in(code, self.machine.place, self.place, k, &self.known)?;
        Some((code, begin))
    }

    // The code of the process, where a timeout goes on in it, and the number with which it is told, or `None` where it is not
    // allowed.
    fn begin_timeout(&self) -> Option<(&'c ClassCode, Begin, u32)>
        ensures { Whichever self.now (λ w. MatchOption result
            (proc_step (program_of self.now) w TimeOut ≡ None)
            (λ found. CanMove self.now w TimeOut found.2 found.0.now found.1)) }
    {
        let Place::Await(count) = self.place else {
            return None;
        };
        let k = count.checked_add(1)?;
        let compiled = self.compiled;
        let code = compiled.code_of(self.known.answers.me)?;
        let begin = timeout_in(code, self.machine.place, count, &self.known)?;
        Some((code, begin, k))
    }

    // The alternative that the move of this number takes where the process stands in the code, if it takes one.
    fn alternative(&self, k: u32) -> Option<&Alternative>
        ensures { (code : ClassCodeOf) → code_of self.now.compiled.now self.now.known.answers.me ≡ Some code
            → option_copied result ≡ alternative_def code self.now.machine.place k }
    {
        let code = self.compiled.code_of(self.known.answers.me)?;
        alternative_at(code, self.machine.place, k)
    }
}

// A message that arrives at a process of this class, which waits at this label.
fn delivery_of<'x>(
    class: &'x Class,
    code: &'x ClassCode,
    message: &'x Value,
    from: u16,
    label: Option<u32>,
) -> Delivery<'x>
    ensures class { result.class.now ≡ class.now }
    ensures code { result.code.now ≡ code.now }
    ensures message { result.message.now ≡ message.now }
    ensures from { result.from ≡ from }
    ensures label { result.label ≡ label }
{
    Delivery {
        class,
        code,
        message,
        from,
        label,
    }
}

// Puts an action in the place of the one that is there, if there is one.
#[tactic(auto, using(crate::proofs::Telling::put_past))]
fn put_in(out: &mut List<Action>, at: usize, action: Action)
    ensures { out.new ≡ slice_set out.old at action }
{
    if at < out.len() {
        out.set(at, action);
    }
}

// Each field by its name: a further one is refused here until it is named. None of them is a list of past messages: the actions
// are those of the event at hand, and none between events.
fn fields_are_whole(core: &Core<'_>) {
    let Core {
        alloc: _,
        compiled: _,
        known,
        machine: _,
        place: _,
        spent: _,
    } = core;
    let Known {
        alloc: _,
        plan: _,
        stored: _,
        clock: _,
        answers: _,
        pool: _,
        actions: _,
    } = known;
}

// How a process has stopped that stands at this place.
fn stopped_at(place: Place) -> Stopped
    ensures { result ≡ stopped_def place }
{
    match place {
        Place::New => Stopped::AtYield,
        Place::Label => Stopped::AtYield,
        Place::Await(_) => Stopped::AtYield,
        Place::Ended => Stopped::Ended,
        Place::Faulted => Stopped::Faulted,
    }
}
