//! The command `join`.
ghost use Rattle.da_core.specs.Compiled.{IsCompiled, program_of};
ghost use Rattle.da_lang.specs.declared.program.Program.{Program};
ghost use Rattle.da_outside.specs.Outside.{HasCause, Rose};
ghost use Rattle.da_values.specs.Sets.{Has};
ghost use Rattle.da_commands.specs.JoinReplies.{JoinReply, JoinedReply, SpellTraces};
ghost use Rattle.da_commands.specs.JoinSteps.{AddsTrace, AreRead, AreWhole, IsNoTrace};
ghost use Rattle.da_commands.specs.Lines.{schedule_text};
ghost use Rattle.da_commands.specs.Replies.{IsEnd, TraceReadCause};
ghost use Rattle.da_commands.specs.Told.{HasReplied, OfAllTold, OfTold};
ghost use Rattle.da_front.specs.Verdict.{Accepts, IsRefused};
ghost use Rattle.trace_join.specs.Joins.{AreTraces};
ghost use Rattle.std.specs.Prelude.{ℕ, ◌≡◌, ◌+◌, ◌<◌, ◌≤◌, IfErr, IfOk, IsErrOf, List as Seq, OnOk, length, map, take};
ghost use Rattle.std.specs.String.{string_bytes};

use crate::endings::{refuse, refuse_trace, say};
use crate::lines::{block_lines, event_lines};
use crate::status::Status;
use da_core::Compiled;
use da_front::{PROGRAM_LIMIT, ProgramFault, RefusedKind, read_program};
use da_lang::Action;
use da_outside::{Files, Sink, Trouble, read_all};
use da_values::{Buf, List, NoMemory};
use sched_text::{TRACE_LIMIT, TraceFault, read_trace};
use std::alloc::Global;
use thiserror::Error;
use trace_join::JoinFault;

/// Why texts give no traces.
#[derive(Clone, Copy, Debug, Error)]
pub enum TracesFault {
    /// The text of this process is the first that is no trace, by this line, or by its length, with 0.
    #[error("line {line} of the trace of process {process} is no line of it")]
    BadLine { process: u16, line: u64 },
    /// Memory was refused.
    #[error("no memory is left")]
    Memory,
}

impl From<NoMemory> for TracesFault {
    ghost use Rattle.da_commands.specs.declared.joining.TracesFault.TheVariants.{Memory};
    ghost use Rattle.std.specs.Prelude.{◌≡◌};

    ghost from_gives = { λ _ fault. fault ≡ Memory };

    fn from(_: NoMemory) -> TracesFault {
        TracesFault::Memory
    }
}

/// Reads the program and the traces of its processes, and refuses them or makes one schedule of the traces.
#[tactic(auto, using(crate::proofs::JoinLemmas::none_joined))]
pub fn join<F: Files, K: Sink>(
    alloc: Global,
    program: &str,
    traces: &[String],
    files: &mut F,
    out: &mut K,
) -> Status
    ensures replies { OfTold (F.told files.old program.now) (λ t. OfAllTold (map (λ name. F.told files.old (string_bytes name)) traces.now)
        (λ texts. HasReplied (JoinReply t texts) result (K.taken out.old) (K.taken out.new))) }
    ensures ends { IsEnd result }
    ensures read { result ≡ Status.ReadFault
        → TraceReadCause (F.told files.old program.now) (F.faults files.old) (F.faults files.new) program.now (map string_bytes traces.now) }
    ensures unread { result ≡ Status.ReadFault → K.taken out.new ≡ K.taken out.old }
    ensures told { (x : Seq ℕ) → F.told files.new x ≡ F.told files.old x }
    ensures later { (x : Seq ℕ) → F.faults files.old x ≤ F.faults files.new x }
    ensures rises { (x : Seq ℕ) → F.faults files.old x < F.faults files.new x → result ≡ Status.ReadFault }
    ensures write { HasCause (K.faults out.old) (K.faults out.new) (result ≡ Status.WriteFault) }
{
    match read_all(alloc, files, program, PROGRAM_LIMIT) {
        Ok(text) => answer_program(alloc, text.as_slice(), traces, files, out),
        Err(Trouble::Failed) => Status::ReadFault,
        Err(Trouble::Memory) => Status::Memory,
    }
}

// Refuses the program or the number of traces, or reads the traces and answers them.
#[tactic(auto, using(crate::proofs::JoinLemmas::none_begun_join))]
fn answer_program<F: Files, K: Sink>(
    alloc: Global,
    text: &[u8],
    names: &[String],
    files: &mut F,
    out: &mut K,
) -> Status
    ensures replies { (t : Seq ℕ) → text.now ≡ take (PROGRAM_LIMIT + 1) t → OfAllTold (map (λ name. F.told files.old (string_bytes name)) names.now)
        (λ texts. HasReplied (JoinReply t texts) result (K.taken out.old) (K.taken out.new)) }
    ensures refused { (t : Seq ℕ) → text.now ≡ take (PROGRAM_LIMIT + 1) t → result ≡ Status.ReadFault
        → (IsRefused t → ⊥) × ((program : Program) → Accepts t program → length names.now ≡ length program.procs) }
    ensures ends { IsEnd result }
    ensures read { result ≡ Status.ReadFault
        → (x : Seq ℕ) × Has (map string_bytes names.now) x × Rose (F.faults files.old x) (F.faults files.new x) }
    ensures unread { result ≡ Status.ReadFault → K.taken out.new ≡ K.taken out.old }
    ensures told { (x : Seq ℕ) → F.told files.new x ≡ F.told files.old x }
    ensures later { (x : Seq ℕ) → F.faults files.old x ≤ F.faults files.new x }
    ensures rises { (x : Seq ℕ) → F.faults files.old x < F.faults files.new x → result ≡ Status.ReadFault }
    ensures write { HasCause (K.faults out.old) (K.faults out.new) (result ≡ Status.WriteFault) }
{
    let compiled = match read_program(alloc, text) {
        Ok(compiled) => compiled,
        Err(ProgramFault::Refused { kind, line }) => return refuse(alloc, out, kind, line),
        Err(ProgramFault::Memory) => return Status::Memory,
    };
    if names.len() != compiled.program().procs.len() {
        return refuse(alloc, out, RefusedKind::Traces, 0);
    }
    match read_texts(alloc, names, files) {
        Ok(texts) => answer_texts(alloc, &compiled, texts.as_slice(), out),
        Err(Trouble::Failed) => Status::ReadFault,
        Err(Trouble::Memory) => Status::Memory,
    }
}

// The texts of traces, in order.
fn read_texts<F: Files>(
    alloc: Global,
    names: &[String],
    files: &mut F,
) -> Result<List<Buf>, Trouble>
    ensures whole { IfOk result (AreWhole TRACE_LIMIT (map (λ name. F.told files.old (string_bytes name)) names.now)) }
    ensures told { (x : Seq ℕ) → F.told files.new x ≡ F.told files.old x }
    ensures failed { IsErrOf result Trouble.Failed
        → (x : Seq ℕ) × Has (map string_bytes names.now) x × Rose (F.faults files.old x) (F.faults files.new x) }
    ensures later { (x : Seq ℕ) → F.faults files.old x ≤ F.faults files.new x }
    ensures rises { (x : Seq ℕ) → F.faults files.old x < F.faults files.new x → IsErrOf result Trouble.Failed }
{
    let mut texts = List::new(alloc);
    for name in names {
        match read_all(alloc, files, name.as_str(), TRACE_LIMIT) {
            Ok(text) => texts.push(text)?,
            Err(trouble) => return Err(trouble),
        }
    }
    Ok(texts)
}

// Refuses the first of these texts that is no trace, or joins the traces.
#[tactic(auto, using(crate::proofs::ToldLemmas::begins_nothing))]
fn answer_texts<K: Sink>(alloc: Global, compiled: &Compiled, texts: &[Buf], out: &mut K) -> Status
    requires compiled { IsCompiled compiled.now }
    requires count { length texts.now ≡ length (program_of compiled.now).procs }
    requires few { length (program_of compiled.now).procs ≤ 64 }
    ensures replies { (wholes : Seq (Seq ℕ)) → texts.now ≡ map (take (TRACE_LIMIT + 1)) wholes
        → HasReplied (JoinedReply (program_of compiled.now) wholes) result (K.taken out.old) (K.taken out.new) }
    ensures ends { IsEnd result }
    ensures read { result ≡ Status.ReadFault → ⊥ }
    ensures write { HasCause (K.faults out.old) (K.faults out.new) (result ≡ Status.WriteFault) }
{
    match read_traces(alloc, texts) {
        Ok(traces) => answer_traces(alloc, compiled, traces.as_slice(), out),
        Err(TracesFault::BadLine { process, line }) => refuse_trace(alloc, out, process, line),
        Err(TracesFault::Memory) => Status::Memory,
    }
}

// The traces of the processes, from their texts.
fn read_traces(alloc: Global, texts: &[Buf]) -> Result<List<List<Action>>, TracesFault>
    requires { length texts.now ≤ 64 }
    ensures { AreRead texts.now result }
{
    let mut traces = List::new(alloc);
    let mut process = 0;
    for text in texts {
        process += 1;
        match add_trace(alloc, process, text.as_slice(), &mut traces) {
            Ok(()) => {}
            Err(fault) => return Err(fault),
        }
    }
    Ok(traces)
}

// Adds the trace of a process, from its text.
fn add_trace(
    alloc: Global,
    process: u16,
    text: &[u8],
    traces: &mut List<List<Action>>,
) -> Result<(), TracesFault>
    ensures ok { OnOk result (AddsTrace process text.now traces.old traces.new) }
    ensures err { IfErr result (IsNoTrace process text.now) }
{
    match read_trace(alloc, text, process) {
        Ok(trace) => {
            traces.push(trace)?;
            Ok(())
        }
        Err(TraceFault::BadLine(line)) => Err(TracesFault::BadLine { process, line }),
        Err(TraceFault::Memory) => Err(TracesFault::Memory),
    }
}

// Writes the schedule that has these traces, or which processes are blocked.
#[tactic(auto, using(crate::proofs::ToldLemmas::begins_nothing, crate::proofs::ToldLemmas::said_ends, crate::proofs::ToldLemmas::said_unread))]
fn answer_traces<K: Sink>(
    alloc: Global,
    compiled: &Compiled,
    traces: &[List<Action>],
    out: &mut K,
) -> Status
    requires compiled { IsCompiled compiled.now }
    requires traces { AreTraces (program_of compiled.now) traces.now }
    ensures replies { (texts : Seq (Seq ℕ)) → SpellTraces 1 texts traces.now
        → HasReplied (JoinedReply (program_of compiled.now) texts) result (K.taken out.old) (K.taken out.new) }
    ensures ends { IsEnd result }
    ensures read { result ≡ Status.ReadFault → ⊥ }
    ensures write { HasCause (K.faults out.old) (K.faults out.new) (result ≡ Status.WriteFault) }
{
    match trace_join::join(alloc, compiled, traces) {
        Ok(events) => match event_lines(alloc, events.as_slice()) {
            Ok(text) => say(out, text.as_slice(), Status::Done),
            Err(_) => Status::Memory,
        },
        Err(JoinFault::Blocked(blocks)) => match block_lines(alloc, blocks.as_slice()) {
            Ok(text) => say(out, text.as_slice(), Status::NoJoin),
            Err(_) => Status::Memory,
        },
        Err(JoinFault::Memory) => Status::Memory,
    }
}
