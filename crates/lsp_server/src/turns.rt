//! A turn: the frame at the front is answered, or a piece of the stream is taken in.
ghost use Rattle.da_outside.specs.Outside.{HasCause};
ghost use Rattle.lsp_frames.specs.Stream.{HasNone, IsStream, Remains, come_of};
ghost use Rattle.lsp_server.specs.Heard.{Says, SaysNothing, heard, notes};
ghost use Rattle.lsp_server.specs.Letters.{IsSent, refusal};
ghost use Rattle.lsp_server.specs.Session.{Answers, IsCut, TellsIn, due, left_from as left_def, phase_after as phase_after_def};
ghost use Rattle.lsp_server.specs.Turns.{HasHeard, HasReplied, HasTaken, HasTurned, Passes};
ghost use Rattle.serde_json.specs.Data.{null};
ghost use Rattle.serde_json.specs.View.{view};
ghost use Rattle.std.specs.Prelude.{◌≡◌, ◌≢◌, ◌⊎◌, ◌↔◌, ℕ, List, Option, None, Some, codes, drop, take, IfErr, IfOk, IfSome, IsTrue, OnOk};

use crate::asked::ask;
use crate::documents::Documents;
use crate::due::phase_after;
use crate::fault::Fault;
use crate::letters::refusal_of_none;
use crate::message::{Message, NoJson, json_of, message_of};
use crate::noted::note;
use crate::phase::Phase;
use crate::status::Status;
use da_outside::{Sink, Trouble, write_all};
use da_values::{Buf, List, NoMemory};
use lsp_frames::{Cut, Input, Source};
use serde_json::Value;
use std::alloc::Global;

/// A session: what has come of its stream, how far it is, and the documents that are open.
#[derive(Drop)]
pub struct State {
    alloc: Global,
    pub input: Input,
    pub phase: Phase,
    documents: Documents,
}

impl State {
    /// Nothing has come.
    pub fn new(alloc: Global) -> State
        ensures stream { (left : Option (List ℕ)) (rest : List ℕ) → Remains result.input left rest → IsStream left rest }
        ensures phase { result.phase ≡ Phase.Fresh }
    {
        let input = Input::new(alloc);
        State {
            alloc,
            input,
            phase: Phase::Fresh,
            documents: Documents::new(alloc),
        }
    }
}

/// A frame at the front of a stream: how many bytes its header has, and how many its content.
#[derive(Clone, Copy)]
pub struct Extent {
    pub first: usize,
    pub length: u64,
}

/// Takes a turn, and answers the status where the session ends.
pub fn turn<S: Source, K: Sink>(state: &mut State, source: &mut S, out: &mut K) -> Option<Status>
    ensures turned { HasTurned state.old.phase state.old.input (S.left source.old) state.new.phase state.new.input (S.left source.new) (K.taken out.old) (K.taken out.new) result }
    ensures read { HasCause (S.faults source.old) (S.faults source.new) (result ≡ Some Status.ReadFault) }
    ensures write { HasCause (K.faults out.old) (K.faults out.new) (result ≡ Some Status.WriteFault) }
{
    match state.input.front() {
        Cut::More => more(state, source),
        Cut::Content { first, length } => {
            take_content(state, out, extent_of(first, length as u64))
        }
        Cut::Unread(count) => refuse(state, out, Fault::Unread, extent_of(count, 0)),
        Cut::Large { first, length } => {
            refuse(state, out, Fault::Invalid, extent_of(first, length))
        }
    }
}

fn extent_of(first: usize, length: u64) -> Extent
    ensures { result ≡ record { first = first; length = length } }
{
    Extent { first, length }
}

// Takes in a piece of the stream.
fn more<S: Source>(state: &mut State, source: &mut S) -> Option<Status>
    ensures ends { IfSome result (λ status. IsCut status ⊎ ((status ≡ Status.Closed) × HasNone (S.left source.old))) }
    ensures goes { result ≡ None → (rest : List ℕ) → Remains state.new.input (S.left source.new) rest → Remains state.old.input (S.left source.old) rest }
    ensures phase { state.new.phase ≡ state.old.phase }
    ensures read { HasCause (S.faults source.old) (S.faults source.new) (result ≡ Some Status.ReadFault) }
    ensures unwritten { result ≡ Some Status.WriteFault → ⊥ }
{
    match state.input.read(source) {
        Ok(count) => end_by(count),
        Err(Trouble::Failed) => Some(Status::ReadFault),
        Err(Trouble::Memory) => Some(Status::Memory),
    }
}

// How a session ends where so many bytes have come: it goes on where some have.
fn end_by(count: usize) -> Option<Status>
    ensures { IfSome result (λ status. (status ≡ Status.Closed) × (count ≡ 0)) }
{
    if count == 0 {
        return Some(Status::Closed);
    }
    None
}

// Answers a content.
fn take_content<K: Sink>(state: &mut State, out: &mut K, extent: Extent) -> Option<Status>
    ensures heard { HasHeard state.old.phase (take extent.length (drop extent.first (come_of state.old.input))) state.new.phase (K.taken out.old) (K.taken out.new) result }
    ensures moved { result ≡ None → Passes state.old.input state.new.input extent }
    ensures write { HasCause (K.faults out.old) (K.faults out.new) (result ≡ Some Status.WriteFault) }
    ensures unread { result ≡ Some Status.ReadFault → ⊥ }
{
    match json_in(state.alloc, &state.input, extent) {
        Ok(value) => take_json(state, out, &value, extent),
        Err(NoJson::Unread) => refuse(state, out, Fault::Unread, extent),
        Err(NoJson::Memory) => Some(Status::Memory),
    }
}

// The JSON of a content that has come.
fn json_in(alloc: Global, input: &Input, extent: Extent) -> Result<Value, NoJson>
    ensures says { IfOk result (λ v. Says (take extent.length (drop extent.first (come_of input.now))) (view v)) }
    ensures nothing { IfErr result (λ why. why ≢ NoJson.Memory → SaysNothing (take extent.length (drop extent.first (come_of input.now)))) }
{
    let content = input.content(extent.first, extent.length as usize);
    json_of(alloc, content)
}

// Answers JSON.
fn take_json<K: Sink>(
    state: &mut State,
    out: &mut K,
    value: &Value,
    extent: Extent,
) -> Option<Status>
    ensures taken { HasTaken state.old.phase (view value.now) state.new.phase (K.taken out.old) (K.taken out.new) result }
    ensures moved { result ≡ None → Passes state.old.input state.new.input extent }
    ensures write { HasCause (K.faults out.old) (K.faults out.new) (result ≡ Some Status.WriteFault) }
    ensures unread { result ≡ Some Status.ReadFault → ⊥ }
{
    match message_of(value) {
        Message::Asks { id, method } => request(state, out, value, id, method, extent),
        Message::Notes { method } => take_note(state, out, value, method, extent),
        Message::Answers => send(state, out, b"", extent),
        Message::Invalid => refuse(state, out, Fault::Invalid, extent),
    }
}

// Ends the session, where a notification is `exit`, and else does what it says.
fn take_note<K: Sink>(
    state: &mut State,
    out: &mut K,
    value: &Value,
    method: &str,
    extent: Extent,
) -> Option<Status>
    ensures taken { heard (view value.now) ≡ notes method.now → HasTaken state.old.phase (view value.now) state.new.phase (K.taken out.old) (K.taken out.new) result }
    ensures moved { result ≡ None → Passes state.old.input state.new.input extent }
    ensures write { HasCause (K.faults out.old) (K.faults out.new) (result ≡ Some Status.WriteFault) }
    ensures unread { result ≡ Some Status.ReadFault → ⊥ }
{
    if is_exit(method) {
        return Some(left_from(state.phase));
    }
    notification(state, out, value, method, extent)
}

// Whether a method is `exit`.
fn is_exit(method: &str) -> bool
    ensures { IsTrue result ↔ (method.now ≡ codes "exit") }
{
    method == "exit"
}

// Answers a request.
fn request<K: Sink>(
    state: &mut State,
    out: &mut K,
    value: &Value,
    id: &Value,
    method: &str,
    extent: Extent,
) -> Option<Status>
    ensures replied { HasReplied (Answers (due state.old.phase method.now) (view id.now)) (K.taken out.old) (K.taken out.new) result }
    ensures phase { state.new.phase ≡ phase_after_def state.old.phase method.now }
    ensures moved { result ≡ None → Passes state.old.input state.new.input extent }
    ensures write { HasCause (K.faults out.old) (K.faults out.new) (result ≡ Some Status.WriteFault) }
    ensures unread { result ≡ Some Status.ReadFault → ⊥ }
{
    let phase = state.phase;
    let next = phase_after(phase, method);
    state.phase = next;
    match ask(state.alloc, phase, &state.documents, id, method, value) {
        Ok(bytes) => send(state, out, bytes.as_slice(), extent),
        Err(NoMemory) => Some(Status::Memory),
    }
}

// Does what a notification says, which is not `exit`.
fn notification<K: Sink>(
    state: &mut State,
    out: &mut K,
    value: &Value,
    method: &str,
    extent: Extent,
) -> Option<Status>
    ensures replied { HasReplied (TellsIn state.old.phase method.now (view value.now)) (K.taken out.old) (K.taken out.new) result }
    ensures phase { state.new.phase ≡ state.old.phase }
    ensures moved { result ≡ None → Passes state.old.input state.new.input extent }
    ensures write { HasCause (K.faults out.old) (K.faults out.new) (result ≡ Some Status.WriteFault) }
    ensures unread { result ≡ Some Status.ReadFault → ⊥ }
{
    match note_in(state, method, value) {
        Ok(bytes) => send(state, out, bytes.as_slice(), extent),
        Err(NoMemory) => Some(Status::Memory),
    }
}

// Does what a notification says, where its time is now, and gives the bytes that follow it.
fn note_in(state: &mut State, method: &str, value: &Value) -> Result<Buf, NoMemory>
    ensures tells { IfOk result (TellsIn state.old.phase method.now (view value.now)) }
    ensures phase { state.new.phase ≡ state.old.phase }
    ensures input { state.new.input ≡ state.old.input }
{
    if is_ready(state.phase) {
        return note(state.alloc, &mut state.documents, method, value);
    }
    Ok(List::new(state.alloc))
}

// Whether documents are told of in a phase.
fn is_ready(phase: Phase) -> bool
    ensures { IsTrue result ↔ (phase ≡ Phase.Ready) }
{
    match phase {
        Phase::Ready => true,
        Phase::Fresh => false,
        Phase::Down => false,
    }
}

// How a session ends by `exit`.
fn left_from(phase: Phase) -> Status
    ensures { result ≡ left_def phase }
{
    match phase {
        Phase::Down => Status::Stopped,
        Phase::Fresh => Status::Left,
        Phase::Ready => Status::Left,
    }
}

// Refuses a frame that no id is known of.
fn refuse<K: Sink>(state: &mut State, out: &mut K, fault: Fault, extent: Extent) -> Option<Status>
    ensures replied { HasReplied (IsSent (refusal null fault)) (K.taken out.old) (K.taken out.new) result }
    ensures phase { state.new.phase ≡ state.old.phase }
    ensures moved { result ≡ None → Passes state.old.input state.new.input extent }
    ensures write { HasCause (K.faults out.old) (K.faults out.new) (result ≡ Some Status.WriteFault) }
    ensures unread { result ≡ Some Status.ReadFault → ⊥ }
{
    match refusal_of_none(state.alloc, fault) {
        Ok(bytes) => send(state, out, bytes.as_slice(), extent),
        Err(NoMemory) => Some(Status::Memory),
    }
}

// Passes over a frame, and writes what follows it.
fn send<K: Sink>(state: &mut State, out: &mut K, bytes: &[u8], extent: Extent) -> Option<Status>
    ensures replied { HasReplied (λ written. written ≡ bytes.now) (K.taken out.old) (K.taken out.new) result }
    ensures phase { state.new.phase ≡ state.old.phase }
    ensures moved { result ≡ None → Passes state.old.input state.new.input extent }
    ensures write { HasCause (K.faults out.old) (K.faults out.new) (result ≡ Some Status.WriteFault) }
    ensures unread { result ≡ Some Status.ReadFault → ⊥ }
{
    match pass(&mut state.input, extent) {
        Ok(()) => write(out, bytes),
        Err(NoMemory) => Some(Status::Memory),
    }
}

// Writes bytes.
fn write<K: Sink>(out: &mut K, bytes: &[u8]) -> Option<Status>
    ensures replied { HasReplied (λ written. written ≡ bytes.now) (K.taken out.old) (K.taken out.new) result }
    ensures write { HasCause (K.faults out.old) (K.faults out.new) (result ≡ Some Status.WriteFault) }
    ensures unread { result ≡ Some Status.ReadFault → ⊥ }
{
    match write_all(out, bytes) {
        Ok(()) => None,
        Err(Trouble::Failed) => Some(Status::WriteFault),
        Err(Trouble::Memory) => Some(Status::Memory),
    }
}

// Passes over a frame: its header, and its content.
fn pass(input: &mut Input, extent: Extent) -> Result<(), NoMemory>
    ensures { OnOk result (Passes input.old input.new extent) }
{
    input.pass(extent.first as u64)?;
    input.pass(extent.length)?;
    Ok(())
}
