//! The ends of the children of a launch: each is waited for, and what it gave is written.
ghost use Rattle.da_outside.specs.Outside.{Appends, AppendsPrefix, HasCause};
ghost use Rattle.da_outside.specs.Spawner.{Tells};
ghost use Rattle.da_outside.specs.declared.spawner.Child.{Child as ChildOf};
ghost use Rattle.da_outside.specs.declared.spawner.Ended.{Ended as EndedOf};
ghost use Rattle.da_outside.specs.declared.spawner.SpawnEntry.{SpawnEntry};
ghost use Rattle.da_commands.specs.LaunchSteps.{HasFinished, HasFinishedOne, HasFinishedRest, IsFinishEnd, numbers, status_after};
ghost use Rattle.da_commands.specs.Launching.{HasChildCause};
ghost use Rattle.std.specs.Prelude.{ℕ, ◌≡◌, ◌≤◌, ◌∷◌, ◌++◌, [], List as ListOf, MatchOption, None, Option, IfOk, IsErrOf, OnErr, OnOk, codes, decimal, length};

use crate::status::Status;
use da_outside::{Child, Sink, Spawner, Trouble, write_all};
use da_values::{Buf, List, NoMemory, write_number};
use std::alloc::Global;
use thiserror::Error;

/// Why the end of a child was not written.
#[derive(Clone, Copy, Debug, Error)]
enum FinishFault {
    /// Its end could not be waited for.
    #[error("a child was not finished")]
    Child,
    /// A write failed.
    #[error("a write failed")]
    Write,
    /// Memory was refused.
    #[error("no memory is left")]
    Memory,
}

impl From<NoMemory> for FinishFault {
    ghost use Rattle.da_commands.specs.declared.finishing.FinishFault.TheVariants.{Memory};
    ghost use Rattle.std.specs.Prelude.{◌≡◌};

    ghost from_gives = { λ _ fault. fault ≡ Memory };

    fn from(_: NoMemory) -> FinishFault {
        FinishFault::Memory
    }
}

/// Finishes these children one by one, and writes of each what it gave. The first that ended with another status than 0 gives
/// the status. After one that cannot be finished nothing is written, and the others are finished all the same.
pub fn finish_all<K: Sink, S: Spawner>(
    alloc: Global,
    list: List<Child>,
    out: &mut K,
    children: &mut S,
) -> Status
    requires { length list ≤ 64 }
    ensures finished { HasFinished (numbers list) result (S.told children.old) (S.told children.new) (K.taken out.old) (K.taken out.new) }
    ensures ends { IsFinishEnd result }
    ensures write { HasCause (K.faults out.old) (K.faults out.new) (result ≡ Status.WriteFault) }
    ensures children { HasChildCause (S.faults children.old) (S.faults children.new) result }
{
    let mut left = list;
    let mut status = Status::Done;
    let mut process = 0;
    'children: while let Some(child) = next_of(&mut left) {
        process += 1;
        match finish_one(alloc, process, child, out, children) {
            Ok(code) => status = first_of(status, process, code),
            Err(FinishFault::Child) => return finish_rest(alloc, left, children),
            Err(FinishFault::Write) => return Status::WriteFault,
            Err(FinishFault::Memory) => return Status::Memory,
        }
    }
    status
}

/// Finishes these children, of which nothing is written: the status is that of a child at which a call failed.
pub fn finish_rest<S: Spawner>(alloc: Global, list: List<Child>, children: &mut S) -> Status
    ensures finished { HasFinishedRest (numbers list) result (S.told children.old) (S.told children.new) }
    ensures later { S.faults children.old ≤ S.faults children.new }
{
    let mut left = list;
    let mut unwritten = List::new(alloc);
    'children: while let Some(child) = next_of(&mut left) {
        if finish_unwritten(child, &mut unwritten, children).is_err() {
            return Status::Memory;
        }
    }
    Status::ChildFault
}

// Finishes a child, whatever it answers. The bytes are room for what it gave.
fn finish_unwritten<S: Spawner>(
    child: Child,
    room: &mut Buf,
    children: &mut S,
) -> Result<(), NoMemory>
    ensures ok { OnOk result ((end : Option EndedOf) × Tells (S.told children.old) (S.told children.new) (SpawnEntry.Finish child.number end ∷ [])) }
    ensures err { OnErr result (S.told children.new ≡ S.told children.old) }
    ensures later { S.faults children.old ≤ S.faults children.new }
{
    match children.finish(child, room) {
        Ok(_) => {
            room.truncate(0);
            Ok(())
        }
        Err(Trouble::Failed) => Ok(()),
        Err(Trouble::Memory) => Err(NoMemory),
    }
}

// Finishes the child for a process, and writes what it gave. Its exit status.
fn finish_one<K: Sink, S: Spawner>(
    alloc: Global,
    process: u16,
    child: Child,
    out: &mut K,
    children: &mut S,
) -> Result<u8, FinishFault>
    ensures finished { HasFinishedOne child.number process result (S.told children.old) (S.told children.new) (K.taken out.old) (K.taken out.new) }
    ensures write { HasCause (K.faults out.old) (K.faults out.new) (IsErrOf result FinishFault.Write) }
    ensures child { HasCause (S.faults children.old) (S.faults children.new) (IsErrOf result FinishFault.Child) }
{
    let mut text = List::new(alloc);
    push_opening(process, &mut text)?;
    let code = match children.finish(child, &mut text) {
        Ok(code) => code,
        Err(Trouble::Failed) => return Err(FinishFault::Child),
        Err(Trouble::Memory) => return Err(FinishFault::Memory),
    };
    push_closing(process, code, &mut text)?;
    match write_all(out, text.as_slice()) {
        Ok(()) => Ok(code),
        Err(Trouble::Failed) => Err(FinishFault::Write),
        Err(Trouble::Memory) => Err(FinishFault::Memory),
    }
}

// The line before what a child wrote.
fn push_opening(process: u16, text: &mut Buf) -> Result<(), NoMemory>
    ensures { OnOk result (text.new ≡ text.old ++ codes "node " ++ decimal process ++ codes "\n") }
{
    text.append(b"node ")?;
    write_number(u64::from(process), text)?;
    text.append(b"\n")
}

// The line after it.
fn push_closing(process: u16, code: u8, text: &mut Buf) -> Result<(), NoMemory>
    ensures { OnOk result (text.new ≡ text.old ++ codes "status " ++ decimal process ++ codes " " ++ decimal code ++ codes "\n") }
{
    text.append(b"status ")?;
    write_number(u64::from(process), text)?;
    text.append(b" ")?;
    write_number(u64::from(code), text)?;
    text.append(b"\n")
}

// The status with which children end, after one with this code.
fn first_of(status: Status, child: u16, code: u8) -> Status
    ensures { result ≡ status_after status child code }
{
    match status {
        Status::Done if code != 0 => Status::ChildStatus {
            child,
            status: code,
        },
        _ => status,
    }
}

// The first child, which leaves the list.
fn next_of(list: &mut List<Child>) -> Option<Child>
    ensures { MatchOption result ((list.old ≡ []) × (list.new ≡ [])) (λ child. list.old ≡ child ∷ list.new) }
{
    if list.len() == 0 {
        return None;
    }
    Some(list.remove(0))
}
