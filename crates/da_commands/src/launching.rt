//! The command `launch`.
ghost use Rattle.da_core.specs.Compiled.{IsCompiled, program_of};
ghost use Rattle.da_outside.specs.Outside.{HasCause, Rose};
ghost use Rattle.da_commands.specs.LaunchReplies.{HasLaunchEnd, LaunchesProgram};
ghost use Rattle.da_commands.specs.LaunchSteps.{HasRun, IsFinishEnd};
ghost use Rattle.da_commands.specs.Launching.{HasChildCause, child_words};
ghost use Rattle.da_commands.specs.Told.{OfTold};
ghost use Rattle.std.specs.Prelude.{ℕ, ◌≡◌, ◌+◌, ◌<◌, ◌≤◌, List, take, length};

use crate::endings::refuse;
use crate::finishing::{finish_all, finish_rest};
use crate::starting::{Started, start_all};
use crate::status::Status;
use crate::words::LaunchSetting;
use da_core::Compiled;
use da_front::{PROGRAM_LIMIT, ProgramFault, read_program};
use da_outside::{Files, Sink, Spawner, Trouble, read_all};
use std::alloc::Global;

/// Reads the program, and refuses it or runs each process of it as a child of its own.
///
/// It ends with the first call of the spawner for which memory was refused; such a call is not made again.
pub fn launch<F: Files, K: Sink, S: Spawner>(
    alloc: Global,
    setting: LaunchSetting,
    program: &str,
    files: &mut F,
    out: &mut K,
    children: &mut S,
) -> Status
    ensures launched { OfTold (F.told files.old program.now) (λ t. HasLaunchEnd t program.now setting result (S.told children.old) (S.told children.new) (K.taken out.old) (K.taken out.new)) }
    ensures words { result ≡ Status.Words → ⊥ }
    ensures link { result ≡ Status.LinkFault → ⊥ }
    ensures read { result ≡ Status.ReadFault → Rose (F.faults files.old program.now) (F.faults files.new program.now) }
    ensures unread { result ≡ Status.ReadFault → K.taken out.new ≡ K.taken out.old }
    ensures unstarted { result ≡ Status.ReadFault → children.new ≡ children.old }
    ensures told { (x : List ℕ) → F.told files.new x ≡ F.told files.old x }
    ensures later { (x : List ℕ) → F.faults files.old x ≤ F.faults files.new x }
    ensures rises { (x : List ℕ) → F.faults files.old x < F.faults files.new x → result ≡ Status.ReadFault }
    ensures write { HasCause (K.faults out.old) (K.faults out.new) (result ≡ Status.WriteFault) }
    ensures children { HasChildCause (S.faults children.old) (S.faults children.new) result }
{
    match read_all(alloc, files, program, PROGRAM_LIMIT) {
        Ok(text) => answer_text(alloc, setting, program, text.as_slice(), out, children),
        Err(Trouble::Failed) => Status::ReadFault,
        Err(Trouble::Memory) => Status::Memory,
    }
}

// Refuses the program of this name and text, or runs its processes.
fn answer_text<K: Sink, S: Spawner>(
    alloc: Global,
    setting: LaunchSetting,
    name: &str,
    text: &[u8],
    out: &mut K,
    children: &mut S,
) -> Status
    ensures launched { (t : List ℕ) → text.now ≡ take (PROGRAM_LIMIT + 1) t
        → HasLaunchEnd t name.now setting result (S.told children.old) (S.told children.new) (K.taken out.old) (K.taken out.new) }
    ensures words { result ≡ Status.Words → ⊥ }
    ensures link { result ≡ Status.LinkFault → ⊥ }
    ensures read { result ≡ Status.ReadFault → ⊥ }
    ensures write { HasCause (K.faults out.old) (K.faults out.new) (result ≡ Status.WriteFault) }
    ensures children { HasChildCause (S.faults children.old) (S.faults children.new) result }
{
    match read_program(alloc, text) {
        Ok(compiled) => answer_program(alloc, setting, name, &compiled, out, children),
        Err(ProgramFault::Refused { kind, line }) => refuse(alloc, out, kind, line),
        Err(ProgramFault::Memory) => Status::Memory,
    }
}

// Runs the processes of an accepted program.
fn answer_program<K: Sink, S: Spawner>(
    alloc: Global,
    setting: LaunchSetting,
    name: &str,
    compiled: &Compiled,
    out: &mut K,
    children: &mut S,
) -> Status
    requires compiled { IsCompiled compiled.now }
    requires few { length (program_of compiled.now).procs ≤ 64 }
    ensures runs { LaunchesProgram (program_of compiled.now) name.now setting result (S.told children.old) (S.told children.new) (K.taken out.old) (K.taken out.new) }
    ensures words { result ≡ Status.Words → ⊥ }
    ensures link { result ≡ Status.LinkFault → ⊥ }
    ensures read { result ≡ Status.ReadFault → ⊥ }
    ensures write { HasCause (K.faults out.old) (K.faults out.new) (result ≡ Status.WriteFault) }
    ensures children { HasChildCause (S.faults children.old) (S.faults children.new) result }
{
    let count = compiled.program().procs.len();
    run_children(alloc, setting, name, count as u16, out, children)
}

// Runs so many processes of the program of this name, each as a child.
fn run_children<K: Sink, S: Spawner>(
    alloc: Global,
    setting: LaunchSetting,
    name: &str,
    count: u16,
    out: &mut K,
    children: &mut S,
) -> Status
    requires { count ≤ 64 }
    ensures runs { HasRun (child_words name.now setting) count result (S.told children.old) (S.told children.new) (K.taken out.old) (K.taken out.new) }
    ensures ends { IsFinishEnd result }
    ensures write { HasCause (K.faults out.old) (K.faults out.new) (result ≡ Status.WriteFault) }
    ensures children { HasChildCause (S.faults children.old) (S.faults children.new) result }
{
    match start_all(alloc, name, setting, count, children) {
        Started::All(list) => finish_all(alloc, list, out, children),
        Started::Broken(list) => finish_rest(alloc, list, children),
        Started::Memory => Status::Memory,
    }
}
