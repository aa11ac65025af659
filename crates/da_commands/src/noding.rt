//! The command `node`.
ghost use Rattle.arq_link.specs.ArqLink.{inner_of};
ghost use Rattle.da_core.specs.Compiled.{IsCompiled, program_of};
ghost use Rattle.da_lang.specs.declared.ty.ChannelKind.{ChannelKind};
ghost use Rattle.da_outside.specs.Link.{Carries};
ghost use Rattle.da_outside.specs.Outside.{HasCause, Rose};
ghost use Rattle.da_commands.specs.Links.{told_over};
ghost use Rattle.da_commands.specs.NodeReplies.{BindsOnce, HasKind, SettingInRange};
ghost use Rattle.da_commands.specs.NodeSteps.{BindsFor, HasServed, RunsBound, RunsProgram};
ghost use Rattle.da_commands.specs.Told.{OfTold};
ghost use Rattle.node_run.specs.NodeCall.{GivesPackets};
ghost use Rattle.std.specs.Prelude.{ℕ, ◌≡◌, ◌+◌, ◌<◌, ◌≤◌, [], List, take, length};

use crate::endings::{refuse, status_of_node};
use crate::status::Status;
use crate::words::NodeSetting;
use arq_link::ArqLink;
use da_core::Compiled;
use da_front::{PROGRAM_LIMIT, ProgramFault, RefusedKind, read_program};
use da_lang::ChannelKind;
use da_outside::{Files, Link, Sink, Trouble, read_all};
use node_run::node;
use std::alloc::Global;

/// Reads the program, and refuses it or binds the link and runs a process of it as a node: over the link itself where its
/// channels keep no order and may lose and double messages, else over the reliable link.
pub fn run_node<F: Files, K: Sink, L: Link>(
    alloc: Global,
    setting: NodeSetting,
    program: &str,
    files: &mut F,
    out: &mut K,
    link: &mut ArqLink<L>,
) -> Status
    requires { SettingInRange setting }
    ensures served { OfTold (F.told files.old program.now)
        (λ t. (kind : ChannelKind) → HasKind t kind → HasServed t setting result (told_over L.told kind link.old) (told_over L.told kind link.new) (K.taken out.old) (K.taken out.new)) }
    ensures packets { OfTold (F.told files.old program.now)
        (λ t. (kind : ChannelKind) → HasKind t kind → GivesPackets setting.me (told_over L.told kind link.old) (told_over L.told kind link.new)) }
    ensures binds { OfTold (F.told files.old program.now) (λ t. BindsOnce t setting (L.told (inner_of link.old)) (L.told (inner_of link.new))) }
    ensures words { result ≡ Status.Words → ⊥ }
    ensures childless { result ≡ Status.ChildFault → ⊥ }
    ensures read { result ≡ Status.ReadFault → Rose (F.faults files.old program.now) (F.faults files.new program.now) }
    ensures unread { result ≡ Status.ReadFault → K.taken out.new ≡ K.taken out.old }
    ensures unbound { result ≡ Status.ReadFault → link.new ≡ link.old }
    ensures told { (x : List ℕ) → F.told files.new x ≡ F.told files.old x }
    ensures later { (x : List ℕ) → F.faults files.old x ≤ F.faults files.new x }
    ensures rises { (x : List ℕ) → F.faults files.old x < F.faults files.new x → result ≡ Status.ReadFault }
    ensures write { HasCause (K.faults out.old) (K.faults out.new) (result ≡ Status.WriteFault) }
    ensures link { HasCause (L.faults (inner_of link.old)) (L.faults (inner_of link.new)) (result ≡ Status.LinkFault) }
{
    match read_all(alloc, files, program, PROGRAM_LIMIT) {
        Ok(text) => answer_text(alloc, setting, text.as_slice(), out, link),
        Err(Trouble::Failed) => Status::ReadFault,
        Err(Trouble::Memory) => Status::Memory,
    }
}

// Refuses the program, or runs a process of it.
fn answer_text<K: Sink, L: Link>(
    alloc: Global,
    setting: NodeSetting,
    text: &[u8],
    out: &mut K,
    link: &mut ArqLink<L>,
) -> Status
    requires { SettingInRange setting }
    ensures served { (t : List ℕ) → text.now ≡ take (PROGRAM_LIMIT + 1) t → (kind : ChannelKind) → HasKind t kind
        → HasServed t setting result (told_over L.told kind link.old) (told_over L.told kind link.new) (K.taken out.old) (K.taken out.new) }
    ensures packets { (t : List ℕ) → text.now ≡ take (PROGRAM_LIMIT + 1) t → (kind : ChannelKind) → HasKind t kind
        → GivesPackets setting.me (told_over L.told kind link.old) (told_over L.told kind link.new) }
    ensures binds { (t : List ℕ) → text.now ≡ take (PROGRAM_LIMIT + 1) t → BindsOnce t setting (L.told (inner_of link.old)) (L.told (inner_of link.new)) }
    ensures words { result ≡ Status.Words → ⊥ }
    ensures childless { result ≡ Status.ChildFault → ⊥ }
    ensures read { result ≡ Status.ReadFault → ⊥ }
    ensures write { HasCause (K.faults out.old) (K.faults out.new) (result ≡ Status.WriteFault) }
    ensures link { HasCause (L.faults (inner_of link.old)) (L.faults (inner_of link.new)) (result ≡ Status.LinkFault) }
{
    match read_program(alloc, text) {
        Ok(compiled) => answer_program(alloc, setting, &compiled, out, link),
        Err(ProgramFault::Refused { kind, line }) => refuse(alloc, out, kind, line),
        Err(ProgramFault::Memory) => Status::Memory,
    }
}

// Refuses an accepted program that has no such process, or runs that over the link for its channels.
fn answer_program<K: Sink, L: Link>(
    alloc: Global,
    setting: NodeSetting,
    compiled: &Compiled,
    out: &mut K,
    link: &mut ArqLink<L>,
) -> Status
    requires compiled { IsCompiled compiled.now }
    requires few { length (program_of compiled.now).procs ≤ 64 }
    requires within { SettingInRange setting }
    ensures runs { RunsProgram (program_of compiled.now) setting result
        (told_over L.told (program_of compiled.now).kind link.old) (told_over L.told (program_of compiled.now).kind link.new) (K.taken out.old) (K.taken out.new) }
    ensures packets { GivesPackets setting.me
        (told_over L.told (program_of compiled.now).kind link.old) (told_over L.told (program_of compiled.now).kind link.new) }
    ensures binds { BindsFor (program_of compiled.now) setting (L.told (inner_of link.old)) (L.told (inner_of link.new)) }
    ensures words { result ≡ Status.Words → ⊥ }
    ensures childless { result ≡ Status.ChildFault → ⊥ }
    ensures read { result ≡ Status.ReadFault → ⊥ }
    ensures write { HasCause (K.faults out.old) (K.faults out.new) (result ≡ Status.WriteFault) }
    ensures link { HasCause (L.faults (inner_of link.old)) (L.faults (inner_of link.new)) (result ≡ Status.LinkFault) }
{
    let program = compiled.program();
    if usize::from(setting.me) > program.procs.len() {
        return refuse(alloc, out, RefusedKind::Me, 0);
    }
    if program.kind == ChannelKind::UnorderedUnreliable {
        run_over(alloc, setting, compiled, out, link.inner())
    } else {
        run_over(alloc, setting, compiled, out, link)
    }
}

// Binds the link, and runs a process of an accepted program over it.
fn run_over<K: Sink, L: Link>(
    alloc: Global,
    setting: NodeSetting,
    compiled: &Compiled,
    out: &mut K,
    link: &mut L,
) -> Status
    requires compiled { IsCompiled compiled.now }
    requires few { length (program_of compiled.now).procs ≤ 64 }
    requires within { SettingInRange setting }
    requires there { setting.me ≤ length (program_of compiled.now).procs }
    ensures runs { RunsProgram (program_of compiled.now) setting result (L.told link.old) (L.told link.new) (K.taken out.old) (K.taken out.new) }
    ensures packets { GivesPackets setting.me (L.told link.old) (L.told link.new) }
    ensures binds { BindsFor (program_of compiled.now) setting (L.told link.old) (L.told link.new) }
    ensures carries { BindsFor (program_of compiled.now) setting (L.carried link.old) (L.carried link.new) }
    ensures words { result ≡ Status.Words → ⊥ }
    ensures childless { result ≡ Status.ChildFault → ⊥ }
    ensures read { result ≡ Status.ReadFault → ⊥ }
    ensures write { HasCause (K.faults out.old) (K.faults out.new) (result ≡ Status.WriteFault) }
    ensures link { HasCause (L.faults link.old) (L.faults link.new) (result ≡ Status.LinkFault) }
{
    let count = compiled.program().procs.len();
    match link.bind(setting.port, setting.me, count as u16) {
        Ok(()) => run_bound(alloc, setting, compiled, out, link),
        Err(Trouble::Failed) => Status::LinkFault,
        Err(Trouble::Memory) => Status::Memory,
    }
}

// Runs a process of an accepted program over a link that is bound.
fn run_bound<K: Sink, L: Link>(
    alloc: Global,
    setting: NodeSetting,
    compiled: &Compiled,
    out: &mut K,
    link: &mut L,
) -> Status
    requires compiled { IsCompiled compiled.now }
    requires within { SettingInRange setting }
    requires there { setting.me ≤ length (program_of compiled.now).procs }
    requires bound { L.count link.old ≡ length (program_of compiled.now).procs }
    ensures runs { RunsBound (program_of compiled.now) setting result (L.told link.old) (L.told link.new) (K.taken out.old) (K.taken out.new) }
    ensures packets { GivesPackets setting.me (L.told link.old) (L.told link.new) }
    ensures binds { Carries (L.told link.old) (L.told link.new) [] }
    ensures carries { Carries (L.carried link.old) (L.carried link.new) [] }
    ensures words { result ≡ Status.Words → ⊥ }
    ensures childless { result ≡ Status.ChildFault → ⊥ }
    ensures read { result ≡ Status.ReadFault → ⊥ }
    ensures write { HasCause (K.faults out.old) (K.faults out.new) (result ≡ Status.WriteFault) }
    ensures link { HasCause (L.faults link.old) (L.faults link.new) (result ≡ Status.LinkFault) }
{
    status_of_node(node(
        alloc,
        compiled,
        setting.me,
        setting.idle,
        setting.turns,
        link,
        out,
    ))
}
