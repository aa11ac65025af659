//! The top call: all that the program does.
ghost use Rattle.arq_link.specs.ArqLink.{inner_of, told_of};
ghost use Rattle.arq_link.specs.Calls.{Retells};
ghost use Rattle.da_lang.specs.declared.event.Event.{Event};
ghost use Rattle.da_lang.specs.declared.program.Program.{Program};
ghost use Rattle.da_lang.specs.declared.ty.ChannelKind.{ChannelKind};
ghost use Rattle.da_outside.specs.Outside.{Appends, AppendsPrefix, HasCause, Rose};
ghost use Rattle.da_values.specs.Sets.{Has};
ghost use Rattle.da_commands.specs.InferReplies.{InferReply, IsCompletedWhole, IsInfer};
ghost use Rattle.da_commands.specs.JoinReplies.{IsJoin, IsJoined, JoinReply};
ghost use Rattle.da_commands.specs.LaunchReplies.{HasLaunched, IsLaunch, IsLaunchAnswer, IsLaunched, LaunchStopped};
ghost use Rattle.da_commands.specs.Launching.{HasChildCause};
ghost use Rattle.da_commands.specs.Links.{told_over};
ghost use Rattle.da_commands.specs.NodeReplies.{BindsOnce, HasAnswered, HasKind, HasStopped, IsNode, IsServed, LinkFailed};
ghost use Rattle.da_commands.specs.Replies.{HasReadCause, IsAnswer, IsAsking, IsExecuted, IsOther, IsReplay, ReplayReply, RunsWhole, TaskReply};
ghost use Rattle.da_commands.specs.declared.words.LaunchSetting.{LaunchSetting};
ghost use Rattle.da_commands.specs.declared.words.NodeSetting.{NodeSetting};
ghost use Rattle.da_commands.specs.declared.words.Task.{Task};
ghost use Rattle.da_commands.specs.Told.{Begins, Gains, OfAllTold, OfTold};
ghost use Rattle.da_front.specs.Verdict.{Accepts};
ghost use Rattle.node_run.specs.NodeCall.{GivesPackets};
ghost use Rattle.sched_text.specs.ScheduleText.{SpellsSchedule};
ghost use Rattle.std.specs.Prelude.{ℕ, ◌≡◌, ◌<◌, ◌≤◌, List, Some, codes, map};
ghost use Rattle.std.specs.String.{string_bytes};

use crate::endings::say;
use crate::inferring::write_declared;
use crate::joining::join;
use crate::launching::launch;
use crate::noding::run_node;
use crate::replaying::replay;
use crate::status::Status;
use crate::tasks::execute;
use crate::words::{Command, command_of};
use arq_link::ArqLink;
use da_outside::{Files, Link, Sink, Spawner};
use std::alloc::Global;

/// Does what the words ask for, and says how that ended. The words are those after the program's name.
#[tactic(auto, using(arq_link::proofs::LinkLaws::retells))]
pub fn dalgo<F: Files, K: Sink, L: Link, S: Spawner>(
    alloc: Global,
    words: &[String],
    files: &mut F,
    out: &mut K,
    link: &mut ArqLink<L>,
    children: &mut S,
) -> Status
    // The bytes that the sink took are the reply to the two texts, and the status is that of the reply. Where a text is not
    // told, it is the reply to some text in its place.
    ensures replies { (p q : List ℕ) → IsReplay (map string_bytes words.now) p q → IsAnswer result
        → OfTold (F.told files.old p) (λ t. OfTold (F.told files.old q) (λ s. Gains (ReplayReply t s) result (K.taken out.old) (K.taken out.new))) }

    // Each accepted program runs, unless a read or write failed or memory was refused.
    ensures complete { (p q t s : List ℕ) (program : Program) (events : List Event) → IsReplay (map string_bytes words.now) p q
        → F.told files.old p ≡ Some t → F.told files.old q ≡ Some s → Accepts t program → SpellsSchedule s events
        → (Rose (F.faults files.old p) (F.faults files.new p) → ⊥) → (Rose (F.faults files.old q) (F.faults files.new q) → ⊥)
        → (Rose (K.faults out.old) (K.faults out.new) → ⊥) → RunsWhole program events result (K.taken out.old) (K.taken out.new) }

    // `check`, `plan` and `stress` are answered in the same way by the program's text alone.
    ensures answers { (task : Task) (p : List ℕ) → IsAsking (map string_bytes words.now) task p → IsAnswer result
        → OfTold (F.told files.old p) (λ t. Gains (TaskReply task t) result (K.taken out.old) (K.taken out.new)) }
    ensures executed { (task : Task) (p t : List ℕ) (program : Program) → IsAsking (map string_bytes words.now) task p → F.told files.old p ≡ Some t → Accepts t program
        → (Rose (F.faults files.old p) (F.faults files.new p) → ⊥) → (Rose (K.faults out.old) (K.faults out.new) → ⊥)
        → IsExecuted task program result (K.taken out.old) (K.taken out.new) }

    // A node answers by the program's text and by what its link answers, which is the inner link where the channels of the program
    // keep no order and may lose and double messages, else the reliable link over it. That link is bound once, unless the program
    // is refused, and then tells the talk of the run. Where it fails to be bound nothing is written. Where a write fails, it tells
    // the talk up to there, and lines are missing only of events after which it told nothing.
    ensures node { (p : List ℕ) (setting : NodeSetting) → IsNode (map string_bytes words.now) p setting → IsAnswer result
        → OfTold (F.told files.old p)
        (λ t. (kind : ChannelKind) → HasKind t kind → HasAnswered t setting result (told_over L.told kind link.old) (told_over L.told kind link.new) (K.taken out.old) (K.taken out.new)) }
    ensures node_link { (p : List ℕ) (setting : NodeSetting) → IsNode (map string_bytes words.now) p setting → result ≡ Status.LinkFault
        → OfTold (F.told files.old p)
        (λ t. (kind : ChannelKind) → HasKind t kind → LinkFailed t setting (told_over L.told kind link.old) (told_over L.told kind link.new) (K.taken out.old) (K.taken out.new)) }
    ensures node_stopped { (p : List ℕ) (setting : NodeSetting) → IsNode (map string_bytes words.now) p setting → (IsAnswer result → ⊥) → (result ≡ Status.LinkFault → ⊥)
        → OfTold (F.told files.old p)
        (λ t. (kind : ChannelKind) → HasKind t kind → HasStopped t setting result (told_over L.told kind link.old) (told_over L.told kind link.new) (K.taken out.old) (K.taken out.new)) }

    // However it ends, a node gives nothing but packets that name its process as their sender.
    ensures node_packets { (p : List ℕ) (setting : NodeSetting) → IsNode (map string_bytes words.now) p setting
        → OfTold (F.told files.old p)
        (λ t. (kind : ChannelKind) → HasKind t kind → GivesPackets setting.me (told_over L.told kind link.old) (told_over L.told kind link.new)) }

    // Where the reliable link tells something, it tells what is made of the entries of the inner link. Among these are the frames
    // that were due, in the order of the steps, and no others. Whatever it tells, the inner link is bound once at most.
    ensures frames { Retells (L.told (inner_of link.new)) (told_of L.told link.new) }
    ensures binds { (p : List ℕ) (setting : NodeSetting) → IsNode (map string_bytes words.now) p setting
        → OfTold (F.told files.old p) (λ t. BindsOnce t setting (L.told (inner_of link.old)) (L.told (inner_of link.new))) }

    // Each accepted program is served, unless a read, a write or the link failed or memory was refused.
    ensures served { (p t : List ℕ) (program : Program) (setting : NodeSetting) → IsNode (map string_bytes words.now) p setting → F.told files.old p ≡ Some t → Accepts t program
        → (Rose (F.faults files.old p) (F.faults files.new p) → ⊥) → (Rose (K.faults out.old) (K.faults out.new) → ⊥) → (Rose (L.faults (inner_of link.old)) (L.faults (inner_of link.new)) → ⊥)
        → IsServed t setting result (told_over L.told program.kind link.old) (told_over L.told program.kind link.new) (K.taken out.old) (K.taken out.new) }

    // Words that ask for no node leave the link as it was.
    ensures unlinked { ((p : List ℕ) (setting : NodeSetting) → IsNode (map string_bytes words.now) p setting → ⊥) → link.new ≡ link.old }

    // A launch answers by the program's text and by what its spawner answers. Unless the program is refused, a child is started for
    // each process, with the words of its node, and each child is finished, in the order of their numbers; the bytes and the
    // status are those of the reply to these calls. Where a write failed or memory was refused, a telling spawner tells the
    // first calls of a reply, and the sink gained a prefix of its bytes: of the children whose ends were told, with nothing missing
    // of a child after whose end more was told. Where a write failed, the calls stop at the child whose text was being written.
    // A call for which memory was refused is not told. Another call after it would be no call of a reply; that the same one is not
    // made again is how the code is.
    ensures launch { (p : List ℕ) (setting : LaunchSetting) → IsLaunch (map string_bytes words.now) p setting → IsLaunchAnswer result
        → OfTold (F.told files.old p) (λ t. HasLaunched t p setting result (S.told children.old) (S.told children.new) (K.taken out.old) (K.taken out.new)) }
    ensures launch_stopped { (p : List ℕ) (setting : LaunchSetting) → IsLaunch (map string_bytes words.now) p setting → (IsLaunchAnswer result → ⊥)
        → OfTold (F.told files.old p) (λ t. LaunchStopped t p setting result (S.told children.old) (S.told children.new) (K.taken out.old) (K.taken out.new)) }

    // Each accepted program is launched, unless a read, a write or the spawner failed or memory was refused.
    ensures launched { (p t : List ℕ) (program : Program) (setting : LaunchSetting) → IsLaunch (map string_bytes words.now) p setting → F.told files.old p ≡ Some t → Accepts t program
        → (Rose (F.faults files.old p) (F.faults files.new p) → ⊥) → (Rose (K.faults out.old) (K.faults out.new) → ⊥) → (Rose (S.faults children.old) (S.faults children.new) → ⊥)
        → IsLaunched t p setting result (S.told children.old) (S.told children.new) (K.taken out.old) (K.taken out.new) }

    // Words that ask for no launch leave the spawner as it was.
    ensures unlaunched { ((p : List ℕ) (setting : LaunchSetting) → IsLaunch (map string_bytes words.now) p setting → ⊥) → children.new ≡ children.old }

    // Other words are answered so.
    ensures words { IsOther (map string_bytes words.now) → IsAnswer result → (result ≡ Status.Words) × Appends (K.taken out.old) (K.taken out.new) (codes "words\n") }
    ensures only_words { result ≡ Status.Words → IsOther (map string_bytes words.now) }

    // Where a write failed or memory was refused, the sink gained a prefix of the bytes of a reply, or nothing.
    ensures begun { (p q : List ℕ) → IsReplay (map string_bytes words.now) p q → (IsAnswer result → ⊥)
        → OfTold (F.told files.old p) (λ t. OfTold (F.told files.old q) (λ s. Begins (ReplayReply t s) (K.taken out.old) (K.taken out.new))) }
    ensures begun_task { (task : Task) (p : List ℕ) → IsAsking (map string_bytes words.now) task p → (IsAnswer result → ⊥)
        → OfTold (F.told files.old p) (λ t. Begins (TaskReply task t) (K.taken out.old) (K.taken out.new)) }
    ensures begun_words { IsOther (map string_bytes words.now) → (IsAnswer result → ⊥) → AppendsPrefix (K.taken out.old) (K.taken out.new) (codes "words\n") }

    // A join answers by the texts of the program and of the traces.
    ensures joins { (p : List ℕ) (traces : List (List ℕ)) → IsJoin (map string_bytes words.now) p traces → IsAnswer result
        → OfTold (F.told files.old p) (λ t. OfAllTold (map (F.told files.old) traces) (λ texts. Gains (JoinReply t texts) result (K.taken out.old) (K.taken out.new))) }
    ensures begun_join { (p : List ℕ) (traces : List (List ℕ)) → IsJoin (map string_bytes words.now) p traces → (IsAnswer result → ⊥)
        → OfTold (F.told files.old p) (λ t. OfAllTold (map (F.told files.old) traces) (λ texts. Begins (JoinReply t texts) (K.taken out.old) (K.taken out.new))) }

    // It answers unless a read or a write failed or memory was refused.
    ensures joined { (p : List ℕ) (traces : List (List ℕ)) → IsJoin (map string_bytes words.now) p traces
        → (Rose (F.faults files.old p) (F.faults files.new p) → ⊥) → ((x : List ℕ) → Has traces x → Rose (F.faults files.old x) (F.faults files.new x) → ⊥)
        → (Rose (K.faults out.old) (K.faults out.new) → ⊥)
        → IsJoined (F.told files.old p) (map (F.told files.old) traces) result (K.taken out.old) (K.taken out.new) }

    // Asked for declarations, it answers by the program's text: with the refusal by the grammar in which parameters may lack their
    // types, by names, by limits, or by the least line up to which no types keep the rules; or with what is printed of the program
    // with types that keep all rules, of which each is that of any others, with `int` or `proc` in place of some parts, but `proc`
    // in that of no `int`.
    ensures infers { (p : List ℕ) → IsInfer (map string_bytes words.now) p → IsAnswer result
        → OfTold (F.told files.old p) (λ t. Gains (InferReply t) result (K.taken out.old) (K.taken out.new)) }
    ensures begun_infer { (p : List ℕ) → IsInfer (map string_bytes words.now) p → (IsAnswer result → ⊥)
        → OfTold (F.told files.old p) (λ t. Begins (InferReply t) (K.taken out.old) (K.taken out.new)) }

    // It answers unless a read or a write failed or memory was refused.
    ensures inferred { (p : List ℕ) → IsInfer (map string_bytes words.now) p
        → (Rose (F.faults files.old p) (F.faults files.new p) → ⊥) → (Rose (K.faults out.old) (K.faults out.new) → ⊥)
        → IsCompletedWhole (F.told files.old p) result (K.taken out.old) (K.taken out.new) }

    // Each fault has its cause, and where a count rose the status says so. What files tell stays as it was, and no count
    // falls.
    ensures read { result ≡ Status.ReadFault → HasReadCause (map string_bytes words.now) (F.told files.old) (F.faults files.old) (F.faults files.new) }
    ensures read_failed { (x : List ℕ) → F.faults files.old x < F.faults files.new x → result ≡ Status.ReadFault }
    ensures unread { result ≡ Status.ReadFault → K.taken out.new ≡ K.taken out.old }
    ensures unbound { result ≡ Status.ReadFault → link.new ≡ link.old }
    ensures unstarted { result ≡ Status.ReadFault → children.new ≡ children.old }
    ensures told { (x : List ℕ) → F.told files.new x ≡ F.told files.old x }
    ensures counts { (x : List ℕ) → F.faults files.old x ≤ F.faults files.new x }
    ensures write { HasCause (K.faults out.old) (K.faults out.new) (result ≡ Status.WriteFault) }
    ensures link { HasCause (L.faults (inner_of link.old)) (L.faults (inner_of link.new)) (result ≡ Status.LinkFault) }
    ensures only_node { result ≡ Status.LinkFault → (p : List ℕ) × (setting : NodeSetting) × IsNode (map string_bytes words.now) p setting }
    ensures children { HasChildCause (S.faults children.old) (S.faults children.new) result }
    ensures only_launch { result ≡ Status.ChildFault → (p : List ℕ) × (setting : LaunchSetting) × IsLaunch (map string_bytes words.now) p setting }
{
    match command_of(words) {
        Command::Replay(names) => replay(alloc, names.program, names.schedule, files, out),
        Command::Carry { task, program } => execute(alloc, task, program, files, out),
        Command::Infer { program } => write_declared(alloc, program, files, out),
        Command::Node { setting, program } => run_node(alloc, setting, program, files, out, link),
        Command::Launch { setting, program } => launch(
            alloc, setting, program, files, out, children,
        ),
        Command::Join { program, traces } => join(alloc, program, traces, files, out),
        Command::Other => say(out, b"words\n", Status::Words),
    }
}
