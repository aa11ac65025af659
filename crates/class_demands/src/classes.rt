//! What programs demand, class by class.
ghost use Rattle.std.specs.Prelude.{◌≡◌, [], ◌∷◌, ◌++◌, IfOk, Some, map, slice_get};
ghost use Rattle.class_demands.specs.Heads.{context_in};
ghost use Rattle.class_demands.specs.Programs as spec;
ghost use Rattle.class_demands.specs.Statements as statement;
ghost use Rattle.class_demands.specs.Walks.{class_heads, class_slots, lines_in};
ghost use Rattle.type_demands.specs.Demands.{at_line};

use crate::demands::{ClassDemands, Head, ProgramDemands, SetupDemands};
use crate::heads::{handlers_heads, items_heads};
use crate::items::{handlers_demands, items_demands};
use crate::rules::args_fit;
use crate::schemes::{declared_messages, declared_slots};
use da_lang::{Class, ProcDecl, Program, SetupCall};
use da_values::{List, NoMemory};
use std::alloc::Global;
use type_demands::{Known, LineDemand, MessageScheme, SlotScheme};

/// What a program demands: its classes with the headers that give types to slots, and the lines of `setup` of its processes.
#[tactic(auto, unfolding(crate::specs::Programs::program_demands))]
pub fn program_demands(alloc: Global, program: &Program) -> Result<ProgramDemands, NoMemory>
    ensures { IfOk result (λ demands. demands ≡ spec.program_demands program.now) }
{
    let messages = declared_messages(program.messages.as_slice(), alloc)?;
    let known = messages.as_slice();
    let classes = program.classes.as_slice();
    let mut flows = List::new(alloc);
    let of_classes = classes_demands(classes, alloc, known, &mut flows)?;
    let flows = flows.as_slice();
    let setups = setups_demands(program.procs.as_slice(), alloc, known, classes, flows)?;
    Ok(ProgramDemands {
        classes: of_classes,
        setups,
    })
}

// What classes demand. What stands for the slots of each comes at the end of a list.
fn classes_demands(
    classes: &[Class],
    alloc: Global,
    messages: &[MessageScheme],
    flows: &mut List<List<SlotScheme>>,
) -> Result<List<ClassDemands>, NoMemory>
    ensures { IfOk result (λ demands. (demands ≡ map (spec.class_demands messages.now) classes.now) × (flows.new ≡ flows.old ++ map (class_slots messages.now) classes.now)) }
{
    let mut demands = List::new(alloc);
    for class in classes {
        let one = class_demands(class, alloc, messages, flows)?;
        demands.push(one)?;
    }
    Ok(demands)
}

// What a class demands. What stands for its slots comes at the end of a list.
#[tactic(auto, unfolding(crate::specs::Programs::class_demands))]
fn class_demands(
    class: &Class,
    alloc: Global,
    messages: &[MessageScheme],
    flows: &mut List<List<SlotScheme>>,
) -> Result<ClassDemands, NoMemory>
    ensures { IfOk result (λ demands. (demands ≡ spec.class_demands messages.now class.now) × (flows.new ≡ flows.old ++ class_slots messages.now class.now ∷ [])) }
{
    let mut heads = List::new(alloc);
    let slots = class_flow(class, alloc, messages, &mut heads)?;
    let demands = class_lines(class, alloc, messages, slots.as_slice())?;
    flows.push(slots)?;
    Ok(ClassDemands { heads, demands })
}

// What stands for the slots of a class after its headers, which are put at the end of a list.
#[tactic(auto, using(crate::proofs::WalkForms::class_rules))]
fn class_flow(
    class: &Class,
    alloc: Global,
    messages: &[MessageScheme],
    heads: &mut List<Head>,
) -> Result<List<SlotScheme>, NoMemory>
    ensures { IfOk result (λ slots. (slots ≡ class_slots messages.now class.now) × (heads.new ≡ heads.old ++ class_heads messages.now class.now)) }
{
    let queries = class.queries.as_slice();
    let mut slots = declared_slots(class.slots.as_slice(), alloc)?;
    items_heads(
        class.setup.as_slice(),
        alloc,
        messages,
        queries,
        &mut slots,
        heads,
    )?;
    items_heads(
        class.run.as_slice(),
        alloc,
        messages,
        queries,
        &mut slots,
        heads,
    )?;
    handlers_heads(
        class.handlers.as_slice(),
        alloc,
        messages,
        queries,
        &mut slots,
        heads,
    )?;
    Ok(slots)
}

// What the statements of a class demand, where this stands for its slots.
#[tactic(auto, using(crate::proofs::WalkForms::line_rules))]
fn class_lines(
    class: &Class,
    alloc: Global,
    messages: &[MessageScheme],
    slots: &[SlotScheme],
) -> Result<List<LineDemand>, NoMemory>
    ensures { IfOk result (λ demands. demands ≡ lines_in (context_in messages.now slots.now) class.now) }
{
    let known = Known {
        slots,
        messages,
        queries: class.queries.as_slice(),
        line: class.line,
    };
    let mut demands = List::new(alloc);
    items_demands(class.setup.as_slice(), alloc, &known, &mut demands)?;
    items_demands(class.run.as_slice(), alloc, &known, &mut demands)?;
    handlers_demands(class.handlers.as_slice(), alloc, &known, &mut demands)?;
    Ok(demands)
}

// What the lines of `setup` of processes demand.
fn setups_demands(
    procs: &[ProcDecl],
    alloc: Global,
    messages: &[MessageScheme],
    classes: &[Class],
    flows: &[List<SlotScheme>],
) -> Result<List<SetupDemands>, NoMemory>
    requires { flows.now ≡ map (class_slots messages.now) classes.now }
    ensures { IfOk result (λ setups. setups ≡ map (spec.setup_demands messages.now classes.now) procs.now) }
{
    let mut setups = List::new(alloc);
    for proc in procs {
        let setup = setup_demands(proc, alloc, messages, classes, flows)?;
        setups.push(setup)?;
    }
    Ok(setups)
}

// What the line of `setup` of a process demands.
#[tactic(auto, unfolding(crate::specs::Programs::setup_demands))]
fn setup_demands(
    proc: &ProcDecl,
    alloc: Global,
    messages: &[MessageScheme],
    classes: &[Class],
    flows: &[List<SlotScheme>],
) -> Result<SetupDemands, NoMemory>
    requires { flows.now ≡ map (class_slots messages.now) classes.now }
    ensures { IfOk result (λ setup. setup ≡ spec.setup_demands messages.now classes.now proc.now) }
{
    let class = proc.class;
    let demands = call_demands(class, &proc.setup, alloc, messages, classes, flows)?;
    Ok(SetupDemands { class, demands })
}

// What a line of `setup` demands that there may be, of a process of the class at this place.
fn call_demands(
    place: u16,
    setup: &Option<SetupCall>,
    alloc: Global,
    messages: &[MessageScheme],
    classes: &[Class],
    flows: &[List<SlotScheme>],
) -> Result<List<LineDemand>, NoMemory>
    requires { flows.now ≡ map (class_slots messages.now) classes.now }
    ensures { IfOk result (λ demands. demands ≡ spec.call_demands messages.now (slice_get classes.now place) setup.now) }
{
    let place = usize::from(place);
    let Some(class) = classes.get(place) else {
        return Ok(List::new(alloc));
    };
    let Some(call) = setup else {
        return Ok(List::new(alloc));
    };
    let slots = slots_of(place, class, messages, classes, flows);
    let demands = args_demands(class, call, alloc, messages, slots)?;
    Ok(demands)
}

// What stands for the slots of the class at a place.
fn slots_of<'p>(
    place: usize,
    class: &Class,
    messages: &[MessageScheme],
    classes: &[Class],
    flows: &'p [List<SlotScheme>],
) -> &'p [SlotScheme]
    requires flows { flows.now ≡ map (class_slots messages.now) classes.now }
    requires there { Some class.now ≡ slice_get classes.now place }
    ensures { result.now ≡ class_slots messages.now class.now }
{
    flows[place].as_slice()
}

// What the arguments of a line of `setup` demand, where this stands for the slots of the class.
fn args_demands(
    class: &Class,
    call: &SetupCall,
    alloc: Global,
    messages: &[MessageScheme],
    slots: &[SlotScheme],
) -> Result<List<LineDemand>, NoMemory>
    ensures { IfOk result (λ demands. demands ≡ at_line call.now.line (statement.args_fit (context_in messages.now slots.now) class.now.queries class.now.params call.now.args)) }
{
    let known = Known {
        slots,
        messages,
        queries: class.queries.as_slice(),
        line: call.line,
    };
    let params = class.params.as_slice();
    let mut demands = List::new(alloc);
    args_fit(params, call.args.as_slice(), alloc, &known, &mut demands)?;
    Ok(demands)
}
