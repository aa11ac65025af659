//! What is shown of a process in a state.
ghost use Rattle.da_core.specs.Told.{answers_of, numbers_to};
ghost use Rattle.da_core.specs.Made.{phase_at};
ghost use Rattle.da_lang.specs.World.{at_number, class_of};
ghost use Rattle.da_system.specs.Channels.{channel};
ghost use Rattle.da_system.specs.Queues.{message_of};
ghost use Rattle.da_system.specs.State.{IsReady, Whichever, is_spent, program_of};
ghost use Rattle.run_page.specs.Cells.{answer_cell as answer_def, behind as behind_def, cell as cell_def, cells as cells_def, cells_from, flight_cell as flight_def, line_text, message_text, phase_text, slot_cells, slot_name as slot_name_def, text_at};
ghost use Rattle.da_values.specs.Text.{separated, value_text};
ghost use Rattle.da_values.specs.Value.{val_of, vals};
ghost use Rattle.da_values.specs.declared.val.Val.TheVariants as val;
ghost use Rattle.run_page.specs.RunRows.{names_at};
ghost use Rattle.std.specs.List.{flat_map};
ghost use Rattle.std.specs.Option.{option_copied};
ghost use Rattle.std.specs.Prelude.{◌≡◌, ◌+◌, ◌++◌, ◌∷◌, [], codes, decimal, false, get_or, length, map, IfOk, IfSome, OnOk};

use da_lang::Action;
use da_system::{InFlight, Place, System};
use da_values::{Buf, List, NoMemory, Value, write_number, write_value};
use std::alloc::Global;

/// The messages of a channel that are shown, at most: as many as an event can number.
const MESSAGES: usize = 4_294_967_295;

/// A thing that is shown of a process: its name, and the text of its value.
#[derive(Drop)]
pub(crate) struct Cell {
    pub name: Buf,
    pub value: Buf,
}

/// The cells of each process of a system that is not spent. `names` are the variables of each process, and `lines` the lines where
/// they wait.
pub(crate) fn cells_with(
    alloc: Global,
    system: &System<'_>,
    count: u32,
    names: &[List<Buf>],
    lines: &[u32],
) -> Result<List<List<Cell>>, NoMemory>
    requires ready { IsReady system.now }
    requires unspent { is_spent system.now ≡ false }
    requires count { count ≡ length (program_of system.now).procs }
    ensures { IfOk result (λ cells. Whichever system.now (λ s. cells ≡ cells_from (program_of system.now) (λ p. names_at names.now p) s 1 lines.now s.worlds)) }
{
    let mut cells = List::new(alloc);
    for place in 0..count {
        let p = place + 1;
        let own = cells_of(
            alloc,
            system,
            p,
            count,
            names_of(names, p),
            line_at(lines, place),
        )?;
        cells.push(own)?;
    }
    Ok(cells)
}

// The variables of a process.
fn names_of(names: &[List<Buf>], p: u32) -> &[Buf]
    ensures { result.now ≡ names_at names.now p }
{
    match numbered_names(names, p) {
        Some(found) => found.as_slice(),
        None => &[],
    }
}

// The list of this number, counted from 1, if there is one.
fn numbered_names(names: &[List<Buf>], p: u32) -> Option<&List<Buf>>
    ensures { option_copied result ≡ at_number names.now p }
{
    let place = (p as usize).checked_sub(1)?;
    names.get(place)
}

// The line at a place, or 0.
fn line_at(lines: &[u32], place: u32) -> u32
    ensures { result ≡ get_or lines.now place 0 }
{
    match lines.get(place as usize) {
        Some(line) => *line,
        None => 0,
    }
}

// The cells of a process that waits in this line.
fn cells_of(
    alloc: Global,
    system: &System<'_>,
    p: u32,
    count: u32,
    names: &[Buf],
    line: u32,
) -> Result<List<Cell>, NoMemory>
    requires ready { IsReady system.now }
    requires unspent { is_spent system.now ≡ false }
    requires count { count ≡ length (program_of system.now).procs }
    ensures { IfOk result (λ cells. Whichever system.now (λ s. IfSome (at_number s.worlds p)
        (λ w. cells ≡ cells_def (program_of system.now) names.now s p line w))) }
{
    let mut cells = List::new(alloc);
    add_place(alloc, system, p, line, &mut cells)?;
    add_slots(alloc, system, p, names, &mut cells)?;
    add_answers(alloc, system, p, &mut cells)?;
    add_flights(alloc, system, p, count, &mut cells)?;
    Ok(cells)
}

// Where a process stands, and the line where it waits.
fn add_place(
    alloc: Global,
    system: &System<'_>,
    p: u32,
    line: u32,
    cells: &mut List<Cell>,
) -> Result<(), NoMemory>
    ensures { OnOk result (Whichever system.now (λ s. IfSome (at_number s.worlds p)
        (λ w. cells.new ≡ cells.old ++ cell_def (codes "stands") (phase_text w.phase) ∷ cell_def (codes "line") (line_text line) ∷ []))) }
{
    add_cell(alloc, b"stands", stands_word(system, p), cells)?;
    let mut text = List::new(alloc);
    put_line(line, &mut text)?;
    add_cell(alloc, b"line", text.as_slice(), cells)
}

// The word for where a process stands; nothing where there is no such process.
fn stands_word(system: &System<'_>, p: u32) -> &'static [u8]
    ensures { Whichever system.now (λ s. IfSome (at_number s.worlds p) (λ w. result.now ≡ phase_text w.phase)) }
{
    match system.place(p) {
        Some(place) => phase_word(place),
        None => b"".as_slice(),
    }
}

// The word for a place.
fn phase_word(place: Place) -> &'static [u8]
    ensures { result.now ≡ phase_text (phase_at place) }
{
    match place {
        Place::New => b"new",
        Place::Label => b"waits",
        Place::Await(_) => b"waits",
        Place::Ended => b"ended",
        Place::Faulted => b"faulted",
    }
}

fn put_line(line: u32, out: &mut Buf) -> Result<(), NoMemory>
    ensures { OnOk result (out.new ≡ out.old ++ line_text line) }
{
    if line == 0 {
        return Ok(());
    }
    write_number(line, out)
}

// The slots of a process.
fn add_slots(
    alloc: Global,
    system: &System<'_>,
    p: u32,
    names: &[Buf],
    cells: &mut List<Cell>,
) -> Result<(), NoMemory>
    ensures { OnOk result (Whichever system.now (λ s. IfSome (at_number s.worlds p)
        (λ w. cells.new ≡ cells.old ++ slot_cells names.now 1 w.data'.slots))) }
{
    let slots = system.slots(p)?;
    add_values(alloc, slots.as_slice(), names, cells)
}

fn add_values(
    alloc: Global,
    values: &[Value],
    names: &[Buf],
    cells: &mut List<Cell>,
) -> Result<(), NoMemory>
    ensures { OnOk result (cells.new ≡ cells.old ++ slot_cells names.now 1 (vals values.now)) }
{
    let mut left = names;
    let mut number = 1u32;
    for value in values {
        add_value(alloc, value, left, number, cells)?;
        let next = after(number)?;
        left = behind(left);
        number = next;
    }
    Ok(())
}

// Adds the slot of this number, where these names are left.
fn add_value(
    alloc: Global,
    value: &Value,
    names: &[Buf],
    number: u32,
    cells: &mut List<Cell>,
) -> Result<(), NoMemory>
    ensures { OnOk result (cells.new ≡ cells.old ++ cell_def (slot_name_def names.now number) (value_text (val_of value.now)) ∷ []) }
{
    let name = slot_name(alloc, names, number)?;
    let mut text = List::new(alloc);
    write_value(value, &mut text)?;
    cells.push(Cell { name, value: text })
}

// The name of the slot of this number.
fn slot_name(alloc: Global, names: &[Buf], number: u32) -> Result<Buf, NoMemory>
    ensures { IfOk result (λ name. name ≡ slot_name_def names.now number) }
{
    match names {
        [name, ..] => copy_of(alloc, name.as_slice()),
        [] => numbered(alloc, b"#", number),
    }
}

// The names behind the first one.
fn behind(names: &[Buf]) -> &[Buf]
    ensures { result.now ≡ behind_def names.now }
{
    match names {
        [_, others @ ..] => others,
        [] => &[],
    }
}

// A word and a number.
fn numbered(alloc: Global, word: &[u8], number: u32) -> Result<Buf, NoMemory>
    ensures { IfOk result (λ name. name ≡ word.now ++ decimal number) }
{
    let mut name = List::new(alloc);
    name.append(word)?;
    write_number(number, &mut name)?;
    Ok(name)
}

/// The number after this one. No memory has room for what more than 32 bits count.
pub(crate) fn after(number: u32) -> Result<u32, NoMemory>
    ensures { IfOk result (λ next. next ≡ number + 1) }
{
    match number.checked_add(1) {
        Some(next) => Ok(next),
        None => Err(NoMemory),
    }
}

// What the queries of a process answer.
fn add_answers(
    alloc: Global,
    system: &System<'_>,
    p: u32,
    cells: &mut List<Cell>,
) -> Result<(), NoMemory>
    requires ready { IsReady system.now }
    requires unspent { is_spent system.now ≡ false }
    ensures { OnOk result (Whichever system.now (λ s. IfSome (at_number s.worlds p)
        (λ w. cells.new ≡ cells.old ++ map answer_def (answers_of p (class_of (program_of system.now) p) w.data')))) }
{
    let mut answers = List::new(alloc);
    system.answers(p, &mut answers)?;
    add_told(alloc, answers.as_slice(), cells)
}

fn add_told(alloc: Global, answers: &[Action], cells: &mut List<Cell>) -> Result<(), NoMemory>
    ensures { OnOk result (cells.new ≡ cells.old ++ map answer_def answers.now) }
{
    for answer in answers {
        add_answer(alloc, answer, cells)?;
    }
    Ok(())
}

fn add_answer(alloc: Global, answer: &Action, cells: &mut List<Cell>) -> Result<(), NoMemory>
    ensures { OnOk result (cells.new ≡ cells.old ++ answer_def answer.now ∷ []) }
{
    match answer {
        Action::Answer { n, rows, .. } => add_rows(alloc, *n, rows.as_slice(), cells),
        _ => add_cell(alloc, b"", b"", cells),
    }
}

// Adds the answer of the query of this number.
fn add_rows(alloc: Global, n: u32, rows: &[Value], cells: &mut List<Cell>) -> Result<(), NoMemory>
    ensures { OnOk result (cells.new ≡ cells.old ++ cell_def (codes "query " ++ decimal n) (value_text (val.Set (vals rows.now))) ∷ []) }
{
    let text = set_text(alloc, rows)?;
    add_numbered(alloc, b"query ", n, text, cells)
}

// The text of the set of some values.
fn set_text(alloc: Global, values: &[Value]) -> Result<Buf, NoMemory>
    ensures { IfOk result (λ text. text ≡ value_text (val.Set (vals values.now))) }
{
    let mut text = List::new(alloc);
    text.append(b"{")?;
    put_separated(values, &mut text)?;
    text.append(b"}")?;
    Ok(text)
}

// Appends the texts of some values, with a comma and a space between.
fn put_separated(values: &[Value], out: &mut Buf) -> Result<(), NoMemory>
    ensures { OnOk result (out.new ≡ out.old ++ separated (map value_text (vals values.now))) }
{
    for (place, value) in values.iter().enumerate() {
        if place > 0 {
            out.append(b", ")?;
        }
        write_value(value, out)?;
    }
    Ok(())
}

// What is in flight to a process, from each of so many.
fn add_flights(
    alloc: Global,
    system: &System<'_>,
    p: u32,
    count: u32,
    cells: &mut List<Cell>,
) -> Result<(), NoMemory>
    ensures { OnOk result (Whichever system.now (λ s. cells.new ≡ cells.old ++ map (flight_def s p) (numbers_to count))) }
{
    for place in 0..count {
        let q = place + 1;
        let text = flight_text(alloc, system, q, p)?;
        add_numbered(alloc, b"from ", q, text, cells)?;
    }
    Ok(())
}

// The messages from one process to another.
fn flight_text(alloc: Global, system: &System<'_>, q: u32, p: u32) -> Result<Buf, NoMemory>
    ensures { IfOk result (λ text. Whichever system.now (λ s. text ≡ flat_map message_text (channel s.channels q p))) }
{
    let mut text = List::new(alloc);
    let count = system.in_flight(q, p);
    if count > MESSAGES {
        return Err(NoMemory);
    }
    for place in 0..count {
        put_numbered(system, q, p, place as u32 + 1, &mut text)?;
    }
    Ok(text)
}

// Appends message `i` from one process to another, if it is there.
fn put_numbered(system: &System<'_>, q: u32, p: u32, i: u32, out: &mut Buf) -> Result<(), NoMemory>
    ensures { OnOk result (Whichever system.now (λ s. out.new ≡ out.old ++ text_at (at_number (channel s.channels q p) i))) }
{
    match system.message(q, p, i) {
        Some(message) => put_message(message, out),
        None => Ok(()),
    }
}

fn put_message(message: &InFlight, out: &mut Buf) -> Result<(), NoMemory>
    ensures { OnOk result (out.new ≡ out.old ++ message_text (message_of message.now)) }
{
    write_value(&message.value, out)?;
    out.append(b" at ")?;
    write_number(message.time, out)?;
    out.append(b"; ")
}

// Adds a cell whose name is a word and a number.
fn add_numbered(
    alloc: Global,
    word: &[u8],
    number: u32,
    value: Buf,
    cells: &mut List<Cell>,
) -> Result<(), NoMemory>
    ensures { OnOk result (cells.new ≡ cells.old ++ cell_def (word.now ++ decimal number) value ∷ []) }
{
    let name = numbered(alloc, word, number)?;
    cells.push(Cell { name, value })
}

// Adds a cell.
fn add_cell(
    alloc: Global,
    name: &[u8],
    value: &[u8],
    cells: &mut List<Cell>,
) -> Result<(), NoMemory>
    ensures { OnOk result (cells.new ≡ cells.old ++ cell_def name.now value.now ∷ []) }
{
    let name = copy_of(alloc, name)?;
    let value = copy_of(alloc, value)?;
    cells.push(Cell { name, value })
}

/// A copy of some bytes.
pub(crate) fn copy_of(alloc: Global, bytes: &[u8]) -> Result<Buf, NoMemory>
    ensures { IfOk result (λ copy. copy ≡ bytes.now) }
{
    let mut copy = List::new(alloc);
    copy.append(bytes)?;
    Ok(copy)
}

/// Adds a copy of some bytes.
pub(crate) fn add_copy(alloc: Global, bytes: &[u8], list: &mut List<Buf>) -> Result<(), NoMemory>
    ensures { OnOk result (list.new ≡ list.old ++ bytes.now ∷ []) }
{
    let copy = copy_of(alloc, bytes)?;
    list.push(copy)
}
