//! The limits that a program exceeds outside its classes.
ghost use Rattle.da_lang.specs.Limits.{line_of_main, most_classes, parts_in_main, parts_in_message, processes_over, wide};
ghost use Rattle.da_lang.specs.Written.{type_width};
ghost use Rattle.std.specs.List.{list_any};
ghost use Rattle.da_lang.specs.Resolution.{made_count};
ghost use Rattle.da_lang.specs.declared.refusal.LimitKind.TheVariants as limit;
ghost use Rattle.da_limits.specs.LimitLines.{told_at};
ghost use Rattle.da_limits.specs.LimitTree.{main_lines, message_lines};
ghost use Rattle.std.specs.Prelude.{◌≡◌, drop, map};

use crate::lines::{is_wide, tell_if};
use crate::members::is_wide_type;
use crate::numbers::{MOST_CLASSES, MOST_PROCESSES, capped};
use crate::written::all_written;
use da_bodies::Earliest;
use da_lang::{ClassTree, LimitKind, MainLine, MessageDecl, Ty};

/// The lines of the classes past the limit.
#[tactic(auto, using(crate::proofs::LimitTreeAt::class_rules))]
pub fn tell_count(classes: &[ClassTree], least: &mut Earliest<LimitKind>)
    ensures { least.new ≡ told_at limit.Classes least.old (map (λ c. c.line) (drop most_classes classes.now)) }
{
    if classes.len() > MOST_CLASSES {
        tell_lines(&classes[MOST_CLASSES..], least);
    }
}

// The lines of these classes.
fn tell_lines(classes: &[ClassTree], least: &mut Earliest<LimitKind>)
    ensures { least.new ≡ told_at limit.Classes least.old (map (λ c. c.line) classes.now) }
{
    for class in classes {
        least.tell(LimitKind::Classes, class.line);
    }
}

/// The line of `main` that exceeds the limit of processes, if one does. No process is made for that.
pub fn tell_processes(main: &[MainLine], least: &mut Earliest<LimitKind>)
    ensures { least.new ≡ told_at limit.Processes least.old (processes_over 0 main.now) }
{
    let mut made = 0u64;
    for line in main {
        made = made.saturating_add(count_of(line));
        if made > MOST_PROCESSES {
            least.tell(LimitKind::Processes, line_of(line));
            return;
        }
    }
}

// How many processes a line of `main` makes.
fn count_of(line: &MainLine) -> u64
    ensures { result ≡ made_count line.now }
{
    match line {
        MainLine::New { count, .. } => match count {
            None => 1,
            Some(count) => *count,
        },
        MainLine::Setup { .. } => 0,
    }
}

// The number of a line of `main`.
fn line_of(line: &MainLine) -> u32
    ensures { result ≡ line_of_main line.now }
{
    match line {
        MainLine::New { line, .. } => *line,
        MainLine::Setup { line, .. } => *line,
    }
}

/// The messages with too many parts.
pub fn tell_messages(messages: &[MessageDecl], least: &mut Earliest<LimitKind>)
    ensures { least.new ≡ told_at limit.Parts least.old (message_lines messages.now) }
{
    for message in messages {
        tell_message(message, least);
    }
}

// A message, if it has too many parts.
#[tactic(auto, using(crate::proofs::LimitTreeAt::message_rules))]
fn tell_message(message: &MessageDecl, least: &mut Earliest<LimitKind>)
    ensures { least.new ≡ told_at limit.Parts least.old (parts_in_message message.now) }
{
    let parts = capped(message.parts.len()).saturating_add(1);
    tell_if(
        is_wide(parts) || some_wide_type(message.parts.as_slice()),
        LimitKind::Parts,
        message.line,
        least,
    );
}

// Whether some type has too wide a tuple.
fn some_wide_type(types: &[Ty]) -> bool
    ensures { result ≡ list_any (λ ty. wide (type_width ty)) types.now }
{
    for ty in types {
        if is_wide_type(ty) {
            return true;
        }
    }
    false
}

/// The lines of `main` with too wide a tuple.
pub fn tell_main(main: &[MainLine], least: &mut Earliest<LimitKind>)
    ensures { least.new ≡ told_at limit.Parts least.old (main_lines main.now) }
{
    for line in main {
        tell_line(line, least);
    }
}

// A line of `main`, if it has too wide a tuple.
fn tell_line(line: &MainLine, least: &mut Earliest<LimitKind>)
    ensures { least.new ≡ told_at limit.Parts least.old (parts_in_main line.now) }
{
    match line {
        MainLine::New { .. } => {}
        MainLine::Setup {
            name: _,
            args,
            line,
        } => tell_if(
            is_wide(all_written(args.as_slice()).widest),
            LimitKind::Parts,
            *line,
            least,
        ),
    }
}
