//! Whole programs.
ghost use Rattle.da_lang.specs.Grammar.{Spells, SpellsWithin};
ghost use Rattle.da_lang.specs.declared.tree.Tree.{Tree};
ghost use Rattle.da_unparse.specs.Expressions.{either};
ghost use Rattle.da_unparse.specs.Prints.{SpellsAgain, SpellsAgainWithin};
ghost use Rattle.da_unparse.specs.ProgramTexts.{class_text, classes_text, count_text, kind_text, main_line_text, main_lines_text, main_text, message_text, messages_text};
ghost use Rattle.da_unparse.specs.Programs.{tree_text};
ghost use Rattle.da_unparse.specs.Texts.{text_at};
ghost use Rattle.da_unparse.specs.Unlined.{unlined};
ghost use Rattle.da_values.specs.Marks.{Tok};
ghost use Rattle.std.specs.List.{flat_map};
ghost use Rattle.std.specs.Prelude.{◌≡◌, ◌++◌, ℕ, List, codes, IfOk, OnOk};

use crate::expressions::put_at;
use crate::levels::Level;
use crate::members::put_members;
use crate::types::put_types;
use da_lang::{ChannelKind, ClassTree, Expr, MainLine, MessageDecl, Tree};
use da_values::{Buf, List, NoMemory, write_number};
use std::alloc::Global;

/// The text of a tree: four spaces for each level, one statement, declaration or header on a line, and parentheses only
/// where the grammar needs them.
///
/// Where some tokens spell the tree, the tokens of the text spell it again, but for the numbers of lines, and they open no
/// more things at once.
pub fn print_tree(alloc: Global, tree: &Tree) -> Result<Buf, NoMemory>
    // The text is that of the rules.
    ensures text { IfOk result (λ text. text ≡ tree_text tree.now) }

    // Its tokens spell the tree again, and open no more things at once.
    ensures again { (i : List Tok) → Spells tree.now i → IfOk result (λ text. SpellsAgain text tree.now) }
    ensures nesting { (most : ℕ) (i : List Tok) → SpellsWithin most tree.now i → IfOk result (λ text. SpellsAgainWithin most text tree.now) }

    // Trees that differ in the numbers of lines alone have one text.
    ensures one_text { (other : Tree) → unlined other ≡ unlined tree.now → tree_text other ≡ tree_text tree.now }
{
    write_tree(alloc, tree)
}

/// The text of a tree. `print_tree` says besides what the tokens of this text spell.
fn write_tree(alloc: Global, tree: &Tree) -> Result<Buf, NoMemory>
    ensures { IfOk result (λ text. text ≡ tree_text tree.now) }
{
    let mut out = List::new(alloc);
    put_tree(tree, &mut out)?;
    Ok(out)
}

/// Appends the text of a tree.
#[tactic(auto, using(crate::proofs::ProgramRules::tree_rules))]
fn put_tree(tree: &Tree, out: &mut Buf) -> Result<(), NoMemory>
    ensures { OnOk result (out.new ≡ out.old ++ tree_text tree.now) }
{
    out.append(kind_line(tree.kind))?;
    put_messages(tree.messages.as_slice(), out)?;
    put_classes(tree.classes.as_slice(), out)?;
    put_main(tree.main.as_slice(), out)
}

/// The line of the kind of channels, where it is not the one that a program without it has.
#[tactic(auto, unfolding(crate::specs::ProgramTexts::kind_text))]
fn kind_line(kind: ChannelKind) -> &'static [u8]
    ensures { result.now ≡ kind_text kind }
{
    match kind {
        ChannelKind::FifoReliable => b"channel fifo reliable\n",
        ChannelKind::UnorderedReliable => b"channel unordered reliable\n",
        ChannelKind::FifoUnreliable => b"channel fifo unreliable\n",
        ChannelKind::UnorderedUnreliable => b"",
    }
}

/// Appends the lines of messages.
#[tactic(auto, unfolding(crate::specs::ProgramTexts::messages_text))]
fn put_messages(messages: &[MessageDecl], out: &mut Buf) -> Result<(), NoMemory>
    ensures { OnOk result (out.new ≡ out.old ++ messages_text messages.now) }
{
    for message in messages {
        put_message(message, out)?;
    }
    Ok(())
}

/// Appends the line of a message.
#[tactic(auto, using(crate::proofs::ProgramRules::message_rules))]
fn put_message(message: &MessageDecl, out: &mut Buf) -> Result<(), NoMemory>
    ensures { OnOk result (out.new ≡ out.old ++ message_text message.now) }
{
    out.append(b"message ")?;
    out.append(message.tag.as_slice())?;
    out.append(b"(")?;
    put_types(message.parts.as_slice(), out)?;
    out.append(b")\n")
}

/// Appends the lines of classes.
#[tactic(auto, unfolding(crate::specs::ProgramTexts::classes_text))]
fn put_classes(classes: &[ClassTree], out: &mut Buf) -> Result<(), NoMemory>
    ensures { OnOk result (out.new ≡ out.old ++ classes_text classes.now) }
{
    for class in classes {
        put_class(class, out)?;
    }
    Ok(())
}

/// Appends the lines of a class.
fn put_class(class: &ClassTree, out: &mut Buf) -> Result<(), NoMemory>
    ensures { OnOk result (out.new ≡ out.old ++ class_text class.now) }
{
    out.append(b"class ")?;
    out.append(class.name.as_slice())?;
    out.append(b" extends process:\n")?;
    put_members(class.members.as_slice(), out)
}

/// Appends the lines of `main`.
fn put_main(lines: &[MainLine], out: &mut Buf) -> Result<(), NoMemory>
    ensures { OnOk result (out.new ≡ out.old ++ main_text lines.now) }
{
    out.append(b"def main():\n")?;
    put_main_lines(lines, out)
}

/// Appends the lines of `main` after its header.
#[tactic(auto, unfolding(crate::specs::ProgramTexts::main_lines_text))]
fn put_main_lines(lines: &[MainLine], out: &mut Buf) -> Result<(), NoMemory>
    ensures { OnOk result (out.new ≡ out.old ++ main_lines_text lines.now) }
{
    for line in lines {
        put_main_line(line, out)?;
    }
    Ok(())
}

/// Appends a line of `main`.
#[tactic(auto, using(crate::proofs::ProgramRules::main_line_rules))]
fn put_main_line(line: &MainLine, out: &mut Buf) -> Result<(), NoMemory>
    ensures { OnOk result (out.new ≡ out.old ++ main_line_text line.now) }
{
    match line {
        MainLine::New {
            name,
            class,
            count,
            line: _,
        } => {
            out.append(b"    ")?;
            out.append(name.as_slice())?;
            out.append(b" = new(")?;
            out.append(class.as_slice())?;
            put_count(*count, out)?;
            out.append(b")\n")
        }
        MainLine::Setup {
            name,
            args,
            line: _,
        } => {
            out.append(b"    setup(")?;
            out.append(name.as_slice())?;
            put_arguments(args.as_slice(), out)?;
            out.append(b")\n")
        }
    }
}

/// Appends a number of processes, where there is one.
#[tactic(auto, unfolding(crate::specs::ProgramTexts::count_text))]
fn put_count(count: Option<u64>, out: &mut Buf) -> Result<(), NoMemory>
    ensures { OnOk result (out.new ≡ out.old ++ count_text count) }
{
    match count {
        None => Ok(()),
        Some(n) => {
            out.append(b", ")?;
            write_number(n, out)
        }
    }
}

/// Appends arguments, each after a comma.
fn put_arguments(args: &[Expr], out: &mut Buf) -> Result<(), NoMemory>
    ensures { OnOk result (out.new ≡ out.old ++ flat_map (λ x. codes ", " ++ text_at either x) args.now) }
{
    for argument in args {
        out.append(b", ")?;
        put_at(Level::Either, argument, out)?;
    }
    Ok(())
}
