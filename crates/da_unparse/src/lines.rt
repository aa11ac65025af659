//! Lines and their levels.
ghost use Rattle.da_unparse.specs.Texts.{call_line, expr_text, for_line, margin, named_line, plain_line, send_line, separated, text_at, worded_line};
ghost use Rattle.std.specs.Prelude.{◌≡◌, ◌+◌, ◌++◌, codes, IfOk, OnOk};

use crate::expressions::{put_expr, put_operands};
use crate::levels::Level;
use da_lang::Expr;
use da_values::{Buf, NoMemory};

/// The level of a block in a line of this level. No memory has room for a line of a level that is no `usize`.
pub fn deeper(level: usize) -> Result<usize, NoMemory>
    ensures { IfOk result (λ inner. inner ≡ level + 1) }
{
    match level.checked_add(1) {
        Some(inner) => Ok(inner),
        None => Err(NoMemory),
    }
}

/// Appends the spaces before a line of this level.
#[tactic(auto, unfolding(crate::specs::Texts::margin))]
pub fn put_margin(level: usize, out: &mut Buf) -> Result<(), NoMemory>
    ensures { OnOk result (out.new ≡ out.old ++ margin level) }
{
    for _turn in 0..level {
        out.append(b"    ")?;
    }
    Ok(())
}

/// Appends a line that has only a text.
#[tactic(auto, unfolding(crate::specs::Texts::plain_line))]
pub fn put_plain_line(level: usize, text: &[u8], out: &mut Buf) -> Result<(), NoMemory>
    ensures { OnOk result (out.new ≡ out.old ++ plain_line level text.now) }
{
    put_margin(level, out)?;
    out.append(text)?;
    out.append(b"\n")
}

/// Appends a line of a word, an expression and an end.
#[tactic(auto, unfolding(crate::specs::Texts::worded_line))]
pub fn put_worded_line(
    level: usize,
    word: &[u8],
    x: &Expr,
    end: &[u8],
    out: &mut Buf,
) -> Result<(), NoMemory>
    ensures { OnOk result (out.new ≡ out.old ++ worded_line level word.now x.now end.now) }
{
    put_margin(level, out)?;
    out.append(word)?;
    put_expr(x, out)?;
    out.append(end)
}

/// Appends a line of a name, a word, an expression and an end.
#[tactic(auto, unfolding(crate::specs::Texts::named_line))]
pub fn put_named_line(
    level: usize,
    name: &[u8],
    word: &[u8],
    x: &Expr,
    end: &[u8],
    out: &mut Buf,
) -> Result<(), NoMemory>
    ensures { OnOk result (out.new ≡ out.old ++ named_line level name.now word.now x.now end.now) }
{
    put_margin(level, out)?;
    out.append(name)?;
    out.append(word)?;
    put_expr(x, out)?;
    out.append(end)
}

/// Appends the line of a label.
#[tactic(auto, unfolding(crate::specs::Texts::plain_line))]
pub fn put_label(level: usize, name: &[u8], out: &mut Buf) -> Result<(), NoMemory>
    ensures { OnOk result (out.new ≡ out.old ++ plain_line level (codes "-- " ++ name.now)) }
{
    put_margin(level, out)?;
    out.append(b"-- ")?;
    out.append(name)?;
    out.append(b"\n")
}

/// Appends the line that sends a message.
#[tactic(auto, unfolding(crate::specs::Texts::send_line))]
pub fn put_send(level: usize, message: &Expr, to: &Expr, out: &mut Buf) -> Result<(), NoMemory>
    ensures { OnOk result (out.new ≡ out.old ++ send_line level message.now to.now) }
{
    put_margin(level, out)?;
    out.append(b"send ")?;
    put_expr(message, out)?;
    out.append(b" to ")?;
    put_expr(to, out)?;
    out.append(b"\n")
}

/// Appends the line of a call.
#[tactic(auto, unfolding(crate::specs::Texts::call_line))]
pub fn put_call(level: usize, name: &[u8], args: &[Expr], out: &mut Buf) -> Result<(), NoMemory>
    ensures { OnOk result (out.new ≡ out.old ++ call_line level name.now args.now) }
{
    put_margin(level, out)?;
    out.append(name)?;
    out.append(b"(")?;
    put_operands(b", ", Level::Either, args, out)?;
    out.append(b")\n")
}

/// Appends the header of a `for`.
#[tactic(auto, unfolding(crate::specs::Texts::for_line))]
pub fn put_for(level: usize, name: &[u8], over: &Expr, out: &mut Buf) -> Result<(), NoMemory>
    ensures { OnOk result (out.new ≡ out.old ++ for_line level name.now over.now) }
{
    put_margin(level, out)?;
    out.append(b"for ")?;
    out.append(name)?;
    out.append(b" in ")?;
    put_expr(over, out)?;
    out.append(b":\n")
}
