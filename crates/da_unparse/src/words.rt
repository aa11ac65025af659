//! Strings, signs and words.
ghost use Rattle.da_unparse.specs.Texts.{cmp_word as cmp_word_def, op_word as op_word_def, quantifier_text, source_text, truth_text, tuple_end};
ghost use Rattle.std.specs.Prelude.{◌≡◌, ◌++◌, codes, OnOk};

use da_lang::{ArithOp, CmpOp, SourceTree};
use da_values::{Buf, NoMemory, Str};

/// Appends a text in its quotes.
pub fn put_string(text: &Str, out: &mut Buf) -> Result<(), NoMemory>
    ensures { OnOk result (out.new ≡ out.old ++ (codes "'" ++ text.now ++ codes "'")) }
{
    out.append(b"'")?;
    out.append(text.as_bytes())?;
    out.append(b"'")
}

/// A truth value.
#[tactic(auto, unfolding(crate::specs::Texts::truth_text))]
pub fn truth(b: bool) -> &'static [u8]
    ensures { result.now ≡ truth_text b }
{
    match b {
        true => b"true",
        false => b"false",
    }
}

/// `some` or `each`, with the space after it.
#[tactic(auto, unfolding(crate::specs::Texts::quantifier_text))]
pub fn quantifier(each: bool) -> &'static [u8]
    ensures { result.now ≡ quantifier_text each }
{
    match each {
        true => b"each ",
        false => b"some ",
    }
}

/// The sign of an arithmetic operation, with the spaces round it.
#[tactic(auto, unfolding(crate::specs::Texts::op_word))]
pub fn op_word(op: ArithOp) -> &'static [u8]
    ensures { result.now ≡ op_word_def op }
{
    match op {
        ArithOp::Plus => b" + ",
        ArithOp::Minus => b" - ",
        ArithOp::Times => b" * ",
        ArithOp::Div => b" // ",
        ArithOp::Mod => b" % ",
    }
}

/// The sign of a comparison, with the spaces round it.
#[tactic(auto, unfolding(crate::specs::Texts::cmp_word))]
pub fn cmp_word(op: CmpOp) -> &'static [u8]
    ensures { result.now ≡ cmp_word_def op }
{
    match op {
        CmpOp::Eq => b" == ",
        CmpOp::Ne => b" != ",
        CmpOp::Lt => b" < ",
        CmpOp::Le => b" <= ",
        CmpOp::Gt => b" > ",
        CmpOp::Ge => b" >= ",
    }
}

/// Appends what a generator goes through.
#[tactic(auto, unfolding(crate::specs::Texts::source_text))]
pub fn put_source(source: &SourceTree, out: &mut Buf) -> Result<(), NoMemory>
    ensures { OnOk result (out.new ≡ out.old ++ source_text source.now) }
{
    match source {
        SourceTree::Received => out.append(b"received"),
        SourceTree::Sent => out.append(b"sent"),
        SourceTree::Name(name) => out.append(name.as_slice()),
    }
}

/// What closes a tuple of so many parts; one part alone has a comma after it.
#[tactic(auto, unfolding(crate::specs::Texts::tuple_end))]
pub fn tuple_end_of(parts: usize) -> &'static [u8]
    ensures { result.now ≡ tuple_end parts }
{
    if parts == 1 { b",)" } else { b")" }
}
