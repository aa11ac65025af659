//! Members of classes.
ghost use Rattle.da_unparse.specs.ProgramTexts.{labels_text, member_text, members_text, param_text, params_text, sender_text};
ghost use Rattle.da_unparse.specs.Texts.{separated};
ghost use Rattle.std.specs.Prelude.{◌≡◌, ◌++◌, codes, OnOk};

use crate::expressions::put_pattern;
use crate::statements::put_stmts;
use crate::types::put_type;
use da_lang::{Member, Name, Param, PatternTree};
use da_values::{Buf, NoMemory};

/// Appends the lines of members of a class.
#[tactic(auto, unfolding(crate::specs::ProgramTexts::members_text))]
pub fn put_members(members: &[Member], out: &mut Buf) -> Result<(), NoMemory>
    ensures { OnOk result (out.new ≡ out.old ++ members_text members.now) }
{
    for member in members {
        put_member(member, out)?;
    }
    Ok(())
}

/// Appends the lines of a member.
#[tactic(auto, using(crate::proofs::ProgramRules::member_rules))]
fn put_member(member: &Member, out: &mut Buf) -> Result<(), NoMemory>
    ensures { OnOk result (out.new ≡ out.old ++ member_text member.now) }
{
    match member {
        Member::Var { name, ty, line: _ } => {
            out.append(b"    var ")?;
            out.append(name.as_slice())?;
            out.append(b": ")?;
            put_type(ty, out)?;
            out.append(b"\n")
        }
        Member::Setup {
            params,
            body,
            line: _,
        } => {
            out.append(b"    def setup")?;
            put_params(params.as_slice(), out)?;
            out.append(b":\n")?;
            put_stmts(2, body.as_slice(), out)
        }
        Member::Run { body, line: _ } => {
            out.append(b"    def run():\n")?;
            put_stmts(2, body.as_slice(), out)
        }
        Member::Method {
            name,
            params,
            body,
            line: _,
        } => {
            out.append(b"    def ")?;
            out.append(name.as_slice())?;
            put_params(params.as_slice(), out)?;
            out.append(b":\n")?;
            put_stmts(2, body.as_slice(), out)
        }
        Member::Receive {
            message,
            from,
            at,
            body,
            line: _,
        } => {
            out.append(b"    receive ")?;
            put_pattern(message, out)?;
            put_sender(from, out)?;
            put_labels(at.as_slice(), out)?;
            out.append(b":\n")?;
            put_stmts(2, body.as_slice(), out)
        }
    }
}

/// Appends parameters in parentheses.
#[tactic(auto, unfolding(crate::specs::ProgramTexts::params_text))]
fn put_params(params: &[Param], out: &mut Buf) -> Result<(), NoMemory>
    ensures { OnOk result (out.new ≡ out.old ++ params_text params.now) }
{
    out.append(b"(")?;
    put_listed_params(params, out)?;
    out.append(b")")
}

/// Appends parameters with commas between.
fn put_listed_params(params: &[Param], out: &mut Buf) -> Result<(), NoMemory>
    ensures { OnOk result (out.new ≡ out.old ++ separated (codes ", ") param_text params.now) }
{
    match params {
        [] => Ok(()),
        [first, rest @ ..] => {
            put_param(first, out)?;
            for param in rest {
                out.append(b", ")?;
                put_param(param, out)?;
            }
            Ok(())
        }
    }
}

/// Appends a parameter and its type.
#[tactic(auto, using(crate::proofs::ProgramRules::param_rules))]
fn put_param(param: &Param, out: &mut Buf) -> Result<(), NoMemory>
    ensures { OnOk result (out.new ≡ out.old ++ param_text param.now) }
{
    out.append(param.name.as_slice())?;
    out.append(b": ")?;
    put_type(&param.ty, out)
}

/// Appends the pattern of the sender, where there is one.
#[tactic(auto, unfolding(crate::specs::ProgramTexts::sender_text))]
fn put_sender(from: &Option<PatternTree>, out: &mut Buf) -> Result<(), NoMemory>
    ensures { OnOk result (out.new ≡ out.old ++ sender_text from.now) }
{
    match from {
        None => Ok(()),
        Some(pattern) => {
            out.append(b" from ")?;
            put_pattern(pattern, out)
        }
    }
}

/// Appends the labels of a handler, where it has some.
#[tactic(auto, unfolding(crate::specs::ProgramTexts::labels_text))]
fn put_labels(labels: &[Name], out: &mut Buf) -> Result<(), NoMemory>
    ensures { OnOk result (out.new ≡ out.old ++ labels_text labels.now) }
{
    match labels {
        [] => Ok(()),
        [first, rest @ ..] => {
            out.append(b" at ")?;
            out.append(first.as_slice())?;
            for label in rest {
                out.append(b", ")?;
                out.append(label.as_slice())?;
            }
            Ok(())
        }
    }
}
