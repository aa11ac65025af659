//! What appears for the first time.
ghost use Rattle.added_names.specs.Changes.{added_variables as variables_of, declares};
ghost use Rattle.added_names.specs.Firsts.{firsts, is_seen, knows, unless};
ghost use Rattle.added_names.specs.StmtTags.{added_tags as tags_of};
ghost use Rattle.std.specs.List.{flat_map};
ghost use Rattle.std.specs.Prelude.{◌≡◌, ◌++◌, ◌||◌, ℕ, List, bytes_eq, false, map, IfOk, OnOk};

use crate::added::{AddedTag, AddedVariable};
use crate::changes::put_members;
use crate::copy::copy_name;
use crate::statements::put_tree;
use da_lang::{ClassTree, Member, MessageDecl, Tree};
use da_values::{List, NoMemory};
use std::alloc::Global;
use std::collections::BTreeMap;

// Names that were seen. What a name leads to says nothing.
type Seen<'t> = BTreeMap<&'t [u8], bool>;

/// No name was seen.
fn nothing_seen<'t>(alloc: Global) -> Seen<'t>
    ensures { (q : List ℕ) → is_seen result q ≡ false }
{
    BTreeMap::new(alloc)
}

/// Whether a name was seen.
fn has_seen(seen: &Seen<'_>, name: &[u8]) -> bool
    ensures { result ≡ is_seen seen.now name.now }
{
    seen.contains_key(name)
}

/// A name is seen.
fn see<'t>(seen: &mut Seen<'t>, name: &'t [u8]) -> Result<(), NoMemory>
    ensures { OnOk result ((q : List ℕ) → is_seen seen.new q ≡ (bytes_eq name.now q || is_seen seen.old q)) }
{
    match seen.insert(name, true) {
        Ok(_) => Ok(()),
        Err(_) => Err(NoMemory),
    }
}

/// The tags that have a line.
fn written_tags<'t>(alloc: Global, messages: &'t [MessageDecl]) -> Result<Seen<'t>, NoMemory>
    ensures { IfOk result (λ seen. (q : List ℕ) → is_seen seen q ≡ knows (map (λ m. m.tag) messages.now) q) }
{
    let mut seen = nothing_seen(alloc);
    for message in messages {
        see(&mut seen, message.tag.as_slice())?;
    }
    Ok(seen)
}

/// The name of a member that is a variable is seen.
fn see_member<'t>(seen: &mut Seen<'t>, member: &'t Member) -> Result<(), NoMemory>
    ensures { OnOk result ((q : List ℕ) → is_seen seen.new q ≡ (knows (declares member.now) q || is_seen seen.old q)) }
{
    match member {
        Member::Var {
            name,
            ty: _,
            line: _,
        } => {
            see(seen, name.as_slice())?;
            Ok(())
        }
        Member::Setup {
            params: _,
            body: _,
            line: _,
        } => Ok(()),
        Member::Run { body: _, line: _ } => Ok(()),
        Member::Method {
            name: _,
            params: _,
            body: _,
            line: _,
        } => Ok(()),
        Member::Receive {
            message: _,
            from: _,
            at: _,
            body: _,
            line: _,
        } => Ok(()),
    }
}

/// The variables that have a line.
fn written_variables<'t>(alloc: Global, members: &'t [Member]) -> Result<Seen<'t>, NoMemory>
    ensures { IfOk result (λ seen. (q : List ℕ) → is_seen seen q ≡ knows (flat_map declares members.now) q) }
{
    let mut seen = nothing_seen(alloc);
    for member in members {
        see_member(&mut seen, member)?;
    }
    Ok(seen)
}

/// Appends a tag that was not seen.
fn keep_tag(
    alloc: Global,
    seen: bool,
    one: &AddedTag,
    kept: &mut List<AddedTag>,
) -> Result<(), NoMemory>
    ensures { OnOk result (kept.new ≡ kept.old ++ unless seen one.now) }
{
    if seen {
        return Ok(());
    }
    let tag = copy_name(alloc, &one.tag)?;
    kept.push(AddedTag {
        tag,
        parts: one.parts,
        line: one.line,
    })
}

/// Appends a variable that was not seen.
fn keep_variable(
    alloc: Global,
    seen: bool,
    one: &AddedVariable,
    kept: &mut List<AddedVariable>,
) -> Result<(), NoMemory>
    ensures { OnOk result (kept.new ≡ kept.old ++ unless seen one.now) }
{
    if seen {
        return Ok(());
    }
    let name = copy_name(alloc, &one.name)?;
    kept.push(AddedVariable {
        name,
        line: one.line,
    })
}

/// The first of each tag that has no line.
fn first_tags<'t>(
    alloc: Global,
    messages: &'t [MessageDecl],
    found: &'t [AddedTag],
) -> Result<List<AddedTag>, NoMemory>
    ensures { IfOk result (λ kept. kept ≡ firsts (λ x. x.tag) (map (λ m. m.tag) messages.now) found.now) }
{
    let mut seen = written_tags(alloc, messages)?;
    let mut kept = List::new(alloc);
    for one in found {
        let name = one.tag.as_slice();
        keep_tag(alloc, has_seen(&seen, name), one, &mut kept)?;
        see(&mut seen, name)?;
    }
    Ok(kept)
}

/// The first of each variable that has no line.
fn first_variables<'t>(
    alloc: Global,
    members: &'t [Member],
    found: &'t [AddedVariable],
) -> Result<List<AddedVariable>, NoMemory>
    ensures { IfOk result (λ kept. kept ≡ firsts (λ v. v.name) (flat_map declares members.now) found.now) }
{
    let mut seen = written_variables(alloc, members)?;
    let mut kept = List::new(alloc);
    for one in found {
        let name = one.name.as_slice();
        keep_variable(alloc, has_seen(&seen, name), one, &mut kept)?;
        see(&mut seen, name)?;
    }
    Ok(kept)
}

/// The tags without a `message` line, in the order in which they appear first.
///
/// Where a `send`, a handler, or a pattern over `received` or `sent` has a tuple that begins with a text, and this text could
/// be a name, it is a tag.
#[tactic(auto, unfolding(crate::specs::StmtTags::added_tags))]
pub fn added_tags(alloc: Global, tree: &Tree) -> Result<List<AddedTag>, NoMemory>
    ensures { IfOk result (λ tags. tags ≡ tags_of tree.now) }
{
    let mut found = List::new(alloc);
    put_tree(tree, alloc, &mut found)?;
    first_tags(alloc, tree.messages.as_slice(), found.as_slice())
}

/// The names that statements of a class assign, add to or delete from and that have no `var` line, in the order in which
/// they appear first.
#[tactic(auto, unfolding(crate::specs::Changes::added_variables))]
pub fn added_variables(alloc: Global, class: &ClassTree) -> Result<List<AddedVariable>, NoMemory>
    ensures { IfOk result (λ variables. variables ≡ variables_of class.now) }
{
    let mut found = List::new(alloc);
    put_members(class.members.as_slice(), alloc, &mut found)?;
    first_variables(alloc, class.members.as_slice(), found.as_slice())
}
