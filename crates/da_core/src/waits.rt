//! What is waited for at the yield points of a class, with the flags of its plan.
ghost use Rattle.da_core.specs.Waits.{all_taken, alt_take, alts_taken, branch_take, handler_take, item_take, items_take, kind_take, next_flag, waits_of as waits_def};
ghost use Rattle.std.specs.Prelude.{◌≡◌, ◌++◌, ◌∷◌, drop, IfOk, OnOk, map};

use da_lang::{Alt, Class, Handler, Item, ItemKind, RBranch};
use da_values::{List, NoMemory};
use std::alloc::Global;

/// An alternative of an `await`: its flag, which is the node of the plan that has a row exactly where its condition holds; the
/// `some` whose least row it binds, if there is one; and the slots that take the parts of that row.
#[derive(Drop)]
pub struct Alternative {
    pub flag: u32,
    pub found: Option<u32>,
    pub binds: List<u16>,
}

/// What is waited for at a yield point: the alternatives of its `await`, whether it has a block for a timeout, and the label at
/// which it waits, if there is one. A label has no alternatives.
#[derive(Drop)]
pub struct Wait {
    pub alternatives: List<Alternative>,
    pub has_timeout: bool,
    pub label: Option<u32>,
}

/// Flags that alternatives take one after the other.
#[derive(Drop)]
struct Flags<'f> {
    rest: &'f [u32],
}

impl Flags<'_> {
    // The next flag, or node 0 where none is left, which no plan of a class comes to.
    fn next(&mut self) -> u32
        ensures flag { result ≡ next_flag self.old.rest.now }
        ensures left { self.new.rest.now ≡ drop 1 self.old.rest.now }
    {
        match self.rest.split_first() {
            Some((flag, rest)) => {
                self.rest = rest;
                *flag
            }
            None => 0,
        }
    }
}

/// What is waited for at each yield point of a class, whose plan has these flags, in the order of the inlined text.
pub fn waits_of(alloc: Global, class: &Class, flags: &[u32]) -> Result<List<Wait>, NoMemory>
    ensures { IfOk result (λ waits. waits ≡ waits_def class.now flags.now) }
{
    let mut flags = Flags { rest: flags };
    let mut waits = List::new(alloc);
    add_items(alloc, class.run.as_slice(), &mut flags, &mut waits)?;
    add_handlers(alloc, class.handlers.as_slice(), &mut flags, &mut waits)?;
    Ok(waits)
}

// Adds those of the bodies of handlers.
fn add_handlers(
    alloc: Global,
    handlers: &[Handler],
    flags: &mut Flags<'_>,
    waits: &mut List<Wait>,
) -> Result<(), NoMemory>
    ensures waits { OnOk result
        (waits.new ≡ waits.old ++ (all_taken (map handler_take handlers.now) flags.old.rest.now).waits) }
    ensures left { OnOk result
        (flags.new.rest.now ≡ (all_taken (map handler_take handlers.now) flags.old.rest.now).left) }
{
    'handlers: for handler in handlers {
        add_items(alloc, handler.body.as_slice(), flags, waits)?;
    }
    Ok(())
}

/// Adds those of statements.
#[cycle(waits)]
fn add_items(
    alloc: Global,
    items: &[Item],
    flags: &mut Flags<'_>,
    waits: &mut List<Wait>,
) -> Result<(), NoMemory>
    ensures waits { OnOk result (waits.new ≡ waits.old ++ (items_take items.now flags.old.rest.now).waits) }
    ensures left { OnOk result (flags.new.rest.now ≡ (items_take items.now flags.old.rest.now).left) }
{
    for item in items {
        add_kind(alloc, &item.kind, flags, waits)?;
    }
    Ok(())
}

/// Adds those of what a statement does.
#[cycle(waits)]
#[tactic(auto, using(crate::proofs::WaitForms::kind_rules))]
fn add_kind(
    alloc: Global,
    kind: &ItemKind,
    flags: &mut Flags<'_>,
    waits: &mut List<Wait>,
) -> Result<(), NoMemory>
    ensures waits { OnOk result (waits.new ≡ waits.old ++ (kind_take kind.now flags.old.rest.now).waits) }
    ensures left { OnOk result (flags.new.rest.now ≡ (kind_take kind.now flags.old.rest.now).left) }
{
    match kind {
        ItemKind::If(branches, other) => {
            add_branches(alloc, branches.as_slice(), flags, waits)?;
            add_items(alloc, other.as_slice(), flags, waits)
        }
        ItemKind::While(_, body) => add_items(alloc, body.as_slice(), flags, waits),
        ItemKind::For(_, _, body) => add_items(alloc, body.as_slice(), flags, waits),
        ItemKind::Call(_, body) => add_items(alloc, body.as_slice(), flags, waits),
        ItemKind::Await {
            alts,
            timeout,
            label,
        } => {
            let mut inside = List::new(alloc);
            let own = alternatives(alloc, alts.as_slice(), flags, &mut inside)?;
            let wait = Wait {
                alternatives: own,
                has_timeout: timeout.is_some(),
                label: *label,
            };
            put_await(waits, wait, inside)?;
            match timeout {
                None => Ok(()),
                Some(body) => add_items(alloc, body.as_slice(), flags, waits),
            }
        }
        ItemKind::Label(label) => waits.push(Wait {
            alternatives: List::new(alloc),
            has_timeout: false,
            label: Some(*label),
        }),
        ItemKind::Assign(_, _) => Ok(()),
        ItemKind::Add(_, _) => Ok(()),
        ItemKind::Del(_, _) => Ok(()),
        ItemKind::Send(_, _) => Ok(()),
        ItemKind::Output(_) => Ok(()),
        ItemKind::Pass => Ok(()),
    }
}

/// Adds those of the blocks of branches.
#[cycle(waits)]
fn add_branches(
    alloc: Global,
    branches: &[RBranch],
    flags: &mut Flags<'_>,
    waits: &mut List<Wait>,
) -> Result<(), NoMemory>
    ensures waits { OnOk result
        (waits.new ≡ waits.old ++ (all_taken (map branch_take branches.now) flags.old.rest.now).waits) }
    ensures left { OnOk result
        (flags.new.rest.now ≡ (all_taken (map branch_take branches.now) flags.old.rest.now).left) }
{
    for branch in branches {
        add_items(alloc, branch.body.as_slice(), flags, waits)?;
    }
    Ok(())
}

/// The alternatives of an `await`; those within their blocks are added to `inside`.
#[cycle(waits)]
fn alternatives(
    alloc: Global,
    alts: &[Alt],
    flags: &mut Flags<'_>,
    inside: &mut List<Wait>,
) -> Result<List<Alternative>, NoMemory>
    ensures own { IfOk result (λ own. own ≡ (alts_taken (map alt_take alts.now) flags.old.rest.now).own) }
    ensures inside { OnOk result
        (inside.new ≡ inside.old ++ (alts_taken (map alt_take alts.now) flags.old.rest.now).inside) }
    ensures left { OnOk result
        (flags.new.rest.now ≡ (alts_taken (map alt_take alts.now) flags.old.rest.now).left) }
{
    let mut own = List::new(alloc);
    for alt in alts {
        own.push(Alternative {
            flag: flags.next(),
            found: alt.found,
            binds: copy_slots(alloc, alt.binds.as_slice())?,
        })?;
        add_items(alloc, alt.body.as_slice(), flags, inside)?;
    }
    Ok(own)
}

// A copy of the numbers of slots.
fn copy_slots(alloc: Global, slots: &[u16]) -> Result<List<u16>, NoMemory>
    ensures { IfOk result (λ copy. copy ≡ slots.now) }
{
    let mut copy = List::new(alloc);
    for slot in slots {
        copy.push(*slot)?;
    }
    Ok(copy)
}

// Puts an `await` after what is there, and what is waited for in its alternatives after that.
fn put_await(waits: &mut List<Wait>, wait: Wait, inside: List<Wait>) -> Result<(), NoMemory>
    ensures { OnOk result (waits.new ≡ waits.old ++ wait ∷ inside) }
{
    waits.push(wait)?;
    move_behind(waits, inside)
}

// Moves all that is waited for after what is there.
fn move_behind(waits: &mut List<Wait>, more: List<Wait>) -> Result<(), NoMemory>
    ensures { OnOk result (waits.new ≡ waits.old ++ more) }
{
    let mut more = more;
    more.reverse();
    while let Some(own) = more.pop() {
        waits.push(own)?;
    }
    Ok(())
}
