//! Handlers.
ghost use Rattle.da_lang.specs.BodyMeaning.{body_of, fresh, named_slots, untyped};
ghost use Rattle.da_lang.specs.ClassParts.{InHandler};
ghost use Rattle.da_lang.specs.ExprMeaning.{matching, with_row};
ghost use Rattle.da_lang.specs.LabelNames.{label_number};
ghost use Rattle.da_lang.specs.Resolution.{from_matching, handler, handlers};
ghost use Rattle.da_scope.specs.ClassView.{handlers_in};
ghost use Rattle.da_scope.specs.NamesView.{texts};
ghost use Rattle.std.specs.Prelude.{◌≡◌, [], ◌∷◌, ◌++◌, IfOk, OnOk, length, map};

use crate::copying::body;
use crate::home::Home;
use crate::slots::declare_names;
use crate::variables::add_variables;
use da_lang::{Handler, Item, Member, Name, Pattern, PatternTree, Stmt};
use da_meaning::{Scope, Tables, pattern};
use da_values::{List, NoMemory};
use std::alloc::Global;

/// The handlers of a class, after others.
pub fn add_handlers(
    alloc: Global,
    home: &Home<'_>,
    found: &mut List<Handler>,
    tables: &mut Tables,
) -> Result<(), NoMemory>
    ensures handlers { OnOk result (found.new ≡ found.old ++ (handlers home.now.class.now (handlers_in home.now.class.now.members) tables.old).0) }
    ensures tables { OnOk result (tables.new ≡ (handlers home.now.class.now (handlers_in home.now.class.now.members) tables.old).1) }
{
    for member in home.class.members.as_slice() {
        add_handler(alloc, home, member, found, tables)?;
    }
    Ok(())
}

// A member that is a handler, after others.
fn add_handler<'t>(
    alloc: Global,
    home: &Home<'t>,
    member: &'t Member,
    found: &mut List<Handler>,
    tables: &mut Tables,
) -> Result<(), NoMemory>
    ensures handlers { OnOk result (found.new ≡ found.old ++ (handlers home.now.class.now (handlers_in (member.now ∷ [])) tables.old).0) }
    ensures tables { OnOk result (tables.new ≡ (handlers home.now.class.now (handlers_in (member.now ∷ [])) tables.old).1) }
{
    match member {
        Member::Receive {
            message,
            from,
            at,
            body,
            line,
        } => found.push(handler(
            alloc,
            home,
            message,
            from,
            at.as_slice(),
            body.as_slice(),
            *line,
            tables,
        )?),
        Member::Var { .. } | Member::Setup { .. } | Member::Run { .. } | Member::Method { .. } => {
            Ok(())
        }
    }
}

// A handler.
fn handler<'t>(
    alloc: Global,
    home: &Home<'t>,
    message: &'t PatternTree,
    from: &'t Option<PatternTree>,
    at: &[Name],
    stmts: &'t [Stmt],
    line: u32,
    tables: &mut Tables,
) -> Result<Handler, NoMemory>
    ensures handler { IfOk result (λ found. found ≡ (handler home.now.class.now (record { place = InHandler message.now from.now at.now; params = []; stmts = stmts.now; line = line }) tables.old).0) }
    ensures tables { OnOk result (tables.new ≡ (handler home.now.class.now (record { place = InHandler message.now from.now at.now; params = []; stmts = stmts.now; line = line }) tables.old).1) }
{
    let at = labels_named(alloc, home, at)?;
    let names = variables_of(alloc, message, from)?;
    let (binds, body) = body_after(alloc, home, names.as_slice(), stmts, tables)?;
    let (message, from) = patterns_of(alloc, &home.scope, message, from)?;
    Ok(Handler {
        message,
        from,
        at,
        binds,
        body,
        line,
    })
}

// The numbers of labels.
fn labels_named(alloc: Global, home: &Home<'_>, names: &[Name]) -> Result<List<u32>, NoMemory>
    ensures { IfOk result (λ numbers. numbers ≡ map (label_number home.now.class.now) names.now) }
{
    let mut numbers = List::new(alloc);
    for name in names {
        numbers.push(home.label(name.as_slice()))?;
    }
    Ok(numbers)
}

// The patterns of a message and of its sender, the second with the variables of the first in scope.
fn patterns_of<'t>(
    alloc: Global,
    scope: &Scope<'t>,
    message: &'t PatternTree,
    from: &'t Option<PatternTree>,
) -> Result<(Pattern, Pattern), NoMemory>
    ensures message { IfOk result (λ found. found.0 ≡ (matching message.now).pattern scope.now) }
    ensures from { IfOk result (λ found. found.1 ≡ (from_matching from.now).pattern (with_row (matching message.now).binds scope.now)) }
{
    let mut rows = scope.copy(alloc)?;
    let message = pattern(alloc, message, &mut rows)?;
    let from = sender(alloc, from, &mut rows)?;
    Ok((message, from))
}

// New slots for the variables of a handler, and its statements, where these are in scope.
fn body_after<'t>(
    alloc: Global,
    home: &Home<'t>,
    names: &[&'t [u8]],
    stmts: &'t [Stmt],
    tables: &mut Tables,
) -> Result<(List<u16>, List<Item>), NoMemory>
    ensures binds { IfOk result (λ found. found.0 ≡ fresh tables.old (length names.now)) }
    ensures items { IfOk result (λ found. found.1 ≡ (body_of home.now.class.now stmts.now (named_slots (texts names.now) tables.old home.now.scope) (untyped (texts names.now) tables.old)).0) }
    ensures tables { OnOk result (tables.new ≡ (body_of home.now.class.now stmts.now (named_slots (texts names.now) tables.old home.now.scope) (untyped (texts names.now) tables.old)).1) }
{
    let mut scope = home.scope.copy(alloc)?;
    let binds = declare_names(alloc, names, &mut scope, tables)?;
    let items = body(alloc, home, stmts, &scope, tables)?;
    Ok((binds, items))
}

// The pattern of the sender, which may be missing.
fn sender<'t>(
    alloc: Global,
    from: &'t Option<PatternTree>,
    scope: &mut Scope<'t>,
) -> Result<Pattern, NoMemory>
    ensures { IfOk result (λ found. found ≡ (from_matching from.now).pattern scope.old) }
{
    match from {
        None => Ok(Pattern::Any),
        Some(p) => pattern(alloc, p, scope),
    }
}

// The variables of the two patterns of a handler.
fn variables_of<'t>(
    alloc: Global,
    message: &'t PatternTree,
    from: &'t Option<PatternTree>,
) -> Result<List<&'t [u8]>, NoMemory>
    ensures { IfOk result (λ names. texts names ≡ (matching message.now).binds ++ (from_matching from.now).binds) }
{
    let mut names = List::new(alloc);
    add_variables(message, &mut names)?;
    if let Some(p) = from {
        add_variables(p, &mut names)?;
    }
    Ok(names)
}
