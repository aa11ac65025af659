//! Labels: those of a class, and those after the `at` of its handlers.
ghost use Rattle.da_lang.specs.ClassParts.{labels_at};
ghost use Rattle.da_lang.specs.declared.refusal.ScopeKind.TheVariants.{Twice, Unknown};
ghost use Rattle.da_lang.specs.LabelNames.{labelled};
ghost use Rattle.da_lang.specs.NameRules.{named_again};
ghost use Rattle.da_lang.specs.Scopes.{at_lines};
ghost use Rattle.da_bodies.specs.BodyView.{body_view, place_view};
ghost use Rattle.da_bodies.specs.Repeats.{declared_in, declared_of, is_seen};
ghost use Rattle.da_bodies.specs.Telling.{telling};
ghost use Rattle.da_names.specs.ClassRules.{bodies_in, label_names, label_refusals, missing_at, names_at};
ghost use Rattle.da_names.specs.DeedView.{deeds_in, doing_of};
ghost use Rattle.std.specs.List.{list_all};
ghost use Rattle.std.specs.Prelude.{◌≡◌, IfOk, OnOk, filter_map, flat_map, option_map};

use crate::deeds::{Deed, Doing};
use da_bodies::{Body, Declared, Earliest, Place, Seen, has_seen, see_again, tell_again};
use da_lang::{Name, ScopeKind};
use da_values::{List, NoMemory};
use std::alloc::Global;

/// Tells the labels of a class that are declared again, and each handler that names none of them after `at`.
pub fn tell_labels(
    alloc: Global,
    bodies: &[Body<'_>],
    deeds: &[Deed<'_>],
    least: &mut Earliest<ScopeKind>,
) -> Result<(), NoMemory>
    ensures { OnOk result (least.new ≡ telling least.old (label_refusals (label_names (deeds_in deeds.now)) (bodies_in bodies.now))) }
{
    let labels = labels_of(alloc, deeds)?;
    let seen = see_again(alloc, labels.as_slice(), ScopeKind::Twice, least)?;
    tell_missing(bodies, &seen, least);
    Ok(())
}

/// Tells each handler that names a label after `at` which is not there.
fn tell_missing(bodies: &[Body<'_>], seen: &Seen<'_>, least: &mut Earliest<ScopeKind>)
    ensures { least.new ≡ telling least.old (at_lines Unknown (flat_map (missing_at (is_seen seen.now)) (bodies_in bodies.now))) }
{
    for body in bodies {
        if !has_labels(seen, *body) {
            least.tell(ScopeKind::Unknown, body.line);
        }
    }
}

/// Whether all labels that a body names after `at` are there.
fn has_labels(seen: &Seen<'_>, body: Body<'_>) -> bool
    ensures { result ≡ list_all (is_seen seen.now) (labels_at (place_view body.entry.place)) }
{
    for name in at_of(body.place) {
        if !has_seen(seen, name.as_slice()) {
            return false;
        }
    }
    true
}

/// Tells the labels that stand again after the `at` of one handler.
pub fn tell_named(
    alloc: Global,
    body: Body<'_>,
    least: &mut Earliest<ScopeKind>,
) -> Result<(), NoMemory>
    ensures { OnOk result (least.new ≡ telling least.old (at_lines Twice (named_again (body_view body.entry)))) }
{
    let named = named_of(alloc, at_of(body.place), body.line)?;
    tell_again(alloc, named.as_slice(), ScopeKind::Twice, least)
}

/// The labels after the `at` of a handler.
fn at_of(place: Place<'_>) -> &[Name]
    ensures { result.now ≡ labels_at (place_view place.entry) }
{
    match place {
        Place::Setup | Place::Run | Place::Method(_) => &[],
        Place::Handler {
            message: _,
            from: _,
            at,
        } => at,
    }
}

/// Labels, each at the line of the header that names them.
fn named_of<'t>(alloc: Global, names: &'t [Name], line: u32) -> Result<List<Declared<'t>>, NoMemory>
    ensures { IfOk result (λ list. declared_in list ≡ names_at line names.now) }
{
    let mut list = List::new(alloc);
    for name in names {
        list.push(Declared {
            name: name.as_slice(),
            line,
        })?;
    }
    Ok(list)
}

/// The labels among statements.
fn labels_of<'t>(alloc: Global, deeds: &[Deed<'t>]) -> Result<List<Declared<'t>>, NoMemory>
    ensures { IfOk result (λ list. declared_in list ≡ label_names (deeds_in deeds.now)) }
{
    let mut list = List::new(alloc);
    for deed in deeds {
        if let Some(label) = label_in(*deed) {
            list.push(label)?;
        }
    }
    Ok(list)
}

/// The label that a statement is, if it is one.
fn label_in(deed: Deed<'_>) -> Option<Declared<'_>>
    ensures { option_map declared_of result ≡ labelled deed.entry.line (doing_of deed.entry.does) }
{
    match deed.does {
        Doing::Labels(name) => Some(Declared {
            name,
            line: deed.line,
        }),
        Doing::Sends
        | Doing::Outputs
        | Doing::Calls(_)
        | Doing::Loops
        | Doing::Awaits
        | Doing::TimesOut
        | Doing::Other => None,
    }
}
