//! Names that are declared again.
ghost use Rattle.da_lang.specs.NameRules.{again};
ghost use Rattle.da_lang.specs.Scopes.{at_lines};
ghost use Rattle.da_bodies.specs.Repeats.{declared_in, is_declared, is_seen};
ghost use Rattle.da_bodies.specs.Telling.{telling};
ghost use Rattle.std.specs.Prelude.{◌≡◌, ◌||◌, ℕ, List, bytes_eq, false, IfOk, OnOk};

use crate::earliest::Earliest;
use da_lang::ScopeKind;
use da_values::NoMemory;
use std::alloc::Global;
use std::collections::BTreeMap;

/// A name, and the line of its declaration.
#[derive(Clone, Copy)]
pub struct Declared<'t> {
    pub name: &'t [u8],
    pub line: u32,
}

/// Names that are declared, with the line of their first declaration.
pub type Seen<'t> = BTreeMap<&'t [u8], u32>;

/// No name is declared.
fn nothing_seen<'t>(alloc: Global) -> Seen<'t>
    ensures { (q : List ℕ) → is_seen result q ≡ false }
{
    BTreeMap::new(alloc)
}

/// Whether a name is declared.
pub fn has_seen(seen: &Seen<'_>, name: &[u8]) -> bool
    ensures { result ≡ is_seen seen.now name.now }
{
    seen.contains_key(name)
}

/// A name is declared.
fn see<'t>(seen: &mut Seen<'t>, declared: Declared<'t>) -> Result<(), NoMemory>
    ensures { OnOk result ((q : List ℕ) → is_seen seen.new q ≡ (bytes_eq declared.entry.name.now q || is_seen seen.old q)) }
{
    match seen.insert(declared.name, declared.line) {
        Ok(_) => Ok(()),
        Err(_) => Err(NoMemory),
    }
}

/// Tells the lines of the declarations whose name was declared before.
pub fn tell_again(
    alloc: Global,
    declared: &[Declared<'_>],
    kind: ScopeKind,
    least: &mut Earliest<ScopeKind>,
) -> Result<(), NoMemory>
    ensures { OnOk result (least.new ≡ telling least.old (at_lines kind (again (declared_in declared.now)))) }
{
    see_again(alloc, declared, kind, least)?;
    Ok(())
}

/// The same, and answers which names are declared.
pub fn see_again<'t>(
    alloc: Global,
    declared: &[Declared<'t>],
    kind: ScopeKind,
    least: &mut Earliest<ScopeKind>,
) -> Result<Seen<'t>, NoMemory>
    ensures told { OnOk result (least.new ≡ telling least.old (at_lines kind (again (declared_in declared.now)))) }
    ensures seen { IfOk result (λ seen. (q : List ℕ) → is_seen seen q ≡ is_declared (declared_in declared.now) q) }
{
    let mut seen = nothing_seen(alloc);
    for one in declared {
        if has_seen(&seen, one.name) {
            least.tell(kind, one.line);
        }
        see(&mut seen, *one)?;
    }
    Ok(seen)
}
