//! The names in scope.
ghost use Rattle.da_lang.specs.ExprMeaning.{InSlot, width, with_row};
ghost use Rattle.da_lang.specs.Resolution.{made_as, many};
ghost use Rattle.da_lang.specs.Scopes.{look};
ghost use Rattle.da_meaning.specs.MeaningView.{meaning_of};
ghost use Rattle.da_meaning.specs.ScopeIndex.{meaning_in};
ghost use Rattle.da_meaning.specs.SlotScope.{shown};
ghost use Rattle.std.specs.Option.{option_map, option_or};
ghost use Rattle.std.specs.Prelude.{◌≡◌, ℕ, ◌+◌, ◌≤◌, List, None, Some, [], ◌∷◌, IfOk, OnOk, bytes_eq, if◌then◌else◌, suc};

use crate::numbers::Row;
use da_values::{List, NoMemory};
use std::alloc::Global;
use std::collections::BTreeMap;
use std::marker::Model;

/// What a name stands for.
#[derive(Clone, Copy)]
pub enum Meaning {
    /// A slot of the class.
    InSlot(u16),
    /// A part of the row of a query.
    InRow(u16),
    /// A process that `main` made.
    OneProcess(u16),
    /// Processes that `main` made, by their numbers.
    Processes(Row),
}

/// A name with what it stands for.
#[derive(Clone, Copy)]
pub struct Named<'t> {
    name: &'t [u8],
    means: Meaning,
}

/// The map from names to what the innermost of each stands for.
type Index<'t> = BTreeMap<&'t [u8], Meaning>;

// No name.
fn no_index<'t>(alloc: Global) -> Index<'t>
    ensures { (q : List ℕ) → meaning_in result q ≡ None }
{
    BTreeMap::new(alloc)
}

// The map of these names, the innermost last.
fn index_of<'t>(alloc: Global, names: &[Named<'t>]) -> Result<Index<'t>, NoMemory>
    ensures { IfOk result (λ index. (q : List ℕ) → meaning_in index q ≡ look (shown names.now) q) }
{
    let mut index = no_index(alloc);
    for named in names {
        set_meaning(&mut index, named.name, named.means)?;
    }
    Ok(index)
}

// What the map says of a name.
fn meaning_at(index: &Index<'_>, name: &[u8]) -> Option<Meaning>
    ensures { option_map meaning_of result ≡ meaning_in index.now name.now }
{
    index.get(name).copied()
}

// What the innermost of a name among these stands for; where there is none, this.
fn look_through(names: &[Named<'_>], name: &[u8], outer: Option<Meaning>) -> Option<Meaning>
    ensures { option_map meaning_of result ≡ option_or (look (shown names.now) name.now) (option_map meaning_of outer) }
{
    let mut found = outer;
    for named in names {
        if named.name == name {
            found = Some(named.means);
        }
    }
    found
}

// This is what the name stands for in the map from now on.
fn set_meaning<'t>(index: &mut Index<'t>, name: &'t [u8], means: Meaning) -> Result<(), NoMemory>
    ensures { OnOk result ((q : List ℕ) → meaning_in index.new q ≡ (if bytes_eq name.now q then Some (meaning_of means) else meaning_in index.old q)) }
{
    match index.insert(name, means) {
        Ok(_) => Ok(()),
        Err(_) => Err(NoMemory),
    }
}

/// The names in scope, with the number of parts of the row so far. The first so many names are found by a map, the
/// others one by one. Contracts see the list of the names, the innermost first.
#[derive(Drop)]
pub struct Scope<'t> {
    names: List<Named<'t>>,
    parts: u16,
    index: Index<'t>,
    indexed: usize,
}

impl<'t> Model for Scope<'t> {
    ghost use Rattle.da_lang.specs.ExprMeaning.{Meaning};
    ghost use Rattle.da_lang.specs.Scopes.{Scope};

    ghost Value = { Scope Meaning };

    ghost use Rattle.da_meaning.specs.ScopeIndex.{IsKept};
    ghost use Rattle.da_meaning.specs.SlotScope.{shown};

    ghost view = { λ scope. shown scope.names };

    ghost invariant = { λ scope. IsKept scope.names scope.parts scope.index scope.indexed };
}

impl<'t> Scope<'t> {
    /// No names.
    pub fn new(alloc: Global) -> Scope<'t>
        ensures { result ≡ [] }
    {
        Scope {
            names: List::new(alloc),
            parts: 0,
            index: no_index(alloc),
            indexed: 0,
        }
    }

    /// The same names, all of them to be found by the map.
    pub fn with_index(self, alloc: Global) -> Result<Scope<'t>, NoMemory>
        ensures { IfOk result (λ scope. scope ≡ self.entry) }
    {
        let index = index_of(alloc, self.names.as_slice())?;
        let indexed = self.names.len();
        Ok(Scope {
            names: self.names,
            parts: self.parts,
            index,
            indexed,
        })
    }

    /// What the innermost of a name stands for.
    pub fn look(&self, name: &[u8]) -> Option<Meaning>
        ensures { option_map meaning_of result ≡ look self.now name.now }
    {
        let outer = meaning_at(&self.index, name);
        look_through(&self.names.as_slice()[self.indexed..], name, outer)
    }

    /// A name of a slot comes into scope.
    pub fn enter_slot(&mut self, name: &'t [u8], slot: u16) -> Result<(), NoMemory>
        ensures { OnOk result (self.new ≡ (name.now, InSlot slot) ∷ self.old) }
    {
        let means = Meaning::InSlot(slot);
        self.names.push(Named { name, means })
    }

    /// The next part of the row. More parts than a number has place for are refused as memory is: the limits of
    /// programs leave none.
    pub fn next_part(&self) -> Result<u16, NoMemory>
        ensures { IfOk result (λ part. part ≡ suc (width self.now)) }
    {
        match self.parts.checked_add(1) {
            Some(part) => Ok(part),
            None => Err(NoMemory),
        }
    }

    /// A variable of a query comes into scope, as the next part of the row.
    pub fn enter_part(&mut self, name: &'t [u8]) -> Result<(), NoMemory>
        ensures { OnOk result (self.new ≡ with_row (name.now ∷ []) self.old) }
    {
        let part = self.next_part()?;
        let means = Meaning::InRow(part);
        self.names.push(Named { name, means })?;
        self.parts = part;
        Ok(())
    }

    /// What a line of `main` makes comes into scope, after so many processes: one, or with a count so many. The limit
    /// of processes allows them.
    pub fn enter_made(
        &mut self,
        name: &'t [u8],
        count: Option<u64>,
        before: u16,
    ) -> Result<(), NoMemory>
        requires { before + many count ≤ 64 }
        ensures { OnOk result (self.new ≡ (name.now, made_as count before) ∷ self.old) }
    {
        let first = before + 1;
        let means = match count {
            None => Meaning::OneProcess(first),
            Some(count) => Meaning::Processes(Row {
                first,
                count: count as u16,
            }),
        };
        self.names.push(Named { name, means })
    }

    /// A copy, for names that come into scope for a while.
    pub fn copy(&self, alloc: Global) -> Result<Scope<'t>, NoMemory>
        ensures { IfOk result (λ scope. scope ≡ self.now) }
    {
        let mut names = List::new(alloc);
        for named in self.names.as_slice() {
            names.push(*named)?;
        }
        Ok(Scope {
            names,
            parts: self.parts,
            index: no_index(alloc),
            indexed: 0,
        })
    }
}
