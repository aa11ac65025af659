//! The names in scope and what they stand for.
ghost use Rattle.da_lang.specs.Scopes.{look};
ghost use Rattle.da_bodies.specs.ScopeView.{role_in, role_of};
ghost use Rattle.std.specs.Prelude.{◌≡◌, ℕ, ◌-◌, ◌≤◌, List, [], ◌∷◌, bytes_eq, drop, if◌then◌else◌, length, option_map, OnOk, OnErr, IsSome, Some};

use da_values::{List, NoMemory};
use std::alloc::Global;
use std::collections::BTreeMap;
use std::marker::Model;

/// What a name stands for.
#[derive(Clone, Copy)]
pub enum Role {
    /// A variable of the class.
    ClassVariable,
    /// A parameter, or a variable of a loop, of a handler in its body, or that a `some` has bound.
    Local,
    /// A variable of a query.
    QueryVariable,
    /// A name of `main`.
    Made,
}

/// A name that came into scope, and what it stood for before.
#[derive(Drop)]
pub struct Entry<'t> {
    name: &'t [u8],
    role: Role,
    before: Option<Role>,
}

/// The map from each name in scope to what it stands for.
type Roles<'t> = BTreeMap<&'t [u8], Role>;

/// What the map says of a name.
fn role_at(roles: &Roles<'_>, name: &[u8]) -> Option<Role>
    ensures { result ≡ role_in roles.now name.now }
{
    roles.get(name).copied()
}

/// What the name stands for in the map is this from now on.
fn set_role<'t>(roles: &mut Roles<'t>, name: &'t [u8], role: Role) -> Result<(), NoMemory>
    ensures ok { OnOk result ((q : List ℕ) → role_in roles.new q ≡ (if bytes_eq name.now q then Some role else role_in roles.old q)) }
    ensures err { OnErr result ((q : List ℕ) → role_in roles.new q ≡ role_in roles.old q) }
{
    match roles.insert(name, role) {
        Ok(_) => Ok(()),
        Err(_) => Err(NoMemory),
    }
}

/// What the name, which is in the map, stands for is what it was before.
fn reset_role<'t>(roles: &mut Roles<'t>, name: &'t [u8], before: Option<Role>)
    requires { IsSome (role_in roles.old name.now) }
    ensures { (q : List ℕ) → role_in roles.new q ≡ (if bytes_eq name.now q then before else role_in roles.old q) }
{
    match before {
        None => {
            roles.remove(name);
        }
        Some(role) => {
            if let Some(now) = roles.get_mut(name) {
                *now = role;
            }
        }
    }
}

/// The names in scope, which contracts see as a scope with the innermost name first.
#[derive(Drop)]
pub struct Names<'t> {
    roles: Roles<'t>,
    entries: List<Entry<'t>>,
}

impl<'t> Model for Names<'t> {
    ghost use Rattle.da_lang.specs.ExprNames.{Role};
    ghost use Rattle.da_lang.specs.Scopes.{Scope};
    ghost use Rattle.da_bodies.specs.ScopeView.{IsIndexed, scope_of};
    ghost use Rattle.std.specs.Prelude.{List, ℕ};

    ghost Value = { List (List ℕ × Role) };

    ghost view = { λ names. scope_of names.entries };

    ghost invariant = { λ names. IsIndexed names.roles names.entries };
}

impl<'t> Names<'t> {
    /// No name is in scope.
    pub fn new(alloc: Global) -> Names<'t>
        ensures { result ≡ [] }
    {
        Names {
            roles: BTreeMap::new(alloc),
            entries: List::new(alloc),
        }
    }

    /// How many names came into scope that have not left it.
    pub fn len(&self) -> usize
        ensures { result ≡ length self.now }
    {
        self.entries.len()
    }

    /// What a name stands for.
    pub fn look(&self, name: &[u8]) -> Option<Role>
        ensures { option_map role_of result ≡ look self.now name.now }
    {
        role_at(&self.roles, name)
    }

    /// A name comes into scope.
    pub fn enter(&mut self, name: &'t [u8], role: Role) -> Result<(), NoMemory>
        ensures { OnOk result (self.new ≡ (name.now, role_of role) ∷ self.old) }
    {
        let before = role_at(&self.roles, name);
        self.entries.push(Entry { name, role, before })?;
        let done = set_role(&mut self.roles, name, role);
        if done.is_err() {
            self.entries.pop();
        }
        done
    }

    /// The names that came into scope when there were so many are no longer in it.
    pub fn leave_to(&mut self, len: usize)
        ensures { self.new ≡ drop (length self.old - len) self.old }
    {
        while self.entries.len() > len {
            if let Some(entry) = self.entries.pop() {
                reset_role(&mut self.roles, entry.name, entry.before);
            }
        }
    }
}
