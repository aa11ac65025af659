//! Calls of a pool that has one holder outside: a list of ids.
//!
//! Each call keeps that the holders outside are just the ids of the list, whether it succeeds or not.
ghost use Rattle.row_pool.specs.Pool.{HoldsAll};
ghost use Rattle.std.specs.Prelude.{[], ◌∷◌, ◌++◌};

use da_values::{List, NoMemory, Value};
use row_pool::{Id, Pool};

/// Puts the id of a value after the others, and answers the place of the first id that is the same.
pub fn intern(pool: &mut Pool, ids: &mut List<Id>, v: &Value) -> Result<usize, NoMemory>
    requires { HoldsAll pool.old ids.old }
    ensures { HoldsAll pool.new ids.new }
{
    let id = pool.intern(v)?;
    put(pool, ids, id)
}

/// Gives an id back, if there is one at the place.
pub fn give_back(pool: &mut Pool, ids: &mut List<Id>, at: usize)
    requires { HoldsAll pool.old ids.old }
    ensures { HoldsAll pool.new ids.new }
{
    if at < ids.len() {
        let id = ids.remove(at);
        pool.give_back(id);
    }
}

// Puts an id that was given after the others, or gives it back where memory is refused. It answers the place of the
// first id that is the same.
fn put(pool: &mut Pool, ids: &mut List<Id>, id: Id) -> Result<usize, NoMemory>
    requires { HoldsAll pool.old (ids.old ++ id ∷ []) }
    ensures { HoldsAll pool.new ids.new }
{
    let place = place_of(ids, &id);
    push(pool, ids, id)?;
    Ok(place)
}

// The same without a search.
fn push(pool: &mut Pool, ids: &mut List<Id>, id: Id) -> Result<(), NoMemory>
    requires { HoldsAll pool.old (ids.old ++ id ∷ []) }
    ensures { HoldsAll pool.new ids.new }
{
    match ids.offer(id) {
        Ok(()) => Ok(()),
        Err(refused) => {
            pool.give_back(refused);
            Err(NoMemory)
        }
    }
}

// The place of the first id that is the same, or after all.
fn place_of(ids: &List<Id>, id: &Id) -> usize {
    for (place, other) in ids.as_slice().iter().enumerate() {
        if other == id {
            return place;
        }
    }
    ids.len()
}
