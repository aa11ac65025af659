//! The numbers by which values are looked up.
ghost use Rattle.da_values.specs.Value.{val_of, vals};
ghost use Rattle.row_pool.specs.Marks.{hashed, mark, mark_of_set};
ghost use Rattle.std.specs.Prelude.{◌≡◌, ◌+◌, ◌%◌, ◌^◌, ◌<◌};

use da_values::Value;
use std::hash::{FoldHasher, Hash, Hasher};

/// The number of a value, which equal values have too.
pub(crate) fn mark_of(v: &Value) -> u64
    ensures { result ≡ mark (val_of v.now) }
{
    match v {
        Value::Set(elements) => sum_of(elements.as_slice()),
        _ => hash_of(v),
    }
}

/// What a value adds to the number of a set of which it is an element.
pub(crate) fn hash_of(v: &Value) -> u64
    ensures { result ≡ hashed (val_of v.now) }
{
    let mut hasher = FoldHasher::default();
    v.hash(&mut hasher);
    hasher.finish()
}

/// The number of a set that gets an element which adds this.
pub(crate) fn with_hash(mark: u64, hash: u64) -> u64
    ensures { result ≡ (mark + hash) % 2 ^ 64 }
{
    mark.wrapping_add(hash)
}

/// The number of a set that loses an element which added this.
pub(crate) fn without_hash(mark: u64, hash: u64) -> u64
    ensures sum { (result + hash) % 2 ^ 64 ≡ mark }
    ensures small { result < 2 ^ 64 }
{
    mark.wrapping_sub(hash)
}

// The number of a set of these elements.
fn sum_of(elements: &[Value]) -> u64
    ensures { result ≡ mark_of_set (vals elements.now) }
{
    let mut sum: u64 = 1;
    for element in elements {
        sum = with_hash(sum, hash_of(element));
    }
    sum
}
