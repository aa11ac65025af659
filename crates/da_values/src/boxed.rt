//! Values on the heap.
ghost use Rattle.std.specs.Prelude.{◌≡◌, IfOk};

use crate::list::NoMemory;
use std::alloc::Global;
use std::marker::Model;

/// The owner of one value that lies on the heap. To a contract it is that value, so a tree with owners in it is equal
/// to another where its values are.
#[derive(Drop)]
pub struct Boxed<T> {
    on_heap: Box<T>,
}

impl<T> Model for Boxed<T> {
    ghost Value = { T };

    ghost view = { λ owner. owner.on_heap.value };

    ghost coded = { T.code };
}

impl<T> Boxed<T> {
    /// The value.
    pub fn get(&self) -> &T
        ensures { result.now ≡ self.now }
    {
        &self.on_heap
    }

    /// Takes the value out.
    pub fn into_inner(self) -> T
        ensures { result ≡ self }
    {
        let Boxed { on_heap } = self;
        Box::into_inner(on_heap)
    }
}

impl<T: Drop> Boxed<T> {
    /// Puts a value on the heap. Where memory is refused the value is dropped.
    pub fn new(alloc: Global, value: T) -> Result<Boxed<T>, NoMemory>
        ensures { IfOk result (λ boxed. boxed ≡ value) }
    {
        match Box::new(alloc, value) {
            Ok(on_heap) => Ok(Boxed { on_heap }),
            Err(_) => Err(NoMemory),
        }
    }
}

impl<T: PartialEq> PartialEq for Boxed<T> {
    ghost eq = { T.eq };

    ghost laws = { T.laws };

    fn eq(&self, other: &Self) -> bool {
        self.get() == other.get()
    }
}

impl<T: Eq> Eq for Boxed<T> {
    ghost laws = { T.Eq.laws };
}
