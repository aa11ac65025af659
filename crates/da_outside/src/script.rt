//! The calls at which an object in memory fails.
ghost use Rattle.da_outside.specs.Script.{called, failed, is_named};
ghost use Rattle.da_outside.specs.declared.outside.Trouble.TheVariants as trouble;
ghost use Rattle.std.specs.Prelude.{◌≡◌, ◌≤◌};

use crate::outside::Trouble;
use da_values::List;

/// A plan of failures: `named` holds the numbers of the calls that are to fail (the first call has number 1). Beside it
/// two tallies, of all calls so far and of those that failed. Neither goes past the greatest u64.
#[derive(Drop)]
pub struct Script {
    named: List<u64>,
    calls: u64,
    faults: u64,
}

impl Script {
    /// Before any call.
    pub fn new(named: List<u64>) -> Script
        ensures { result ≡ record { named = named; calls = 0; faults = 0 } }
    {
        Script {
            named,
            calls: 0,
            faults: 0,
        }
    }

    /// Counts a call, and says whether it is one of those that fail.
    pub fn call(&mut self) -> bool
        ensures fails { result ≡ is_named self.old }
        ensures after { self.new ≡ called self.old }
    {
        self.calls = self.calls.saturating_add(1);
        self.named.as_slice().contains(&self.calls)
    }

    /// Counts a call that failed.
    pub fn fail(&mut self) -> Trouble
        ensures trouble { result ≡ trouble.Failed }
        ensures after { self.new ≡ failed self.old }
        ensures later { self.old.faults ≤ self.new.faults }
    {
        self.faults = self.faults.saturating_add(1);
        Trouble::Failed
    }
}
