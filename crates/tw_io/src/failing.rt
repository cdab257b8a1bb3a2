//! The plan of which calls fail. The forms in memory ask it at each call, and nothing else counts calls.

use std::alloc::{AllocError, Global};

/// Which calls of one object are to fail, by their numbers from 1, and how often one did. Both counts stay at the last
/// value of a `u64`.
#[derive(Drop)]
pub(crate) struct Failing {
    numbers: Vec<u64>,
    calls: u64,
    faults: u64,
}

impl Failing {
    ghost use Rattle.std.specs.Prelude.{◌≡◌, ◌≤◌, true, false, IfOk};
    ghost use Rattle.tw_io.specs.Faults.{IsRisen};
    ghost use Rattle.tw_io.specs.Failing.{fails_next, called};
    ghost use Rattle.tw_io.specs.FailingPlan.{plan_of};

    pub(crate) fn new(alloc: Global, numbers: &[u64]) -> Result<Failing, AllocError>
        ensures plan { IfOk result (λ f. plan_of f ≡ record { calls = 0; failing = numbers.now }) }
        ensures faults { IfOk result (λ f. f.faults ≡ 0) }
    {
        Ok(Failing {
            numbers: Vec::from_slice(alloc, numbers)?,
            calls: 0,
            faults: 0,
        })
    }

    /// Counts a call. True exactly where its number is among those that are to fail, and then a fault is counted.
    pub(crate) fn call(&mut self) -> bool
        ensures exact { result ≡ fails_next (plan_of self.old) }
        ensures plan { plan_of self.new ≡ called (plan_of self.old) }
        ensures failed { result ≡ true → IsRisen self.old.faults self.new.faults }
        ensures passed { result ≡ false → self.new.faults ≡ self.old.faults }
        ensures monotone { self.old.faults ≤ self.new.faults }
    {
        self.calls = self.calls.saturating_add(1);
        let fails = self.numbers.contains(&self.calls);
        if fails {
            self.fault();
        }
        fails
    }

    /// Counts a fault.
    pub(crate) fn fault(&mut self)
        ensures plan { plan_of self.new ≡ plan_of self.old }
        ensures risen { IsRisen self.old.faults self.new.faults }
        ensures monotone { self.old.faults ≤ self.new.faults }
    {
        self.faults = self.faults.saturating_add(1);
    }
}
