ghost use Rattle.std.specs.Prelude.{◌≡◌, ◌==◌, ◌≤◌, [], IsTrue};
ghost use Rattle.std.specs.List.{list_any};
ghost use Rattle.s38_base.specs.Faults.{Rose, counted};
ghost use Rattle.s38_disk.specs.Memory.{after_call, fails_next};

use std::alloc::Global;
use std::marker::Model;

/// The calls of a disk in memory: which are to fail, and how many were made and failed.
#[derive(Drop, Debug)]
pub struct FaultPlan {
    failing: Vec<u64>,
    made: u64,
    faults: u64,
}

impl Model for FaultPlan {
    ghost use Rattle.s38_disk.specs.Memory.{CallRecord};

    ghost Value = { CallRecord };

    ghost view = { λ c. record { failing = c.failing.items; made = c.made; faults = c.faults } };
}

impl FaultPlan {
    /// No call was made; those of the list are to fail, counted from 0.
    pub fn new(failing: Vec<u64>) -> Self
        ensures { result ≡ record { failing = failing.items; made = 0; faults = 0 } }
    {
        FaultPlan {
            failing,
            made: 0,
            faults: 0,
        }
    }

    /// No call was made, and none is to fail.
    pub fn none(alloc: Global) -> Self
        ensures { result ≡ record { failing = []; made = 0; faults = 0 } }
    {
        FaultPlan {
            failing: Vec::new(alloc),
            made: 0,
            faults: 0,
        }
    }

    /// Whether the next call is to fail.
    pub fn fails_next(&self) -> bool
        ensures { result ≡ fails_next self.now }
    {
        is_listed(&self.failing, self.made)
    }

    /// Counts a call, and its fault.
    pub fn count(&mut self, failed: bool)
        ensures after { self.new ≡ after_call self.old failed }
        ensures later { self.old.faults ≤ self.new.faults }
        ensures rose { IsTrue failed → Rose self.old.faults self.new.faults }
    {
        self.made = counted(self.made);
        self.faults = if failed {
            counted(self.faults)
        } else {
            self.faults
        };
    }
}

fn is_listed(failing: &[u64], call: u64) -> bool
    ensures { result ≡ list_any (λ n. n == call) failing.now }
{
    failing.iter().any(|n| *n == call)
}

/// One more, up to the last value.
pub fn counted(count: u64) -> u64
    ensures counted { result ≡ counted count }
    ensures later { count ≤ result }
{
    count.saturating_add(1)
}
