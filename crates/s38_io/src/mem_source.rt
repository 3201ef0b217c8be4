ghost use Rattle.std.specs.Prelude.{◌≡◌, ◌↔◌, ◌<◌, ◌++◌, [], Some, IfOk, IsErr, IsTrue, OnErr, is_err, length, take, drop, min};
ghost use Rattle.s38_base.specs.Faults.{HasCause};
ghost use Rattle.s38_io.specs.Calls.{fails_next, faults_after};
ghost use Rattle.s38_io.specs.Memory.{after_take, filled};
ghost use Rattle.s38_io.specs.Source.{ReadsAtMost, Takes};

use crate::calls::Calls;
use crate::source::Source;
use s38_base::Failed;
use std::marker::Model;

/// A source in memory, which tells what is left. Contracts see the bytes that are left, and its calls:
/// which are to fail, how many were made and how many failed.
#[derive(Drop, Debug)]
pub struct MemSource {
    bytes: Vec<u8>,
    at: usize,
    calls: Calls,
}

impl Model for MemSource {
    ghost use Rattle.std.specs.Prelude.{◌≤◌, drop, vec_len};
    ghost use Rattle.s38_io.specs.Memory.{MemorySource};

    ghost Value = { MemorySource };

    ghost view = { λ s. record { left = drop s.at s.bytes.items; calls = s.calls } };

    ghost invariant = { λ s. s.at ≤ vec_len s.bytes };
}

impl MemSource {
    /// A source of these bytes. The calls in the list fail, counted from 0, and no others.
    pub fn new(bytes: Vec<u8>, failing: Vec<u32>) -> Self
        ensures left { result.left ≡ bytes.items }
        ensures calls { result.calls ≡ record { failing = failing.items; made = 0; faults = 0 } }
    {
        MemSource {
            bytes,
            at: 0,
            calls: Calls::new(failing),
        }
    }
}

/// Copies the front of the bytes over the front of a piece, as much as fits, and says how much that is.
fn fill(from: &[u8], into: &mut [u8]) -> usize
    ensures count { result ≡ min (length into.old) (length from.now) }
    ensures filled { into.new ≡ filled from.now into.old }
    ensures front { from.now ≡ take result into.new ++ drop result from.now }
    ensures at_end { result ≡ 0 → 0 < length into.new → from.now ≡ [] }
{
    let count = into.len().min(from.len());
    into[..count].copy_from_slice(&from[..count]);
    count
}

impl Source for MemSource {
    ghost left = { λ s. Some s.left };

    ghost faults = { λ s. s.calls.faults };

    fn take(&mut self, into: &mut [u8]) -> Result<usize, Failed>
        ensures bound { ReadsAtMost result into.new }
        ensures takes { Takes (Some self.old.left) (Some self.new.left) result into.new }
        ensures cause { HasCause self.old.calls.faults self.new.calls.faults result }
        ensures count { self.new.calls.faults ≡ faults_after self.old.calls.faults (is_err result) }

        // It fails exactly at the listed calls, and gives less than there is room for only at the end.
        ensures listed { IsErr result ↔ IsTrue (fails_next self.old.calls) }
        ensures taken { IfOk result (λ n. n ≡ min (length into.old) (length self.old.left)) }
        ensures filled { IfOk result (λ _. into.new ≡ filled self.old.left into.old) }
        ensures untouched { OnErr result (into.new ≡ into.old) }
        ensures after { self.new ≡ after_take self.old (length into.old) }
    {
        let fails = self.calls.fails_next();
        self.calls.count(fails);
        if fails {
            return Err(Failed);
        }
        let count = fill(&self.bytes[self.at..], into);
        self.at += count;
        Ok(count)
    }
}
