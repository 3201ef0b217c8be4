ghost use Rattle.std.specs.Prelude.{◌≡◌, ◌++◌, [], Some, IsErr, IsTrue, OnErr, is_err};
ghost use Rattle.s38_base.specs.Faults.{HasCause};
ghost use Rattle.s38_io.specs.Calls.{after_call, fails_next, faults_after};
ghost use Rattle.s38_io.specs.Sink.{Puts};

use crate::calls::Calls;
use crate::sink::Sink;
use s38_base::Failed;
use std::alloc::Global;
use std::marker::Model;

/// A sink in memory, which tells what was written. Contracts see the bytes that were written, and its
/// calls: which are to fail, how many were made and how many failed.
#[derive(Drop, Debug)]
pub struct MemSink {
    bytes: Vec<u8>,
    calls: Calls,
}

impl Model for MemSink {
    ghost use Rattle.s38_io.specs.Memory.{MemorySink};

    ghost Value = { MemorySink };

    ghost view = { λ s. record { written = s.bytes.items; calls = s.calls } };
}

impl MemSink {
    /// A sink with nothing written. The calls in the list fail, counted from 0, and no others unless memory
    /// is refused.
    pub fn new(alloc: Global, failing: Vec<u32>) -> Self
        ensures written { result.written ≡ [] }
        ensures calls { result.calls ≡ record { failing = failing.items; made = 0; faults = 0 } }
    {
        MemSink {
            bytes: Vec::new(alloc),
            calls: Calls::new(failing),
        }
    }

    /// The bytes that were written.
    pub fn written(&self) -> &[u8]
        ensures { result.now ≡ self.now.written }
    {
        &self.bytes
    }
}

impl Sink for MemSink {
    ghost written = { λ s. Some s.written };

    ghost faults = { λ s. s.calls.faults };

    fn put(&mut self, piece: &[u8]) -> Result<(), Failed>
        ensures puts { Puts (Some self.old.written) (Some self.new.written) result piece.now }
        ensures cause { HasCause self.old.calls.faults self.new.calls.faults result }
        ensures count { self.new.calls.faults ≡ faults_after self.old.calls.faults (is_err result) }

        // It fails at the listed calls, and at others only for want of memory; then nothing is written.
        ensures listed { IsTrue (fails_next self.old.calls) → IsErr result }
        ensures err { OnErr result (self.new.written ≡ self.old.written) }
        ensures calls { self.new.calls ≡ after_call self.old.calls (is_err result) }
    {
        let failed = self.calls.fails_next() || self.bytes.extend_from_slice(piece).is_err();
        self.calls.count(failed);
        if failed { Err(Failed) } else { Ok(()) }
    }
}
