ghost use Rattle.std.specs.Prelude.{◌≡◌, ◌≤◌, [], None, Some, IfErr, OnOk, OnErr};
ghost use Rattle.s38_commits.specs.Changes.{has_change_in, largest_unit, note_refusal, unit_bytes};
ghost use Rattle.s38_commits.specs.Unit.{noted, without_newest};

use crate::change::UnitChange;
use crate::fault::UnitFault;
use s38_base::{NoMemory, ObjNum};
use std::alloc::Global;
use std::marker::Model;

/// How many bytes of a journal the changes of a unit may take.
const LARGEST: u32 = 1_048_576;

/// A unit of commitment: the process that began it, its number, and its changes in the order in which they were
/// made. Contracts see it so.
#[derive(Drop)]
pub struct Unit {
    process: u32,
    number: u64,
    bytes: u32,
    changes: Vec<UnitChange>,
}

impl Model for Unit {
    ghost use Rattle.s38_commits.specs.Unit.{BytesAreCounted, CommitUnit};

    ghost Value = { CommitUnit };

    ghost view = { λ u. record { process = u.process; number = u.number; changes = u.changes.items } };

    ghost invariant = { λ u. BytesAreCounted u.bytes u.changes.items };
}

impl Unit {
    /// A unit without a change; it takes no memory until it grows.
    pub(crate) fn new(alloc: Global, process: u32, number: u64) -> Unit
        ensures { result ≡ record { process = process; number = number; changes = [] } }
    {
        Unit {
            process,
            number,
            bytes: 0,
            changes: Vec::new(alloc),
        }
    }

    /// The process that began the unit.
    pub fn process(&self) -> u32
        ensures { result ≡ self.now.process }
    {
        self.process
    }

    /// The number of the unit.
    pub fn number(&self) -> u64
        ensures { result ≡ self.now.number }
    {
        self.number
    }

    /// The changes, in the order in which they were made.
    pub fn changes(&self) -> &[UnitChange]
        ensures changes { result.now ≡ self.now.changes }
        ensures bytes { unit_bytes self.now.changes ≤ largest_unit }
    {
        self.changes.as_slice()
    }

    /// How many bytes of a journal the changes take.
    pub fn journal_bytes(&self) -> u32
        ensures bytes { result ≡ unit_bytes self.now.changes }
        ensures bound { result ≤ largest_unit }
    {
        self.bytes
    }

    /// Whether a change is of an entry of a data space.
    pub fn changes_space(&self, space: ObjNum) -> bool
        ensures { result ≡ has_change_in space.0 self.now.changes }
    {
        self.changes.iter().any(|change| change.space.0 == space.0)
    }

    /// Whether a change may be noted: what `note` answers, want of memory aside. `Full` exactly where the changes
    /// would take more than 1,048,576 bytes of a journal.
    pub fn can_note(&self, change: &UnitChange) -> Result<(), UnitFault>
        ensures ok { OnOk result (note_refusal self.now.changes change.now ≡ None) }
        ensures fault { IfErr result (λ fault. note_refusal self.now.changes change.now ≡ Some fault) }
    {
        if change.fits(LARGEST - self.bytes) {
            Ok(())
        } else {
            Err(UnitFault::Full)
        }
    }

    /// Notes a change after the others; an error leaves the unit as it was.
    pub(crate) fn note(&mut self, change: UnitChange) -> Result<(), NoMemory>
        requires { note_refusal self.old.changes change ≡ None }
        ensures ok { OnOk result (self.new ≡ noted change self.old) }
        ensures err { OnErr result (self.new ≡ self.old) }
    {
        let bytes = self.bytes + change.journal_bytes();
        match self.changes.push(change) {
            Ok(()) => {
                self.bytes = bytes;
                Ok(())
            }
            Err(_) => Err(NoMemory),
        }
    }

    /// Takes the newest change back.
    pub(crate) fn take_back(&mut self)
        ensures { self.new ≡ without_newest self.old }
    {
        if let Some(change) = self.changes.pop() {
            self.bytes -= change.journal_bytes();
        }
    }
}
