ghost use Rattle.std.specs.Prelude.{◌≡◌, ◌<◌, ◌^◌, nat_le, IfOk};
ghost use Rattle.s38_commits.specs.Changes.{entry_size, is_of_entry, journal_bytes};

use s38_base::{Bytes, NoMemory, ObjNum, TryClone};
use std::alloc::Global;

/// The bytes of a journal entry before those of the entry that was changed.
const HEAD_BYTES: usize = 41;

/// A change of an entry of a data space: the entry before, and after; None where there is none.
#[derive(Drop, Debug)]
pub struct UnitChange {
    pub space: ObjNum,
    pub at: u32,
    pub before: Option<Bytes>,
    pub after: Option<Bytes>,
}

fn entry_bytes(entry: &Option<Bytes>) -> usize
    ensures { result ≡ entry_size entry.now }
{
    match entry {
        Some(bytes) => bytes.len(),
        None => 0,
    }
}

fn entry_clone(alloc: Global, entry: &Option<Bytes>) -> Result<Option<Bytes>, NoMemory>
    ensures { IfOk result (λ clone. clone ≡ entry.now) }
{
    match entry {
        Some(bytes) => match bytes.try_clone(alloc) {
            Ok(clone) => Ok(Some(clone)),
            Err(e) => Err(e),
        },
        None => Ok(None),
    }
}

impl UnitChange {
    /// Whether the change takes so many bytes of a journal at most.
    pub(crate) fn fits(&self, room: u32) -> bool
        ensures { result ≡ nat_le (journal_bytes self.now) room }
    {
        let room = room as usize;
        let before = entry_bytes(&self.before);
        let after = entry_bytes(&self.after);
        room >= HEAD_BYTES && before <= room - HEAD_BYTES && after <= room - HEAD_BYTES - before
    }

    /// How many bytes of a journal the change takes.
    pub fn journal_bytes(&self) -> u32
        requires { journal_bytes self.now < 2 ^ 32 }
        ensures { result ≡ journal_bytes self.now }
    {
        (HEAD_BYTES + entry_bytes(&self.before) + entry_bytes(&self.after)) as u32
    }
}

impl TryClone for UnitChange {
    fn try_clone(&self, alloc: Global) -> Result<Self, NoMemory> {
        Ok(UnitChange {
            space: self.space,
            at: self.at,
            before: entry_clone(alloc, &self.before)?,
            after: entry_clone(alloc, &self.after)?,
        })
    }
}
