//! The entries of a journal space, replayed on the image of a data space.
ghost use Rattle.std.specs.Prelude.{◌≡◌, ◌+◌, ◌<◌, OnOk, drop, length};
ghost use Rattle.s38_journals.specs.Entries.{logged_entry};
ghost use Rattle.s38_restart.specs.Committed.{AreCommitted};
ghost use Rattle.s38_restart.specs.Redo.{counts, entry_redone, journal_replayed, redone_from};

use crate::changes::redo_entry;
use crate::committed::committed_units;
use s38_base::{NoMemory, ObjNum};
use s38_dataspaces::DataSpace;
use s38_journals::{Journal, JournalEntry};
use std::alloc::Global;

/// Whether the entry of a sequence counts, by its unit.
fn counts(journal: &Journal, committed: &[bool], image: u64, sequence: u64, unit: u64) -> bool
    requires { AreCommitted image journal.now.entries committed.now }
    ensures { result ≡ counts image journal.now.entries sequence unit }
{
    let _ = journal;
    if unit == 0 {
        return image < sequence;
    }
    match committed.get(unit as usize) {
        Some(is_committed) => *is_committed,
        None => false,
    }
}

/// Does the entry of a sequence again, if it is one of the data space and counts.
fn redo_counted(
    space: &mut DataSpace,
    number: ObjNum,
    image: u64,
    journal: &Journal,
    committed: &[bool],
    sequence: u64,
    entry: &JournalEntry,
) -> Result<(), NoMemory>
    requires { AreCommitted image journal.now.entries committed.now }
    ensures { OnOk result (space.new ≡ entry_redone number.0 image journal.now.entries sequence (logged_entry entry.now) space.old) }
{
    if entry.object.0 == number.0 && counts(journal, committed, image, sequence, entry.unit) {
        redo_entry(space, entry)
    } else {
        Ok(())
    }
}

/// Does the entry at a place again, if it is one of the data space and counts.
fn redo_at(
    space: &mut DataSpace,
    number: ObjNum,
    image: u64,
    journal: &Journal,
    committed: &[bool],
    at: u64,
) -> Result<(), NoMemory>
    requires there { at < length journal.now.entries }
    requires committed { AreCommitted image journal.now.entries committed.now }
    ensures { OnOk result (redone_from number.0 image journal.now.entries (at + 1 + 1) (drop (at + 1) journal.now.entries) space.new
        ≡ redone_from number.0 image journal.now.entries (at + 1) (drop at journal.now.entries) space.old) }
{
    // Its contract bounds the sequences.
    let _last = journal.last();
    let Some(entry) = journal.get(at + 1) else {
        return Ok(());
    };
    redo_counted(space, number, image, journal, committed, at + 1, &entry)
}

/// Follows the image of the data space of a number by the entries of its journal space; the image counts them in up to a
/// sequence. Of unit 0 those after the image are replayed, and all of each unit whose COMMIT entry lies after it. What
/// does not fit is passed over. `NoMemory` if memory was refused; then the data space is some way on.
pub fn redo(
    alloc: Global,
    space: &mut DataSpace,
    number: ObjNum,
    image: u64,
    journal: &Journal,
) -> Result<(), NoMemory>
    ensures { OnOk result (space.new ≡ journal_replayed number.0 image journal.now.entries space.old) }
{
    let committed = committed_units(alloc, image, journal)?;
    for at in 0..journal.last() {
        redo_at(space, number, image, journal, &committed, at)?;
    }
    Ok(())
}
