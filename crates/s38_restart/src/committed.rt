//! Which units of changes were committed after an image.
ghost use Rattle.std.specs.Prelude.{◌≡◌, ◌+◌, ◌&&◌, ◌||◌, ◌≤◌, ◌<◌, ℕ, IfOk, drop, false, get_or, length, nat_lt};
ghost use Rattle.s38_journals.specs.Entries.{logged_entry};
ghost use Rattle.s38_restart.specs.Committed.{AreCommitted};
ghost use Rattle.s38_restart.specs.Redo.{commits, is_commit, is_committed};

use s38_base::NoMemory;
use s38_journals::{EntryKind, Journal, JournalEntry};
use std::alloc::Global;

/// Whether an entry lies after an image and commits its unit.
fn is_commit_after(image: u64, sequence: u64, entry: &JournalEntry) -> bool
    ensures { result ≡ nat_lt image sequence && is_commit entry.now.kind }
{
    image < sequence && matches!(entry.kind, EntryKind::Commit)
}

/// Marks the unit that an entry commits.
fn mark(marks: &mut Vec<bool>, image: u64, sequence: u64, entry: &JournalEntry)
    requires { entry.now.unit < length marks.old.items }
    ensures len { length marks.new.items ≡ length marks.old.items }
    ensures marks { (unit : ℕ) → get_or marks.new.items unit false ≡ (commits image unit sequence (logged_entry entry.now) || get_or marks.old.items unit false) }
{
    if is_commit_after(image, sequence, entry) {
        marks[entry.unit as usize] = true;
    }
}

/// Marks the unit that the entry at a place commits.
fn mark_at(marks: &mut Vec<bool>, image: u64, journal: &Journal, at: u64)
    requires there { at < length journal.now.entries }
    requires len { length marks.old.items ≡ length journal.now.entries + 1 }
    ensures len { length marks.new.items ≡ length marks.old.items }
    ensures marks { (unit : ℕ) → (get_or marks.new.items unit false || is_committed image unit (at + 1 + 1) (drop (at + 1) journal.now.entries))
        ≡ (get_or marks.old.items unit false || is_committed image unit (at + 1) (drop at journal.now.entries)) }
{
    // Its contract says that each entry keeps to the format.
    let _last = journal.last();
    let Some(entry) = journal.get(at + 1) else {
        return;
    };
    mark(marks, image, at + 1, &entry);
}

/// Of each unit whether its COMMIT entry lies after the image of a data space, which counts the journal space in up to
/// this sequence.
pub fn committed_units(alloc: Global, image: u64, journal: &Journal) -> Result<Vec<bool>, NoMemory>
    ensures { IfOk result (λ marks. AreCommitted image journal.now.entries marks.items) }
{
    let last = journal.last();
    let mut marks = Vec::new(alloc);
    marks.resize(last as usize + 1, false)?;
    for at in 0..last {
        mark_at(&mut marks, image, journal, at);
    }
    Ok(marks)
}
