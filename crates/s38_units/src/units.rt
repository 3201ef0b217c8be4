//! How units of changes end: committed, or taken back.
ghost use Rattle.std.specs.Prelude.{◌≡◌};
ghost use Rattle.std.specs.Option.{option_copied, option_map};
ghost use Rattle.s38_commits.specs.Units.{unit_of};
ghost use Rattle.s38_journals.specs.Entries.{logged_entry};
ghost use Rattle.s38_rules.specs.state.PartsAt.{on_journal, over_table};
ghost use Rattle.s38_rules.specs.families.Units.{all_undone, committed, decommitted, end_entry, end_written, journal_with_entry, put_back, undone};

use crate::journaling::journal_for_block;
use s38_base::{Bytes, ObjNum};
use s38_commits::{Unit, UnitChange};
use s38_invoke::{Core, Profiles};
use s38_journals::{EntryKind, JournalEntry};
use s38_objects::Objects;
use s38_rules::DataBody;

// ---- the entry that ends a unit

/// What a journal says of the end of a unit.
fn end_entry(kind: EntryKind, process: u32, unit: &Unit) -> JournalEntry<'static>
    ensures { logged_entry result ≡ end_entry kind process unit.now }
{
    JournalEntry {
        unit: unit.number(),
        process,
        kind,
        object: ObjNum(0),
        ordinal: 0,
        before: &[],
        after: &[],
    }
}

fn write_in(objects: &mut Objects, journal: ObjNum, entry: &JournalEntry)
    ensures { objects.new ≡ on_journal objects.old journal.0 (journal_with_entry (logged_entry entry.now)) }
{
    if let Some(held) = objects.journal_mut(journal) {
        held.write(entry);
    }
}

/// An entry goes into a journal space, if there is one; the room for it was reserved.
fn write_end(objects: &mut Objects, journal: Option<ObjNum>, entry: &JournalEntry)
    ensures { objects.new ≡ end_written objects.old (option_map (λ number. number.0) journal) (logged_entry entry.now) }
{
    match journal {
        Some(journal) => write_in(objects, journal, entry),
        None => {}
    }
}

// ---- changes are taken back

fn entry_slice(entry: &Option<Bytes>) -> Option<&[u8]>
    ensures { option_copied result ≡ entry.now }
{
    match entry {
        Some(bytes) => Some(bytes.as_slice()),
        None => None,
    }
}

fn put_back(body: &mut DataBody, change: &UnitChange)
    ensures { body.new ≡ over_table (put_back change.now) body.old }
{
    body.space.restore(change.at, entry_slice(&change.before));
}

/// The entry before a change is there again, or none where the change inserted it.
fn undo(objects: &mut Objects, change: &UnitChange)
    ensures { objects.new ≡ undone objects.old change.now }
{
    if let Some(body) = objects.data_space_mut(change.space) {
        put_back(body, change);
    }
}

/// Changes are taken back, the newest first.
#[tactic(auto, using(crate::proofs::UnitLaws::undone_newest))]
fn undo_all(objects: &mut Objects, changes: &[UnitChange])
    ensures { objects.new ≡ all_undone objects.old changes.now }
{
    for taken in 0..changes.len() {
        let newest = changes.len() - 1 - taken;
        undo(objects, &changes[newest]);
    }
}

// ---- a unit ends

/// What the unit of a commit block changed stays, and the journal says so; without a unit nothing happens.
#[tactic(auto, using(crate::proofs::UnitLaws::ended_none))]
pub fn commit(world: &mut Core<Objects, Profiles>, process: u32, block: ObjNum)
    ensures { world.new ≡ committed world.old process block.0 (unit_of world.old.units block.0) }
{
    match world.units.end(block) {
        Some(unit) => {
            let journal = journal_for_block(&world.objects, block);
            let entry = end_entry(EntryKind::Commit, process, &unit);
            write_end(&mut world.objects, journal, &entry);
        }
        None => {}
    }
}

/// What a unit changed is taken back, and the journal space, if there is one, says so.
fn undo_unit(objects: &mut Objects, journal: Option<ObjNum>, process: u32, unit: &Unit)
    ensures { objects.new ≡ end_written (all_undone objects.old unit.now.changes) (option_map (λ number. number.0) journal) (end_entry EntryKind.Decommit process unit.now) }
{
    undo_all(objects, unit.changes());
    write_end(
        objects,
        journal,
        &end_entry(EntryKind::Decommit, process, unit),
    );
}

/// What the unit of a commit block changed is taken back, the newest change first, and the journal says so; without a
/// unit nothing happens.
#[tactic(auto, using(crate::proofs::UnitLaws::ended_none))]
pub fn decommit(world: &mut Core<Objects, Profiles>, process: u32, block: ObjNum)
    ensures { world.new ≡ decommitted world.old process block.0 (unit_of world.old.units block.0) }
{
    match world.units.end(block) {
        Some(unit) => {
            let journal = journal_for_block(&world.objects, block);
            undo_unit(&mut world.objects, journal, process, &unit);
        }
        None => {}
    }
}
