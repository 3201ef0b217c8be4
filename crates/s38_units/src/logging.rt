//! A change is logged: it goes to the journal space of its data space, and into the unit of its commit block.
ghost use Rattle.std.specs.Prelude.{◌≡◌, None, OnErr, OnOk, false, true};
ghost use Rattle.std.specs.Option.{ForSome, option_copied};
ghost use Rattle.s38_commits.specs.Changes.{journal_bytes};
ghost use Rattle.s38_commits.specs.Units.{unit_block};
ghost use Rattle.s38_journals.specs.Entries.{logged_entry};
ghost use Rattle.s38_journals.specs.Journals.{room_refusal};
ghost use Rattle.s38_rules.specs.families.Changing.{bytes_or_none, change_entry, held_rule, is_journal_full, journal_rule, kind_between, logged, number_for, units_after, with_change_logged};
ghost use Rattle.s38_rules.specs.state.Journaling.{is_journal, journal_for};
ghost use Rattle.s38_units.specs.Logging.{objects_logged, units_logged};

use crate::journaling::{journal_for, open_after};
use s38_base::{Bytes, NoMemory, ObjNum};
use s38_commits::{UnitChange, Units};
use s38_invoke::{Core, Profiles};
use s38_journals::{EntryKind, Journal, JournalEntry};
use s38_objects::Objects;

// ---- what a journal says of a change

fn kind_between(before: &Option<Bytes>, after: &Option<Bytes>) -> EntryKind
    ensures { result ≡ kind_between before.now after.now }
{
    match (before, after) {
        (None, _) => EntryKind::Insert,
        (Some(_), None) => EntryKind::Delete,
        (Some(_), Some(_)) => EntryKind::Update,
    }
}

fn bytes_or_none(entry: &Option<Bytes>) -> &[u8]
    ensures { result.now ≡ bytes_or_none entry.now }
{
    match entry {
        Some(bytes) => bytes.as_slice(),
        None => &[],
    }
}

fn change_entry(number: u64, process: u32, change: &UnitChange) -> JournalEntry<'_>
    ensures { logged_entry result ≡ change_entry number process change.now }
{
    JournalEntry {
        unit: number,
        process,
        kind: kind_between(&change.before, &change.after),
        object: change.space,
        ordinal: change.at,
        before: bytes_or_none(&change.before),
        after: bytes_or_none(&change.after),
    }
}

/// The number of the unit of a change: that of its block's unit, or the sequence of the entry with which it begins; 0
/// without a block.
fn number_for(units: &Units, block: ObjNum, sequence: u64) -> u64
    ensures { result ≡ number_for units.now block.0 sequence }
{
    if block.0 == 0 {
        return 0;
    }
    match units.get(block) {
        Some(unit) => unit.number(),
        None => sequence,
    }
}

// ---- the change joins its unit, and its entry is written

/// A change joins the unit of its block, if it has one; where memory is refused nothing changes.
fn join(
    units: &mut Units,
    block: ObjNum,
    process: u32,
    number: u64,
    change: &UnitChange,
) -> Result<(), NoMemory>
    requires { ForSome (unit_block units.old change.now.space.0 change.now.at) (λ other. other ≡ block.0) }
    ensures ok { OnOk result (units.new ≡ units_after units.old process block.0 number change.now) }
    ensures err { OnErr result (units.new ≡ units.old) }
{
    if block.0 == 0 {
        return Ok(());
    }
    match units.join(block, process, number, change) {
        Ok(()) => Ok(()),
        Err(_) => Err(NoMemory),
    }
}

/// Takes the room of a change and of the ends of so many units, has the change join its unit, and writes its entry.
/// Where memory is refused nothing changes.
fn log_entry(
    journal: &mut Journal,
    units: &mut Units,
    units_open: u32,
    block: ObjNum,
    entry: &JournalEntry,
    change: &UnitChange,
) -> Result<(), NoMemory>
    requires room { room_refusal journal.old (journal_bytes change.now) units_open ≡ None }
    requires free { ForSome (unit_block units.old change.now.space.0 change.now.at) (λ other. other ≡ block.0) }
    ensures journal { OnOk result (journal.new ≡ with_change_logged (journal_bytes change.now) units_open (logged_entry entry.now) journal.old) }
    ensures units { OnOk result (units.new ≡ units_after units.old entry.now.process block.0 entry.now.unit change.now) }
    ensures journal_left { OnErr result (journal.new ≡ journal.old) }
    ensures units_left { OnErr result (units.new ≡ units.old) }
{
    let spare = journal.spare();
    if journal.reserve(change.journal_bytes(), units_open).is_err() {
        return Err(NoMemory);
    }
    match join(units, block, entry.process, entry.unit, change) {
        Ok(()) => {
            journal.write(entry);
            Ok(())
        }
        Err(fault) => {
            journal.release(spare);
            Err(fault)
        }
    }
}

/// A change goes to the journal space of a number, and into the unit of its commit block. Where memory is refused
/// nothing changes.
pub fn log_in(
    objects: &mut Objects,
    units: &mut Units,
    journal: ObjNum,
    process: u32,
    block: ObjNum,
    change: &UnitChange,
) -> Result<(), NoMemory>
    requires there { is_journal objects.old journal.0 ≡ true }
    requires room { is_journal_full objects.old units.old journal.0 block.0 (journal_bytes change.now) ≡ false }
    requires free { held_rule units.old process block.0 change.now.space.0 change.now.at ≡ None }
    ensures objects { OnOk result (objects.new ≡ objects_logged objects.old units.old process block.0 change.now journal.0) }
    ensures units { OnOk result (units.new ≡ units_logged objects.old units.old process block.0 change.now journal.0) }
    ensures objects_left { OnErr result (objects.new ≡ objects.old) }
    ensures units_left { OnErr result (units.new ≡ units.old) }
{
    let units_open = open_after(objects, units, journal, block) as u32;
    let Some(held) = objects.journal_mut(journal) else {
        return Ok(());
    };
    let number = number_for(units, block, held.last() + 1);
    let entry = change_entry(number, process, change);
    log_entry(held, units, units_open, block, &entry, change)
}

/// A change of a journaled data space goes to its journal space, and into the unit of its commit block; of another
/// data space nothing is logged, and no memory taken. Where memory is refused nothing changes.
#[tactic(auto, unfolding(s38_rules::specs::families::Changing::logged))]
pub fn log_change(
    world: &mut Core<Objects, Profiles>,
    process: u32,
    block: ObjNum,
    change: &UnitChange,
) -> Result<(), NoMemory>
    requires free { held_rule world.old.units process block.0 change.now.space.0 change.now.at ≡ None }
    requires room { journal_rule world.old block.0 (journal_bytes change.now) (journal_for world.old.held change.now.space.0) ≡ None }
    ensures ok { OnOk result (world.new ≡ logged world.old process block.0 change.now) }
    ensures err { OnErr result (world.new ≡ world.old) }
{
    match journal_for(&world.objects, change.space) {
        None => Ok(()),
        Some(journal) => log_in(
            &mut world.objects,
            &mut world.units,
            journal,
            process,
            block,
            change,
        ),
    }
}
