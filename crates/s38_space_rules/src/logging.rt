//! By how many bytes a change of an entry has a journal space grow.
ghost use Rattle.std.specs.Prelude.{◌≡◌, ◌+◌, ◌≤◌, ℕ, nat_lt};
ghost use Rattle.std.specs.Option.{option_copied, option_map, unwrap_or};
ghost use Rattle.s38_rules.specs.state.Journaling.{journal_for};
ghost use Rattle.s38_commits.specs.declared.change.UnitChange.{UnitChange};
ghost use Rattle.s38_commits.specs.Changes.{entry_size};
ghost use Rattle.s38_dataspaces.specs.Table.{DataTable};
ghost use Rattle.s38_dataspaces.specs.Entries.{entry_at};
ghost use Rattle.s38_rules.specs.families.Changes.{Entered};
ghost use Rattle.s38_rules.specs.families.Changing.{next_sequence, number_for};
ghost use Rattle.s38_rules.specs.families.Cursors.{cursor_named};
ghost use Rattle.s38_rules.specs.ask.Operands.{size_at};
ghost use Rattle.s38_rules.specs.store.Forcing.{forced_by, most_unforced};
ghost use Rattle.s38_rules.specs.state.PartsAt.{cursor_at, journal_at, no_journal, no_table, table_at};
ghost use Rattle.s38_space_rules.specs.EntryChanges.{changed_entry, inserted_entry};
ghost use Rattle.s38_space_rules.specs.Logging.{change_forces, change_growth, growth_in, logged_bytes};

use s38_base::ObjNum;
use s38_code::Operand;
use s38_commits::Units;
use s38_dataspaces::DataSpace;
use s38_invoke::{Core, Profiles};
use s38_journals::Journal;
use s38_objects::Objects;
use s38_operands::{Act, size_at, target};
use s38_rules::Cursor;
use s38_space_map::{Forcing, Forcings};
use s38_units::journal_for;

/// The bytes of an entry of a journal before those of its data.
const HEAD: usize = 41;

/// How many bytes the data before, and the data after, may have.
const LONGEST: usize = 65_535;

/// How many bytes of a journal space may stay unforced.
const MOST_UNFORCED: u64 = 32_768;

/// A change of an entry: the data space, the commit block, and how many bytes the entry has before and after.
#[derive(Clone, Copy, PartialEq, Eq, Debug)]
pub struct EntryChange {
    pub space: ObjNum,
    pub block: ObjNum,
    pub before: usize,
    pub after: usize,
}

// ---- what is read at operands

fn cursor_at(objects: &Objects, number: ObjNum) -> Cursor
    ensures { result ≡ cursor_at objects.now number.0 }
{
    match objects.cursor(number) {
        Some(cursor) => *cursor,
        None => Cursor {
            space: ObjNum(0),
            block: ObjNum(0),
            position: 0,
        },
    }
}

/// The cursor that operand 1 names.
fn cursor_of(objects: &Objects, operands: &[Operand]) -> Cursor
    ensures { result ≡ cursor_named objects.now operands.now 1 }
{
    cursor_at(objects, target(objects, operands, 1))
}

fn table_at(objects: &Objects, number: ObjNum) -> Option<&DataSpace>
    ensures { unwrap_or (option_copied result) no_table ≡ table_at objects.now number.0 }
{
    match objects.data_space(number) {
        Some(held) => Some(&held.space),
        None => None,
    }
}

fn entry_len_in(table: Option<&DataSpace>, at: u32) -> usize
    ensures { result ≡ entry_size (entry_at (unwrap_or (option_copied table.entry) no_table).entries at) }
{
    match table {
        Some(table) => match table.get(at) {
            Some(entry) => entry.len(),
            None => 0,
        },
        None => 0,
    }
}

/// How many bytes the entry at a cursor has; 0 where there is none.
fn current_len(objects: &Objects, cursor: &Cursor) -> usize
    ensures { result ≡ entry_size (entry_at (table_at objects.now cursor.now.space.0).entries cursor.now.position) }
{
    entry_len_in(table_at(objects, cursor.space), cursor.position)
}

fn inserted(objects: &Objects, operands: &[Operand]) -> EntryChange
    ensures { result ≡ inserted_entry objects.now operands.now }
{
    let cursor = cursor_of(objects, operands);
    EntryChange {
        space: cursor.space,
        block: cursor.block,
        before: 0,
        after: size_at(objects, operands, 2),
    }
}

/// An entry of the bytes of operand 2 gets the next ordinal.
pub fn insertion(world: &Core<Objects, Profiles>, act: Act<'_>) -> EntryChange
    ensures { result ≡ inserted_entry world.now.held act.entry.request.now.operands }
{
    inserted(&world.objects, act.request.operands.as_slice())
}

/// An entry of so many bytes is where the cursor is; none, if it has no byte.
fn change(objects: &Objects, operands: &[Operand], after: usize) -> EntryChange
    ensures { result ≡ changed_entry objects.now operands.now after }
{
    let cursor = cursor_of(objects, operands);
    EntryChange {
        space: cursor.space,
        block: cursor.block,
        before: current_len(objects, &cursor),
        after,
    }
}

fn updated(objects: &Objects, operands: &[Operand]) -> EntryChange
    ensures { result ≡ changed_entry objects.now operands.now (size_at objects.now operands.now 2) }
{
    change(objects, operands, size_at(objects, operands, 2))
}

/// An entry of the bytes of operand 2 is where the cursor is.
pub fn update(world: &Core<Objects, Profiles>, act: Act<'_>) -> EntryChange
    ensures { result ≡ changed_entry world.now.held act.entry.request.now.operands (size_at world.now.held act.entry.request.now.operands 2) }
{
    updated(&world.objects, act.request.operands.as_slice())
}

/// No entry is any more where the cursor is.
pub fn deletion(world: &Core<Objects, Profiles>, act: Act<'_>) -> EntryChange
    ensures { result ≡ changed_entry world.now.held act.entry.request.now.operands 0 }
{
    change(&world.objects, act.request.operands.as_slice(), 0)
}

// ---- what is logged

/// The number of the unit of a change.
fn number_for(units: &Units, block: ObjNum, sequence: u64) -> u64
    ensures { result ≡ number_for units.now block.0 sequence }
{
    if block.0 == 0 {
        return 0;
    }
    match units.get(block) {
        Some(unit) => unit.number(),
        None => sequence,
    }
}

/// The bytes of an entry, where it may have a sequence.
fn logged_bytes(number: u64, sequence: u64, before: usize, after: usize) -> u32
    ensures bytes { result ≡ logged_bytes number sequence before after }
    ensures bound { result ≤ 131111 }
{
    if number <= sequence && before <= LONGEST && after <= LONGEST {
        (HEAD + before + after) as u32
    } else {
        0
    }
}

fn last_of(journal: Option<&Journal>) -> u64
    ensures last { result + 1 ≡ next_sequence (unwrap_or (option_copied journal.entry) no_journal) }
    ensures bound { result ≤ 16777216 }
{
    match journal {
        Some(journal) => journal.last(),
        None => 0,
    }
}

fn growth_in(world: &Core<Objects, Profiles>, journal: Option<&Journal>, change: EntryChange) -> u32
    ensures bytes { result ≡ growth_in world.now change.block.0 (unwrap_or (option_copied journal.entry) no_journal) change.before change.after }
    ensures bound { result ≤ 131111 }
{
    let sequence = last_of(journal) + 1;
    let number = number_for(&world.units, change.block, sequence);
    logged_bytes(number, sequence, change.before, change.after)
}

/// By how many bytes a journal space grows with a change.
pub fn change_growth(world: &Core<Objects, Profiles>, journal: ObjNum, change: EntryChange) -> u32
    ensures bytes { result ≡ change_growth world.now change.block.0 journal.0 change.before change.after }
    ensures bound { result ≤ 131111 }
{
    growth_in(world, world.objects.journal(journal), change)
}

fn unforced_in(journal: Option<&Journal>) -> u32
    ensures { result ≡ (unwrap_or (option_copied journal.entry) no_journal).unforced }
{
    match journal {
        Some(journal) => journal.unforced(),
        None => 0,
    }
}

/// More bytes of a journal space than may be stay unforced with a change.
pub fn is_overdue(world: &Core<Objects, Profiles>, journal: ObjNum, change: EntryChange) -> bool
    ensures { result ≡ nat_lt most_unforced ((journal_at world.now.held journal.0).unforced + change_growth world.now change.block.0 journal.0 change.before change.after) }
{
    let unforced = unforced_in(world.objects.journal(journal));
    u64::from(unforced) + u64::from(change_growth(world, journal, change)) > MOST_UNFORCED
}

/// A journal space of which too many bytes would stay unforced with a change.
fn change_forces(world: &Core<Objects, Profiles>, change: EntryChange) -> Forcings
    ensures { result ≡ change_forces world.now change.block.0 change.before change.after (journal_for world.now.held change.space.0) }
{
    match journal_for(&world.objects, change.space) {
        Some(journal) => {
            if is_overdue(world, journal, change) {
                Forcings::one(Forcing::Whole(journal))
            } else {
                Forcings::none()
            }
        }
        None => Forcings::none(),
    }
}

/// What a change of an entry forces.
pub fn changed(world: &Core<Objects, Profiles>, change: EntryChange) -> Forcings
    ensures { (process : ℕ) (made : UnitChange) (f : DataTable → DataTable) → made.space ≡ change.space → entry_size made.before ≡ change.before → entry_size made.after ≡ change.after
        → result ≡ forced_by world.now process (Entered change.block.0 made f) }
{
    change_forces(world, change)
}
