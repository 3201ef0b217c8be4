//! What is asked where entries are inserted, read, updated and deleted through a cursor.
ghost use Rattle.std.specs.Prelude.{◌≡◌, ◌+◌, ◌≤◌, length};
ghost use Rattle.std.specs.Option.{option_copied, unwrap_or};
ghost use Rattle.s38_base.specs.Signals.{first};
ghost use Rattle.s38_commits.specs.Changes.{entry_size};
ghost use Rattle.s38_cursors.specs.CurrentEntry.{current_entry_fails, current_rule};
ghost use Rattle.s38_dataspaces.specs.Entries.{DataEntry};
ghost use Rattle.s38_rules.specs.families.Changing.{journal_rule};
ghost use Rattle.s38_rules.specs.families.DataSpaces.{desds_fails};
ghost use Rattle.s38_rules.specs.families.EntryChanges.{change_rules, current_fails, entry_room_rule, entry_rule, insdsen_fails, updsen_fails};
ghost use Rattle.s38_rules.specs.families.Cursors.{current, retdsen_fails};
ghost use Rattle.s38_rules.specs.state.Journaling.{journal_for};
ghost use Rattle.s38_rules.specs.state.PartsAt.{no_table};

use crate::reads::{
    cursor_of, entry_in, entry_len_in, fields_in, grown_image_in, len_at_ordinal, next_ordinal_in,
    table_at,
};
use s38_base::Exception;
use s38_base::exceptions::{
    DECIMAL_DATA, LENGTH_INVALID, LIMIT_EXCEEDED, OBJECT_IN_USE, POSITION_EMPTY,
};
use s38_code::Operand;
use s38_dataspaces::DataSpace;
use s38_invoke::{Core, Profiles};
use s38_objects::Objects;
use s38_operands::{fails, have_values_at, size_at, target};
use s38_rules::Cursor;
use s38_units::{block_rules, held_rule, journal_for, journal_rule, read_rule};

/// How many bytes of a journal precede those of the entries of a change.
const HEAD: u32 = 41;

// ---- DESDS

/// No unit has a change of one of its entries.
#[tactic(auto, unfolding(s38_rules::specs::families::DataSpaces::desds_fails))]
pub fn desds_fails(world: &Core<Objects, Profiles>, operands: &[Operand]) -> Option<Exception>
    ensures { result ≡ desds_fails world.now operands.now }
{
    let space = target(&world.objects, operands, 1);
    fails(world.units.changes_space(space), OBJECT_IN_USE, 1)
}

// ---- what an entry must be

/// The bytes of operand 2 have the length of the fields, and each numeric field has a value.
fn entry_rule(
    table: Option<&DataSpace>,
    objects: &Objects,
    operands: &[Operand],
) -> Option<Exception>
    ensures { result ≡ entry_rule (unwrap_or (option_copied table.entry) no_table).fields objects.now operands.now }
{
    if size_at(objects, operands, 2) != entry_len_in(table) {
        return Some(Exception::plain(LENGTH_INVALID, 2));
    }
    let have_values = have_values_at(objects, operands, 2, fields_in(table));
    fails(!have_values, DECIMAL_DATA, 2)
}

/// One entry more stays within the limit of a body.
fn room_rule(limit: u32, table: Option<&DataSpace>) -> Option<Exception>
    ensures { result ≡ entry_room_rule limit (unwrap_or (option_copied table.entry) no_table) }
{
    fails(limit < grown_image_in(table), LIMIT_EXCEEDED, 0)
}

/// The entry at which the cursor of an operand is.
pub fn current<'a>(objects: &'a Objects, operands: &[Operand], k: usize) -> Option<&'a [u8]>
    ensures { option_copied result ≡ current objects.now operands.now k }
{
    let cursor = cursor_of(objects, operands, k);
    entry_in(table_at(objects, cursor.space), cursor.position)
}

/// A cursor is at an entry of its data space.
fn current_rule(table: Option<&DataSpace>, cursor: &Cursor, k: u8) -> Option<Exception>
    ensures { result ≡ current_rule (unwrap_or (option_copied table.entry) no_table) cursor.now k }
{
    fails(
        entry_in(table, cursor.position).is_none(),
        POSITION_EMPTY,
        k,
    )
}

// ---- what a change must be

/// No unit of others holds the entry, and the change may belong to the cursor's commit block.
fn change_rules(
    world: &Core<Objects, Profiles>,
    process: u32,
    cursor: &Cursor,
    at: u32,
) -> Option<Exception>
    ensures { result ≡ change_rules world.now process cursor.now at }
{
    let held = held_rule(&world.units, process, cursor.block, cursor.space, at);
    if let Some(failure) = held {
        return Some(failure);
    }
    block_rules(world, process, cursor.block, cursor.space)
}

/// There is room in the journal space for a change of so many bytes before and after.
fn journal_room(
    world: &Core<Objects, Profiles>,
    cursor: &Cursor,
    before: usize,
    after: usize,
) -> Option<Exception>
    requires before { before ≤ 4096 }
    requires after { after ≤ 4096 }
    ensures { result ≡ journal_rule world.now cursor.now.block.0 (41 + before + after) (journal_for world.now.held cursor.now.space.0) }
{
    let bytes = HEAD + before as u32 + after as u32;
    let journal = journal_for(&world.objects, cursor.space);
    journal_rule(world, cursor.block, bytes, journal)
}

// ---- INSDSEN

/// It is an entry of the data space, the change may be made, and there is room. The cursor and its data space are looked
/// up once.
pub fn insdsen_fails(
    world: &Core<Objects, Profiles>,
    process: u32,
    operands: &[Operand],
) -> Option<Exception>
    ensures { result ≡ insdsen_fails world.now process operands.now }
{
    let objects = &world.objects;
    let cursor = cursor_of(objects, operands, 1);
    let table = table_at(objects, cursor.space);
    if let Some(failure) = entry_rule(table, objects, operands) {
        return Some(failure);
    }
    if let Some(failure) = change_rules(world, process, &cursor, next_ordinal_in(table)) {
        return Some(failure);
    }
    if let Some(failure) = room_rule(world.limit, table) {
        return Some(failure);
    }
    journal_room(world, &cursor, 0, entry_len_in(table))
}

// ---- RETDSEN

/// The cursor is at an entry, and no unit of another process changed it.
#[tactic(auto, unfolding(s38_rules::specs::families::Cursors::retdsen_fails))]
pub fn retdsen_fails(
    world: &Core<Objects, Profiles>,
    process: u32,
    operands: &[Operand],
) -> Option<Exception>
    ensures { result ≡ retdsen_fails world.now process operands.now }
{
    let cursor = cursor_of(&world.objects, operands, 2);
    let table = table_at(&world.objects, cursor.space);
    if let Some(failure) = current_rule(table, &cursor, 2) {
        return Some(failure);
    }
    read_rule(&world.units, process, cursor.space, cursor.position)
}

// ---- UPDSEN and DELDSEN

/// The cursor is at an entry, the change may be made, and there is room for one that leaves so many bytes.
fn current_entry_fails(
    world: &Core<Objects, Profiles>,
    process: u32,
    cursor: &Cursor,
    table: Option<&DataSpace>,
    after: usize,
) -> Option<Exception>
    requires { after ≤ 4096 }
    ensures { (entry : DataEntry) → entry_size entry ≡ after → result ≡ current_entry_fails world.now process cursor.now (unwrap_or (option_copied table.entry) no_table) entry }
{
    if let Some(failure) = current_rule(table, cursor, 1) {
        return Some(failure);
    }
    if let Some(failure) = change_rules(world, process, cursor, cursor.position) {
        return Some(failure);
    }
    journal_room(world, cursor, len_at_ordinal(table, cursor.position), after)
}

/// The same, of the cursor of operand 1.
#[tactic(auto, unfolding(s38_rules::specs::families::EntryChanges::current_fails))]
pub fn current_fails(
    world: &Core<Objects, Profiles>,
    process: u32,
    operands: &[Operand],
    after: usize,
) -> Option<Exception>
    requires { after ≤ 4096 }
    ensures { (entry : DataEntry) → entry_size entry ≡ after → result ≡ current_fails world.now process operands.now entry }
{
    let cursor = cursor_of(&world.objects, operands, 1);
    let table = table_at(&world.objects, cursor.space);
    current_entry_fails(world, process, &cursor, table, after)
}

/// It is an entry of the data space, and the one at which the cursor is may be changed. The cursor and its data space
/// are looked up once.
pub fn updsen_fails(
    world: &Core<Objects, Profiles>,
    process: u32,
    operands: &[Operand],
) -> Option<Exception>
    ensures { result ≡ updsen_fails world.now process operands.now }
{
    let objects = &world.objects;
    let cursor = cursor_of(objects, operands, 1);
    let table = table_at(objects, cursor.space);
    if let Some(failure) = entry_rule(table, objects, operands) {
        return Some(failure);
    }
    current_entry_fails(world, process, &cursor, table, entry_len_in(table))
}
