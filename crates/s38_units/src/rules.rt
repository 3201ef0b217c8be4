//! What is asked where an entry of a data space is read or changed, and where a unit ends.
ghost use Rattle.std.specs.Prelude.{◌≡◌, is_some};
ghost use Rattle.std.specs.Option.{option_copied, option_map, unwrap_or};
ghost use Rattle.s38_journals.specs.Journals.{room_refusal};
ghost use Rattle.s38_rules.specs.families.Changing.{are_units_full, block_rule, block_rules, held_rule, is_journal_full, is_unit_full, journal_rule, of_unit, read_rule, unit_rule};
ghost use Rattle.s38_rules.specs.state.PartsAt.{no_journal};

use crate::journaling::{
    all_units, begins_unit, block_port, is_journaled_to, open_after, open_units,
};
use s38_base::exceptions::{
    ENTRY_HELD, LIMIT_EXCEEDED, NOT_JOURNALED, OBJECT_DESTROYED, OBJECT_TYPE_INVALID,
    UNIT_OF_ANOTHER,
};
use s38_base::{Exception, ObjNum, Rule};
use s38_commits::{Unit, Units};
use s38_invoke::{Core, Profiles};
use s38_journals::Journal;
use s38_objects::Objects;
use s38_operands::fails;
use s38_rules::{Body, Object};

/// How many bytes of a journal the changes of a unit may take.
const LARGEST_UNIT: u64 = 1_048_576;

/// How many units may be open in a journal space.
const MOST_UNITS: usize = 512;

/// How many bytes the entries of a journal space may have together.
const LARGEST_JOURNAL: u128 = 16_777_216;

/// The bytes of the entry that ends a unit.
const END_BYTES: u128 = 41;

// ---- entries that a unit holds

/// An exception that names the process of a unit.
fn of_unit(id: u16, operand: u8, process: u32) -> Option<Exception>
    ensures { result ≡ of_unit id operand process }
{
    let rule = Rule::Unit { process };
    Some(Exception { id, operand, rule })
}

/// An entry that a unit of another process changed is not read.
pub fn read_rule(units: &Units, process: u32, space: ObjNum, at: u32) -> Option<Exception>
    ensures { result ≡ read_rule units.now process space.0 at }
{
    match units.holder(space, at) {
        Some(holder) => {
            if holder == process {
                None
            } else {
                of_unit(ENTRY_HELD, 1, holder)
            }
        }
        None => None,
    }
}

/// An entry that a unit changed is changed in that unit alone, and by its process.
pub fn held_rule(
    units: &Units,
    process: u32,
    block: ObjNum,
    space: ObjNum,
    at: u32,
) -> Option<Exception>
    ensures { result ≡ held_rule units.now process block.0 space.0 at }
{
    match (units.block_of(space, at), units.holder(space, at)) {
        (Some(other), Some(holder)) => {
            if other.0 == block.0 && holder == process {
                None
            } else {
                of_unit(ENTRY_HELD, 1, holder)
            }
        }
        _ => None,
    }
}

// ---- the commit block of a change

/// It is there, and is a commit block.
fn block_rule(block: Option<&Object>) -> Option<Exception>
    ensures { result ≡ block_rule (option_copied block.entry) }
{
    match block {
        Some(object) => fails(
            !matches!(&object.body, Body::Block(_)),
            OBJECT_TYPE_INVALID,
            0,
        ),
        None => Some(Exception::plain(OBJECT_DESTROYED, 0)),
    }
}

/// A unit that was begun is of the process.
pub fn unit_rule(process: u32, unit: Option<&Unit>) -> Option<Exception>
    ensures { result ≡ unit_rule process (option_copied unit.entry) }
{
    match unit {
        Some(unit) => {
            if unit.process() == process {
                None
            } else {
                of_unit(UNIT_OF_ANOTHER, 1, unit.process())
            }
        }
        None => None,
    }
}

/// The commit block is there, the data space is journaled to its port, and its unit is of the process. Without a block
/// nothing is asked.
pub fn block_rules(
    world: &Core<Objects, Profiles>,
    process: u32,
    block: ObjNum,
    space: ObjNum,
) -> Option<Exception>
    ensures { result ≡ block_rules world.now process block.0 space.0 }
{
    if block.0 == 0 {
        return None;
    }
    let objects = &world.objects;
    if let Some(failure) = block_rule(objects.get(block)) {
        return Some(failure);
    }
    if !is_journaled_to(objects, space, block_port(objects, block)) {
        return Some(Exception::plain(NOT_JOURNALED, 1));
    }
    unit_rule(process, world.units.get(block))
}

// ---- limits

/// A journal space has no room for a change of so many bytes and for the ends of so many units.
fn is_full(journal: Option<&Journal>, bytes: u32, units: usize) -> bool
    ensures { result ≡ is_some (room_refusal (unwrap_or (option_copied journal.entry) no_journal) bytes units) }
{
    let entries = match journal {
        Some(journal) => journal.len(),
        None => 0,
    };
    let wanted = u128::from(bytes) + END_BYTES * units as u128;
    u128::from(entries) + wanted > LARGEST_JOURNAL
}

/// A journal space has no room for a change of so many bytes and for the ends of all units that are then open in it.
/// They are counted only where there is no room for the ends of all units of all journal spaces, and of one more.
fn is_journal_full(
    objects: &Objects,
    units: &Units,
    journal: ObjNum,
    block: ObjNum,
    bytes: u32,
) -> bool
    ensures { result ≡ is_journal_full objects.now units.now journal.0 block.0 bytes }
{
    if !is_full(objects.journal(journal), bytes, all_units(units) + 1) {
        return false;
    }
    let units_open = open_after(objects, units, journal, block);
    is_full(objects.journal(journal), bytes, units_open)
}

/// One unit too many would be open in a journal space. They are counted only where so many are open in all journal
/// spaces together.
fn are_units_full(objects: &Objects, units: &Units, journal: ObjNum, block: ObjNum) -> bool
    ensures { result ≡ are_units_full objects.now units.now journal.0 block.0 }
{
    if all_units(units) < MOST_UNITS {
        return false;
    }
    begins_unit(units, block) && open_units(objects, units, journal) >= MOST_UNITS
}

/// The unit of a change of so many bytes would take too many bytes of the journal.
fn is_unit_full(units: &Units, block: ObjNum, bytes: u32) -> bool
    ensures { result ≡ is_unit_full units.now block.0 bytes }
{
    if block.0 == 0 {
        return false;
    }
    let taken = match units.get(block) {
        Some(unit) => unit.journal_bytes(),
        None => 0,
    };
    u64::from(taken) + u64::from(bytes) > LARGEST_UNIT
}

/// For a change of so many bytes there is room in the journal space, for another unit, and in the unit. Of a data
/// space that is not journaled nothing is asked.
pub fn journal_rule(
    world: &Core<Objects, Profiles>,
    block: ObjNum,
    bytes: u32,
    journal: Option<ObjNum>,
) -> Option<Exception>
    ensures { result ≡ journal_rule world.now block.0 bytes (option_map (λ number. number.0) journal) }
{
    let Some(journal) = journal else {
        return None;
    };
    let objects = &world.objects;
    let units = &world.units;
    let is_full = is_journal_full(objects, units, journal, block, bytes)
        || are_units_full(objects, units, journal, block)
        || is_unit_full(units, block, bytes);
    fails(is_full, LIMIT_EXCEEDED, 0)
}
