//! Entries inserted, read, updated and deleted at a cursor.
ghost use Rattle.s38_rules.specs.families.Changes.{done};
ghost use Rattle.std.specs.Prelude.{◌≡◌, None, Some, IfOk, OnErr, OnOk};
ghost use Rattle.std.specs.Option.{option_copied};
ghost use Rattle.s38_compute.specs.Piece.{piece_bytes};
ghost use Rattle.s38_cursors.specs.Insertion.{insertion_logged};
ghost use Rattle.s38_rules.specs.families.Changing.{logged};
ghost use Rattle.s38_rules.specs.families.EntryChanges.{change_at, current_changes, current_fails, insdsen_changes, insdsen_fails, insertion, next_ordinal, updsen_fails};
ghost use Rattle.s38_rules.specs.families.Cursors.{cursor_named, entry_value, retdsen_gives, table_of};
ghost use Rattle.s38_rules.specs.state.Journaling.{journal_for};
ghost use Rattle.s38_rules.specs.ask.Operands.{bytes_at, target};

use crate::changes::{delete_at, insert_at, move_at, update_at};
use crate::entry_rules::current;
use crate::insertion::insert_logged;
use crate::reads::{cursor_in, cursor_of, journal_in, next_ordinal_at};
use s38_base::{Bytes, NoMemory, ObjNum};
use s38_code::{Operand, Val};
use s38_commits::UnitChange;
use s38_compute::Piece;
use s38_invoke::{Core, Profiles};
use s38_objects::Objects;
use s38_operands::{fitted, piece_at, room_at, target};
use s38_units::log_change;
use std::alloc::Global;

/// The bytes of an entry, if there is one, as a change keeps them.
fn kept(alloc: Global, entry: Option<&[u8]>) -> Result<Option<Bytes>, NoMemory>
    ensures { IfOk result (λ kept. kept ≡ option_copied entry.entry) }
{
    match entry {
        Some(entry) => match Bytes::from_slice(alloc, entry) {
            Ok(bytes) => Ok(Some(bytes)),
            Err(fault) => Err(fault),
        },
        None => Ok(None),
    }
}

/// The number of the cursor that operand 1 names.
fn target_in(world: &Core<Objects, Profiles>, operands: &[Operand]) -> ObjNum
    ensures { result.0 ≡ target world.now.held operands.now 1 }
{
    target(&world.objects, operands, 1)
}

/// The bytes of operand 2.
fn piece_in<'a>(
    alloc: Global,
    world: &Core<Objects, Profiles>,
    operands: &'a [Operand],
) -> Result<Piece<'a>, NoMemory>
    ensures { IfOk result (λ piece. piece_bytes piece ≡ bytes_at world.now.held operands.now 2) }
{
    piece_at(alloc, &world.objects, operands, 2)
}

// ---- INSDSEN

/// The change that an insertion makes.
fn insertion(
    alloc: Global,
    world: &Core<Objects, Profiles>,
    operands: &[Operand],
    entry: &[u8],
) -> Result<UnitChange, NoMemory>
    requires { entry.now ≡ bytes_at world.now.held operands.now 2 }
    ensures { IfOk result (λ change. change ≡ insertion world.now.held operands.now) }
{
    Ok(UnitChange {
        space: cursor_in(world, operands, 1).space,
        at: next_ordinal_at(world, operands),
        before: None,
        after: kept(alloc, Some(entry))?,
    })
}

/// The entry gets the next ordinal of a journaled data space, and the change is logged; where memory is refused
/// nothing changes.
fn insert_journaled(
    alloc: Global,
    world: &mut Core<Objects, Profiles>,
    process: u32,
    operands: &[Operand],
    journal: ObjNum,
    entry: &[u8],
) -> Result<u32, NoMemory>
    requires fails { insdsen_fails world.old process operands.now ≡ None }
    requires entry { entry.now ≡ bytes_at world.old.held operands.now 2 }
    requires journal { journal_for world.old.held (cursor_named world.old.held operands.now 1).space.0 ≡ Some journal.0 }
    ensures ordinal { IfOk result (λ at. at ≡ next_ordinal (table_of world.old.held operands.now 1)) }
    ensures ok { OnOk result (world.new ≡ insertion_logged world.old process (cursor_named world.old.held operands.now 1).block.0 (insertion world.old.held operands.now) entry.now) }
    ensures err { OnErr result (world.new ≡ world.old) }
{
    let cursor = cursor_in(world, operands, 1);
    let change = match insertion(alloc, world, operands, entry) {
        Ok(change) => change,
        Err(fault) => return Err(fault),
    };
    match insert_logged(world, process, cursor.block, journal, &change, entry) {
        Ok(()) => Ok(change.at),
        Err(fault) => Err(fault),
    }
}

/// The entry gets the next ordinal, and the change is logged where the data space is journaled; where memory is
/// refused nothing changes.
fn insert_entry(
    alloc: Global,
    world: &mut Core<Objects, Profiles>,
    process: u32,
    operands: &[Operand],
    entry: &[u8],
) -> Result<u32, NoMemory>
    requires fails { insdsen_fails world.old process operands.now ≡ None }
    requires entry { entry.now ≡ bytes_at world.old.held operands.now 2 }
    ensures ordinal { IfOk result (λ at. at ≡ next_ordinal (table_of world.old.held operands.now 1)) }
    ensures ok { OnOk result (world.new ≡ insertion_logged world.old process (cursor_named world.old.held operands.now 1).block.0 (insertion world.old.held operands.now) entry.now) }
    ensures err { OnErr result (world.new ≡ world.old) }
{
    let space = cursor_in(world, operands, 1).space;
    match journal_in(world, space) {
        None => insert_at(world, space, entry),
        Some(journal) => insert_journaled(alloc, world, process, operands, journal, entry),
    }
}

/// The entry gets the next ordinal, and the cursor is there; where memory is refused nothing changes.
pub fn insdsen(
    alloc: Global,
    world: &mut Core<Objects, Profiles>,
    process: u32,
    operands: &[Operand],
) -> Result<(), NoMemory>
    requires { insdsen_fails world.old process operands.now ≡ None }
    ensures ok { OnOk result (world.new ≡ done world.old process (insdsen_changes world.old.held operands.now)) }
    ensures err { OnErr result (world.new ≡ world.old) }
{
    let number = target_in(world, operands);
    let entry = match piece_in(alloc, world, operands) {
        Ok(entry) => entry,
        Err(fault) => return Err(fault),
    };
    match insert_entry(alloc, world, process, operands, entry.as_slice()) {
        Ok(ordinal) => {
            move_at(world, number, Some(ordinal));
            Ok(())
        }
        Err(fault) => Err(fault),
    }
}

// ---- RETDSEN

fn entry_or_none(entry: Option<&[u8]>) -> &[u8]
    ensures { result.now ≡ entry_value (option_copied entry.entry) }
{
    match entry {
        None => &[],
        Some(entry) => entry,
    }
}

/// The entry, cut or filled with zeros.
#[tactic(auto, unfolding(s38_rules::specs::families::Cursors::retdsen_bytes))]
pub fn retdsen_gives(
    alloc: Global,
    objects: &Objects,
    operands: &[Operand],
) -> Result<Val, NoMemory>
    ensures { IfOk result (λ value. value ≡ retdsen_gives objects.now operands.now) }
{
    let entry = entry_or_none(current(objects, operands, 2));
    let bytes = fitted(alloc, room_at(operands, 1), 0, entry)?;
    Ok(Val::Bytes(bytes))
}

// ---- a change of the entry at which a cursor is

/// The change of an entry to another one, or to none.
fn change_of(
    alloc: Global,
    objects: &Objects,
    operands: &[Operand],
    entry: Option<&[u8]>,
) -> Result<UnitChange, NoMemory>
    ensures { IfOk result (λ change. change ≡ change_at objects.now operands.now (option_copied entry.entry)) }
{
    let cursor = cursor_of(objects, operands, 1);
    Ok(UnitChange {
        space: cursor.space,
        at: cursor.position,
        before: kept(alloc, current(objects, operands, 1))?,
        after: kept(alloc, entry)?,
    })
}

/// The same, in a world.
fn change_in(
    alloc: Global,
    world: &Core<Objects, Profiles>,
    operands: &[Operand],
    entry: Option<&[u8]>,
) -> Result<UnitChange, NoMemory>
    ensures { IfOk result (λ change. change ≡ change_at world.now.held operands.now (option_copied entry.entry)) }
{
    change_of(alloc, &world.objects, operands, entry)
}

/// The change of the entry at a cursor is logged; where memory is refused nothing changes.
fn log_journaled(
    alloc: Global,
    world: &mut Core<Objects, Profiles>,
    process: u32,
    operands: &[Operand],
    entry: Option<&[u8]>,
) -> Result<(), NoMemory>
    requires { current_fails world.old process operands.now (option_copied entry) ≡ None }
    ensures ok { OnOk result (world.new ≡ logged world.old process (cursor_named world.old.held operands.now 1).block.0 (change_at world.old.held operands.now (option_copied entry.entry))) }
    ensures err { OnErr result (world.new ≡ world.old) }
{
    let cursor = cursor_in(world, operands, 1);
    let change = match change_in(alloc, world, operands, entry) {
        Ok(change) => change,
        Err(fault) => return Err(fault),
    };
    log_change(world, process, cursor.block, &change)
}

/// The same where the data space, which the caller found, is journaled; of another nothing is logged, and no memory taken.
fn log_current(
    alloc: Global,
    world: &mut Core<Objects, Profiles>,
    process: u32,
    operands: &[Operand],
    space: ObjNum,
    entry: Option<&[u8]>,
) -> Result<(), NoMemory>
    requires fails { current_fails world.old process operands.now (option_copied entry) ≡ None }
    requires space { space.0 ≡ (cursor_named world.old.held operands.now 1).space.0 }
    ensures ok { OnOk result (world.new ≡ logged world.old process (cursor_named world.old.held operands.now 1).block.0 (change_at world.old.held operands.now (option_copied entry.entry))) }
    ensures err { OnErr result (world.new ≡ world.old) }
{
    match journal_in(world, space) {
        None => Ok(()),
        Some(_) => log_journaled(alloc, world, process, operands, entry),
    }
}

// ---- UPDSEN

/// The change is logged, and another entry is where the cursor is; where memory is refused nothing changes.
fn update_entry(
    alloc: Global,
    world: &mut Core<Objects, Profiles>,
    process: u32,
    operands: &[Operand],
    entry: &[u8],
) -> Result<(), NoMemory>
    requires fails { updsen_fails world.old process operands.now ≡ None }
    requires entry { entry.now ≡ bytes_at world.old.held operands.now 2 }
    ensures ok { OnOk result (world.new ≡ done world.old process (current_changes world.old.held operands.now (Some entry.now))) }
    ensures err { OnErr result (world.new ≡ world.old) }
{
    let cursor = cursor_in(world, operands, 1);
    match log_current(alloc, world, process, operands, cursor.space, Some(entry)) {
        Ok(()) => {
            update_at(world, cursor.space, cursor.position, entry);
            Ok(())
        }
        Err(fault) => Err(fault),
    }
}

/// Another entry is where the cursor is; where memory is refused nothing changes.
pub fn updsen(
    alloc: Global,
    world: &mut Core<Objects, Profiles>,
    process: u32,
    operands: &[Operand],
) -> Result<(), NoMemory>
    requires { updsen_fails world.old process operands.now ≡ None }
    ensures ok { OnOk result (world.new ≡ done world.old process (current_changes world.old.held operands.now (Some (bytes_at world.old.held operands.now 2)))) }
    ensures err { OnErr result (world.new ≡ world.old) }
{
    let entry = match piece_in(alloc, world, operands) {
        Ok(entry) => entry,
        Err(fault) => return Err(fault),
    };
    update_entry(alloc, world, process, operands, entry.as_slice())
}

// ---- DELDSEN

/// The entry at the cursor is there no more; where memory is refused nothing changes.
pub fn deldsen(
    alloc: Global,
    world: &mut Core<Objects, Profiles>,
    process: u32,
    operands: &[Operand],
) -> Result<(), NoMemory>
    requires { current_fails world.old process operands.now None ≡ None }
    ensures ok { OnOk result (world.new ≡ done world.old process (current_changes world.old.held operands.now None)) }
    ensures err { OnErr result (world.new ≡ world.old) }
{
    let cursor = cursor_in(world, operands, 1);
    match log_current(alloc, world, process, operands, cursor.space, None) {
        Ok(()) => {
            delete_at(world, cursor.space, cursor.position);
            Ok(())
        }
        Err(fault) => Err(fault),
    }
}
