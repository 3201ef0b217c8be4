//! An entry is inserted into a journaled data space, and the change is logged. The room of both is taken before anything
//! changes.
ghost use Rattle.std.specs.Prelude.{◌≡◌, ◌<◌, None, Some, false, IfOk, IfSome, IsTrue, OnErr, OnOk, length, true};
ghost use Rattle.s38_commits.specs.Changes.{journal_bytes};
ghost use Rattle.s38_cursors.specs.Insertion.{given_back, insertion_logged, logged_by, needs_room, roomless, roomy, with_room};
ghost use Rattle.s38_dataspaces.specs.Refusals.{insert_refusal};
ghost use Rattle.s38_dataspaces.specs.Table.{entry_len};
ghost use Rattle.s38_dataspaces.specs.Values.{have_values};
ghost use Rattle.s38_rules.specs.families.Changing.{held_rule, is_journal_full, journal_rule, next_sequence, number_for, units_after};
ghost use Rattle.s38_rules.specs.families.EntryChanges.{entry_room_rule, with_inserted};
ghost use Rattle.s38_rules.specs.state.Journaling.{is_journal, journal_for};
ghost use Rattle.s38_rules.specs.state.Parts.{data_part, part_at};
ghost use Rattle.s38_rules.specs.state.PartsAt.{journal_at, on_journal, on_table, over_table, table_at};

use s38_base::{NoMemory, ObjNum};
use s38_commits::{UnitChange, Units};
use s38_invoke::{Core, Profiles};
use s38_objects::Objects;
use s38_rules::DataBody;
use s38_units::log_in;

// ---- room in the data space

/// One further entry takes no memory; whether the room was taken here.
fn make_room(body: &mut DataBody) -> Result<bool, NoMemory>
    ensures taken { IfOk result (λ taken. taken ≡ needs_room (Some body.old)) }
    ensures ok { OnOk result (body.new ≡ over_table roomy body.old) }
    ensures err { OnErr result (body.new ≡ body.old) }
{
    if body.space.is_reserved() {
        return Ok(false);
    }
    match body.space.reserve() {
        Ok(()) => Ok(true),
        Err(_) => Err(NoMemory),
    }
}

/// The same, in the data space of a number.
fn make_room_in(objects: &mut Objects, number: ObjNum) -> Result<bool, NoMemory>
    ensures taken { IfOk result (λ taken. taken ≡ needs_room (part_at data_part objects.old number.0)) }
    ensures ok { OnOk result (objects.new ≡ with_room objects.old number.0) }
    ensures err { OnErr result (objects.new ≡ objects.old) }
{
    let Some(body) = objects.data_space_mut(number) else {
        return Ok(false);
    };
    make_room(body)
}

fn lose_room(body: &mut DataBody)
    ensures { body.new ≡ over_table roomless body.old }
{
    body.space.release();
}

fn lose_room_in(objects: &mut Objects, number: ObjNum)
    ensures { objects.new ≡ on_table objects.old number.0 roomless }
{
    if let Some(body) = objects.data_space_mut(number) {
        lose_room(body);
    }
}

/// Gives room back, where it was taken.
fn give_back(objects: &mut Objects, number: ObjNum, taken: bool)
    ensures { objects.new ≡ given_back objects.old number.0 taken }
{
    if taken {
        lose_room_in(objects, number);
    }
}

// ---- the entry

fn insert(body: &mut DataBody, entry: &[u8])
    requires fits { insert_refusal body.old.space entry.now ≡ None }
    requires room { 0 < body.old.space.spare }
    requires values { IsTrue (have_values body.old.space.fields entry.now) }
    ensures { body.new ≡ over_table (with_inserted entry.now) body.old }
{
    match body.space.insert(entry) {
        Ok(_) => {}
        Err(_) => unreachable!(),
    }
}

/// An entry gets the next ordinal of the data space of a number, which has room for it.
fn insert_in(objects: &mut Objects, number: ObjNum, entry: &[u8])
    requires fits { IfSome (part_at data_part objects.old number.0) (λ body. insert_refusal body.space entry.now ≡ None) }
    requires room { IfSome (part_at data_part objects.old number.0) (λ body. 0 < body.space.spare) }
    requires values { IfSome (part_at data_part objects.old number.0) (λ body. IsTrue (have_values body.space.fields entry.now)) }
    ensures { objects.new ≡ on_table objects.old number.0 (with_inserted entry.now) }
{
    if let Some(body) = objects.data_space_mut(number) {
        insert(body, entry);
    }
}

// ---- both

/// An entry gets the next ordinal of its data space, and the change goes to a journal space and into the unit of
/// its commit block; where memory is refused nothing changes.
fn insert_both(
    objects: &mut Objects,
    units: &mut Units,
    process: u32,
    block: ObjNum,
    journal: ObjNum,
    change: &UnitChange,
    entry: &[u8],
) -> Result<(), NoMemory>
    requires there { is_journal objects.old journal.0 ≡ true }
    requires room { is_journal_full objects.old units.old journal.0 block.0 (journal_bytes change.now) ≡ false }
    requires free { held_rule units.old process block.0 change.now.space.0 change.now.at ≡ None }
    requires fits { insert_refusal (table_at objects.old change.now.space.0) entry.now ≡ None }
    requires values { have_values (table_at objects.old change.now.space.0).fields entry.now ≡ true }
    ensures objects { OnOk result (objects.new ≡ on_table (on_journal objects.old journal.0 (logged_by objects.old units.old process block.0 journal.0 change.now))
        change.now.space.0 (with_inserted entry.now)) }
    ensures units { OnOk result (units.new ≡ units_after units.old process block.0 (number_for units.old block.0 (next_sequence (journal_at objects.old journal.0))) change.now) }
    ensures objects_left { OnErr result (objects.new ≡ objects.old) }
    ensures units_left { OnErr result (units.new ≡ units.old) }
{
    let space = change.space;
    let taken = match make_room_in(objects, space) {
        Ok(taken) => taken,
        Err(fault) => return Err(fault),
    };
    match log_in(objects, units, journal, process, block, change) {
        Ok(()) => {
            insert_in(objects, space, entry);
            Ok(())
        }
        Err(fault) => {
            give_back(objects, space, taken);
            Err(fault)
        }
    }
}

/// The same, in a world.
pub fn insert_logged(
    world: &mut Core<Objects, Profiles>,
    process: u32,
    block: ObjNum,
    journal: ObjNum,
    change: &UnitChange,
    entry: &[u8],
) -> Result<(), NoMemory>
    requires there { journal_for world.old.held change.now.space.0 ≡ Some journal.0 }
    requires free { held_rule world.old.units process block.0 change.now.space.0 change.now.at ≡ None }
    requires limits { journal_rule world.old block.0 (journal_bytes change.now) (Some journal.0) ≡ None }
    requires len { length entry.now ≡ entry_len (table_at world.old.held change.now.space.0).fields }
    requires image { entry_room_rule world.old.limit (table_at world.old.held change.now.space.0) ≡ None }
    requires values { have_values (table_at world.old.held change.now.space.0).fields entry.now ≡ true }
    ensures ok { OnOk result (world.new ≡ insertion_logged world.old process block.0 change.now entry.now) }
    ensures err { OnErr result (world.new ≡ world.old) }
{
    insert_both(
        &mut world.objects,
        &mut world.units,
        process,
        block,
        journal,
        change,
        entry,
    )
}
