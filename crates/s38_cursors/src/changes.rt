//! What is changed of cursors and of the entries of data spaces, by number.
ghost use Rattle.std.specs.Prelude.{◌≡◌, None, Some, IfOk, IsTrue, OnErr, OnOk};
ghost use Rattle.s38_dataspaces.specs.Refusals.{delete_refusal, update_refusal};
ghost use Rattle.s38_dataspaces.specs.Values.{have_values};
ghost use Rattle.s38_rules.specs.families.EntryChanges.{next_ordinal, with_changed, with_inserted};
ghost use Rattle.s38_rules.specs.families.CursorSeeks.{moved_to};
ghost use Rattle.s38_rules.specs.families.Cursors.{at_position};
ghost use Rattle.s38_rules.specs.state.PartsAt.{on_cursor, on_table, over_table, table_at};

use s38_base::{NoMemory, ObjNum};
use s38_invoke::{Core, Profiles};
use s38_objects::Objects;
use s38_rules::{Cursor, DataBody};

// ---- where a cursor is

fn move_cursor(cursor: &mut Cursor, to: Option<u32>)
    ensures { cursor.new ≡ moved_to to cursor.old }
{
    if let Some(position) = to {
        cursor.position = position;
    }
}

/// The cursor of a number moves to an ordinal, or stays where it is.
fn move_in(objects: &mut Objects, number: ObjNum, to: Option<u32>)
    ensures { objects.new ≡ on_cursor objects.old number.0 (moved_to to) }
{
    if let Some(cursor) = objects.cursor_mut(number) {
        move_cursor(cursor, to);
    }
}

/// The same, among the objects of a world.
pub fn move_at(world: &mut Core<Objects, Profiles>, number: ObjNum, to: Option<u32>)
    ensures { world.new ≡ record world.old { held = on_cursor world.old.held number.0 (moved_to to) } }
{
    move_in(&mut world.objects, number, to);
}

// ---- an entry is inserted

fn insert(body: &mut DataBody, entry: &[u8]) -> Result<u32, NoMemory>
    requires { IsTrue (have_values body.old.space.fields entry.now) }
    ensures ordinal { IfOk result (λ at. at ≡ next_ordinal body.old.space) }
    ensures ok { OnOk result (body.new ≡ over_table (with_inserted entry.now) body.old) }
    ensures err { OnErr result (body.new ≡ body.old) }
{
    match body.space.insert(entry) {
        Ok(at) => Ok(at),
        Err(_) => Err(NoMemory),
    }
}

/// An entry gets the next ordinal of the data space of a number; where memory is refused nothing changes.
fn insert_in(objects: &mut Objects, number: ObjNum, entry: &[u8]) -> Result<u32, NoMemory>
    requires { IsTrue (have_values (table_at objects.old number.0).fields entry.now) }
    ensures ordinal { IfOk result (λ at. at ≡ next_ordinal (table_at objects.old number.0)) }
    ensures ok { OnOk result (objects.new ≡ on_table objects.old number.0 (with_inserted entry.now)) }
    ensures err { OnErr result (objects.new ≡ objects.old) }
{
    let Some(body) = objects.data_space_mut(number) else {
        return Ok(1);
    };
    insert(body, entry)
}

/// The same, among the objects of a world.
pub fn insert_at(
    world: &mut Core<Objects, Profiles>,
    number: ObjNum,
    entry: &[u8],
) -> Result<u32, NoMemory>
    requires { IsTrue (have_values (table_at world.old.held number.0).fields entry.now) }
    ensures ordinal { IfOk result (λ at. at ≡ next_ordinal (table_at world.old.held number.0)) }
    ensures ok { OnOk result (world.new ≡ record world.old { held = on_table world.old.held number.0 (with_inserted entry.now) }) }
    ensures err { OnErr result (world.new ≡ world.old) }
{
    match insert_in(&mut world.objects, number, entry) {
        Ok(at) => Ok(at),
        Err(fault) => Err(fault),
    }
}

// ---- an entry is updated

fn update(body: &mut DataBody, at: u32, entry: &[u8])
    requires fits { update_refusal body.old.space at entry.now ≡ None }
    requires values { IsTrue (have_values body.old.space.fields entry.now) }
    ensures { body.new ≡ over_table (with_changed at (Some entry.now)) body.old }
{
    match body.space.update(at, entry) {
        Ok(()) => {}
        Err(_) => unreachable!(),
    }
}

/// An ordinal has another entry in the data space of a number.
fn update_in(objects: &mut Objects, number: ObjNum, at: u32, entry: &[u8])
    requires fits { update_refusal (table_at objects.old number.0) at entry.now ≡ None }
    requires values { IsTrue (have_values (table_at objects.old number.0).fields entry.now) }
    ensures { objects.new ≡ on_table objects.old number.0 (with_changed at (Some entry.now)) }
{
    if let Some(body) = objects.data_space_mut(number) {
        update(body, at, entry);
    }
}

/// The same, among the objects of a world.
pub fn update_at(world: &mut Core<Objects, Profiles>, number: ObjNum, at: u32, entry: &[u8])
    requires fits { update_refusal (table_at world.old.held number.0) at entry.now ≡ None }
    requires values { IsTrue (have_values (table_at world.old.held number.0).fields entry.now) }
    ensures { world.new ≡ record world.old { held = on_table world.old.held number.0 (with_changed at (Some entry.now)) } }
{
    update_in(&mut world.objects, number, at, entry);
}

// ---- an entry is deleted

fn delete(body: &mut DataBody, at: u32)
    requires { delete_refusal body.old.space at ≡ None }
    ensures { body.new ≡ over_table (with_changed at None) body.old }
{
    match body.space.delete(at) {
        Ok(()) => {}
        Err(_) => unreachable!(),
    }
}

/// An ordinal has no entry any more in the data space of a number.
fn delete_in(objects: &mut Objects, number: ObjNum, at: u32)
    requires { delete_refusal (table_at objects.old number.0) at ≡ None }
    ensures { objects.new ≡ on_table objects.old number.0 (with_changed at None) }
{
    if let Some(body) = objects.data_space_mut(number) {
        delete(body, at);
    }
}

/// The same, among the objects of a world.
pub fn delete_at(world: &mut Core<Objects, Profiles>, number: ObjNum, at: u32)
    requires { delete_refusal (table_at world.old.held number.0) at ≡ None }
    ensures { world.new ≡ record world.old { held = on_table world.old.held number.0 (with_changed at None) } }
{
    delete_in(&mut world.objects, number, at);
}
