//! How many new parts a step needs for what is kept whole, and for journal spaces.
ghost use Rattle.std.specs.Prelude.{◌≡◌, ◌≤◌, All, IfSome, Some};
ghost use Rattle.std.specs.Option.{option_copied, option_map, unwrap_or};
ghost use Rattle.s38_commits.specs.Units.{unit_of};
ghost use Rattle.s38_rules.specs.state.Journaling.{journal_for};
ghost use Rattle.s38_rules.specs.families.Changes.{through_port};
ghost use Rattle.s38_rules.specs.state.Held.{kept_on_disk, object as object_at};
ghost use Rattle.s38_rules.specs.state.PartsAt.{no_journal, on_data};
ghost use Rattle.s38_rules.specs.store.Storable.{IsStorable};
ghost use Rattle.s38_space_rules.specs.Growing.{commit_growth, end_bytes, end_growth, ensured_growth, entered_growth, whole_growth};

use crate::logging::{EntryChange, change_growth, is_overdue};
use crate::words::journal_through;
use s38_base::ObjNum;
use s38_image_writer::image_len;
use s38_invoke::{Core, Profiles};
use s38_journals::Journal;
use s38_objects::Objects;
use s38_rules::Object;
use s38_space_map::{Extent, Room, pages_begun, pages_of_rows};
use s38_units::{journal_for, journal_for_block};

/// The bytes of the entry that ends a unit.
const END_BYTES: u32 = 41;

fn object_of(world: &Core<Objects, Profiles>, number: ObjNum) -> Option<&Object>
    ensures { option_copied result ≡ object_at world.now.held number.0 }
{
    world.objects.get(number)
}

/// The object of a number, which a store can keep.
pub(crate) fn storable(world: &Core<Objects, Profiles>, number: ObjNum) -> Option<&Object>
    requires { All IsStorable world.now.held.objects }
    ensures object { option_copied result ≡ object_at world.now.held number.0 }
    ensures storable { IfSome result (λ object. IsStorable object.now) }
{
    match object_of(world, number) {
        None => None,
        Some(object) => Some(object),
    }
}

// ---- an object that is kept whole

/// How many parts of an object are new that is kept whole, with so many bytes more in its image.
fn kept_growth(room: &Room, more: u32, object: &Object) -> u32
    requires storable { IsStorable object.now }
    requires few { more ≤ 131111 }
    ensures parts { result ≡ whole_growth room.now.room.extents more (Some (kept_on_disk object.now)) }
    ensures bound { result ≤ 40000 }
{
    let rows = pages_of_rows(object.rows.len());
    let body = pages_begun(image_len(&object.body) + more);
    let extent = Extent::new(object.number, rows, body);
    extent.more_parts(room.extent(object.number))
}

/// The same of the object of a number where it is on disk; of another nothing is kept.
fn whole_growth(room: &Room, world: &Core<Objects, Profiles>, number: ObjNum, more: u32) -> u32
    requires storable { All IsStorable world.now.held.objects }
    requires few { more ≤ 131111 }
    ensures parts { result ≡ whole_growth room.now.room.extents more (object_at world.now.held number.0) }
    ensures bound { result ≤ 40000 }
{
    match storable(world, number) {
        None => 0,
        Some(object) => {
            if object.on_disk {
                kept_growth(room, more, object)
            } else {
                0
            }
        }
    }
}

/// The same of an object that is on disk from now on, where there is one.
fn ensured_one(room: &Room, world: &Core<Objects, Profiles>, number: ObjNum) -> u32
    requires { All IsStorable world.now.held.objects }
    ensures parts { result ≡ whole_growth room.now.room.extents 0 (option_map kept_on_disk (object_at world.now.held number.0)) }
    ensures bound { result ≤ 40000 }
{
    match storable(world, number) {
        None => 0,
        Some(object) => kept_growth(room, 0, object),
    }
}

/// What an object and its journal space need where the object is ensured.
fn ensured_growth(
    room: &Room,
    world: &Core<Objects, Profiles>,
    number: ObjNum,
    journal: Option<ObjNum>,
) -> u32
    requires { All IsStorable world.now.held.objects }
    ensures parts { result ≡ ensured_growth room.now.room.extents world.now.held number.0 (option_map (λ journal. journal.0) journal) }
    ensures bound { result ≤ 80000 }
{
    let here = ensured_one(room, world, number);
    match journal {
        None => here,
        Some(journal) => {
            if journal.0 == number.0 {
                here
            } else {
                here + whole_growth(room, world, journal, 0)
            }
        }
    }
}

/// The same, by number.
pub fn ensured(room: &Room, world: &Core<Objects, Profiles>, number: ObjNum) -> u32
    requires { All IsStorable world.now.held.objects }
    ensures parts { result ≡ ensured_growth room.now.room.extents world.now.held number.0 (journal_for world.now.held number.0) }
    ensures bound { result ≤ 80000 }
{
    let journal = journal_for(&world.objects, number);
    ensured_growth(room, world, number, journal)
}

fn journal_then(world: &Core<Objects, Profiles>, space: ObjNum, port: ObjNum) -> Option<ObjNum>
    ensures { option_map (λ journal. journal.0) result ≡ journal_for (on_data world.now.held space.0 (through_port port.0)) space.0 }
{
    journal_through(&world.objects, space, port)
}

/// What a data space and its journal space need once its changes go through a port.
pub fn journaled(room: &Room, world: &Core<Objects, Profiles>, space: ObjNum, port: ObjNum) -> u32
    requires { All IsStorable world.now.held.objects }
    ensures parts { result ≡ ensured_growth room.now.room.extents (on_data world.now.held space.0 (through_port port.0)) space.0 (journal_for (on_data world.now.held space.0 (through_port port.0)) space.0) }
    ensures bound { result ≤ 80000 }
{
    let journal = journal_then(world, space, port);
    ensured_growth(room, world, space, journal)
}

// ---- a journal space

fn end_bytes(number: u64, journal: Option<&Journal>) -> u32
    ensures bytes { result ≡ end_bytes number (unwrap_or (option_copied journal.entry) no_journal) }
    ensures bound { result ≤ 41 }
{
    match journal {
        Some(journal) => {
            if number <= journal.last() + 1 && END_BYTES <= journal.spare() {
                END_BYTES
            } else {
                0
            }
        }
        None => 0,
    }
}

/// What a journal space needs with the end of a unit.
fn end_growth(
    room: &Room,
    world: &Core<Objects, Profiles>,
    number: u64,
    journal: Option<ObjNum>,
) -> u32
    requires { All IsStorable world.now.held.objects }
    ensures parts { result ≡ end_growth room.now.room.extents world.now.held number (option_map (λ journal. journal.0) journal) }
    ensures bound { result ≤ 40000 }
{
    match journal {
        None => 0,
        Some(journal) => {
            let more = end_bytes(number, world.objects.journal(journal));
            whole_growth(room, world, journal, more)
        }
    }
}

/// What the journal space of a unit needs that is committed.
pub fn commit_growth(room: &Room, world: &Core<Objects, Profiles>, block: ObjNum) -> u32
    requires { All IsStorable world.now.held.objects }
    ensures parts { result ≡ commit_growth room.now.room.extents world.now block.0 (unit_of world.now.units block.0) }
    ensures bound { result ≤ 40000 }
{
    match world.units.get(block) {
        None => 0,
        Some(unit) => {
            let journal = journal_for_block(&world.objects, block);
            end_growth(room, world, unit.number(), journal)
        }
    }
}

/// What the journal space of a change needs, where too many of its bytes would stay unforced.
pub fn entered_growth(room: &Room, world: &Core<Objects, Profiles>, change: EntryChange) -> u32
    requires { All IsStorable world.now.held.objects }
    ensures parts { result ≡ entered_growth room.now.room.extents world.now change.block.0 change.before change.after (journal_for world.now.held change.space.0) }
    ensures bound { result ≤ 40000 }
{
    match journal_for(&world.objects, change.space) {
        None => 0,
        Some(journal) => {
            if is_overdue(world, journal, change) {
                let more = change_growth(world, journal, change);
                whole_growth(room, world, journal, more)
            } else {
                0
            }
        }
    }
}
