//! What a step has a store keep: the room after the step, and journal spaces of which every byte is kept.
ghost use Rattle.std.specs.Prelude.{◌≡◌, ◌≤◌, All, IfOk, IfSome, Some, length};
ghost use Rattle.s38_space_map.specs.Forcings.{all_forced, forced_as};
ghost use Rattle.s38_journals.specs.Journals.{forced as forced_journal};
ghost use Rattle.s38_machine.specs.Stored.{IsPrepared};
ghost use Rattle.s38_space_rules.specs.Following.{FitsBut};
ghost use Rattle.s38_rules.specs.state.PartsAt.{on_journal};
ghost use Rattle.s38_rules.specs.store.Storable.{IsStorable};
ghost use Rattle.s38_rules.specs.store.Storing.{all_kept, kept_one, stored_in};

use s38_base::{NoMemory, ObjNum};
use s38_invoke::{Core, Profiles};
use s38_objects::Objects;
use s38_space_map::{Forcing, Forcings, Room};
use s38_space_rules::follow;
use std::alloc::Global;

/// The room of the store once more, with the memory for what must persist; None where nothing must.
pub fn prepared(
    alloc: Global,
    world: &Core<Objects, Profiles>,
    all: &Forcings,
) -> Result<Option<Room>, NoMemory>
    ensures { IfOk result (λ spare. IsPrepared world.now.room all.now spare) }
{
    if all.is_empty() {
        return Ok(None);
    }
    match &world.room {
        None => Ok(None),
        Some(room) => Ok(Some(room.copy_with_spare(alloc, all.len())?)),
    }
}

/// Every byte of a journal space is kept.
fn keep_journal(objects: &mut Objects, number: ObjNum)
    ensures { objects.new ≡ on_journal objects.old number.0 forced_journal }
{
    if let Some(journal) = objects.journal_mut(number) {
        journal.set_forced();
    }
}

fn keep_one(objects: &mut Objects, one: Forcing)
    ensures { objects.new ≡ kept_one objects.old (forced_as one) }
{
    match one {
        Forcing::Whole(number) => keep_journal(objects, number),
        _ => {}
    }
}

/// Every byte is kept of each journal space that is kept whole.
#[tactic(auto, unfolding(s38_rules::specs::store::Storing::all_kept))]
fn keep_each(objects: &mut Objects, all: &[Forcing])
    ensures { objects.new ≡ all_kept objects.old (all_forced all.now) }
{
    match all {
        [] => {}
        [one, more @ ..] => {
            keep_one(objects, *one);
            keep_each(objects, more);
        }
    }
}

/// This must persist: the store keeps it, and this room, which has the memory for it, follows.
fn keep_these(world: &mut Core<Objects, Profiles>, all: &Forcings, room: Room)
    requires spare { length all.now ≤ room.spare }
    requires fits { FitsBut all.now room.room.extents world.old.held }
    requires storable { All IsStorable world.old.held.objects }
    ensures { world.new ≡ stored_in (Some room.room) all.now world.old }
{
    let mut room = room;
    follow(&mut room, all, &world.objects);
    world.room = Some(room);
    keep_each(&mut world.objects, all.as_slice());
}

/// The store keeps what a step forces that led to these objects, where its room fits all others of them.
#[tactic(auto, using(crate::proofs::StoredLaws::fits_prepared, crate::proofs::StoredLaws::none_prepared, crate::proofs::StoredLaws::prepared_some))]
pub fn keep_stored(world: &mut Core<Objects, Profiles>, all: &Forcings, spare: Option<Room>)
    requires prepared { IsPrepared world.old.room all.now spare }
    requires fits { IfSome world.old.room (λ room. FitsBut all.now room.extents world.old.held) }
    requires storable { IfSome world.old.room (λ _. All IsStorable world.old.held.objects) }
    ensures { world.new ≡ stored_in world.old.room all.now world.old }
{
    if let Some(room) = spare {
        return keep_these(world, all, room);
    }
    if let Some(room) = world.room.take() {
        keep_these(world, all, room);
    }
}
