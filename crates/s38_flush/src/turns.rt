//! Where one put does not take all changes, those of parts that belong to something are put first, and the others later.
ghost use Rattle.std.specs.Prelude.{◌≡◌, ◌+◌, IfOk, List, filter};
ghost use Rattle.std.specs.List.{AllByRecursion};
ghost use Rattle.s38_durable_state.specs.Durable.{Durable, durable_after};
ghost use Rattle.s38_rules.specs.store.Forcing.{Forced};
ghost use Rattle.s38_rules.specs.state.State.{State};
ghost use Rattle.s38_flush.specs.Leftovers.{first_changes, later_changes};
ghost use Rattle.s38_flush.specs.Putting.{AreTurns, is_of_none, is_of_one, is_on_disk_in};
ghost use Rattle.s38_flush.specs.Stepping.{IsNumber};
ghost use Rattle.s38_rules.specs.state.Held.{object};
ghost use Rattle.s38_vault.specs.Content.{AreRising, Content, changed};
ghost use Rattle.s38_vault.specs.Directory.{Keys, new_keys};

use s38_base::{Change, NoMemory, ObjNum};
use s38_objects::Objects;
use std::alloc::Global;

/// Changes in two turns.
#[derive(Drop)]
pub(crate) struct Turns {
    pub(crate) first: Vec<Change>,
    pub(crate) later: Vec<Change>,
}

/// Whether the object of a number is there, and on disk.
fn is_on_disk(objects: &Objects, number: u64) -> bool
    ensures { result ≡ is_on_disk_in (object objects.now number) }
{
    match objects.get(ObjNum(number)) {
        Some(object) => object.on_disk,
        None => false,
    }
}

/// Whether a change is of a header, or of an object that is there and on disk.
fn is_of_one(objects: &Objects, change: &Change) -> bool
    ensures { result ≡ is_of_one objects.now change.now }
{
    change.key.part == 0 || is_on_disk(objects, change.key.object)
}

/// Changes of headers and of objects that are on disk, and then the others; each in the order that they have.
fn split(alloc: Global, objects: &Objects, changes: &[Change]) -> Result<Turns, NoMemory>
    ensures first { IfOk result (λ turns. turns.first.items ≡ filter (is_of_one objects.now) changes.now) }
    ensures later { IfOk result (λ turns. turns.later.items ≡ filter (is_of_none objects.now) changes.now) }
{
    let mut first = Vec::new(alloc);
    let mut later = Vec::new(alloc);
    for change in changes {
        if is_of_one(objects, change) {
            first.push(*change)?;
        } else {
            later.push(*change)?;
        }
    }
    Ok(Turns { first, later })
}

/// Changes of the objects after a step, in the turns in which they are put: all first, where one put takes them, and else
/// first those of what is kept after the step.
pub(crate) fn turns_of(
    alloc: Global,
    objects: &Objects,
    most: u32,
    changes: Vec<Change>,
) -> Result<Turns, NoMemory>
    requires rising { AreRising changes.items }
    requires objects { AllByRecursion (λ c. IsNumber c.key.object) changes.items }
    ensures first { IfOk result (λ turns. (all : List Forced) (d : Durable) (s : State) → s.held ≡ objects.now → turns.first.items ≡ first_changes most (durable_after all d s) changes.items) }
    ensures later { IfOk result (λ turns. (all : List Forced) (d : Durable) (s : State) → s.held ≡ objects.now → turns.later.items ≡ later_changes most (durable_after all d s) changes.items) }
    ensures turns { IfOk result (λ turns. AreTurns turns.first.items turns.later.items) }
    ensures same { IfOk result (λ turns. (m : Content) → changed (changed m turns.first.items) turns.later.items ≡ changed m changes.items) }
    ensures keys { IfOk result (λ turns. (keys : Keys) → new_keys keys turns.first.items + new_keys keys turns.later.items ≡ new_keys keys changes.items) }
{
    // Its contract says that the numbers of objects rise.
    let _count = objects.len();
    if changes.len() <= most as usize {
        let later = Vec::new(alloc);
        return Ok(Turns {
            first: changes,
            later,
        });
    }
    split(alloc, objects, &changes)
}
