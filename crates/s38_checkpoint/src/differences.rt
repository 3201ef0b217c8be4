//! The changes of all objects, one object after another.
ghost use Rattle.std.specs.Prelude.{◌≡◌, ◌<◌, ◌≤◌, ◌++◌, ℕ, All, IfErr, IfOk, List, None, OnOk, [], true};
ghost use Rattle.std.specs.FinMap.{contains_key};
ghost use Rattle.std.specs.List.{flat_map};
ghost use Rattle.s38_base.specs.Faults.{HasCauseOf};
ghost use Rattle.s38_base.specs.declared.page.Change.{Change};
ghost use Rattle.s38_base.specs.declared.page.Key.{Key};
ghost use Rattle.s38_checkpoint.specs.Closing.{closing, kept_whole, parts_of_all};
ghost use Rattle.s38_commits.specs.Units.{UnitMap};
ghost use Rattle.s38_durable_state.specs.Durable.{kept, whole_stored};
ghost use Rattle.s38_durable_state.specs.Represents.{parts_at};
ghost use Rattle.s38_page_diff.specs.Differences.{IsWanted};
ghost use Rattle.s38_page_diff.specs.FlushFaults.{IsUnread};
ghost use Rattle.s38_page_diff.specs.declared.fault.FlushFault.TheVariants as faults;
ghost use Rattle.s38_image.specs.PartPlaces.{ceiling_key};
ghost use Rattle.s38_image.specs.Images.{image_parts};
ghost use Rattle.s38_image_writer.specs.Parts.{CanSettle};
ghost use Rattle.s38_page_diff.specs.reconcile.Replacing.{each_to, range_of};
ghost use Rattle.s38_page_diff.specs.reconcile.Walking.{AreAt, AreFineTo, AreSoFar, IsKnown, Stays};
ghost use Rattle.s38_rules.specs.store.Storable.{IsStorable};

use crate::parts::{ceiling_parts, whole_parts};
use s38_base::Change;
use s38_commits::Units;
use s38_image::CEILING_KEY;
use s38_objects::Objects;
use s38_page_diff::{FlushFault, add_strangers, add_wanted, next_number};
use s38_rules::Object;
use s38_vault::Vault;
use std::alloc::Global;

/// Adds the changes at the number of an object.
pub(crate) fn add_object<V: Vault>(
    alloc: Global,
    vault: &mut V,
    objects: &Objects,
    units: &Units,
    object: &Object,
    into: &mut Vec<Change>,
) -> Result<(), FlushFault>
    requires object { IsStorable object.now }
    requires units { CanSettle units.now object.now.number.0 object.now.body }
    requires number { 1 ≤ object.now.number.0 }
    ensures at { OnOk result (AreAt (V.view vault.old).keys (V.holds vault.old) object.now.number.0 (image_parts (whole_stored units.now objects.now object.now)) into.old.items into.new.items) }
    ensures wanted { OnOk result (IsWanted (range_of object.now.number.0) (image_parts (whole_stored units.now objects.now object.now))) }
    ensures bad { IfErr result (IsUnread ⊥) }
    ensures stays { Stays V.view V.holds V.leaves vault.old vault.new }
    ensures cause { HasCauseOf (V.view vault.old).faults (V.view vault.new).faults result faults.Failed }
    ensures count { OnOk result ((V.view vault.new).faults ≡ (V.view vault.old).faults) }
{
    let parts = whole_parts(alloc, objects, units, object)?;
    add_wanted(vault, object.number.0, &parts, into)?;
    Ok(())
}

/// Adds the changes at the numbers up to that of the last object, which it answers, 0 without one.
fn add_objects<V: Vault>(
    alloc: Global,
    vault: &mut V,
    objects: &Objects,
    units: &Units,
    into: &mut Vec<Change>,
) -> Result<u64, FlushFault>
    requires storable { All IsStorable objects.now.objects }
    requires settles { All (λ o. CanSettle units.now o.number.0 o.body) objects.now.objects }
    requires numbers { All (λ o. 1 ≤ o.number.0) objects.now.objects }
    requires none { into.old.items ≡ [] }
    ensures so_far { IfOk result (λ done. AreSoFar (V.view vault.old).keys (V.holds vault.old) (parts_at (closing units.now objects.now)) done into.new.items) }
    ensures whole { IfOk result (λ done. each_to (parts_at (closing units.now objects.now)) done ≡ flat_map image_parts (kept_whole units.now objects.now)) }
    ensures fine { IfOk result (λ done. AreFineTo (V.view vault.old).keys done) }
    ensures last { IfOk result (λ done. (n : ℕ) → done < n → kept (kept_whole units.now objects.now) n ≡ None) }
    ensures low { IfOk result (λ done. done < ceiling_key) }
    ensures bad { IfErr result (IsUnread ⊥) }
    ensures stays { Stays V.view V.holds V.leaves vault.old vault.new }
    ensures cause { HasCauseOf (V.view vault.old).faults (V.view vault.new).faults result faults.Failed }
    ensures count { OnOk result ((V.view vault.new).faults ≡ (V.view vault.old).faults) }
{
    // Its contract says that the keys are those of the content.
    let _free = vault.free();
    // Each number is below the next one.
    let _next = objects.next_number();
    let mut done = 0;
    for object in objects.all() {
        add_strangers(vault, done, object.number.0 - 1, into)?;
        add_object(alloc, vault, objects, units, object, into)?;
        done = object.number.0;
    }
    Ok(done)
}

/// Adds the changes at the numbers after that of the last object: all parts there go, and the ceiling's stays.
pub(crate) fn add_rest<V: Vault>(
    alloc: Global,
    vault: &mut V,
    objects: &Objects,
    done: u64,
    into: &mut Vec<Change>,
) -> Result<(), FlushFault>
    requires low { done < ceiling_key }
    ensures so_far { OnOk result ((units : UnitMap) → ((n : ℕ) → done < n → kept (kept_whole units objects.now) n ≡ None)
        → AreSoFar (V.view vault.old).keys (V.holds vault.old) (parts_at (closing units objects.now)) done into.old.items
        → AreSoFar (V.view vault.old).keys (V.holds vault.old) (parts_at (closing units objects.now)) ceiling_key into.new.items) }
    ensures kept { OnOk result ((rest : List Change) × (into.new.items ≡ into.old.items ++ rest)) }
    ensures known { OnOk result (AreFineTo (V.view vault.old).keys done → (key : Key) → contains_key (V.view vault.old).keys key ≡ true → IsKnown ceiling_key key) }
    ensures bad { IfErr result (IsUnread ⊥) }
    ensures stays { Stays V.view V.holds V.leaves vault.old vault.new }
    ensures cause { HasCauseOf (V.view vault.old).faults (V.view vault.new).faults result faults.Failed }
    ensures count { OnOk result ((V.view vault.new).faults ≡ (V.view vault.old).faults) }
{
    add_strangers(vault, done, CEILING_KEY - 1, into)?;
    let parts = ceiling_parts(alloc, objects.ceiling())?;
    add_wanted(vault, CEILING_KEY, &parts, into)?;
    // Its contract says that no key lies after it.
    let _behind = next_number(vault, CEILING_KEY, CEILING_KEY);
    Ok(())
}

/// Adds the changes that make a vault hold all objects whole, the ceiling, and nothing else, in the order of their keys.
pub(crate) fn add_all<V: Vault>(
    alloc: Global,
    vault: &mut V,
    objects: &Objects,
    units: &Units,
    into: &mut Vec<Change>,
) -> Result<(), FlushFault>
    requires storable { All IsStorable objects.now.objects }
    requires settles { All (λ o. CanSettle units.now o.number.0 o.body) objects.now.objects }
    requires numbers { All (λ o. 1 ≤ o.number.0) objects.now.objects }
    requires none { into.old.items ≡ [] }
    ensures so_far { OnOk result (AreSoFar (V.view vault.old).keys (V.holds vault.old) (parts_at (closing units.now objects.now)) ceiling_key into.new.items) }
    ensures whole { OnOk result (each_to (parts_at (closing units.now objects.now)) ceiling_key ≡ parts_of_all (closing units.now objects.now)) }
    ensures known { OnOk result ((key : Key) → contains_key (V.view vault.old).keys key ≡ true → IsKnown ceiling_key key) }
    ensures bad { IfErr result (IsUnread ⊥) }
    ensures stays { Stays V.view V.holds V.leaves vault.old vault.new }
    ensures cause { HasCauseOf (V.view vault.old).faults (V.view vault.new).faults result faults.Failed }
    ensures count { OnOk result ((V.view vault.new).faults ≡ (V.view vault.old).faults) }
{
    let done = add_objects(alloc, vault, objects, units, into)?;
    add_rest(alloc, vault, objects, done, into)?;
    Ok(())
}
