//! What differs of all objects that a step must persist, and of the ceiling.
ghost use Rattle.std.specs.Prelude.{◌≡◌, ◌<◌, ◌++◌, ℕ, All, IfErr, [], OnOk, Some, true};
ghost use Rattle.std.specs.FinMap.{get};
ghost use Rattle.std.specs.List.{AllByRecursion, list_any};
ghost use Rattle.s38_base.specs.Faults.{HasCauseOf};
ghost use Rattle.s38_durable_state.specs.Durable.{Durable, durable_after, kept};
ghost use Rattle.s38_durable_state.specs.Represents.{parts_at, parts_in};
ghost use Rattle.s38_page_diff.specs.Differences.{differences};
ghost use Rattle.s38_image.specs.PartPlaces.{ceiling_key};
ghost use Rattle.s38_image_writer.specs.Parts.{CanSettle};
ghost use Rattle.s38_page_diff.specs.reconcile.Replacing.{range_of};
ghost use Rattle.s38_page_diff.specs.reconcile.Walking.{Stays};
ghost use Rattle.s38_laws_objects.specs.Outline.{is_forced};
ghost use Rattle.s38_rules.specs.store.Forcing.{is_whole};
ghost use Rattle.s38_rules.specs.state.Held.{object_in};
ghost use Rattle.s38_rules.specs.state.State.{State};
ghost use Rattle.s38_rules.specs.store.Storable.{IsStorable};
ghost use Rattle.s38_space_map.specs.Forcings.{all_forced, forced_as};
ghost use Rattle.s38_flush.specs.Fronts.{AddsAt};
ghost use Rattle.s38_flush.specs.Numbers.{numbers};
ghost use Rattle.s38_page_diff.specs.FlushFaults.{IsUnread};
ghost use Rattle.s38_flush.specs.Stepping.{AreNumbers, HasHeaderIn, IsNumber, Precedes, ceiling_changes, is_forced_ceiling, kept_there, object_changes};
ghost use Rattle.s38_page_diff.specs.declared.fault.FlushFault.TheVariants as faults;
ghost use Rattle.s38_vault.specs.Content.{AreRising, Content, HaveObjects};

use crate::differing::{add_followed, add_gone};
use crate::grown::add_forced;
use crate::numbers::numbers_of;
use s38_base::{Change, ObjNum};
use s38_checkpoint::ceiling_parts;
use s38_commits::Units;
use s38_image::CEILING_KEY;
use s38_objects::Objects;
use s38_page_diff::{FlushFault, add_wanted};
use s38_rules::Object;
use s38_space_map::Forcing;
use s38_vault::Vault;
use std::alloc::Global;

/// Whether this says that an object must persist whole.
fn is_whole(one: Forcing, number: u64) -> bool
    ensures { result ≡ is_whole number (forced_as one) }
{
    match one {
        Forcing::Whole(object) => object.0 == number,
        _ => false,
    }
}

/// Whether an object must persist whole.
fn forces_whole(all: &[Forcing], number: u64) -> bool
    ensures { result ≡ list_any (is_whole number) (all_forced all.now) }
{
    for one in all {
        if is_whole(*one, number) {
            return true;
        }
    }
    false
}

/// Whether this says that the ceiling must persist.
fn is_ceiling(one: Forcing) -> bool
    ensures { result ≡ is_forced_ceiling (forced_as one) }
{
    match one {
        Forcing::Ceiling => true,
        _ => false,
    }
}

/// Whether the ceiling must persist.
fn forces_ceiling(all: &[Forcing]) -> bool
    ensures { result ≡ list_any is_forced_ceiling (all_forced all.now) }
{
    for one in all {
        if is_ceiling(*one) {
            return true;
        }
    }
    false
}

/// Adds the changes of an object that is there. One that is not on disk is not kept.
fn add_there<V: Vault>(
    alloc: Global,
    vault: &mut V,
    objects: &Objects,
    units: &Units,
    all: &[Forcing],
    object: &Object,
    into: &mut Vec<Change>,
) -> Result<(), FlushFault>
    requires object { IsStorable object.now }
    requires units { CanSettle units.now object.now.number.0 object.now.body }
    requires number { IsNumber object.now.number.0 }
    requires there { object_in objects.now.objects object.now.number.0 ≡ Some object.now }
    ensures told { OnOk result ((m : Content) (d : Durable) (s : State) → V.holds vault.old m → Precedes objects.now units.now m d s
        → into.new.items ≡ into.old.items ++ differences (get m) (range_of object.now.number.0) (parts_in (kept_there (all_forced all.now) s d.objects object.now))) }
    ensures header { OnOk result ((m : Content) (d : Durable) (s : State) → V.holds vault.old m → Precedes objects.now units.now m d s → HasHeaderIn (kept_there (all_forced all.now) s d.objects object.now)) }
    ensures adds { OnOk result (AddsAt object.now.number.0 into.old.items into.new.items) }
    ensures bad { IfErr result (IsUnread ((m : Content) (d : Durable) (s : State) → V.holds vault.old m → Precedes objects.now units.now m d s → ⊥)) }
    ensures stays { Stays V.view V.holds V.leaves vault.old vault.new }
    ensures cause { HasCauseOf (V.view vault.old).faults (V.view vault.new).faults result faults.Failed }
    ensures count { OnOk result ((V.view vault.new).faults ≡ (V.view vault.old).faults) }
{
    if !object.on_disk {
        return add_gone(vault, object.number.0, into);
    }
    if forces_whole(all, object.number.0) {
        return add_forced(alloc, vault, objects, units, object, into);
    }
    add_followed(alloc, vault, objects, units, object, into)
}

/// Adds the changes at the number of an object. Nothing is kept of one that is not there.
fn add_object<V: Vault>(
    alloc: Global,
    vault: &mut V,
    objects: &Objects,
    units: &Units,
    all: &[Forcing],
    number: u64,
    into: &mut Vec<Change>,
) -> Result<(), FlushFault>
    requires storable { All IsStorable objects.now.objects }
    requires settles { All (λ o. CanSettle units.now o.number.0 o.body) objects.now.objects }
    requires number { IsNumber number }
    ensures told { OnOk result ((m : Content) (d : Durable) (s : State) → V.holds vault.old m → Precedes objects.now units.now m d s
        → into.new.items ≡ into.old.items ++ differences (get m) (range_of number) (parts_at (durable_after (all_forced all.now) d s) number)) }
    ensures header { OnOk result ((m : Content) (d : Durable) (s : State) → V.holds vault.old m → Precedes objects.now units.now m d s → HasHeaderIn (kept (durable_after (all_forced all.now) d s).objects number)) }
    ensures adds { OnOk result (AddsAt number into.old.items into.new.items) }
    ensures bad { IfErr result (IsUnread ((m : Content) (d : Durable) (s : State) → V.holds vault.old m → Precedes objects.now units.now m d s → ⊥)) }
    ensures stays { Stays V.view V.holds V.leaves vault.old vault.new }
    ensures cause { HasCauseOf (V.view vault.old).faults (V.view vault.new).faults result faults.Failed }
    ensures count { OnOk result ((V.view vault.new).faults ≡ (V.view vault.old).faults) }
{
    // Its contract says that the numbers of objects rise.
    let _count = objects.len();
    match objects.get(ObjNum(number)) {
        Some(object) => add_there(alloc, vault, objects, units, all, object, into),
        None => add_gone(vault, number, into),
    }
}

/// Adds the changes at the numbers of all objects that must persist.
fn add_each<V: Vault>(
    alloc: Global,
    vault: &mut V,
    objects: &Objects,
    units: &Units,
    all: &[Forcing],
    forced: &[u64],
    into: &mut Vec<Change>,
) -> Result<(), FlushFault>
    requires storable { All IsStorable objects.now.objects }
    requires settles { All (λ o. CanSettle units.now o.number.0 o.body) objects.now.objects }
    requires numbers { AreNumbers (all_forced all.now) }
    requires forced { forced.now ≡ numbers (all_forced all.now) }
    requires none { into.old.items ≡ [] }
    ensures told { OnOk result ((m : Content) (d : Durable) (s : State) → V.holds vault.old m → Precedes objects.now units.now m d s
        → into.new.items ≡ object_changes (all_forced all.now) (get m) (durable_after (all_forced all.now) d s)) }
    ensures headers { OnOk result ((m : Content) (d : Durable) (s : State) → V.holds vault.old m → Precedes objects.now units.now m d s
        → (n : ℕ) → is_forced n (all_forced all.now) ≡ true → HasHeaderIn (kept (durable_after (all_forced all.now) d s).objects n)) }
    ensures rising { OnOk result (AreRising into.new.items) }
    ensures objects { OnOk result (AllByRecursion (λ c. IsNumber c.key.object) into.new.items) }
    ensures bad { IfErr result (IsUnread ((m : Content) (d : Durable) (s : State) → V.holds vault.old m → Precedes objects.now units.now m d s → ⊥)) }
    ensures stays { Stays V.view V.holds V.leaves vault.old vault.new }
    ensures cause { HasCauseOf (V.view vault.old).faults (V.view vault.new).faults result faults.Failed }
    ensures count { OnOk result ((V.view vault.new).faults ≡ (V.view vault.old).faults) }
{
    for number in forced {
        add_object(alloc, vault, objects, units, all, *number, into)?;
    }
    Ok(())
}

/// Adds the changes of all objects that must persist, in the order of their keys.
pub(crate) fn add_objects<V: Vault>(
    alloc: Global,
    vault: &mut V,
    objects: &Objects,
    units: &Units,
    all: &[Forcing],
    into: &mut Vec<Change>,
) -> Result<(), FlushFault>
    requires storable { All IsStorable objects.now.objects }
    requires settles { All (λ o. CanSettle units.now o.number.0 o.body) objects.now.objects }
    requires numbers { AreNumbers (all_forced all.now) }
    requires none { into.old.items ≡ [] }
    ensures told { OnOk result ((m : Content) (d : Durable) (s : State) → V.holds vault.old m → Precedes objects.now units.now m d s
        → into.new.items ≡ object_changes (all_forced all.now) (get m) (durable_after (all_forced all.now) d s)) }
    ensures headers { OnOk result ((m : Content) (d : Durable) (s : State) → V.holds vault.old m → Precedes objects.now units.now m d s
        → (n : ℕ) → is_forced n (all_forced all.now) ≡ true → HasHeaderIn (kept (durable_after (all_forced all.now) d s).objects n)) }
    ensures rising { OnOk result (AreRising into.new.items) }
    ensures objects { OnOk result (AllByRecursion (λ c. IsNumber c.key.object) into.new.items) }
    ensures bad { IfErr result (IsUnread ((m : Content) (d : Durable) (s : State) → V.holds vault.old m → Precedes objects.now units.now m d s → ⊥)) }
    ensures stays { Stays V.view V.holds V.leaves vault.old vault.new }
    ensures cause { HasCauseOf (V.view vault.old).faults (V.view vault.new).faults result faults.Failed }
    ensures count { OnOk result ((V.view vault.new).faults ≡ (V.view vault.old).faults) }
{
    let forced = numbers_of(alloc, all)?;
    add_each(alloc, vault, objects, units, all, &forced, into)
}

/// Adds the change of the ceiling, where it must persist.
pub(crate) fn add_ceiling<V: Vault>(
    alloc: Global,
    vault: &mut V,
    objects: &Objects,
    all: &[Forcing],
    into: &mut Vec<Change>,
) -> Result<(), FlushFault>
    requires none { into.old.items ≡ [] }
    ensures told { OnOk result ((m : Content) (d : Durable) (s : State) → V.holds vault.old m → s.held ≡ objects.now
        → into.new.items ≡ ceiling_changes (all_forced all.now) (get m) (durable_after (all_forced all.now) d s)) }
    ensures rising { OnOk result (AreRising into.new.items) }
    ensures own { OnOk result (AllByRecursion (λ c. c.key.object ≡ ceiling_key) into.new.items) }
    ensures bad { IfErr result (IsUnread ⊥) }
    ensures stays { Stays V.view V.holds V.leaves vault.old vault.new }
    ensures cause { HasCauseOf (V.view vault.old).faults (V.view vault.new).faults result faults.Failed }
    ensures count { OnOk result ((V.view vault.new).faults ≡ (V.view vault.old).faults) }
{
    if !forces_ceiling(all) {
        return Ok(());
    }
    let parts = ceiling_parts(alloc, objects.ceiling())?;
    add_wanted(vault, CEILING_KEY, &parts, into)?;
    Ok(())
}
