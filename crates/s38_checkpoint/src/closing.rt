//! The checkpoint: what a run leaves is written at its end.
ghost use Rattle.std.specs.Prelude.{◌≡◌, ◌≢◌, ◌↔◌, ◌⊎◌, ◌<◌, ◌≤◌, ◌++◌, ◌∷◌, ℕ, All, IfErr, IfOk, List, None, OnErr, OnOk, [], length};
ghost use Rattle.std.specs.List.{flat_map};
ghost use Rattle.s38_base.specs.Faults.{HasCauseOf};
ghost use Rattle.s38_checkpoint.specs.Closing.{closing, content_of, kept_whole};
ghost use Rattle.s38_checkpoint.specs.Ensuring.{EachFits, FirstFit, Fits, IsLeft};
ghost use Rattle.s38_checkpoint.specs.Passing.{last_object_number};
ghost use Rattle.s38_checkpoint.specs.Waiting.{IsNext, IsStoppedBy, Waits};
ghost use Rattle.s38_durable_state.specs.Durable.{kept};
ghost use Rattle.s38_durable_state.specs.Represents.{parts_at};
ghost use Rattle.s38_page_diff.specs.FlushFaults.{IfBad};
ghost use Rattle.s38_page_diff.specs.declared.fault.FlushFault.TheVariants as faults;
ghost use Rattle.s38_image.specs.PartPlaces.{ceiling_key};
ghost use Rattle.s38_image.specs.Images.{image_parts};
ghost use Rattle.s38_image_writer.specs.Parts.{CanSettle};
ghost use Rattle.s38_page_diff.specs.reconcile.Replacing.{each_to};
ghost use Rattle.s38_page_diff.specs.reconcile.Walking.{AreFineTo, AreSoFar};
ghost use Rattle.s38_rules.specs.store.Storable.{IsStorable};
ghost use Rattle.s38_rules.specs.declared.object.Object.{Object};
ghost use Rattle.s38_vault.specs.Content.{Content};
ghost use Rattle.s38_vault.specs.Directory.{new_keys};

use crate::differences::add_rest;
use crate::next::add_next;
use s38_base::Change;
use s38_commits::Units;
use s38_objects::Objects;
use s38_page_diff::{FlushFault, make_place, put_changes};
use s38_rules::Object;
use s38_vault::Vault;
use std::alloc::Global;

/// Keeps the next object. Its changes wait, with those that wait already, while one put takes them all. Where a journal space
/// of a greater number is kept with it they are put, since the keys of the next object come before.
fn keep_next<V: Vault>(
    alloc: Global,
    vault: &mut V,
    objects: &Objects,
    units: &Units,
    done: u64,
    object: &Object,
    changes: &mut Vec<Change>,
) -> Result<(), FlushFault>
    requires storable { All IsStorable objects.now.objects }
    requires settles { All (λ o. CanSettle units.now o.number.0 o.body) objects.now.objects }
    requires numbers { All (λ o. 1 ≤ o.number.0) objects.now.objects }
    requires there { (gone : List Object) × ((rest : List Object) × IsNext objects.now gone rest object.now done) }
    requires so_far { AreSoFar (V.view vault.old).keys (V.holds vault.old) (parts_at (closing units.now objects.now)) done changes.old.items }
    requires room { new_keys (V.view vault.old).keys changes.old.items ≤ (V.view vault.old).free }

    // The changes up to this object wait, or are put.
    ensures so_far { OnOk result (AreSoFar (V.view vault.new).keys (V.holds vault.new) (parts_at (closing units.now objects.now)) object.now.number.0 changes.new.items) }
    ensures room { OnOk result (new_keys (V.view vault.new).keys changes.new.items ≤ (V.view vault.new).free) }
    ensures fine { OnOk result (((n : Content) → V.holds vault.old n → AreFineTo (V.view vault.old).keys done) → (n : Content) → V.holds vault.new n → AreFineTo (V.view vault.new).keys object.now.number.0) }
    ensures waits { OnOk result ((m n : Content) (gone rest : List Object) → IsNext objects.now gone rest object.now done → V.holds vault.old n → Waits (V.view vault.old).shape.most m (closing units.now objects.now) objects.now gone n changes.old.items
        → (n : Content) × (V.holds vault.new n × Waits (V.view vault.new).shape.most m (closing units.now objects.now) objects.now (gone ++ object.now ∷ []) n changes.new.items)) }
    ensures fits { OnOk result ((m n : Content) (gone rest : List Object) → IsNext objects.now gone rest object.now done → V.holds vault.old n → Waits (V.view vault.old).shape.most m (closing units.now objects.now) objects.now gone n changes.old.items
        → Fits (V.view vault.old).shape.parts m (closing units.now objects.now) objects.now gone (object.now ∷ rest)) }

    // Else the objects before it are kept, or some of them.
    ensures stopped { IfErr result (λ fault. (m n : Content) (gone rest : List Object) → IsNext objects.now gone rest object.now done → V.holds vault.old n → Waits (V.view vault.old).shape.most m (closing units.now objects.now) objects.now gone n changes.old.items
        → FirstFit (V.view vault.old).shape.parts m (closing units.now objects.now) objects.now (length gone) → IsStoppedBy (V.holds vault.new) (V.view vault.old).shape.parts m (closing units.now objects.now) objects.now fault) }
    ensures bad { IfErr result (IfBad ⊥) }

    // A crash leaves the first objects kept.
    ensures past { (t : ℕ) (m : Content) → t ≤ (V.view vault.old).moment → V.leaves vault.old t m ↔ V.leaves vault.new t m }
    ensures during { (m n : Content) (gone rest : List Object) → IsNext objects.now gone rest object.now done → V.holds vault.old n → Waits (V.view vault.old).shape.most m (closing units.now objects.now) objects.now gone n changes.old.items
        → (t : ℕ) (x : Content) → (V.view vault.old).moment < t → t ≤ (V.view vault.new).moment → V.leaves vault.new t x → IsLeft (V.view vault.old).shape.most m (closing units.now objects.now) objects.now x }
    ensures later { (V.view vault.old).moment ≤ (V.view vault.new).moment }

    // Faults, and what no call changes.
    ensures shape { (V.view vault.new).shape ≡ (V.view vault.old).shape }
    ensures cause { HasCauseOf (V.view vault.old).faults (V.view vault.new).faults result faults.Failed }
    ensures count { OnOk result ((V.view vault.new).faults ≡ (V.view vault.old).faults) }
{
    let mark = changes.len();
    let ahead = add_next(alloc, vault, objects, units, done, object, changes)?;
    make_place(vault, changes, mark)?;
    if ahead {
        put_changes(vault, changes)?;
        changes.clear();
    }
    // Its contract says that the keys are those of the content.
    let _free = vault.free();
    Ok(())
}

/// Keeps all objects, one after another. Some of the changes still wait. It answers the number of the last object, 0 without
/// one.
fn keep_objects<V: Vault>(
    alloc: Global,
    vault: &mut V,
    objects: &Objects,
    units: &Units,
    changes: &mut Vec<Change>,
) -> Result<u64, FlushFault>
    requires storable { All IsStorable objects.now.objects }
    requires settles { All (λ o. CanSettle units.now o.number.0 o.body) objects.now.objects }
    requires numbers { All (λ o. 1 ≤ o.number.0) objects.now.objects }
    requires none { changes.old.items ≡ [] }

    // All changes up to the last object wait, or are put.
    ensures so_far { IfOk result (λ done. AreSoFar (V.view vault.new).keys (V.holds vault.new) (parts_at (closing units.now objects.now)) done changes.new.items) }
    ensures room { OnOk result (new_keys (V.view vault.new).keys changes.new.items ≤ (V.view vault.new).free) }
    ensures fine { IfOk result (λ done. (n : Content) → V.holds vault.new n → AreFineTo (V.view vault.new).keys done) }
    ensures last { IfOk result (λ done. (done ≡ last_object_number objects.now.objects) × (done < ceiling_key)) }
    ensures whole { IfOk result (λ done. each_to (parts_at (closing units.now objects.now)) done ≡ flat_map image_parts (kept_whole units.now objects.now)) }
    ensures behind { IfOk result (λ done. (n : ℕ) → done < n → kept (kept_whole units.now objects.now) n ≡ None) }
    ensures waits { OnOk result ((m : Content) → V.holds vault.old m → (n : Content) × (V.holds vault.new n × Waits (V.view vault.old).shape.most m (closing units.now objects.now) objects.now objects.now.objects n changes.new.items)) }
    ensures fits { OnOk result ((m : Content) → V.holds vault.old m → FirstFit (V.view vault.old).shape.parts m (closing units.now objects.now) objects.now (length objects.now.objects)) }

    // Else the first objects are kept.
    ensures stopped { IfErr result (λ fault. (m : Content) → V.holds vault.old m → IsStoppedBy (V.holds vault.new) (V.view vault.old).shape.parts m (closing units.now objects.now) objects.now fault) }
    ensures bad { IfErr result (IfBad ⊥) }

    // A crash leaves the first objects kept.
    ensures past { (t : ℕ) (m : Content) → t ≤ (V.view vault.old).moment → V.leaves vault.old t m ↔ V.leaves vault.new t m }
    ensures during { (m : Content) → V.holds vault.old m → (t : ℕ) (x : Content) → (V.view vault.old).moment < t → t ≤ (V.view vault.new).moment → V.leaves vault.new t x → IsLeft (V.view vault.old).shape.most m (closing units.now objects.now) objects.now x }
    ensures later { (V.view vault.old).moment ≤ (V.view vault.new).moment }

    // Faults, and what no call changes.
    ensures shape { (V.view vault.new).shape ≡ (V.view vault.old).shape }
    ensures cause { HasCauseOf (V.view vault.old).faults (V.view vault.new).faults result faults.Failed }
    ensures count { OnOk result ((V.view vault.new).faults ≡ (V.view vault.old).faults) }
{
    // Their contracts say that the keys are those of the content, and that each number is below the next one.
    let _free = vault.free();
    let _next = objects.next_number();
    let mut done = 0;
    for object in objects.all() {
        keep_next(alloc, vault, objects, units, done, object, changes)?;
        done = object.number.0;
    }
    Ok(done)
}

/// Keeps all objects, one after another in the order of their numbers, each as it is with every uncommitted change taken
/// back, and with a data space its journal space; then the ceiling; and takes away what else the vault has. Only pages that
/// differ are put, and what one object needs goes into one put, with as many other objects as that takes, unless it needs
/// more than a put. `Full` says how many new parts the first object needs for which there is no room, and how many are free
/// after those before it. Where each finds room in its turn, all are kept.
pub fn close<V: Vault>(
    alloc: Global,
    vault: &mut V,
    objects: &Objects,
    units: &Units,
) -> Result<(), FlushFault>
    requires storable { All IsStorable objects.now.objects }
    requires settles { All (λ o. CanSettle units.now o.number.0 o.body) objects.now.objects }
    requires numbers { All (λ o. 1 ≤ o.number.0) objects.now.objects }

    // The vault holds what is durable, and nothing else.
    ensures holds { OnOk result ((m : Content) → V.holds vault.old m → V.holds vault.new (content_of (closing units.now objects.now))) }
    ensures told { OnOk result ((n : Content) → V.holds vault.new n → n ≡ content_of (closing units.now objects.now)) }

    // Each object found room in its turn.
    ensures fits { OnOk result ((m : Content) → V.holds vault.old m → EachFits (V.view vault.old).shape.parts m (closing units.now objects.now) objects.now) }

    // Else the first objects are kept.
    ensures stopped { IfErr result (λ fault. (m : Content) → V.holds vault.old m → IsStoppedBy (V.holds vault.new) (V.view vault.old).shape.parts m (closing units.now objects.now) objects.now fault) }
    ensures bad { IfErr result (IfBad ⊥) }

    // A crash leaves the first objects kept, or all; where the next one needs several puts, some of these may be made.
    ensures past { (t : ℕ) (m : Content) → t ≤ (V.view vault.old).moment → V.leaves vault.old t m ↔ V.leaves vault.new t m }
    ensures during { (m : Content) → V.holds vault.old m → (t : ℕ) (n : Content) → (V.view vault.old).moment < t → t ≤ (V.view vault.new).moment → V.leaves vault.new t n
        → IsLeft (V.view vault.old).shape.most m (closing units.now objects.now) objects.now n }
    ensures after { OnOk result ((m n : Content) → V.holds vault.old m → V.leaves vault.new (V.view vault.new).moment n → n ≡ content_of (closing units.now objects.now)) }
    ensures later { (V.view vault.old).moment ≤ (V.view vault.new).moment }

    // Faults, and what no call changes.
    ensures shape { (V.view vault.new).shape ≡ (V.view vault.old).shape }
    ensures cause { HasCauseOf (V.view vault.old).faults (V.view vault.new).faults result faults.Failed }
    ensures count { OnOk result ((V.view vault.new).faults ≡ (V.view vault.old).faults) }
{
    let mut changes = Vec::new(alloc);
    let done = keep_objects(alloc, vault, objects, units, &mut changes)?;
    let mark = changes.len();
    add_rest(alloc, vault, objects, done, &mut changes)?;
    make_place(vault, &mut changes, mark)?;
    put_changes(vault, &changes)?;
    Ok(())
}
