//! The changes of the next object.
ghost use Rattle.std.specs.Prelude.{◌≡◌, ◌<◌, ◌≤◌, ◌++◌, ℕ, All, IfErr, IfOk, IfSome, List, None, OnOk, Some, [], ◌∷◌};
ghost use Rattle.std.specs.Option.{option_copied, option_map};
ghost use Rattle.s38_base.specs.Faults.{HasCauseOf};
ghost use Rattle.s38_base.specs.declared.id.ObjNum.{ObjNum};
ghost use Rattle.s38_base.specs.declared.page.Change.{Change};
ghost use Rattle.s38_checkpoint.specs.Closing.{closing};
ghost use Rattle.s38_checkpoint.specs.Ensuring.{journal_ahead};
ghost use Rattle.s38_checkpoint.specs.Waiting.{AddsNext, IsNext};
ghost use Rattle.s38_durable_state.specs.Represents.{parts_at};
ghost use Rattle.s38_page_diff.specs.FlushFaults.{IsUnread};
ghost use Rattle.s38_page_diff.specs.declared.fault.FlushFault.TheVariants as faults;
ghost use Rattle.s38_image_writer.specs.Parts.{CanSettle};
ghost use Rattle.s38_page_diff.specs.reconcile.Walking.{AreFineTo, AreSoFar, Stays};
ghost use Rattle.s38_rules.specs.state.Held.{object};
ghost use Rattle.s38_rules.specs.state.Journaling.{journal_for};
ghost use Rattle.s38_rules.specs.store.Storable.{IsStorable};
ghost use Rattle.s38_rules.specs.declared.object.Object.{Object};

use crate::differences::add_object;
use crate::parts::data_port;
use s38_base::{Change, ObjNum};
use s38_commits::Units;
use s38_objects::Objects;
use s38_page_diff::{FlushFault, add_strangers};
use s38_rules::Object;
use s38_vault::Vault;
use std::alloc::Global;

/// The journal space of a data space, if it is journaled.
fn journal_of(objects: &Objects, space: ObjNum) -> Option<ObjNum>
    ensures { option_map (λ (n : ObjNum). n.0) result ≡ journal_for objects.now space.0 }
{
    let port = objects.port(data_port(objects, space))?;
    objects.journal(port.journal)?;
    Some(port.journal)
}

/// The journal space that is kept with a data space: it is on disk, and its number is greater.
fn journal_ahead(objects: &Objects, space: ObjNum) -> Option<&Object>
    ensures number { option_map (λ (o : Object). o.number.0) (option_copied result) ≡ journal_ahead objects.now space.0 }
    ensures there { IfSome result (λ journal. object objects.now journal.now.number.0 ≡ Some journal.now) }
    ensures above { IfSome result (λ journal. space.0 < journal.now.number.0) }
{
    let journal = objects.get(journal_of(objects, space)?)?;
    if space.0 < journal.number.0 && journal.on_disk {
        Some(journal)
    } else {
        None
    }
}

/// Adds the changes at the numbers after one up to the next object's, and those of the journal space that is kept with
/// it. It answers whether there are such of the journal space.
pub(crate) fn add_next<V: Vault>(
    alloc: Global,
    vault: &mut V,
    objects: &Objects,
    units: &Units,
    done: u64,
    object: &Object,
    into: &mut Vec<Change>,
) -> Result<bool, FlushFault>
    requires storable { All IsStorable objects.now.objects }
    requires settles { All (λ o. CanSettle units.now o.number.0 o.body) objects.now.objects }
    requires numbers { All (λ o. 1 ≤ o.number.0) objects.now.objects }
    requires there { (gone : List Object) × ((rest : List Object) × IsNext objects.now gone rest object.now done) }
    requires so_far { AreSoFar (V.view vault.old).keys (V.holds vault.old) (parts_at (closing units.now objects.now)) done into.old.items }
    ensures adds { IfOk result (λ ahead. AddsNext (V.view vault.old).keys (V.holds vault.old) (parts_at (closing units.now objects.now)) object.now.number.0 (journal_ahead objects.now object.now.number.0) ahead into.new.items) }
    ensures kept { OnOk result ((rest : List Change) × (into.new.items ≡ into.old.items ++ rest)) }
    ensures low { OnOk result (done < object.now.number.0) }
    ensures gap { OnOk result ((k : ℕ) → done < k → k < object.now.number.0 → parts_at (closing units.now objects.now) k ≡ []) }
    ensures fine { OnOk result (AreFineTo (V.view vault.old).keys done → AreFineTo (V.view vault.old).keys object.now.number.0) }
    ensures bad { IfErr result (IsUnread ⊥) }
    ensures stays { Stays V.view V.holds V.leaves vault.old vault.new }
    ensures cause { HasCauseOf (V.view vault.old).faults (V.view vault.new).faults result faults.Failed }
    ensures count { OnOk result ((V.view vault.new).faults ≡ (V.view vault.old).faults) }
{
    // Their contracts say that numbers rise, and that each is below the next one.
    let _all = objects.all();
    let _next = objects.next_number();
    add_strangers(vault, done, object.number.0 - 1, into)?;
    add_object(alloc, vault, objects, units, object, into)?;
    let before = into.len();
    if let Some(journal) = journal_ahead(objects, object.number) {
        add_object(alloc, vault, objects, units, journal, into)?;
    }
    Ok(into.len() > before)
}
