//! What differs of an object that a step must persist whole. A journal space only grows, so of one that is kept the pages that its
//! kept bytes fill are not looked at.
ghost use Rattle.std.specs.Prelude.{◌≡◌, ◌*◌, ◌<◌, ◌≤◌, ◌++◌, ℕ, IfErr, IfOk, OnOk, Some, length};
ghost use Rattle.std.specs.FinMap.{get};
ghost use Rattle.s38_base.specs.Faults.{HasCauseOf};
ghost use Rattle.s38_durable_state.specs.Durable.{Durable, whole_stored};
ghost use Rattle.s38_page_diff.specs.Differences.{IsWanted, differences};
ghost use Rattle.s38_image.specs.Images.{image_parts};
ghost use Rattle.s38_image_writer.specs.Parts.{CanSettle};
ghost use Rattle.s38_journals.specs.Journals.{entries_len};
ghost use Rattle.s38_page_diff.specs.reconcile.Replacing.{range_of};
ghost use Rattle.s38_page_diff.specs.reconcile.Walking.{Stays};
ghost use Rattle.s38_rules.specs.state.Held.{object_in};
ghost use Rattle.s38_rules.specs.state.State.{State};
ghost use Rattle.s38_rules.specs.store.Storable.{IsStorable};
ghost use Rattle.s38_flush.specs.Fronts.{AddsAt, front_parts, front_range};
ghost use Rattle.s38_flush.specs.Growing.{tail_parts, tail_range};
ghost use Rattle.s38_page_diff.specs.FlushFaults.{IsUnread};
ghost use Rattle.s38_flush.specs.Stepping.{HasHeader, IsNumber, Precedes};
ghost use Rattle.s38_page_diff.specs.declared.fault.FlushFault.TheVariants as faults;
ghost use Rattle.s38_vault.specs.Content.{Content};

use crate::differing::{add_whole, front_range, kept_len};
use crate::parts::{front_parts, whole_header};
use s38_base::limits::PAGE_BYTES;
use s38_base::{Change, NoMemory, ObjNum};
use s38_commits::Units;
use s38_image::{BODY_PART, needed};
use s38_image_writer::PageWriter;
use s38_journals::Journal;
use s38_objects::Objects;
use s38_page_diff::{FlushFault, PartRange, add_differences};
use s38_rules::{Body, Object};
use s38_vault::Vault;
use std::alloc::Global;

/// The parts of a body of so many bytes from a page on.
fn tail_range(number: u64, first: u32, len: u32) -> PartRange
    requires small { len ≤ 16777216 }
    requires within { 512 * first ≤ len }
    ensures { result ≡ tail_range number first len }
{
    PartRange {
        object: number,
        first: BODY_PART + first,
        end: BODY_PART + needed(len),
    }
}

/// The pages of a journal space from one on.
fn tail_parts(
    alloc: Global,
    number: ObjNum,
    journal: &Journal,
    first: u32,
) -> Result<Vec<Change>, NoMemory>
    requires within { 512 * first ≤ entries_len journal.now.entries }
    ensures parts { IfOk result (λ parts. parts.items ≡ tail_parts number.0 first journal.now.entries) }
    ensures wanted { IfOk result (λ parts. IsWanted (tail_range number.0 first (entries_len journal.now.entries)) parts.items) }
{
    let whole = journal.len();
    let at = PAGE_BYTES * first;
    let len = whole - at;
    let (_kept, tail) = journal.image().split_at(at as usize);
    let parts = Vec::with_capacity(alloc, needed(len) as usize)?;
    let mut writer = PageWriter::new(parts, number.0, BODY_PART + first, len);
    writer.put(tail);
    Ok(writer.finish())
}

/// Adds the changes of a journal space before its body and from a page on.
fn add_grown<V: Vault>(
    alloc: Global,
    vault: &mut V,
    object: &Object,
    journal: &Journal,
    first: u32,
    into: &mut Vec<Change>,
) -> Result<(), FlushFault>
    requires rows { length object.now.rows ≤ 4096 }
    requires number { 1 ≤ object.now.number.0 }
    requires within { 512 * first ≤ entries_len journal.now.entries }
    ensures told { OnOk result ((m : Content) → V.holds vault.old m → into.new.items ≡ into.old.items ++ (differences (get m) (front_range object.now.number.0) (front_parts object.now (entries_len journal.now.entries))
        ++ differences (get m) (tail_range object.now.number.0 first (entries_len journal.now.entries)) (tail_parts object.now.number.0 first journal.now.entries))) }
    ensures adds { OnOk result (AddsAt object.now.number.0 into.old.items into.new.items) }
    ensures bad { IfErr result (IsUnread ⊥) }
    ensures stays { Stays V.view V.holds V.leaves vault.old vault.new }
    ensures cause { HasCauseOf (V.view vault.old).faults (V.view vault.new).faults result faults.Failed }
    ensures count { OnOk result ((V.view vault.new).faults ≡ (V.view vault.old).faults) }
{
    let len = journal.len();
    let front = front_parts(alloc, object, len)?;
    let tail = tail_parts(alloc, object.number, journal, first)?;
    add_differences(vault, front_range(object.number.0), &front, into)?;
    add_differences(vault, tail_range(object.number.0, first, len), &tail, into)?;
    Ok(())
}

/// Adds the changes of an object that must persist whole.
pub(crate) fn add_forced<V: Vault>(
    alloc: Global,
    vault: &mut V,
    objects: &Objects,
    units: &Units,
    object: &Object,
    into: &mut Vec<Change>,
) -> Result<(), FlushFault>
    requires object { IsStorable object.now }
    requires units { CanSettle units.now object.now.number.0 object.now.body }
    requires number { IsNumber object.now.number.0 }
    requires there { object_in objects.now.objects object.now.number.0 ≡ Some object.now }
    ensures told { OnOk result ((m : Content) (d : Durable) (s : State) → V.holds vault.old m → Precedes objects.now units.now m d s
        → into.new.items ≡ into.old.items ++ differences (get m) (range_of object.now.number.0) (image_parts (whole_stored units.now objects.now object.now))) }
    ensures header { HasHeader (whole_stored units.now objects.now object.now) }
    ensures adds { OnOk result (AddsAt object.now.number.0 into.old.items into.new.items) }
    ensures bad { IfErr result (IsUnread ((m : Content) (d : Durable) (s : State) → V.holds vault.old m → Precedes objects.now units.now m d s → ⊥)) }
    ensures stays { Stays V.view V.holds V.leaves vault.old vault.new }
    ensures cause { HasCauseOf (V.view vault.old).faults (V.view vault.new).faults result faults.Failed }
    ensures count { OnOk result ((V.view vault.new).faults ≡ (V.view vault.old).faults) }
{
    // Its contract says that the header is read again.
    let _header = whole_header(object);
    // Its contract says that the name is one.
    let _name = object.id.name.as_bytes();
    let Body::Journal(journal) = &object.body else {
        return add_whole(alloc, vault, objects, units, object, into);
    };
    match kept_len(vault, object.number.0)? {
        Some(len) => {
            let first = len.min(journal.len()) / PAGE_BYTES;
            add_grown(alloc, vault, object, journal, first, into)
        }
        None => add_whole(alloc, vault, objects, units, object, into),
    }
}
