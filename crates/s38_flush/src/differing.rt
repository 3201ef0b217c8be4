//! What differs at the number of an object after a step.
ghost use Rattle.std.specs.Prelude.{◌≡◌, ◌<◌, ◌≤◌, ◌++◌, ℕ, IfErr, IfOk, [], ◌≢◌, None, OnOk, Some, is_some, length, true};
ghost use Rattle.std.specs.FinMap.{get};
ghost use Rattle.std.specs.Option.{option_map};
ghost use Rattle.s38_base.specs.Faults.{HasCauseOf};
ghost use Rattle.s38_durable_state.specs.Durable.{Durable, followed_or_whole, kept, whole_stored};
ghost use Rattle.s38_page_diff.specs.Differences.{differences};
ghost use Rattle.s38_image.specs.Fitting.{header_codec};
ghost use Rattle.s38_image.specs.Images.{image_parts};
ghost use Rattle.s38_image_writer.specs.Parts.{CanSettle, header_with};
ghost use Rattle.s38_page_diff.specs.reconcile.Replacing.{range_of};
ghost use Rattle.s38_page_diff.specs.reconcile.Walking.{Stays};
ghost use Rattle.s38_rules.specs.state.Held.{object_in};
ghost use Rattle.s38_rules.specs.state.Parts.{profile_of};
ghost use Rattle.s38_rules.specs.state.State.{State};
ghost use Rattle.s38_rules.specs.store.Storable.{IsStorable};
ghost use Rattle.s38_flush.specs.Fronts.{AddsAt, front_parts, front_range, len_in};
ghost use Rattle.s38_page_diff.specs.FlushFaults.{IsUnread};
ghost use Rattle.s38_flush.specs.Stepping.{HasHeader, IsNumber, Precedes};
ghost use Rattle.s38_page_diff.specs.declared.fault.FlushFault.TheVariants as faults;
ghost use Rattle.s38_vault.specs.Content.{Content};

use crate::parts::{front_parts, whole_header};
use s38_base::{Change, Key, Page};
use s38_checkpoint::whole_parts;
use s38_codec::ReadFault;
use s38_commits::Units;
use s38_image::{BODY_PART, header_of};
use s38_objects::Objects;
use s38_page_diff::{FlushFault, PartRange, add_differences, add_wanted};
use s38_rules::{Body, Object};
use s38_vault::Vault;
use std::alloc::Global;

/// How many bytes the body of an object has by the page of its header.
fn len_in(object: u64, page: &Page) -> Result<u32, FlushFault>
    ensures len { IfOk result (λ len. len_in page.now ≡ Some len) }
    ensures bad { IfErr result (IsUnread (len_in page.now ≡ None)) }
    ensures failed { IfErr result (λ fault. fault ≢ faults.Failed) }
{
    match header_of(&page.bytes) {
        Ok(header) => Ok(header.body),
        Err(ReadFault::BadForm) => Err(FlushFault::BadHeader { object }),
        Err(ReadFault::NoMemory) => Err(FlushFault::NoMemory),
    }
}

/// How many bytes the body has that is kept of an object, None where nothing is kept of it. The vault stays as it was, but
/// for its count of faults.
pub(crate) fn kept_len<V: Vault>(vault: &mut V, object: u64) -> Result<Option<u32>, FlushFault>
    ensures told { IfOk result (λ found. (m : Content) → V.holds vault.old m → option_map len_in (get m (record { object = object; part = 0 })) ≡ option_map (λ len. Some len) found) }
    ensures bad { IfErr result (IsUnread ((m : Content) → V.holds vault.old m → option_map len_in (get m (record { object = object; part = 0 })) ≡ Some None)) }
    ensures stays { Stays V.view V.holds V.leaves vault.old vault.new }
    ensures cause { HasCauseOf (V.view vault.old).faults (V.view vault.new).faults result faults.Failed }
    ensures count { OnOk result ((V.view vault.new).faults ≡ (V.view vault.old).faults) }
{
    let found = vault.get(Key { object, part: 0 })?;
    match found {
        Some(page) => {
            let len = len_in(object, &page)?;
            Ok(Some(len))
        }
        None => Ok(None),
    }
}

/// Adds the changes of an object that is kept as it is.
pub(crate) fn add_whole<V: Vault>(
    alloc: Global,
    vault: &mut V,
    objects: &Objects,
    units: &Units,
    object: &Object,
    into: &mut Vec<Change>,
) -> Result<(), FlushFault>
    requires object { IsStorable object.now }
    requires units { CanSettle units.now object.now.number.0 object.now.body }
    requires number { 1 ≤ object.now.number.0 }
    ensures told { OnOk result ((m : Content) → V.holds vault.old m → into.new.items ≡ into.old.items ++ differences (get m) (range_of object.now.number.0) (image_parts (whole_stored units.now objects.now object.now))) }
    ensures header { HasHeader (whole_stored units.now objects.now object.now) }
    ensures adds { OnOk result (AddsAt object.now.number.0 into.old.items into.new.items) }
    ensures bad { IfErr result (IsUnread ⊥) }
    ensures stays { Stays V.view V.holds V.leaves vault.old vault.new }
    ensures cause { HasCauseOf (V.view vault.old).faults (V.view vault.new).faults result faults.Failed }
    ensures count { OnOk result ((V.view vault.new).faults ≡ (V.view vault.old).faults) }
{
    // Its contract says that the header is read again.
    let _header = whole_header(object);
    let parts = whole_parts(alloc, objects, units, object)?;
    add_wanted(vault, object.number.0, &parts, into)?;
    Ok(())
}

/// Adds the changes of an object of which nothing is kept.
pub(crate) fn add_gone<V: Vault>(
    vault: &mut V,
    number: u64,
    into: &mut Vec<Change>,
) -> Result<(), FlushFault>
    requires { 1 ≤ number }
    ensures told { OnOk result ((m : Content) → V.holds vault.old m → into.new.items ≡ into.old.items ++ differences (get m) (range_of number) []) }
    ensures adds { OnOk result (AddsAt number into.old.items into.new.items) }
    ensures bad { IfErr result (IsUnread ⊥) }
    ensures stays { Stays V.view V.holds V.leaves vault.old vault.new }
    ensures cause { HasCauseOf (V.view vault.old).faults (V.view vault.new).faults result faults.Failed }
    ensures count { OnOk result ((V.view vault.new).faults ≡ (V.view vault.old).faults) }
{
    add_wanted(vault, number, &[], into)?;
    Ok(())
}

/// The parts of a number before the body.
pub(crate) fn front_range(number: u64) -> PartRange
    ensures { result ≡ front_range number }
{
    PartRange {
        object: number,
        first: 0,
        end: BODY_PART,
    }
}

/// Adds the changes of the header and the rows of an object whose body has so many bytes.
fn add_front<V: Vault>(
    alloc: Global,
    vault: &mut V,
    object: &Object,
    len: u32,
    into: &mut Vec<Change>,
) -> Result<(), FlushFault>
    requires rows { length object.now.rows ≤ 4096 }
    requires number { 1 ≤ object.now.number.0 }
    ensures told { OnOk result ((m : Content) → V.holds vault.old m → into.new.items ≡ into.old.items ++ differences (get m) (front_range object.now.number.0) (front_parts object.now len)) }
    ensures header { OnOk result (header_codec.fits (header_with object.now len) ≡ true) }
    ensures adds { OnOk result (AddsAt object.now.number.0 into.old.items into.new.items) }
    ensures bad { IfErr result (IsUnread ⊥) }
    ensures stays { Stays V.view V.holds V.leaves vault.old vault.new }
    ensures cause { HasCauseOf (V.view vault.old).faults (V.view vault.new).faults result faults.Failed }
    ensures count { OnOk result ((V.view vault.new).faults ≡ (V.view vault.old).faults) }
{
    let parts = front_parts(alloc, object, len)?;
    add_differences(vault, front_range(object.number.0), &parts, into)?;
    Ok(())
}

/// Whether a body is that of a user.
fn is_user(body: &Body) -> bool
    ensures { result ≡ is_some (profile_of body.now) }
{
    match body {
        Body::Profile { .. } => true,
        _ => false,
    }
}

/// Adds the changes of an object of which header and rows follow. Its body stays as it is kept; but that of a user follows,
/// and an object of which nothing is kept is kept as it is.
pub(crate) fn add_followed<V: Vault>(
    alloc: Global,
    vault: &mut V,
    objects: &Objects,
    units: &Units,
    object: &Object,
    into: &mut Vec<Change>,
) -> Result<(), FlushFault>
    requires object { IsStorable object.now }
    requires units { CanSettle units.now object.now.number.0 object.now.body }
    requires number { IsNumber object.now.number.0 }
    requires there { object_in objects.now.objects object.now.number.0 ≡ Some object.now }
    ensures told { OnOk result ((m : Content) (d : Durable) (s : State) → V.holds vault.old m → Precedes objects.now units.now m d s
        → into.new.items ≡ into.old.items ++ differences (get m) (range_of object.now.number.0) (image_parts (followed_or_whole s object.now (kept d.objects object.now.number.0)))) }
    ensures header { OnOk result ((m : Content) (d : Durable) (s : State) → V.holds vault.old m → Precedes objects.now units.now m d s → HasHeader (followed_or_whole s object.now (kept d.objects object.now.number.0))) }
    ensures adds { OnOk result (AddsAt object.now.number.0 into.old.items into.new.items) }
    ensures bad { IfErr result (IsUnread ((m : Content) (d : Durable) (s : State) → V.holds vault.old m → Precedes objects.now units.now m d s → ⊥)) }
    ensures stays { Stays V.view V.holds V.leaves vault.old vault.new }
    ensures cause { HasCauseOf (V.view vault.old).faults (V.view vault.new).faults result faults.Failed }
    ensures count { OnOk result ((V.view vault.new).faults ≡ (V.view vault.old).faults) }
{
    // Its contract says that the name is one.
    let _name = object.id.name.as_bytes();
    if is_user(&object.body) {
        return add_whole(alloc, vault, objects, units, object, into);
    }
    match kept_len(vault, object.number.0)? {
        Some(len) => add_front(alloc, vault, object, len, into),
        None => add_whole(alloc, vault, objects, units, object, into),
    }
}
