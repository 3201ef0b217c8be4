//! The parts that a number is to have.
ghost use Rattle.std.specs.Prelude.{◌≡◌, ◌≤◌, IfOk};
ghost use Rattle.std.specs.Option.{option_copied};
ghost use Rattle.s38_codec.specs.Codec.{copies};
ghost use Rattle.s38_durable_state.specs.Durable.{last_sequence_in, whole_stored};
ghost use Rattle.s38_durable_state.specs.Represents.{ceiling_parts};
ghost use Rattle.s38_page_diff.specs.Differences.{IsWanted};
ghost use Rattle.s38_image.specs.Faults.{ceiling_page};
ghost use Rattle.s38_image.specs.PartPlaces.{ceiling_key};
ghost use Rattle.s38_image.specs.Images.{image_parts};
ghost use Rattle.s38_image_writer.specs.Parts.{CanSettle};
ghost use Rattle.s38_image_writer.specs.Writing.{Adds};
ghost use Rattle.s38_page_diff.specs.reconcile.Replacing.{short_range};
ghost use Rattle.s38_rules.specs.state.Journaling.{data_port, journal_for, journal_named};
ghost use Rattle.s38_rules.specs.store.Storable.{IsStorable};

use s38_base::limits::PAGE_BYTES;
use s38_base::{Change, NoMemory, ObjNum};
use s38_commits::Units;
use s38_image::{CEILING_KEY, CEILING_MARK};
use s38_image_writer::{PageWriter, image_len, part_count, to_parts};
use s38_objects::Objects;
use s38_rules::{Object, Port};
use std::alloc::Global;

/// The port that a data space names, 0 for none.
pub(crate) fn data_port(objects: &Objects, space: ObjNum) -> ObjNum
    ensures { result.0 ≡ data_port objects.now space.0 }
{
    match objects.data_space(space) {
        Some(held) => held.port,
        None => ObjNum(0),
    }
}

/// The last sequence of the journal space that a port names, 0 where one of them is not there.
fn last_named(objects: &Objects, port: Option<&Port>) -> u64
    ensures { result ≡ last_sequence_in objects.now (journal_named objects.now (option_copied port.entry)) }
{
    let Some(port) = port else {
        return 0;
    };
    match objects.journal(port.journal) {
        Some(journal) => journal.last(),
        None => 0,
    }
}

/// The last sequence of the journal space of a data space, 0 without one.
fn last_of(objects: &Objects, space: ObjNum) -> u64
    ensures { result ≡ last_sequence_in objects.now (journal_for objects.now space.0) }
{
    last_named(objects, objects.port(data_port(objects, space)))
}

/// The parts of an object as it is.
pub fn whole_parts(
    alloc: Global,
    objects: &Objects,
    units: &Units,
    object: &Object,
) -> Result<Vec<Change>, NoMemory>
    requires object { IsStorable object.now }
    requires units { CanSettle units.now object.now.number.0 object.now.body }
    ensures parts { IfOk result (λ parts. parts.items ≡ image_parts (whole_stored units.now objects.now object.now)) }
    ensures wanted { IfOk result (λ parts. IsWanted (short_range object.now.number.0) parts.items) }
{
    // Their contracts say how long the header, the rows and the body are.
    let _name = object.id.name.as_bytes();
    let _count = part_count(object);
    let _len = image_len(&object.body);
    let last = last_of(objects, object.number);
    let parts = to_parts(alloc, object, units, last)?;
    Ok(parts)
}

/// The bytes of the ceiling's page that say nothing.
fn put_zeros(into: &mut PageWriter)
    requires { 496 ≤ into.old.room }
    ensures { Adds into.old into.new 496 (copies 496 0) }
{
    into.put(&[0; 496]);
}

/// The ceiling: its mark, a zero number, the number, and bytes that say nothing.
fn put_ceiling(into: &mut PageWriter, ceiling: u64)
    requires { 512 ≤ into.old.room }
    ensures { Adds into.old into.new 512 (ceiling_page.print ceiling) }
{
    into.put_u32(CEILING_MARK);
    into.put_u32(0);
    into.put_u64(ceiling);
    put_zeros(into);
}

/// The parts of the ceiling.
pub fn ceiling_parts(alloc: Global, ceiling: u64) -> Result<Vec<Change>, NoMemory>
    ensures parts { IfOk result (λ parts. parts.items ≡ ceiling_parts ceiling) }
    ensures wanted { IfOk result (λ parts. IsWanted (short_range ceiling_key) parts.items) }
{
    let parts = Vec::with_capacity(alloc, 1)?;
    let mut writer = PageWriter::new(parts, CEILING_KEY, 0, PAGE_BYTES);
    put_ceiling(&mut writer, ceiling);
    Ok(writer.finish())
}
