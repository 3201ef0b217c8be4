//! What is printed of a data space: every uncommitted change is taken back. Nothing here takes memory.
ghost use Rattle.std.specs.Prelude.{◌≡◌, ◌==◌, ◌+◌, ◌*◌, ◌≤◌, Some, find, if◌then◌else◌, length};
ghost use Rattle.std.specs.List.{flat_map};
ghost use Rattle.std.specs.Option.{ForSome, option_copied};
ghost use Rattle.s38_codec.specs.Codec.{copies};
ghost use Rattle.s38_commits.specs.Changes.{is_of_entry};
ghost use Rattle.s38_commits.specs.Units.{unit_block};
ghost use Rattle.s38_dataspaces.specs.Entries.{entry_at};
ghost use Rattle.s38_dataspaces.specs.Table.{data_space_image_size, entry_len};
ghost use Rattle.s38_image.specs.DataSpaces.{data_space};
ghost use Rattle.s38_image_writer.specs.Printing.{slot_bytes};
ghost use Rattle.s38_image_writer.specs.Restoring.{AreRestorable, settled_data};
ghost use Rattle.s38_image.specs.Scalars.{attr as attribute};
ghost use Rattle.s38_image.specs.Settled.{first_change, settled_entries, settled_entry};
ghost use Rattle.s38_image_writer.specs.Writing.{Adds};

use crate::writer::PageWriter;
use s38_base::{Attr, ObjNum};
use s38_commits::{UnitChange, Units};
use s38_dataspaces::DataSpace;
use s38_rules::DataBody;

/// As many zeros as an entry may have bytes.
static ZEROS: [u8; 4096] = [0; 4096];

/// So many zeros.
#[tactic(auto, using(crate::proofs::DataLaws::front_zeros))]
fn zeros(len: usize) -> &'static [u8]
    requires { len ≤ 4096 }
    ensures { result.now ≡ copies len 0 }
{
    &ZEROS[..len]
}

/// The three bytes of an attribute.
fn attr_bytes(attr: Attr) -> [u8; 3]
    ensures { result ≡ attribute.print attr }
{
    match attr {
        Attr::Packed { digits, fraction } => [1, digits, fraction],
        Attr::Zoned { digits, fraction } => [2, digits, fraction],
        Attr::Binary { size } => [3, 0, size],
        Attr::Chars { len } => [4, (len / 256) as u8, (len % 256) as u8],
        Attr::Pointer => [0, 0, 0],
    }
}

/// The attributes of the fields.
fn put_fields(into: &mut PageWriter, fields: &[Attr])
    requires { 3 * length fields.now ≤ into.old.room }
    ensures { Adds into.old into.new (3 * length fields.now) (flat_map attribute.print fields.now) }
{
    for field in fields {
        into.put(&attr_bytes(*field));
    }
}

/// The first change of an entry.
fn change_of(changes: &[UnitChange], space: ObjNum, at: u32) -> Option<&UnitChange>
    ensures { option_copied result ≡ find (is_of_entry space.0 at) changes.now }
{
    changes
        .iter()
        .find(|change| change.space.0 == space.0 && change.at == at)
}

/// The first change of an entry by the unit of a block that has one.
fn change_in(units: &Units, block: ObjNum, space: ObjNum, at: u32) -> Option<&UnitChange>
    requires { unit_block units.now space.0 at ≡ Some block.0 }
    ensures { option_copied result ≡ first_change units.now space.0 at }
{
    match units.get(block) {
        Some(unit) => change_of(unit.changes(), space, at),
        None => None,
    }
}

/// The first change of an entry by the unit that has changed it.
fn first_change(units: &Units, space: ObjNum, at: u32) -> Option<&UnitChange>
    ensures { option_copied result ≡ first_change units.now space.0 at }
{
    match units.block_of(space, at) {
        Some(block) => change_in(units, block, space, at),
        None => None,
    }
}

/// What a change found.
fn before(change: &UnitChange) -> Option<&[u8]>
    ensures { option_copied result ≡ change.now.before }
{
    match &change.before {
        Some(bytes) => Some(bytes.as_slice()),
        None => None,
    }
}

/// The entry before the unit of changes that has changed it.
fn settled_entry<'a>(
    held: &'a DataSpace,
    units: &'a Units,
    space: ObjNum,
    at: u32,
) -> Option<&'a [u8]>
    requires { AreRestorable units.now space.0 held.now }
    ensures entry { option_copied result ≡ settled_entry units.now space.0 at (entry_at held.now.entries at) }
    ensures len { ForSome result (λ bytes. length bytes.now ≡ entry_len held.now.fields) }
{
    match first_change(units, space, at) {
        Some(change) => before(change),
        None => held.get(at),
    }
}

/// 1 and an entry, or 0 and as many zeros where it is deleted.
#[tactic(auto, unfolding(crate::specs::Printing::slot_bytes))]
fn put_slot(into: &mut PageWriter, width: usize, entry: Option<&[u8]>)
    requires room { 1 + width ≤ into.old.room }
    requires width { width ≤ 4096 }
    requires len { ForSome entry (λ bytes. length bytes.now ≡ width) }
    ensures { Adds into.old into.new (1 + width) (slot_bytes width (option_copied entry.entry)) }
{
    match entry {
        Some(bytes) => {
            into.put_byte(1);
            into.put(bytes);
        }
        None => {
            into.put_byte(0);
            into.put(zeros(width));
        }
    }
}

/// The entries, by their ordinals.
fn put_entries(into: &mut PageWriter, held: &DataSpace, units: &Units, space: ObjNum)
    requires room { length held.now.entries * (1 + entry_len held.now.fields) ≤ into.old.room }
    requires units { AreRestorable units.now space.0 held.now }
    ensures { Adds into.old into.new (length held.now.entries * (1 + entry_len held.now.fields))
        (flat_map (slot_bytes (entry_len held.now.fields)) (settled_entries units.now space.0 1 held.now.entries)) }
{
    let width = held.entry_len();
    for k in 0..held.ordinals() {
        put_slot(into, width, settled_entry(held, units, space, k + 1));
    }
}

/// The last entry of its journal space, or 0 where it has no port.
fn sequence_of(held: &DataBody, last: u64) -> u64
    ensures { result ≡ (if held.now.port.0 == 0 then 0 else last) }
{
    if held.port.0 == 0 { 0 } else { last }
}

/// A data space, with the last entry of its journal space.
pub fn put_data_space(
    into: &mut PageWriter,
    held: &DataBody,
    units: &Units,
    number: ObjNum,
    last: u64,
)
    requires room { data_space_image_size held.now.space.fields (length held.now.space.entries) ≤ into.old.room }
    requires units { AreRestorable units.now number.0 held.now.space }
    ensures { Adds into.old into.new (data_space_image_size held.now.space.fields (length held.now.space.entries))
        (data_space.print (settled_data units.now number.0 last held.now)) }
{
    into.put_u64(held.port.0);
    into.put_u64(sequence_of(held, last));
    into.put_short_count(held.space.fields().len());
    put_fields(into, held.space.fields().as_slice());
    into.put_u32(held.space.ordinals());
    put_entries(into, &held.space, units, number);
}
