//! The body of a data space.
ghost use Rattle.std.specs.Prelude.{◌≡◌, ◌≤◌, ◌++◌, ◌∷◌, [], IfErr, IfOk, IsTrue, None, OnOk, Some, length, true, if◌then◌else◌};
ghost use Rattle.s38_codec.specs.Codec.{only, times, whole};
ghost use Rattle.s38_codec.specs.Formats.{short_list, u64 as long};
ghost use Rattle.s38_codec.specs.Reading.{Gives};
ghost use Rattle.s38_dataspaces.specs.Table.{are_fields, entry_len};
ghost use Rattle.s38_image.specs.DataSpaces.{data_space, is_sequence, is_slot, slot, slot_by};
ghost use Rattle.s38_image.specs.Scalars.{attr};
ghost use Rattle.s38_image.specs.Steps.{data_parts, slot_value};
ghost use Rattle.s38_dataspaces.specs.Values.{have_values};

use crate::scalars::attr_at;
use s38_base::{Attr, AttrList, ObjNum};
use s38_codec::{ReadFault, byte_at, bytes_at, is_zeros, u16_at, u32_at, u64_at};
use s38_dataspaces::{DataSpace, are_fields, have_values};
use s38_rules::DataBody;
use std::alloc::Global;

/// The last journal entry that is counted in; 0 without a port.
fn sequence_at(port: u64, from: &[u8]) -> Result<(u64, &[u8]), ReadFault>
    ensures { Gives (λ x. (x.0, x.1.now)) result ((only (is_sequence port) long).read from.now) }
{
    let (sequence, rest) = u64_at(from)?;
    if port == 0 && sequence != 0 {
        return Err(ReadFault::BadForm);
    }
    Ok((sequence, rest))
}

/// So many attributes.
fn attrs_at(alloc: Global, count: u16, from: &[u8]) -> Result<(Vec<Attr>, &[u8]), ReadFault>
    ensures { Gives (λ x. (x.0.items, x.1.now)) result ((times count attr).read from.now) }
{
    let mut attrs = Vec::new(alloc);
    let mut rest = from;
    for _ in 0..count {
        let (attr, after) = attr_at(rest)?;
        attrs.push(attr)?;
        rest = after;
    }
    Ok((attrs, rest))
}

/// The fields, after their number.
fn fields_at(alloc: Global, from: &[u8]) -> Result<(AttrList, &[u8]), ReadFault>
    ensures read { Gives (λ x. (x.0, x.1.now)) result ((only are_fields (short_list attr)).read from.now) }
    ensures fields { IfOk result (λ x. IsTrue (are_fields x.0)) }
{
    let (count, rest) = u16_at(from)?;
    let (attrs, rest) = match attrs_at(alloc, count, rest) {
        Ok(found) => found,
        Err(fault) => return Err(fault),
    };
    if !are_fields(&attrs) {
        return Err(ReadFault::BadForm);
    }
    Ok((AttrList::from_vec(attrs), rest))
}

/// Whether there is an entry, by its number: 1, or 0 where it is deleted and its bytes are zero.
fn stands(fields: &[Attr], number: u8, entry: &[u8]) -> Result<bool, ReadFault>
    requires { length entry.now ≡ entry_len fields.now }
    ensures read { Gives (λ stands. slot_value stands entry.now) result
        (if is_slot fields.now (number, entry.now) then Some (slot_by (number, entry.now)) else None) }
    ensures values { IfOk result (λ stands. stands ≡ true → IsTrue (have_values fields.now entry.now)) }
{
    let is_right = match number {
        0 => is_zeros(entry),
        1 => have_values(fields, entry),
        _ => false,
    };
    if !is_right {
        return Err(ReadFault::BadForm);
    }
    Ok(number == 1)
}

/// What an ordinal holds: whether there is an entry, and its bytes.
fn slot_at<'a>(space: &DataSpace, from: &'a [u8]) -> Result<((bool, &'a [u8]), &'a [u8]), ReadFault>
    ensures read { Gives (λ x. (slot_value x.0.0 x.0.1.now, x.1.now)) result ((slot space.now.fields).read from.now) }
    ensures len { IfOk result (λ x. length x.0.1.now ≡ entry_len space.now.fields) }
    ensures values { IfOk result (λ x. x.0.0 ≡ true → IsTrue (have_values space.now.fields x.0.1.now)) }
{
    let (number, rest) = byte_at(from)?;
    let (entry, rest) = bytes_at(space.entry_len(), rest)?;
    let stands = stands(space.fields().as_slice(), number, entry)?;
    Ok(((stands, entry), rest))
}

/// Adds an ordinal. The image of the data space is no longer than the bytes that are read, so it is never full.
fn add(space: &mut DataSpace, stands: bool, entry: &[u8]) -> Result<(), ReadFault>
    requires len { length entry.now ≡ entry_len space.old.fields }
    requires values { stands ≡ true → IsTrue (have_values space.old.fields entry.now) }
    ensures ok { OnOk result (space.new ≡ record space.old { spare = 0; entries = space.old.entries ++ slot_value stands entry.now ∷ [] }) }
    ensures err { IfErr result (λ fault. fault ≡ ReadFault.NoMemory) }
{
    let added = if stands {
        space.insert(entry).is_ok()
    } else {
        space.insert_deleted().is_ok()
    };
    if added {
        Ok(())
    } else {
        Err(ReadFault::NoMemory)
    }
}

/// A data space whose ordinals, so many, are all of the bytes.
fn slots_in(
    alloc: Global,
    fields: AttrList,
    count: u32,
    from: &[u8],
) -> Result<DataSpace, ReadFault>
    requires { IsTrue (are_fields fields) }
    ensures read { Gives (λ space. space.entries) result (whole (times count (slot fields)) from.now) }
    ensures fields { IfOk result (λ space. space.fields ≡ fields) }
    ensures spare { IfOk result (λ space. space.spare ≡ 0) }
{
    let mut space = DataSpace::new(alloc, fields);
    let mut rest = from;
    for _ in 0..count {
        let ((stands, entry), after) = slot_at(&space, rest)?;
        add(&mut space, stands, entry)?;
        rest = after;
    }
    if !rest.is_empty() {
        return Err(ReadFault::BadForm);
    }
    Ok(space)
}

/// The data space that the bytes of a body hold, and the last journal entry that is counted in.
pub fn data_space_in(alloc: Global, bytes: &[u8]) -> Result<(DataBody, u64), ReadFault>
    ensures read { Gives (λ x. data_parts x.0 x.1) result (whole data_space bytes.now) }
    ensures spare { IfOk result (λ x. x.0.space.spare ≡ 0) }
{
    let (port, rest) = u64_at(bytes)?;
    let (sequence, rest) = sequence_at(port, rest)?;
    let (fields, rest) = match fields_at(alloc, rest) {
        Ok(found) => found,
        Err(fault) => return Err(fault),
    };
    let (count, rest) = u32_at(rest)?;
    let space = slots_in(alloc, fields, count, rest)?;
    let port = ObjNum(port);
    Ok((DataBody { space, port }, sequence))
}
