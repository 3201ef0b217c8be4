//! The parts of an object as it is now, with every uncommitted change taken back.
ghost use Rattle.std.specs.Prelude.{◌≡◌, ◌+◌, ◌*◌, ◌≤◌, ◌++◌, ℕ, IfOk, IsTrue, [], length, vec_capacity, vec_len};
ghost use Rattle.std.specs.List.{flat_map};
ghost use Rattle.s38_base.specs.NameText.{is_name};
ghost use Rattle.s38_commits.specs.Units.{UnitMap};
ghost use Rattle.s38_image.specs.Bodies.{body_bytes};
ghost use Rattle.s38_image.specs.Headers.{header, row_form};
ghost use Rattle.s38_image.specs.Images.{image_of, image_parts};
ghost use Rattle.s38_image.specs.Pages.{needed, stream_parts};
ghost use Rattle.s38_image.specs.Settled.{committed_image};
ghost use Rattle.s38_image_writer.specs.Parts.{CanSettle, header_with, part_count};
ghost use Rattle.s38_rules.specs.store.Storable.{IsStorable};
ghost use Rattle.s38_rules.specs.store.Room.{image_len, rows_pages};

use crate::body::{image_len, with_body};
use crate::printing::{put_header, put_rows};
use crate::writer::PageWriter;
use s38_base::limits::PAGE_BYTES;
use s38_base::{Change, NoMemory};
use s38_commits::Units;
use s38_image::{HEADER_PART, Header, ROW_BYTES, ROWS_PART, needed};
use s38_rules::Object;
use std::alloc::Global;
use std::mem;

/// The header of an object whose body has so many bytes.
fn header_with(object: &Object, len: u32) -> Header
    requires { length object.now.rows ≤ 4096 }
    ensures value { result ≡ header_with object.now len }
    ensures name { IsTrue (is_name object.now.id.name) }
{
    let _name = object.id.name.as_bytes();
    Header {
        id: object.id,
        context: object.context,
        owner: object.owner,
        public: object.public,
        rows: object.rows.len() as u32,
        body: len,
    }
}

/// Adds the header of an object whose body has so many bytes.
fn with_header(parts: Vec<Change>, object: &Object, len: u32) -> Vec<Change>
    requires rows { length object.now.rows ≤ 4096 }
    requires room { vec_len parts + 1 ≤ vec_capacity parts }
    ensures parts { result.items ≡ parts.items ++ stream_parts object.now.number.0 0 (header.print (header_with object.now len)) [] }
    ensures len { vec_len result ≡ vec_len parts + 1 }
    ensures capacity { vec_capacity result ≡ vec_capacity parts }
{
    let header = header_with(object, len);
    let mut writer = PageWriter::new(parts, object.number.0, HEADER_PART, PAGE_BYTES);
    put_header(&mut writer, &header);
    writer.finish()
}

/// Adds the rows of an object.
fn with_rows(parts: Vec<Change>, object: &Object) -> Vec<Change>
    requires rows { length object.now.rows ≤ 4096 }
    requires room { vec_len parts + rows_pages object.now ≤ vec_capacity parts }
    ensures parts { result.items ≡ parts.items ++ stream_parts object.now.number.0 1 (flat_map row_form.print object.now.rows) [] }
    ensures len { vec_len result ≡ vec_len parts + rows_pages object.now }
    ensures capacity { vec_capacity result ≡ vec_capacity parts }
{
    let len = ROW_BYTES * object.rows.len() as u32;
    let mut writer = PageWriter::new(parts, object.number.0, ROWS_PART, len);
    put_rows(&mut writer, object.rows.as_slice());
    writer.finish()
}

/// Adds the parts of an object, for which there is room.
fn with_parts(parts: Vec<Change>, object: &Object, units: &Units, last: u64) -> Vec<Change>
    requires object { IsStorable object.now }
    requires units { CanSettle units.now object.now.number.0 object.now.body }
    requires room { vec_len parts + part_count object.now ≤ vec_capacity parts }
    ensures parts { result.items ≡ parts.items ++ image_parts (committed_image units.now last object.now) }
    ensures capacity { vec_capacity result ≡ vec_capacity parts }
{
    let len = image_len(&object.body);
    let parts = with_header(parts, object, len);
    let parts = with_rows(parts, object);
    with_body(parts, object.number, &object.body, units, last, len)
}

/// How many parts an object has: its header, and the pages of its rows and of its body. With every uncommitted change
/// taken back it has as many, and its body has as many bytes.
pub fn part_count(object: &Object) -> u32
    requires { IsStorable object.now }
    ensures count { result ≡ part_count object.now }
    ensures body { (units : UnitMap) (last : ℕ) → CanSettle units object.now.number.0 object.now.body → length (body_bytes object.now.id.kind (image_of (committed_image units last object.now))) ≡ image_len object.now.body }
    ensures parts { (units : UnitMap) (last : ℕ) → CanSettle units object.now.number.0 object.now.body → length (image_parts (committed_image units last object.now)) ≡ part_count object.now }
{
    let _name = object.id.name.as_bytes();
    let rows = needed(ROW_BYTES * object.rows.len() as u32);
    let body = needed(image_len(&object.body));
    1 + (rows + body)
}

/// Adds the parts of an object, for which there is room, and takes no memory. Of a data space every change of the units is
/// taken back, and its sequence is `last`, or 0 without a port; of other objects both count for nothing.
pub fn write_parts(into: &mut Vec<Change>, object: &Object, units: &Units, last: u64)
    requires object { IsStorable object.now }
    requires units { CanSettle units.now object.now.number.0 object.now.body }
    requires room { vec_len into.old + part_count object.now ≤ vec_capacity into.old }
    ensures parts { into.new.items ≡ into.old.items ++ image_parts (committed_image units.now last object.now) }
    ensures capacity { vec_capacity into.new ≡ vec_capacity into.old }
{
    let alloc = *into.allocator();
    let parts = mem::replace(into, Vec::new(alloc));
    *into = with_parts(parts, object, units, last);
}

/// The parts of an object. Of a data space every change of the units is taken back, and its sequence is `last`, or 0
/// without a port; of other objects both count for nothing.
pub fn to_parts(
    alloc: Global,
    object: &Object,
    units: &Units,
    last: u64,
) -> Result<Vec<Change>, NoMemory>
    requires object { IsStorable object.now }
    requires units { CanSettle units.now object.now.number.0 object.now.body }
    ensures { IfOk result (λ parts. parts.items ≡ image_parts (committed_image units.now last object.now)) }
{
    let parts = Vec::with_capacity(alloc, part_count(object) as usize)?;
    Ok(with_parts(parts, object, units, last))
}
