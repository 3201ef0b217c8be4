//! The parts of an object before its body.
ghost use Rattle.std.specs.Prelude.{◌≡◌, ◌+◌, ◌≤◌, ◌++◌, ℕ, IfOk, IsTrue, [], OnOk, length, true, vec_capacity, vec_len};
ghost use Rattle.std.specs.List.{flat_map};
ghost use Rattle.s38_base.specs.NameText.{is_name};
ghost use Rattle.s38_commits.specs.Units.{UnitMap};
ghost use Rattle.s38_page_diff.specs.Differences.{IsWanted};
ghost use Rattle.s38_image.specs.Fitting.{header_codec};
ghost use Rattle.s38_image.specs.Headers.{header, row_form};
ghost use Rattle.s38_image.specs.Images.{stored_header};
ghost use Rattle.s38_image.specs.Pages.{stream_parts};
ghost use Rattle.s38_image.specs.Settled.{committed_image};
ghost use Rattle.s38_image_writer.specs.Parts.{CanSettle, header_with};
ghost use Rattle.s38_rules.specs.store.Room.{image_len, rows_pages};
ghost use Rattle.s38_rules.specs.store.Storable.{IsStorable};
ghost use Rattle.s38_flush.specs.Fronts.{front_parts, front_range};

use s38_base::limits::PAGE_BYTES;
use s38_base::{Change, NoMemory};
use s38_image::{HEADER_PART, Header, ROW_BYTES, ROWS_PART, needed};
use s38_image_writer::{PageWriter, image_len, put_header, put_rows};
use s38_rules::Object;
use std::alloc::Global;

/// The header of an object whose body has so many bytes. It is read again.
fn header_with(object: &Object, len: u32) -> Header
    requires { length object.now.rows ≤ 4096 }
    ensures value { result ≡ header_with object.now len }
    ensures fits { header_codec.fits result ≡ true }
    ensures name { IsTrue (is_name object.now.id.name) }
{
    // What these fields can be by their types makes that the header is read again.
    let _name = object.id.name.as_bytes();
    let _sub = object.id.sub;
    let _context = object.context.0;
    let _owner = object.owner.0;
    let _public = object.public.0;
    Header {
        id: object.id,
        context: object.context,
        owner: object.owner,
        public: object.public,
        rows: object.rows.len() as u32,
        body: len,
    }
}

/// The header of an object as it is, with every uncommitted change taken back. It is read again.
pub(crate) fn whole_header(object: &Object) -> Header
    requires { IsStorable object.now }
    ensures value { (units : UnitMap) (last : ℕ) → CanSettle units object.now.number.0 object.now.body → stored_header (committed_image units last object.now) ≡ result }
    ensures len { result.body ≡ image_len object.now.body }
    ensures fits { header_codec.fits result ≡ true }
{
    header_with(object, image_len(&object.body))
}

/// Adds the header of an object whose body has so many bytes.
fn with_header(parts: Vec<Change>, object: &Object, len: u32) -> Vec<Change>
    requires rows { length object.now.rows ≤ 4096 }
    requires room { vec_len parts + 1 ≤ vec_capacity parts }
    ensures parts { result.items ≡ parts.items ++ stream_parts object.now.number.0 0 (header.print (header_with object.now len)) [] }
    ensures len { vec_len result ≡ vec_len parts + 1 }
    ensures capacity { vec_capacity result ≡ vec_capacity parts }
    ensures fits { header_codec.fits (header_with object.now len) ≡ true }
    ensures name { IsTrue (is_name object.now.id.name) }
{
    let header = header_with(object, len);
    let mut writer = PageWriter::new(parts, object.number.0, HEADER_PART, PAGE_BYTES);
    put_header(&mut writer, &header);
    writer.finish()
}

/// Adds the rows of an object.
fn with_rows(parts: Vec<Change>, object: &Object) -> Vec<Change>
    requires rows { length object.now.rows ≤ 4096 }
    requires room { vec_len parts + rows_pages object.now ≤ vec_capacity parts }
    ensures parts { result.items ≡ parts.items ++ stream_parts object.now.number.0 1 (flat_map row_form.print object.now.rows) [] }
{
    let len = ROW_BYTES * object.rows.len() as u32;
    let mut writer = PageWriter::new(parts, object.number.0, ROWS_PART, len);
    put_rows(&mut writer, object.rows.as_slice());
    writer.finish()
}

/// The header and the rows of an object whose body has so many bytes.
pub(crate) fn front_parts(alloc: Global, object: &Object, len: u32) -> Result<Vec<Change>, NoMemory>
    requires { length object.now.rows ≤ 4096 }
    ensures parts { IfOk result (λ parts. parts.items ≡ front_parts object.now len) }
    ensures wanted { IfOk result (λ parts. IsWanted (front_range object.now.number.0) parts.items) }
    ensures fits { OnOk result (header_codec.fits (header_with object.now len) ≡ true) }
{
    let rows = needed(ROW_BYTES * object.rows.len() as u32);
    let parts = Vec::with_capacity(alloc, rows as usize + 1)?;
    let parts = with_header(parts, object, len);
    Ok(with_rows(parts, object))
}
