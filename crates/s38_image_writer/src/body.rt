//! What is printed of a body of any kind, with every uncommitted change taken back. Nothing here takes memory.
ghost use Rattle.std.specs.Prelude.{◌≡◌, ◌+◌, ◌*◌, ◌≤◌, ◌++◌, ℕ, IsTrue, [], length, vec_capacity, vec_len};
ghost use Rattle.std.specs.List.{list_all};
ghost use Rattle.s38_commits.specs.Units.{UnitMap};
ghost use Rattle.s38_dataspaces.specs.Table.{data_space_image_size, is_entry_of};
ghost use Rattle.s38_image.specs.Pages.{needed, stream_parts};
ghost use Rattle.s38_image_writer.specs.Parts.{CanSettle, own_bytes, own_parts};
ghost use Rattle.s38_rules.specs.store.Storable.{HasShortText};
ghost use Rattle.s38_image_writer.specs.Writing.{Adds};
ghost use Rattle.s38_image.specs.Spaces.{space_tags};
ghost use Rattle.s38_memory.specs.Tagged.{IsStorage, bytes_in};
ghost use Rattle.s38_rules.specs.store.Room.{image_len, program_size};
ghost use Rattle.s38_template.specs.Printing.{printed_lines};

use crate::bodies::{put_cells, put_journal, put_queue};
use crate::data_spaces::put_data_space;
use crate::indexes::put_index;
use crate::pages::push_cells;
use crate::printing::{put_block, put_cursor, put_port, put_profile};
use crate::texts::{put_text, text_len};
use crate::writer::PageWriter;
use s38_base::{Change, ObjNum};
use s38_code::Code;
use s38_commits::Units;
use s38_dataspaces::DataSpace;
use s38_image::BODY_PART;
use s38_memory::Tagged;
use s38_rules::{Body, BodyPart};

/// How many bytes the text of a program has.
#[tactic(auto, using(crate::proofs::LengthLaws::text_long))]
fn program_len(code: &Code) -> u32
    requires { program_size code.now ≤ 16777216 }
    ensures { result ≡ program_size code.now }
{
    text_len(code.program().template.lines())
}

/// The text of a program.
#[tactic(auto, using(crate::proofs::LengthLaws::text_long))]
fn put_program(into: &mut PageWriter, code: &Code)
    requires { program_size code.now ≤ into.old.room }
    ensures { Adds into.old into.new (program_size code.now) (printed_lines code.now.template) }
{
    put_text(into, code.program().template.lines());
}

/// How many bytes cells have.
fn cells_len(cells: &Tagged) -> u32
    ensures len { result ≡ 16 * length cells.now }
    ensures most { result ≤ 16777216 }
    ensures storage { IsStorage cells.now }
{
    let _cells = cells.cells();
    cells.len()
}

/// How many bytes a data space has. Each entry is one of its fields.
fn data_len(held: &DataSpace) -> u32
    ensures len { result ≡ data_space_image_size held.now.fields (length held.now.entries) }
    ensures most { result ≤ 16777216 }
    ensures entries { IsTrue (list_all (is_entry_of held.now.fields) held.now.entries) }
{
    let _ordinals = held.ordinals();
    held.image_len()
}

/// How many bytes the image of a body has, also with every uncommitted change taken back.
pub fn image_len(body: &Body) -> u32
    requires { HasShortText body.now }
    ensures len { result ≡ image_len body.now }
    ensures bound { result ≤ 16777216 }
    ensures bytes { (units : UnitMap) (number last : ℕ) → CanSettle units number body.now → length (own_bytes units number last body.now) ≡ image_len body.now }
{
    match body {
        Body::Context => 0,
        Body::Program(code) => program_len(code),
        Body::Profile { .. } => 5,
        Body::Space(cells) => cells_len(cells),
        Body::Queue(queue) => queue.image_len(),
        Body::Index(index) => index.image_len(),
        Body::DataSpace(held) => data_len(&held.space),
        Body::Cursor(_) => 20,
        Body::Port(_) => 8,
        Body::Journal(journal) => journal.len(),
        Body::Block(_) => 8,
    }
}

/// A body.
fn put_body(into: &mut PageWriter, body: &Body, units: &Units, number: ObjNum, last: u64)
    requires units { CanSettle units.now number.0 body.now }
    requires room { image_len body.now ≤ into.old.room }
    ensures { Adds into.old into.new (image_len body.now) (own_bytes units.now number.0 last body.now) }
{
    match body {
        Body::Context => {}
        Body::Program(code) => put_program(into, code),
        Body::Profile { special, limit } => put_profile(into, *special, *limit),
        Body::Space(cells) => put_cells(into, cells.cells()),
        Body::Queue(queue) => put_queue(into, queue),
        Body::Index(index) => put_index(into, index),
        Body::DataSpace(held) => put_data_space(into, held, units, number, last),
        Body::Cursor(cursor) => put_cursor(into, cursor),
        Body::Port(port) => put_port(into, port),
        Body::Journal(journal) => put_journal(into, journal),
        Body::Block(block) => put_block(into, block),
    }
}

/// Adds the parts of a body that is no space, of so many bytes.
fn with_stream(
    parts: Vec<Change>,
    number: ObjNum,
    body: &Body,
    units: &Units,
    last: u64,
    len: u32,
) -> Vec<Change>
    requires units { CanSettle units.now number.0 body.now }
    requires len { len ≡ image_len body.now }
    requires bound { len ≤ 16777216 }
    requires room { vec_len parts + needed len ≤ vec_capacity parts }
    ensures parts { result.items ≡ parts.items ++ stream_parts number.0 128 (own_bytes units.now number.0 last body.now) [] }
    ensures capacity { vec_capacity result ≡ vec_capacity parts }
{
    let mut writer = PageWriter::new(parts, number.0, BODY_PART, len);
    put_body(&mut writer, body, units, number, last);
    writer.finish()
}

/// Adds the parts of cells.
fn with_cells(parts: Vec<Change>, number: ObjNum, cells: &Tagged) -> Vec<Change>
    requires { vec_len parts + needed (16 * length cells.now) ≤ vec_capacity parts }
    ensures parts { result.items ≡ parts.items ++ stream_parts number.0 128 (bytes_in cells.now) (space_tags cells.now) }
    ensures capacity { vec_capacity result ≡ vec_capacity parts }
{
    let mut parts = parts;
    push_cells(&mut parts, number.0, BODY_PART, cells.cells());
    parts
}

/// Adds the parts of a body, of so many bytes, for which there is room.
pub fn with_body(
    parts: Vec<Change>,
    number: ObjNum,
    body: &Body,
    units: &Units,
    last: u64,
    len: u32,
) -> Vec<Change>
    requires units { CanSettle units.now number.0 body.now }
    requires len { len ≡ image_len body.now }
    requires bound { len ≤ 16777216 }
    requires room { vec_len parts + needed len ≤ vec_capacity parts }
    ensures parts { result.items ≡ parts.items ++ own_parts units.now number.0 last body.now }
    ensures capacity { vec_capacity result ≡ vec_capacity parts }
{
    match Tagged::of(body) {
        Some(cells) => with_cells(parts, number, cells),
        None => with_stream(parts, number, body, units, last, len),
    }
}
