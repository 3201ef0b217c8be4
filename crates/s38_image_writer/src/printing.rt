//! What is printed of headers, rows and short bodies. Nothing here takes memory.
ghost use Rattle.std.specs.Prelude.{◌≡◌, ◌+◌, ◌*◌, ◌≤◌, ◌++◌, length};
ghost use Rattle.std.specs.List.{flat_map};
ghost use Rattle.s38_codec.specs.Codec.{copies};
ghost use Rattle.s38_image.specs.Bodies.{block, cursor, port, profile_form};
ghost use Rattle.s38_image.specs.Headers.{header, object_number_form, row_form};
ghost use Rattle.s38_image_writer.specs.Printing.{id_bytes, lengths_of, name_bytes, places_of};
ghost use Rattle.s38_image_writer.specs.Writing.{Adds};

use crate::writer::PageWriter;
use s38_base::{Id, Name, ObjNum, Special};
use s38_image::{HEADER_MARK, Header};
use s38_rules::{Block, Cursor, Port, PrivateRow};

/// The number of an object.
fn put_object(into: &mut PageWriter, number: ObjNum)
    requires { 8 ≤ into.old.room }
    ensures { Adds into.old into.new 8 (object_number_form.print number) }
{
    into.put_u64(number.0);
}

/// A user's special authorities and limit.
pub fn put_profile(into: &mut PageWriter, special: Special, limit: u32)
    requires { 5 ≤ into.old.room }
    ensures { Adds into.old into.new 5 (profile_form.print (special, limit)) }
{
    into.put_byte(special.0);
    into.put_u32(limit);
}

/// A cursor.
pub fn put_cursor(into: &mut PageWriter, held: &Cursor)
    requires { 20 ≤ into.old.room }
    ensures { Adds into.old into.new 20 (cursor.print held.now) }
{
    put_object(into, held.space);
    put_object(into, held.block);
    into.put_u32(held.position);
}

/// A journal port.
pub fn put_port(into: &mut PageWriter, held: &Port)
    requires { 8 ≤ into.old.room }
    ensures { Adds into.old into.new 8 (port.print held.now) }
{
    put_object(into, held.journal);
}

/// A commit block.
pub fn put_block(into: &mut PageWriter, held: &Block)
    requires { 8 ≤ into.old.room }
    ensures { Adds into.old into.new 8 (block.print held.now) }
{
    put_object(into, held.port);
}

/// A private row.
fn put_row(into: &mut PageWriter, held: &PrivateRow)
    requires { 9 ≤ into.old.room }
    ensures { Adds into.old into.new 9 (row_form.print held.now) }
{
    put_object(into, held.user);
    into.put_byte(held.rights.0);
}

/// The rows of an object, one after another.
pub fn put_rows(into: &mut PageWriter, held: &[PrivateRow])
    requires { 9 * length held.now ≤ into.old.room }
    ensures { Adds into.old into.new (9 * length held.now) (flat_map row_form.print held.now) }
{
    for held_row in held {
        put_row(into, held_row);
    }
}

/// A name's length, and its text in thirty bytes.
#[tactic(auto, unfolding(crate::specs::Printing::name_bytes))]
fn put_name(into: &mut PageWriter, held: &Name)
    requires { 32 ≤ into.old.room }
    ensures { Adds into.old into.new 32 (name_bytes held.now) }
{
    let text = held.as_bytes();
    into.put_u16(text.len() as u16);
    into.put(text);
    into.put(&[0; 30][text.len()..]);
}

/// The bytes of a header's page that say nothing.
fn put_zeros(into: &mut PageWriter)
    requires { 448 ≤ into.old.room }
    ensures { Adds into.old into.new 448 (copies 448 0) }
{
    into.put(&[0; 448]);
}

/// The lengths of rows and body, and the bytes that say nothing.
#[tactic(auto, unfolding(crate::specs::Printing::lengths_of))]
fn put_lengths(into: &mut PageWriter, held: &Header)
    requires { 456 ≤ into.old.room }
    ensures { Adds into.old into.new 456 (lengths_of held.now) }
{
    into.put_u32(held.rows);
    into.put_u32(held.body);
    put_zeros(into);
}

/// In which context an object is, whose it is, and what follows.
#[tactic(auto, unfolding(crate::specs::Printing::places_of))]
fn put_places(into: &mut PageWriter, held: &Header)
    requires { 474 ≤ into.old.room }
    ensures { Adds into.old into.new 474 (places_of held.now) }
{
    put_object(into, held.context);
    put_object(into, held.owner);
    into.put_byte(held.public.0);
    into.put_byte(0);
    put_lengths(into, held);
}

/// An identification.
#[tactic(auto, unfolding(crate::specs::Printing::id_bytes))]
fn put_id(into: &mut PageWriter, held: &Id)
    requires { 34 ≤ into.old.room }
    ensures { Adds into.old into.new 34 (id_bytes held.now) }
{
    into.put_byte(held.kind.code());
    into.put_byte(held.sub);
    put_name(into, &held.name);
}

/// A header.
pub fn put_header(into: &mut PageWriter, held: &Header)
    requires { 512 ≤ into.old.room }
    ensures { Adds into.old into.new 512 (header.print held.now) }
{
    into.put_u32(HEADER_MARK);
    put_id(into, &held.id);
    put_places(into, held);
}
