//! What is printed of an index. Nothing here takes memory.
ghost use Rattle.std.specs.Prelude.{◌≡◌, ◌+◌, ◌<◌, ◌≤◌, length, sum_by};
ghost use Rattle.std.specs.List.{flat_map};
ghost use Rattle.s38_image.specs.Indexes.{index};
ghost use Rattle.s38_image_writer.specs.Printing.{index_entry_bytes};
ghost use Rattle.s38_image_writer.specs.Writing.{Adds};
ghost use Rattle.s38_indexes.specs.Entries.{AreShort, entry_size, index_image_size};

use crate::writer::PageWriter;
use s38_indexes::{Entries, Index};

/// An entry, after its length.
fn put_entry(into: &mut PageWriter, entry: &[u8])
    requires room { 1 + length entry.now ≤ into.old.room }
    requires short { length entry.now < 256 }
    ensures { Adds into.old into.new (1 + length entry.now) (index_entry_bytes entry.now) }
{
    into.put_byte(entry.len() as u8);
    into.put(entry);
}

/// Entries, one after another.
fn put_entries(into: &mut PageWriter, entries: Entries<'_>)
    requires room { sum_by entry_size entries ≤ into.old.room }
    requires short { AreShort 255 entries }
    ensures { Adds into.old into.new (sum_by entry_size entries.entry) (flat_map index_entry_bytes entries.entry) }
{
    for entry in entries {
        put_entry(into, entry);
    }
}

/// An index.
pub fn put_index(into: &mut PageWriter, held: &Index)
    requires room { index_image_size held.now.entries ≤ into.old.room }
    ensures { Adds into.old into.new (index_image_size held.now.entries) (index.print held.now) }
{
    into.put_byte(held.longest());
    into.put_count(held.len());
    put_entries(into, held.entries());
}
