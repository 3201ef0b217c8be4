//! What is printed of longer bodies. Nothing here takes memory.
ghost use Rattle.std.specs.Prelude.{◌≡◌, ◌*◌, ◌≤◌, All, length, sum_by};
ghost use Rattle.std.specs.List.{flat_map};
ghost use Rattle.s38_image.specs.Journals.{journal};
ghost use Rattle.s38_image_writer.specs.Printing.{message_bytes};
ghost use Rattle.s38_image.specs.Queues.{order_number, queue};
ghost use Rattle.s38_image_writer.specs.Writing.{Adds};
ghost use Rattle.s38_journals.specs.Journals.{entries_len};
ghost use Rattle.s38_memory.specs.Cell.{IsCell};
ghost use Rattle.s38_memory.specs.Tagged.{bytes_in};
ghost use Rattle.s38_queues.specs.MessageQueue.{message_size, queue_image_size};

use crate::writer::PageWriter;
use s38_journals::Journal;
use s38_memory::Cell;
use s38_queues::{Message, Order, Queue};

/// The cells of a space, one after another.
pub fn put_cells(into: &mut PageWriter, cells: &[Cell])
    requires cells { All IsCell cells.now }
    requires room { 16 * length cells.now ≤ into.old.room }
    ensures { Adds into.old into.new (16 * length cells.now) (bytes_in cells.now) }
{
    for cell in cells {
        into.put(&cell.bytes());
    }
}

/// The entries of a journal space, one after another.
#[tactic(auto, using(crate::proofs::PrintLaws::journal_bytes, crate::proofs::PrintLaws::journal_length))]
pub fn put_journal(into: &mut PageWriter, held: &Journal)
    requires room { entries_len held.now.entries ≤ into.old.room }
    ensures { Adds into.old into.new (entries_len held.now.entries) (journal.print held.now.entries) }
{
    into.put(held.image());
}

/// The number of an order.
fn order_number(order: Order) -> u8
    ensures { result ≡ order_number order }
{
    match order {
        Order::Fifo => 0,
        Order::Lifo => 1,
        Order::Keyed => 2,
    }
}

/// A message: its key, and its text after its length.
#[tactic(auto, unfolding(crate::specs::Printing::message_bytes))]
fn put_message(into: &mut PageWriter, held: &Message)
    requires room { message_size held.now ≤ into.old.room }
    ensures { Adds into.old into.new (message_size held.now) (message_bytes held.now) }
{
    into.put(held.key.as_slice());
    into.put_short_count(held.text.len());
    into.put(held.text.as_slice());
}

/// The messages of a queue, in the order of their arrival.
fn put_messages(into: &mut PageWriter, held: &Queue)
    requires room { sum_by message_size held.now.messages ≤ into.old.room }
    ensures { Adds into.old into.new (sum_by message_size held.now.messages) (flat_map message_bytes held.now.messages) }
{
    for message in held.messages() {
        put_message(into, message);
    }
}

/// A queue.
pub fn put_queue(into: &mut PageWriter, held: &Queue)
    requires room { queue_image_size held.now.messages ≤ into.old.room }
    ensures { Adds into.old into.new (queue_image_size held.now.messages) (queue.print held.now) }
{
    into.put_byte(order_number(held.order()));
    into.put_byte(held.key_len());
    into.put_u16(held.longest());
    into.put_count(held.len());
    put_messages(into, held);
}
