//! The body of a queue.
ghost use Rattle.std.specs.Prelude.{◌≡◌, ◌+◌, ◌≤◌, [], IfErr, IfOk, OnOk, length};
ghost use Rattle.s38_codec.specs.Codec.{times, whole};
ghost use Rattle.s38_codec.specs.Reading.{Gives};
ghost use Rattle.s38_image.specs.Queues.{is_queue, message_form as message_format, order_form, queue, queue_head};
ghost use Rattle.s38_queues.specs.MessageQueue.{message, message_size, queue_image_size, with_message};

use s38_base::limits::LONGEST_MESSAGE;
use s38_codec::{ReadFault, byte_at, bytes_at, text_at, u16_at, u32_at};
use s38_queues::{Order, Queue, QueueFault};
use std::alloc::Global;

/// The longest key.
const LONGEST_KEY: u8 = 120;

/// Which message is taken.
fn order_at(from: &[u8]) -> Result<(Order, &[u8]), ReadFault>
    ensures { Gives (λ x. (x.0, x.1.now)) result (order_form.read from.now) }
{
    let (number, rest) = byte_at(from)?;
    match number {
        0 => Ok((Order::Fifo, rest)),
        1 => Ok((Order::Lifo, rest)),
        2 => Ok((Order::Keyed, rest)),
        _ => Err(ReadFault::BadForm),
    }
}

/// Whether a queue may have keys and messages of these lengths.
fn is_queue(order: Order, key_len: u8, longest: u16) -> bool
    ensures { result ≡ is_queue order key_len longest }
{
    let has_right_keys = match order {
        Order::Keyed => 1 <= key_len && key_len <= LONGEST_KEY,
        _ => key_len == 0,
    };
    1 <= longest && longest <= LONGEST_MESSAGE && has_right_keys
}

/// What a queue is, without its messages.
fn queue_head_at(from: &[u8]) -> Result<((Order, u8, u16), &[u8]), ReadFault>
    ensures read { Gives (λ x. ((x.0.0, (x.0.1, x.0.2)), x.1.now)) result (queue_head.read from.now) }
    ensures keys { IfOk result (λ x. x.0.1 ≤ 120) }
{
    let (order, rest) = order_at(from)?;
    let (key_len, rest) = byte_at(rest)?;
    let (longest, rest) = u16_at(rest)?;
    if !is_queue(order, key_len, longest) {
        return Err(ReadFault::BadForm);
    }
    Ok(((order, key_len, longest), rest))
}

/// A message: its key, and its text after its length.
fn message_at(key_len: u8, longest: u16, from: &[u8]) -> Result<((&[u8], &[u8]), &[u8]), ReadFault>
    ensures read { Gives (λ x. (message x.0.0.now x.0.1.now, x.1.now)) result ((message_format key_len longest).read from.now) }
    ensures key { IfOk result (λ x. length x.0.0.now ≡ key_len) }
    ensures text { IfOk result (λ x. length x.0.1.now ≤ longest) }
    ensures len { IfOk result (λ x. length from.now ≡ message_size (message x.0.0.now x.0.1.now) + length x.1.now) }
{
    let (key, rest) = bytes_at(usize::from(key_len), from)?;
    let (text, rest) = text_at(longest, rest)?;
    Ok(((key, text), rest))
}

/// Puts a message that the queue may have and for which its image has room.
fn put(queue: &mut Queue, key: &[u8], text: &[u8]) -> Result<(), ReadFault>
    requires key { length key.now ≡ queue.old.key_len }
    requires text { length text.now ≤ queue.old.longest }
    requires room { queue_image_size queue.old.messages + message_size (message key.now text.now) ≤ 16777216 }
    ensures ok { OnOk result (queue.new ≡ with_message queue.old (message key.now text.now)) }
    ensures err { IfErr result (λ fault. fault ≡ ReadFault.NoMemory) }
{
    match queue.put(key, text) {
        Ok(()) => Ok(()),
        Err(QueueFault::NoMemory) => Err(ReadFault::NoMemory),
        Err(_) => unreachable!(),
    }
}

/// A queue whose messages, so many, are all of the bytes.
fn messages_in(
    alloc: Global,
    order: Order,
    key_len: u8,
    longest: u16,
    count: u32,
    from: &[u8],
) -> Result<Queue, ReadFault>
    requires key { key_len ≤ 120 }
    requires near { 8 + length from.now ≤ 16777216 }
    ensures read { Gives (λ queue. queue.messages) result (whole (times count (message_format key_len longest)) from.now) }
    ensures order { IfOk result (λ queue. queue.order ≡ order) }
    ensures key_len { IfOk result (λ queue. queue.key_len ≡ key_len) }
    ensures longest { IfOk result (λ queue. queue.longest ≡ longest) }
{
    let mut queue = Queue::new(alloc, order, key_len, longest);
    let mut rest = from;
    for _ in 0..count {
        let ((key, text), after) = message_at(key_len, longest, rest)?;
        put(&mut queue, key, text)?;
        rest = after;
    }
    if !rest.is_empty() {
        return Err(ReadFault::BadForm);
    }
    Ok(queue)
}

/// The queue that the bytes of a body hold.
pub fn queue_in(alloc: Global, bytes: &[u8]) -> Result<Queue, ReadFault>
    requires { length bytes.now ≤ 16777216 }
    ensures { Gives (λ queue. queue) result (whole queue bytes.now) }
{
    let ((order, key_len, longest), rest) = queue_head_at(bytes)?;
    let (count, rest) = u32_at(rest)?;
    messages_in(alloc, order, key_len, longest, count, rest)
}
