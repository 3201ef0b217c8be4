//! Messages put on queues.
ghost use Rattle.std.specs.Prelude.{◌≡◌, ◌≤◌, OnOk, OnErr};
ghost use Rattle.s38_queues.specs.MessageQueue.{MessageQueue, message, queue_image_size, with_message};
ghost use Rattle.s38_rules.specs.ask.Operands.{target};
ghost use Rattle.s38_rules.specs.state.PartsAt.{on_queue};
ghost use Rattle.s38_rules.specs.families.Queues.{enq_fails, put_fails, with_put};

use s38_base::exceptions::{LENGTH_INVALID, LIMIT_EXCEEDED};
use s38_base::{Exception, NoMemory, ObjNum};
use s38_code::Operand;
use s38_invoke::{Core, Profiles};
use s38_objects::Objects;
use s38_operands::{QueueFacts, lent_at, piece_at, queue_facts, size_at, target};
use s38_queues::Queue;
use std::alloc::Global;

// ---- ENQ

fn put_fails(limit: u32, facts: &QueueFacts, key: usize, text: usize) -> Option<Exception>
    requires { facts.now.size ≤ 16777216 }
    ensures { (q : MessageQueue) → facts.now.key_len ≡ q.key_len → facts.now.longest ≡ q.longest → facts.now.size ≡ queue_image_size q.messages
        → result ≡ put_fails limit q key text }
{
    if key != facts.key_len as usize {
        return Some(Exception::plain(LENGTH_INVALID, 2));
    }
    if text > facts.longest as usize {
        return Some(Exception::plain(LENGTH_INVALID, 3));
    }
    if limit < facts.size + (key as u32 + text as u32 + 2) {
        return Some(Exception::plain(LIMIT_EXCEEDED, 1));
    }
    None
}

/// The key has the length of the queue's keys, the message is not too long, and the queue's image stays small.
#[tactic(auto, unfolding(s38_rules::specs::families::Queues::enq_fails))]
pub fn enq_fails(world: &Core<Objects, Profiles>, operands: &[Operand]) -> Option<Exception>
    ensures { result ≡ enq_fails world.now operands.now }
{
    let objects = &world.objects;
    let facts = queue_facts(objects, target(objects, operands, 1));
    put_fails(
        world.limit,
        &facts,
        size_at(objects, operands, 2),
        size_at(objects, operands, 3),
    )
}

fn put_queue(queue: &mut Queue, key: &[u8], text: &[u8]) -> Result<(), NoMemory>
    ensures ok { OnOk result (queue.new ≡ with_message queue.old (message key.now text.now)) }
    ensures err { OnErr result (queue.new ≡ queue.old) }
{
    match queue.put(key, text) {
        Ok(()) => Ok(()),
        Err(_) => Err(NoMemory),
    }
}

/// Puts a message after those of the queue of a number; where memory is refused nothing changes.
#[inline(always)]
fn put_in(objects: &mut Objects, number: ObjNum, key: &[u8], text: &[u8]) -> Result<(), NoMemory>
    ensures ok { OnOk result (objects.new ≡ on_queue objects.old number.0 (λ q. with_message q (message key.now text.now))) }
    ensures err { OnErr result (objects.new ≡ objects.old) }
{
    let Some(queue) = objects.queue_mut(number) else {
        return Ok(());
    };
    put_queue(queue, key, text)
}

/// A message is put last in the queue of a number; where memory is refused nothing changes.
#[inline(always)]
fn put(
    world: &mut Core<Objects, Profiles>,
    number: ObjNum,
    key: &[u8],
    text: &[u8],
) -> Result<(), NoMemory>
    ensures ok { OnOk result (world.new ≡ record world.old { held = on_queue world.old.held number.0 (λ q. with_message q (message key.now text.now)) }) }
    ensures err { OnErr result (world.new ≡ world.old) }
{
    match put_in(&mut world.objects, number, key, text) {
        Ok(()) => Ok(()),
        Err(fault) => Err(fault),
    }
}

/// The message is put last in the queue, where its key or its text lies in a space.
#[inline(never)]
fn enq_read(
    alloc: Global,
    world: &mut Core<Objects, Profiles>,
    operands: &[Operand],
) -> Result<(), NoMemory>
    ensures ok { OnOk result (world.new ≡ record world.old { held = on_queue world.old.held (target world.old.held operands.now 1) (with_put world.old.held operands.now) }) }
    ensures err { OnErr result (world.new ≡ world.old) }
{
    let number = target(&world.objects, operands, 1);
    match piece_at(alloc, &world.objects, operands, 2) {
        Ok(key) => match piece_at(alloc, &world.objects, operands, 3) {
            Ok(text) => put(world, number, key.as_slice(), text.as_slice()),
            Err(fault) => Err(fault),
        },
        Err(fault) => Err(fault),
    }
}

/// The message is put last in the queue.
pub fn enq(
    alloc: Global,
    world: &mut Core<Objects, Profiles>,
    operands: &[Operand],
) -> Result<(), NoMemory>
    ensures ok { OnOk result (world.new ≡ record world.old { held = on_queue world.old.held (target world.old.held operands.now 1) (with_put world.old.held operands.now) }) }
    ensures err { OnErr result (world.new ≡ world.old) }
{
    let Some(key) = lent_at(operands, 2) else {
        return enq_read(alloc, world, operands);
    };
    let Some(text) = lent_at(operands, 3) else {
        return enq_read(alloc, world, operands);
    };
    let number = target(&world.objects, operands, 1);
    put(world, number, key, text)
}
