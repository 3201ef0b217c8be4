//! Messages taken from queues.
ghost use Rattle.std.specs.Prelude.{◌≡◌, IfOk, OnOk, OnErr, is_some};
ghost use Rattle.std.specs.Option.{option_copied, unwrap_or};
ghost use Rattle.s38_queues.specs.MessageQueue.{MessageQueue, found_message, is_any, message, message_found};
ghost use Rattle.s38_rules.specs.ask.Operands.{bytes_at, is_given, target};
ghost use Rattle.s38_rules.specs.state.PartsAt.{no_queue, on_queue, queue_at};
ghost use Rattle.s38_rules.specs.families.Queues.{ask_fails, deq_fails, deq_gives, left_by, message_text_of, relation_at, suits_keys, suits_order, take_fails};

use s38_base::exceptions::{LENGTH_INVALID, NO_MESSAGE};
use s38_base::{Exception, NoMemory, ObjNum, Relation};
use s38_code::{Operand, Val};
use s38_invoke::{Core, Profiles};
use s38_objects::Objects;
use s38_operands::{
    Question, QueueFacts, ask_at, bytes_at, facts_of_queue, fails, fitted, is_given, lent_at,
    relation_at, room_at, size_at, target,
};
use s38_queues::{Message, Order, Queue};
use std::alloc::Global;

/// The byte that fills a text.
const BLANK: u8 = 0x40;

// ---- DEQ

/// Whether the queue has a message that may be taken by a key.
#[derive(Clone, Copy)]
struct HasMessage<'a> {
    queue: Option<&'a Queue>,
    relation: Relation,
}

impl Question for HasMessage<'_> {
    ghost use Rattle.std.specs.Prelude.{is_some};
    ghost use Rattle.std.specs.Option.{option_copied, unwrap_or};
    ghost use Rattle.s38_queues.specs.MessageQueue.{message_found};
    ghost use Rattle.s38_rules.specs.state.PartsAt.{no_queue};

    ghost answer = { λ q key. is_some (message_found (unwrap_or (option_copied q.queue) no_queue) q.relation key) };

    fn ask(&self, key: &[u8]) -> bool {
        match self.queue {
            None => false,
            Some(queue) => queue.find(self.relation, key).is_some(),
        }
    }
}

/// Whether a queue has a message that may be taken by the key at operand 4.
fn has_message(
    objects: &Objects,
    queue: Option<&Queue>,
    relation: Relation,
    operands: &[Operand],
) -> bool
    ensures { result ≡ is_some (message_found (unwrap_or (option_copied queue.entry) no_queue) relation (bytes_at objects.now operands.now 4)) }
{
    ask_at(&HasMessage { queue, relation }, objects, operands, 4)
}

fn is_any(relation: Relation) -> bool
    ensures { result ≡ is_any relation }
{
    matches!(relation, Relation::Any)
}

/// A queue without keys is asked for any message.
fn suits_order(facts: &QueueFacts, relation: Relation) -> bool
    ensures { (q : MessageQueue) → facts.now.order ≡ q.order → result ≡ suits_order q relation }
{
    is_any(relation) || facts.order == Order::Keyed
}

/// For any message no key is given, and else one of the length of the queue's keys.
fn suits_keys(facts: &QueueFacts, relation: Relation, is_key: bool, len: usize) -> bool
    ensures { (q : MessageQueue) → facts.now.key_len ≡ q.key_len → result ≡ suits_keys q relation is_key len }
{
    if is_any(relation) {
        !is_key
    } else {
        len == facts.key_len as usize
    }
}

/// The relation suits the queue, and the key suits both.
fn ask_fails(facts: &QueueFacts, relation: Relation, is_key: bool, len: usize) -> Option<Exception>
    ensures { (q : MessageQueue) → facts.now.order ≡ q.order → facts.now.key_len ≡ q.key_len → result ≡ ask_fails q relation is_key len }
{
    if !suits_order(facts, relation) {
        return Some(Exception::plain(LENGTH_INVALID, 3));
    }
    fails(!suits_keys(facts, relation, is_key, len), LENGTH_INVALID, 4)
}

/// A queue may be asked so, and it has such a message.
fn take_fails(
    objects: &Objects,
    queue: Option<&Queue>,
    relation: Relation,
    operands: &[Operand],
) -> Option<Exception>
    ensures { result ≡ take_fails (unwrap_or (option_copied queue.entry) no_queue) relation (is_given operands.now 4) (bytes_at objects.now operands.now 4) }
{
    let facts = facts_of_queue(queue);
    let len = size_at(objects, operands, 4);
    if let Some(failure) = ask_fails(&facts, relation, is_given(operands, 4), len) {
        return Some(failure);
    }
    fails(
        !has_message(objects, queue, relation, operands),
        NO_MESSAGE,
        2,
    )
}

/// The queue may be asked so, and there is such a message. The queue is looked up once.
#[tactic(auto, unfolding(s38_rules::specs::families::Queues::deq_fails))]
pub fn deq_fails(objects: &Objects, operands: &[Operand]) -> Option<Exception>
    ensures { result ≡ deq_fails objects.now operands.now }
{
    let queue = objects.queue(target(objects, operands, 2));
    take_fails(objects, queue, relation_at(operands, 3), operands)
}

fn text_of(message: Option<&Message>) -> &[u8]
    ensures { result.now ≡ message_text_of (option_copied message.entry) }
{
    match message {
        None => &[],
        Some(message) => message.text.as_slice(),
    }
}

/// The text of the message that the queue of a number gives.
fn found_text<'a>(objects: &'a Objects, number: ObjNum, relation: Relation, key: &[u8]) -> &'a [u8]
    ensures { result.now ≡ message_text_of (found_message (queue_at objects.now number.0) relation key.now) }
{
    match objects.queue(number) {
        None => &[],
        Some(queue) => text_of(queue.find(relation, key)),
    }
}

/// The text of the message that the queue at operand 2 gives by the relation at operand 3.
#[inline(always)]
fn sought_text<'a>(objects: &'a Objects, operands: &[Operand], key: &[u8]) -> &'a [u8]
    ensures { result.now ≡ message_text_of (found_message (queue_at objects.now (target objects.now operands.now 2)) (relation_at operands.now 3) key.now) }
{
    found_text(
        objects,
        target(objects, operands, 2),
        relation_at(operands, 3),
        key,
    )
}

/// The text of the message that is taken, where the key lies in a space.
#[inline(never)]
#[tactic(auto, unfolding(s38_rules::specs::families::Queues::deq_bytes))]
fn deq_reads(alloc: Global, objects: &Objects, operands: &[Operand]) -> Result<Val, NoMemory>
    ensures { IfOk result (λ value. value ≡ deq_gives objects.now operands.now) }
{
    let key = bytes_at(alloc, objects, operands, 4)?;
    let text = sought_text(objects, operands, key.as_slice());
    Ok(Val::Bytes(fitted(alloc, room_at(operands, 1), BLANK, text)?))
}

/// The text of the message that is taken, cut or filled with blanks.
#[tactic(auto, unfolding(s38_rules::specs::families::Queues::deq_bytes))]
pub fn deq_gives(alloc: Global, objects: &Objects, operands: &[Operand]) -> Result<Val, NoMemory>
    ensures { IfOk result (λ value. value ≡ deq_gives objects.now operands.now) }
{
    let Some(key) = lent_at(operands, 4) else {
        return deq_reads(alloc, objects, operands);
    };
    let text = sought_text(objects, operands, key);
    Ok(Val::Bytes(fitted(alloc, room_at(operands, 1), BLANK, text)?))
}

fn take_queue(queue: &mut Queue, relation: Relation, key: &[u8])
    ensures { queue.new ≡ left_by relation key.now queue.old }
{
    let _message = queue.take(relation, key);
}

/// Takes a message out of the queue of a number.
#[inline(always)]
fn take_in(objects: &mut Objects, number: ObjNum, relation: Relation, key: &[u8])
    ensures { objects.new ≡ on_queue objects.old number.0 (left_by relation key.now) }
{
    if let Some(queue) = objects.queue_mut(number) {
        take_queue(queue, relation, key);
    }
}

/// A message leaves the queue of a number.
#[inline(always)]
fn take(world: &mut Core<Objects, Profiles>, number: ObjNum, relation: Relation, key: &[u8])
    ensures { world.new ≡ record world.old { held = on_queue world.old.held number.0 (left_by relation key.now) } }
{
    take_in(&mut world.objects, number, relation, key);
}

/// The message leaves the queue, where the key lies in a space; where memory is refused nothing changes.
#[inline(never)]
fn deq_read(
    alloc: Global,
    world: &mut Core<Objects, Profiles>,
    operands: &[Operand],
) -> Result<(), NoMemory>
    ensures ok { OnOk result (world.new ≡ record world.old { held = on_queue world.old.held (target world.old.held operands.now 2) (left_by (relation_at operands.now 3) (bytes_at world.old.held operands.now 4)) }) }
    ensures err { OnErr result (world.new ≡ world.old) }
{
    let number = target(&world.objects, operands, 2);
    let key = match bytes_at(alloc, &world.objects, operands, 4) {
        Ok(key) => key,
        Err(fault) => return Err(fault),
    };
    take(world, number, relation_at(operands, 3), key.as_slice());
    Ok(())
}

/// The message leaves the queue; where memory is refused nothing changes.
pub fn deq(
    alloc: Global,
    world: &mut Core<Objects, Profiles>,
    operands: &[Operand],
) -> Result<(), NoMemory>
    ensures ok { OnOk result (world.new ≡ record world.old { held = on_queue world.old.held (target world.old.held operands.now 2) (left_by (relation_at operands.now 3) (bytes_at world.old.held operands.now 4)) }) }
    ensures err { OnErr result (world.new ≡ world.old) }
{
    let Some(key) = lent_at(operands, 4) else {
        return deq_read(alloc, world, operands);
    };
    let number = target(&world.objects, operands, 2);
    take(world, number, relation_at(operands, 3), key);
    Ok(())
}
