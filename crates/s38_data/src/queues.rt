//! Queues: made and destroyed. The instructions of their family.
ghost use Rattle.s38_rules.specs.state.State.{State};
ghost use Rattle.s38_rules.specs.families.Changes.{done};
ghost use Rattle.std.specs.Prelude.{◌≡◌, ◌≤◌, None, IfOk, OnOk, OnErr};
ghost use Rattle.s38_queues.specs.MessageQueue.{longest_key};
ghost use Rattle.s38_rules.specs.families.Queues.{created_queue, crtq_changes, crtq_fails, key_len_at, longest_at, new_queue, order_of, queues_row};

use crate::dequeuing::{deq, deq_fails, deq_gives};
use crate::enqueuing::{enq, enq_fails};
use s38_base::{Category, Exception, Kind, NoMemory, Op, Rights};
use s38_changes::{
    creation_changes, creation_fails, creation_gives, creation_needs, destroy, destruction_needs,
    in_context,
};
use s38_code::{Operand, Val};
use s38_invoke::{Core, Profiles};
use s38_objects::Objects;
use s38_operands::{Act, Needs, on_object, whole_at, word_at};
use s38_queues::{Order, Queue};
use s38_rules::{Body, Creating, Sought};
use std::alloc::Global;

/// The longest key of a queue, in bytes.
const LONGEST_KEY: u64 = 120;

/// The longest message of a queue, in bytes.
const LONGEST_MESSAGE: u64 = 4096;

// ---- CRTQ

fn created_queue(objects: &Objects, operands: &[Operand]) -> Creating
    ensures { result ≡ created_queue objects.now operands.now }
{
    in_context(Kind::Queue, 1, objects, operands)
}

#[tactic(auto, unfolding(s38_rules::specs::families::Queues::crtq_fails))]
fn crtq_fails(
    world: &Core<Objects, Profiles>,
    process: u32,
    operands: &[Operand],
) -> Option<Exception>
    ensures { result ≡ crtq_fails world.now process operands.now }
{
    let created = created_queue(&world.objects, operands);
    creation_fails(world, world.user_of(process), &created, None)
}

/// The order that a word names.
fn order_of(word: u32) -> Order
    ensures { result ≡ order_of word }
{
    match word {
        1 => Order::Lifo,
        2 => Order::Keyed,
        _ => Order::Fifo,
    }
}

/// How long the keys of a new queue are: those that do not order it are empty.
fn key_len_at(operands: &[Operand]) -> u8
    ensures value { result ≡ key_len_at operands.now }
    ensures bound { result ≤ longest_key }
{
    match order_of(word_at(operands, 5)) {
        Order::Keyed => whole_at(operands, 6).min(LONGEST_KEY).max(1) as u8,
        _ => 0,
    }
}

/// How long the messages of a new queue may be.
fn longest_at(operands: &[Operand]) -> u16
    ensures { result ≡ longest_at operands.now }
{
    whole_at(operands, 7).min(LONGEST_MESSAGE).max(1) as u16
}

fn new_queue(alloc: Global, operands: &[Operand]) -> Queue
    ensures { result ≡ new_queue operands.now }
{
    Queue::new(
        alloc,
        order_of(word_at(operands, 5)),
        key_len_at(operands),
        longest_at(operands),
    )
}

#[tactic(auto, using(crate::proofs::QueueLaws::crtq_created, s38_changes::proofs::CreationLaws::home_placed))]
fn crtq(
    alloc: Global,
    world: &mut Core<Objects, Profiles>,
    process: u32,
    operands: &[Operand],
) -> Result<(), NoMemory>
    requires { crtq_fails world.old process operands.now ≡ None }
    ensures ok { OnOk result (world.new ≡ done world.old process (crtq_changes world.old process operands.now)) }
    ensures err { OnErr result (world.new ≡ world.old) }
{
    let owner = world.user_of(process);
    let created = created_queue(&world.objects, operands);
    let queue = new_queue(alloc, operands);
    creation_changes(alloc, world, owner, &created, Body::Queue(queue))
}

// ---- the family

/// What an instruction of queues needs.
#[tactic(auto, unfolding(s38_rules::specs::families::Queues::queues_row, s38_rules::specs::families::Queues::enq_needs, s38_rules::specs::families::Queues::deq_needs))]
pub fn needs(act: Act<'_>) -> Needs
    ensures { (s : State) → result ≡ (queues_row act.entry.request.now.op).needs s act.entry.process act.entry.depth act.entry.request.now }
{
    let queue = Sought::Of(Kind::Queue);
    match act.request.op {
        Op::Crtq => creation_needs(act.request.operands.as_slice()),
        Op::Desq => destruction_needs(Kind::Queue),
        Op::Enq => on_object(1, queue, Rights::INSERT, Some(Category::Change)),
        Op::Deq => on_object(2, queue, Rights::DELETE, Some(Category::Change)),
        _ => Needs::none(),
    }
}

/// The first of its conditions and limits that fails.
#[tactic(auto, unfolding(s38_rules::specs::families::Queues::queues_row))]
pub fn conditions(world: &Core<Objects, Profiles>, act: Act<'_>) -> Option<Exception>
    ensures { result ≡ (queues_row act.entry.request.now.op).fails world.now act.entry.process act.entry.depth act.entry.request.now }
{
    let operands = act.request.operands.as_slice();
    match act.request.op {
        Op::Crtq => crtq_fails(world, act.process, operands),
        Op::Enq => enq_fails(world, operands),
        Op::Deq => deq_fails(&world.objects, operands),
        _ => None,
    }
}

/// The value for its receiver.
#[tactic(auto, unfolding(s38_rules::specs::families::Queues::queues_row))]
pub fn value(
    alloc: Global,
    world: &Core<Objects, Profiles>,
    act: Act<'_>,
) -> Result<Option<Val>, NoMemory>
    ensures { IfOk result (λ value. value ≡ (queues_row act.entry.request.now.op).gives world.now act.entry.process act.entry.depth act.entry.request.now) }
{
    let objects = &world.objects;
    let operands = act.request.operands.as_slice();
    match act.request.op {
        Op::Crtq => Ok(Some(creation_gives(objects, &created_queue(objects, operands)))),
        Op::Deq => Ok(Some(deq_gives(alloc, objects, operands)?)),
        _ => Ok(None),
    }
}

/// What it changes, where it doesn't fail; where memory is refused nothing changes.
#[tactic(auto, unfolding(s38_rules::specs::families::Queues::queues_row))]
pub fn apply(
    alloc: Global,
    world: &mut Core<Objects, Profiles>,
    act: Act<'_>,
) -> Result<(), NoMemory>
    requires { (queues_row act.request.now.op).fails world.old act.process act.depth act.request.now ≡ None }
    ensures ok { OnOk result (world.new ≡ done world.old act.entry.process ((queues_row act.entry.request.now.op).changes world.old act.entry.process act.entry.depth act.entry.request.now)) }
    ensures err { OnErr result (world.new ≡ world.old) }
{
    let operands = act.request.operands.as_slice();
    match act.request.op {
        Op::Crtq => crtq(alloc, world, act.process, operands),
        Op::Desq => {
            destroy(world, Kind::Queue, operands);
            Ok(())
        }
        Op::Enq => enq(alloc, world, operands),
        Op::Deq => deq(alloc, world, operands),
        _ => Ok(()),
    }
}
