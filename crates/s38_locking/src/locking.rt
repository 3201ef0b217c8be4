//! Locks: granted, given up, handed on to another job, listed.
ghost use Rattle.s38_rules.specs.state.State.{State};
ghost use Rattle.s38_rules.specs.families.Changes.{done};
ghost use Rattle.std.specs.Prelude.{◌≡◌, None, Some, IfOk, OnOk, OnErr};
ghost use Rattle.s38_base.specs.Signals.{first};
ghost use Rattle.s38_locks.specs.Refusals.{transfer_refusal, unlock_refusal};
ghost use Rattle.s38_rules.specs.families.Locking.{lock_changes, lock_fails, lock_needs, lock_right, lock_state_of, locks_at, locks_row, matobjlk_gives, matobjlk_needs, of_lock_fault, state_asked, unlock_changes, unlock_fails, unlock_needs, xfrlock_changes, xfrlock_fails};

use crate::images::locks_image;
use crate::jobs::{may_take, taker};
use s38_base::exceptions::{LIMIT_EXCEEDED, LOCK_NOT_GRANTABLE, LOCK_NOT_HELD, PROCESS_NOT_FOUND};
use s38_base::{Exception, LockState, NoMemory, Op, Rights, Rule};
use s38_code::{Operand, Val};
use s38_invoke::{Core, Profiles};
use s38_locks::LockFault;
use s38_objects::Objects;
use s38_operands::{Act, Needs, fitted, on_object, room_at, target, word_at};
use s38_rules::Sought;
use std::alloc::Global;

// ---- what the operands say

fn state_of(word: u32) -> LockState
    ensures { result ≡ lock_state_of word }
{
    if word == 0 {
        LockState::Lsrd
    } else if word == 1 {
        LockState::Lsro
    } else if word == 2 {
        LockState::Lsup
    } else if word == 3 {
        LockState::Lear
    } else {
        LockState::Lenr
    }
}

/// Operand 2 is the state.
fn state_asked(operands: &[Operand]) -> LockState
    ensures { result ≡ state_asked operands.now }
{
    state_of(word_at(operands, 2))
}

/// Why the table of locks refuses, about operand 1.
fn of_fault(fault: LockFault) -> Option<Exception>
    ensures { result ≡ of_lock_fault (Some fault) }
{
    match fault {
        LockFault::NotGrantable { holder, state } => Some(Exception {
            id: LOCK_NOT_GRANTABLE,
            operand: 1,
            rule: Rule::Held {
                process: holder,
                state,
            },
        }),
        LockFault::Limit => Some(Exception::plain(LIMIT_EXCEEDED, 1)),
        LockFault::NotHeld => Some(Exception::plain(LOCK_NOT_HELD, 1)),
        LockFault::NoMemory => None,
    }
}

// ---- LOCK

fn lock_right(state: LockState) -> Rights
    ensures { result.0 ≡ lock_right state }
{
    match state {
        LockState::Lsrd => Rights::RETRIEVE,
        LockState::Lsro => Rights::RETRIEVE,
        _ => Rights::UPDATE,
    }
}

/// RETRIEVE where readers share the object, else UPDATE.
#[tactic(auto, unfolding(s38_rules::specs::families::Locking::lock_needs))]
fn lock_needs(operands: &[Operand]) -> Needs
    ensures { result ≡ lock_needs operands.now }
{
    on_object(1, Sought::Any, lock_right(state_asked(operands)), None)
}

/// No lock of another process is in the way, and the object may have one more.
#[tactic(auto, unfolding(s38_rules::specs::families::Locking::lock_fails))]
fn lock_fails(
    world: &Core<Objects, Profiles>,
    process: u32,
    operands: &[Operand],
) -> Option<Exception>
    ensures { result ≡ lock_fails world.now process operands.now }
{
    let object = target(&world.objects, operands, 1);
    match world.locks.can_lock(object, process, state_asked(operands)) {
        Ok(()) => None,
        Err(fault) => of_fault(fault),
    }
}

/// The process holds one more lock.
fn lock(
    world: &mut Core<Objects, Profiles>,
    process: u32,
    operands: &[Operand],
) -> Result<(), NoMemory>
    requires { lock_fails world.old process operands.now ≡ None }
    ensures ok { OnOk result (world.new ≡ done world.old process (lock_changes world.old process operands.now)) }
    ensures err { OnErr result (world.new ≡ world.old) }
{
    let object = target(&world.objects, operands, 1);
    match world.locks.lock(object, process, state_asked(operands)) {
        Ok(()) => Ok(()),
        Err(_) => Err(NoMemory),
    }
}

// ---- UNLOCK

/// Who holds a lock gives it up without a right.
#[tactic(auto, unfolding(s38_rules::specs::families::Locking::unlock_needs))]
fn unlock_needs() -> Needs
    ensures { result ≡ unlock_needs }
{
    on_object(1, Sought::Any, Rights(0), None)
}

/// Why a process does not give a lock up.
fn not_held(
    world: &Core<Objects, Profiles>,
    process: u32,
    operands: &[Operand],
) -> Option<Exception>
    ensures { result ≡ of_lock_fault (unlock_refusal process (state_asked operands.now) (locks_at world.now operands.now 1)) }
{
    let object = target(&world.objects, operands, 1);
    match world
        .locks
        .can_unlock(object, process, state_asked(operands))
    {
        Ok(()) => None,
        Err(fault) => of_fault(fault),
    }
}

/// The process holds such a lock.
#[tactic(auto, unfolding(s38_rules::specs::families::Locking::unlock_fails))]
fn unlock_fails(
    world: &Core<Objects, Profiles>,
    process: u32,
    operands: &[Operand],
) -> Option<Exception>
    ensures { result ≡ unlock_fails world.now process operands.now }
{
    not_held(world, process, operands)
}

/// The process holds one lock less; it takes no memory.
#[tactic(auto, using(crate::proofs::LockLaws::unlock_met))]
fn unlock(world: &mut Core<Objects, Profiles>, process: u32, operands: &[Operand])
    requires { unlock_fails world.old process operands.now ≡ None }
    ensures { world.new ≡ done world.old process (unlock_changes world.old process operands.now) }
{
    let object = target(&world.objects, operands, 1);
    match world.locks.unlock(object, process, state_asked(operands)) {
        Ok(()) => {}
        Err(_) => unreachable!(),
    }
}

// ---- XFRLOCK

/// Why a lock is not handed on to a process.
fn not_given(
    world: &Core<Objects, Profiles>,
    process: u32,
    taker: u32,
    operands: &[Operand],
) -> Option<Exception>
    ensures { result ≡ of_lock_fault (transfer_refusal process taker (state_asked operands.now) (locks_at world.now operands.now 1)) }
{
    let object = target(&world.objects, operands, 1);
    match world
        .locks
        .can_transfer(object, process, taker, state_asked(operands))
    {
        Ok(()) => None,
        Err(fault) => of_fault(fault),
    }
}

/// The process holds such a lock, the job is another's that goes on, and no other lock is in its way.
#[tactic(auto, unfolding(s38_rules::specs::families::Locking::xfrlock_fails))]
fn xfrlock_fails(
    world: &Core<Objects, Profiles>,
    process: u32,
    operands: &[Operand],
) -> Option<Exception>
    ensures { result ≡ xfrlock_fails world.now process operands.now }
{
    if let Some(failure) = not_held(world, process, operands) {
        return Some(failure);
    }
    let taker = taker(world, operands);
    if !may_take(world, process, taker) {
        return Some(Exception::plain(PROCESS_NOT_FOUND, 3));
    }
    not_given(world, process, taker, operands)
}

/// The other process holds the lock; it takes no memory.
#[tactic(auto, using(crate::proofs::LockLaws::xfrlock_met))]
fn xfrlock(world: &mut Core<Objects, Profiles>, process: u32, operands: &[Operand])
    requires { xfrlock_fails world.old process operands.now ≡ None }
    ensures { world.new ≡ done world.old process (xfrlock_changes world.old process operands.now) }
{
    let object = target(&world.objects, operands, 1);
    let taker = taker(world, operands);
    match world
        .locks
        .transfer(object, process, taker, state_asked(operands))
    {
        Ok(()) => {}
        Err(_) => unreachable!(),
    }
}

// ---- MATOBJLK

/// RETRIEVE on the object.
#[tactic(auto, unfolding(s38_rules::specs::families::Locking::matobjlk_needs))]
fn matobjlk_needs() -> Needs
    ensures { result ≡ matobjlk_needs }
{
    on_object(2, Sought::Any, Rights::RETRIEVE, None)
}

/// The object's locks, cut or filled.
#[tactic(auto, unfolding(s38_rules::specs::families::Locking::matobjlk_bytes))]
fn matobjlk_gives(
    alloc: Global,
    world: &Core<Objects, Profiles>,
    operands: &[Operand],
) -> Result<Val, NoMemory>
    ensures { IfOk result (λ value. value ≡ matobjlk_gives world.now operands.now) }
{
    let holders = world.locks.holders(target(&world.objects, operands, 2))?;
    let image = locks_image(alloc, holders.as_slice())?;
    let bytes = fitted(alloc, room_at(operands, 1), 0, image.as_slice())?;
    Ok(Val::Bytes(bytes))
}

// ---- the family

/// What an instruction of locks needs.
#[tactic(auto, unfolding(s38_rules::specs::families::Locking::locks_row))]
pub fn needs(act: Act<'_>) -> Needs
    ensures { (s : State) → result ≡ (locks_row act.entry.request.now.op).needs s act.entry.process act.entry.depth act.entry.request.now }
{
    match act.request.op {
        Op::Lock => lock_needs(act.request.operands.as_slice()),
        Op::Unlock | Op::Xfrlock => unlock_needs(),
        Op::Matobjlk => matobjlk_needs(),
        _ => Needs::none(),
    }
}

/// The first of its conditions that fails.
#[tactic(auto, unfolding(s38_rules::specs::families::Locking::locks_row))]
pub fn conditions(world: &Core<Objects, Profiles>, act: Act<'_>) -> Option<Exception>
    ensures { result ≡ (locks_row act.entry.request.now.op).fails world.now act.entry.process act.entry.depth act.entry.request.now }
{
    let operands = act.request.operands.as_slice();
    match act.request.op {
        Op::Lock => lock_fails(world, act.process, operands),
        Op::Unlock => unlock_fails(world, act.process, operands),
        Op::Xfrlock => xfrlock_fails(world, act.process, operands),
        _ => None,
    }
}

/// The value for its receiver.
#[tactic(auto, unfolding(s38_rules::specs::families::Locking::locks_row))]
pub fn value(
    alloc: Global,
    world: &Core<Objects, Profiles>,
    act: Act<'_>,
) -> Result<Option<Val>, NoMemory>
    ensures { IfOk result (λ value. value ≡ (locks_row act.entry.request.now.op).gives world.now act.entry.process act.entry.depth act.entry.request.now) }
{
    match act.request.op {
        Op::Matobjlk => Ok(Some(matobjlk_gives(alloc, world, act.request.operands.as_slice())?)),
        _ => Ok(None),
    }
}

/// What it changes, where it doesn't fail; where memory is refused nothing changes.
#[tactic(auto, unfolding(s38_rules::specs::families::Locking::locks_row))]
pub fn apply(world: &mut Core<Objects, Profiles>, act: Act<'_>) -> Result<(), NoMemory>
    requires { (locks_row act.request.now.op).fails world.old act.process act.depth act.request.now ≡ None }
    ensures ok { OnOk result (world.new ≡ done world.old act.entry.process ((locks_row act.entry.request.now.op).changes world.old act.entry.process act.entry.depth act.entry.request.now)) }
    ensures err { OnErr result (world.new ≡ world.old) }
{
    let operands = act.request.operands.as_slice();
    match act.request.op {
        Op::Lock => lock(world, act.process, operands),
        Op::Unlock => {
            unlock(world, act.process, operands);
            Ok(())
        }
        Op::Xfrlock => {
            xfrlock(world, act.process, operands);
            Ok(())
        }
        _ => Ok(()),
    }
}
