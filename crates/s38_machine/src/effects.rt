//! A permitted event takes effect.
ghost use Rattle.std.specs.Prelude.{◌≡◌, ◌∷◌, ℕ, None, IfOk, OnOk, OnErr, length};
ghost use Rattle.s38_code.specs.declared.event.Event.{Event};
ghost use Rattle.s38_rules.specs.declared.verdict.Verdict.{Verdict};
ghost use Rattle.s38_rules.specs.families.Computing.{receiver_at};
ghost use Rattle.s38_rules.specs.step.Effect.{effect, effect_of};
ghost use Rattle.s38_rules.specs.ask.Receivers.{delivered};
ghost use Rattle.s38_rules.specs.families.Rows.{row};
ghost use Rattle.s38_rules.specs.state.State.{State};
ghost use Rattle.s38_rules.specs.step.Step.{awake, awake_verdict};
ghost use Rattle.s38_rules.specs.store.Storing.{stored};
ghost use Rattle.s38_machine.specs.Events.{GoesAsThatOf};
ghost use Rattle.s38_machine.specs.Stored.{FitsStore, IsPrepared, must_persist_at};
ghost use Rattle.s38_rights_cache.specs.Following.{world_after_event};
ghost use Rattle.s38_rights_cache.specs.Places.{IsSteady};

use crate::deliveries::{parted, put};
use crate::rows;
use crate::storing::{keep_stored, prepared};
use s38_base::{NoMemory, Seq};
use s38_code::{Event, Val, Vals};
use s38_invoke::{Core, Profiles, start};
use s38_objects::Objects;
use s38_operands::{Act, receiver_at, shift_at};
use s38_rights_cache::World;
use s38_space_map::{Forcings, Room};
use s38_units::end;
use std::alloc::Global;

/// The values of the reply to an instruction, and what goes into the space of its receiver.
#[tactic(auto, unfolding(s38_rules::specs::step::Effect::effect))]
fn act_values(
    alloc: Global,
    world: &Core<Objects, Profiles>,
    act: Act<'_>,
) -> Result<(Vals, Option<Val>), NoMemory>
    ensures values { IfOk result (λ parts. parts.0 ≡ (effect (row act.entry.request.now.op) world.now act.entry.process act.entry.depth act.entry.request.now).values) }
    ensures kept { IfOk result (λ parts. (s : State) (shift : ℕ) → (delivered s shift (receiver_at act.entry.request.now.op act.entry.request.now.operands) parts.1).state
        ≡ (delivered s shift (receiver_at act.entry.request.now.op act.entry.request.now.operands) ((row act.entry.request.now.op).gives world.now act.entry.process act.entry.depth act.entry.request.now)).state) }
{
    let value = rows::value(alloc, world, act)?;
    parted(
        alloc,
        receiver_at(act.request.op, act.request.operands.as_slice()),
        value,
    )
}

/// The values of the reply to a permitted event, and what goes into the space of its receiver.
#[tactic(auto, unfolding(s38_rules::specs::step::Effect::effect_of))]
pub fn parted_values(
    alloc: Global,
    world: &Core<Objects, Profiles>,
    process: u32,
    event: &Event,
) -> Result<(Vals, Option<Val>), NoMemory>
    ensures values { IfOk result (λ parts. parts.0 ≡ (effect_of world.now process event.now).values) }
    ensures kept { IfOk result (λ parts. GoesAsThatOf world.now process event.now parts.1) }
{
    match event {
        Event::Act { depth, request } => {
            let act = Act {
                process,
                depth: *depth,
                request,
            };
            act_values(alloc, world, act)
        }
        _ => Ok((Seq::new(alloc), None)),
    }
}

/// An instruction changes what it changes, and then its value goes into the space of its receiver.
#[tactic(auto, unfolding(s38_rules::specs::step::Effect::effect))]
fn carry_out(
    alloc: Global,
    world: &mut Core<Objects, Profiles>,
    act: Act<'_>,
    value: Option<Val>,
) -> Result<(), NoMemory>
    requires conditions { (row act.request.now.op).fails world.old act.process act.depth act.request.now ≡ None }
    requires value { (s : State) (shift : ℕ) → (delivered s shift (receiver_at act.request.now.op act.request.now.operands) value).state
        ≡ (delivered s shift (receiver_at act.request.now.op act.request.now.operands) ((row act.request.now.op).gives world.old act.process act.depth act.request.now)).state }
    ensures ok { OnOk result (world.new ≡ (effect (row act.entry.request.now.op) world.old act.entry.process act.entry.depth act.entry.request.now).state) }
    ensures err { OnErr result (world.new ≡ world.old) }
{
    let operands = act.request.operands.as_slice();
    let shift = shift_at(&world.objects, act.request.op, operands);
    match rows::apply(alloc, world, act) {
        Ok(()) => {
            put(world, shift, receiver_at(act.request.op, operands), value);
            Ok(())
        }
        Err(fault) => Err(fault),
    }
}

#[tactic(auto, using(crate::proofs::VerdictLaws::permitted_conditions), unfolding(s38_rules::specs::step::Effect::effect_of))]
fn take_effect(
    alloc: Global,
    world: &mut Core<Objects, Profiles>,
    process: u32,
    event: &Event,
    value: Option<Val>,
) -> Result<(), NoMemory>
    requires permit { awake_verdict world.old process event.now ≡ Verdict.Permit }
    requires value { GoesAsThatOf world.old process event.now value }
    ensures ok { OnOk result (world.new ≡ (effect_of world.old process event.now).state) }
    ensures err { OnErr result (world.new ≡ world.old) }
{
    match event {
        Event::Start => start(alloc, world, process),
        Event::Act { depth, request } => {
            let act = Act {
                process,
                depth: *depth,
                request,
            };
            carry_out(alloc, world, act, value)
        }
        Event::Finish { .. } => {
            end(world, process);
            Ok(())
        }
    }
}

/// A permitted event takes effect, and the store keeps what of it must persist, for which the memory is prepared.
fn take_stored(
    alloc: Global,
    world: &mut Core<Objects, Profiles>,
    process: u32,
    event: &Event,
    value: Option<Val>,
    all: &Forcings,
    spare: Option<Room>,
) -> Result<(), NoMemory>
    requires permit { awake_verdict world.old process event.now ≡ Verdict.Permit }
    requires value { GoesAsThatOf world.old process event.now value }
    requires fits { FitsStore world.old }
    requires anew { all.now ≡ must_persist_at world.old process event.now }
    requires prepared { IsPrepared world.old.room all.now spare }
    ensures ok { OnOk result (world.new ≡ stored world.old process event.now (effect_of world.old process event.now).state) }
    ensures err { OnErr result (world.new ≡ world.old) }
    ensures fits { OnOk result (FitsStore (awake (stored world.old process event.now (effect_of world.old process event.now).state))) }
{
    match take_effect(alloc, world, process, event, value) {
        Err(fault) => Err(fault),
        Ok(()) => {
            let _count = world.objects.len();
            keep_stored(world, all, spare);
            Ok(())
        }
    }
}

/// A permitted event takes effect, with the value that goes into the space of its receiver, the store keeps this of it,
/// and nobody waits any more; where memory is refused nothing changes.
#[tactic(auto, using(crate::proofs::StoredLaws::stored_keeps))]
pub fn apply(
    alloc: Global,
    world: &mut Core<Objects, Profiles>,
    process: u32,
    event: &Event,
    value: Option<Val>,
    all: &Forcings,
) -> Result<(), NoMemory>
    requires permit { awake_verdict world.old process event.now ≡ Verdict.Permit }
    requires value { GoesAsThatOf world.old process event.now value }
    requires fits { FitsStore world.old }
    requires anew { all.now ≡ must_persist_at world.old process event.now }
    ensures ok { OnOk result (world.new ≡ awake (stored world.old process event.now (effect_of world.old process event.now).state)) }
    ensures err { OnErr result (world.new ≡ world.old) }
    ensures kept { OnOk result (length world.new.processes ≡ length world.old.processes) }
    ensures fits { OnOk result (FitsStore world.new) }
{
    let spare = prepared(alloc, world, all)?;
    match take_stored(alloc, world, process, event, value, all, spare) {
        Err(fault) => Err(fault),
        Ok(()) => {
            world.waiting.clear();
            Ok(())
        }
    }
}

/// The same in a world, whose counts, frame numbers and places follow.
pub fn take_up(
    alloc: Global,
    world: &mut World<Objects, Profiles>,
    process: u32,
    event: &Event,
    value: Option<Val>,
    all: &Forcings,
) -> Result<(), NoMemory>
    requires permit { awake_verdict world.old.state process event.now ≡ Verdict.Permit }
    requires value { GoesAsThatOf world.old.state process event.now value }
    requires fits { FitsStore world.old.state }
    requires anew { all.now ≡ must_persist_at world.old.state process event.now }
    requires steady { IsSteady world.old }
    ensures ok { OnOk result (world.new ≡ world_after_event world.old process event.now (awake (stored world.old.state process event.now (effect_of world.old.state process event.now).state))) }
    ensures state { OnOk result (world.new.state ≡ awake (stored world.old.state process event.now (effect_of world.old.state process event.now).state)) }
    ensures err { OnErr result (world.new ≡ world.old) }
    ensures kept { OnOk result (length world.new.state.processes ≡ length world.old.state.processes) }
    ensures fits { OnOk result (FitsStore world.new.state) }
    ensures steady { OnOk result (IsSteady world.new) }
{
    apply(alloc, &mut world.core, process, event, value, all)?;
    world.follow(process, event);
    Ok(())
}

/// A process joins those that wait, in a core.
fn join(core: &mut Core<Objects, Profiles>, process: u32) -> Result<(), NoMemory>
    ensures ok { OnOk result (core.new ≡ record core.old { waiting = process ∷ core.old.waiting }) }
    ensures err { OnErr result (core.new ≡ core.old) }
{
    match core.waiting.insert(0, process) {
        Ok(()) => Ok(()),
        Err(_) => Err(NoMemory),
    }
}

/// A process joins those that wait.
pub fn wait(world: &mut World<Objects, Profiles>, process: u32) -> Result<(), NoMemory>
    requires fits { FitsStore world.old.state }
    requires steady { IsSteady world.old }
    ensures ok { OnOk result (world.new ≡ record world.old { state = record world.old.state { waiting = process ∷ world.old.state.waiting } }) }
    ensures err { OnErr result (world.new ≡ world.old) }
    ensures fits { OnOk result (FitsStore world.new.state) }
    ensures steady { OnOk result (IsSteady world.new) }
{
    join(&mut world.core, process)?;
    Ok(())
}
