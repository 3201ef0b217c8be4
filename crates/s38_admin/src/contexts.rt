//! Contexts: made and destroyed, their contents listed. The instructions of their family.
ghost use Rattle.s38_rules.specs.families.Changes.{done};
ghost use Rattle.std.specs.Prelude.{◌≡◌, None, IfOk, OnOk, OnErr};
ghost use Rattle.s38_rules.specs.families.Contexts.{contexts_row, crtctx_changes, crtctx_fails, desctx_fails, new_context};
ghost use Rattle.s38_rules.specs.families.ContextLists.{matctx_gives, matctx_needs};

use crate::addressability::{
    modadr, modadr_fails, modadr_needs, rename, rename_fails, rename_needs,
};
use crate::listing::names_image;
use crate::resolving::{context_at, context_read};
use s38_base::exceptions::OBJECT_IN_USE;
use s38_base::limits::MACHINE_CONTEXT;
use s38_base::{Exception, Kind, NoMemory, Op};
use s38_changes::{
    creation_changes, creation_fails, creation_gives, destroy, destruction_needs, machine_needs,
    of_machine,
};
use s38_code::{Operand, Val};
use s38_invoke::{Core, Profiles};
use s38_objects::Objects;
use s38_operands::{Act, Needs, fails, fitted, is_machine, rights_at, room_at, target};
use s38_rules::{Body, Creating, Named};
use std::alloc::Global;

// ---- CRTCTX

fn new_context(objects: &Objects, operands: &[Operand]) -> Creating
    ensures { result ≡ new_context objects.now operands.now }
{
    of_machine(Kind::Context, rights_at(operands, 3), objects, operands)
}

#[tactic(auto, unfolding(s38_rules::specs::families::Contexts::crtctx_fails))]
fn crtctx_fails(
    world: &Core<Objects, Profiles>,
    process: u32,
    operands: &[Operand],
) -> Option<Exception>
    ensures { result ≡ crtctx_fails world.now process operands.now }
{
    let created = new_context(&world.objects, operands);
    creation_fails(world, world.user_of(process), &created, None)
}

#[tactic(auto, using(crate::proofs::CreationLaws::crtctx_created, s38_changes::proofs::CreationLaws::home_placed))]
fn crtctx(
    alloc: Global,
    world: &mut Core<Objects, Profiles>,
    process: u32,
    operands: &[Operand],
) -> Result<(), NoMemory>
    requires { crtctx_fails world.old process operands.now ≡ None }
    ensures ok { OnOk result (world.new ≡ done world.old process (crtctx_changes world.old process operands.now)) }
    ensures err { OnErr result (world.new ≡ world.old) }
{
    let owner = world.user_of(process);
    let created = new_context(&world.objects, operands);
    creation_changes(alloc, world, owner, &created, Body::Context)
}

// ---- DESCTX

/// The machine context stays.
#[tactic(auto, unfolding(s38_rules::specs::families::Contexts::desctx_fails))]
fn desctx_fails(objects: &Objects, operands: &[Operand]) -> Option<Exception>
    ensures { result ≡ desctx_fails objects.now operands.now }
{
    fails(
        target(objects, operands, 1).0 == MACHINE_CONTEXT.0,
        OBJECT_IN_USE,
        1,
    )
}

// ---- MATCTX

/// RETRIEVE on the context.
#[tactic(auto, unfolding(s38_rules::specs::families::ContextLists::matctx_needs))]
fn matctx_needs(operands: &[Operand]) -> Needs
    ensures { result ≡ matctx_needs operands.now }
{
    if is_machine(operands, 2) {
        context_read(Named::Implied(MACHINE_CONTEXT))
    } else {
        context_read(Named::Written)
    }
}

/// The number of the objects in the context, and their identifications in order.
#[tactic(auto, unfolding(s38_rules::specs::families::ContextLists::matctx_bytes))]
fn matctx_gives(alloc: Global, objects: &Objects, operands: &[Operand]) -> Result<Val, NoMemory>
    ensures { IfOk result (λ value. value ≡ matctx_gives objects.now operands.now) }
{
    let names = objects.names(alloc, context_at(objects, operands))?;
    let image = names_image(alloc, &names)?;
    let bytes = fitted(alloc, room_at(operands, 1), 0, image.as_slice())?;
    Ok(Val::Bytes(bytes))
}

// ---- the family

/// What an instruction of contexts needs.
#[tactic(auto, unfolding(s38_rules::specs::families::Contexts::contexts_row))]
pub fn needs(world: &Core<Objects, Profiles>, act: Act<'_>) -> Needs
    ensures { result ≡ (contexts_row act.entry.request.now.op).needs world.now act.entry.process act.entry.depth act.entry.request.now }
{
    let objects = &world.objects;
    let operands = act.request.operands.as_slice();
    match act.request.op {
        Op::Crtctx => machine_needs(),
        Op::Desctx => destruction_needs(Kind::Context),
        Op::Modadr => modadr_needs(objects, operands),
        Op::Rename => rename_needs(objects, operands),
        Op::Matctx => matctx_needs(operands),
        _ => Needs::none(),
    }
}

/// The first of its conditions and limits that fails.
#[tactic(auto, unfolding(s38_rules::specs::families::Contexts::contexts_row))]
pub fn conditions(world: &Core<Objects, Profiles>, act: Act<'_>) -> Option<Exception>
    ensures { result ≡ (contexts_row act.entry.request.now.op).fails world.now act.entry.process act.entry.depth act.entry.request.now }
{
    let objects = &world.objects;
    let operands = act.request.operands.as_slice();
    match act.request.op {
        Op::Crtctx => crtctx_fails(world, act.process, operands),
        Op::Desctx => desctx_fails(objects, operands),
        Op::Modadr => modadr_fails(objects, operands),
        Op::Rename => rename_fails(objects, operands),
        _ => None,
    }
}

/// The value for its receiver.
#[tactic(auto, unfolding(s38_rules::specs::families::Contexts::contexts_row))]
pub fn value(
    alloc: Global,
    world: &Core<Objects, Profiles>,
    act: Act<'_>,
) -> Result<Option<Val>, NoMemory>
    ensures { IfOk result (λ value. value ≡ (contexts_row act.entry.request.now.op).gives world.now act.entry.process act.entry.depth act.entry.request.now) }
{
    let objects = &world.objects;
    let operands = act.request.operands.as_slice();
    match act.request.op {
        Op::Crtctx => Ok(Some(creation_gives(objects, &new_context(objects, operands)))),
        Op::Matctx => Ok(Some(matctx_gives(alloc, objects, operands)?)),
        _ => Ok(None),
    }
}

/// What it changes, where it doesn't fail; where memory is refused nothing changes.
#[tactic(auto, unfolding(s38_rules::specs::families::Contexts::contexts_row))]
pub fn apply(
    alloc: Global,
    world: &mut Core<Objects, Profiles>,
    act: Act<'_>,
) -> Result<(), NoMemory>
    requires { (contexts_row act.request.now.op).fails world.old act.process act.depth act.request.now ≡ None }
    ensures ok { OnOk result (world.new ≡ done world.old act.entry.process ((contexts_row act.entry.request.now.op).changes world.old act.entry.process act.entry.depth act.entry.request.now)) }
    ensures err { OnErr result (world.new ≡ world.old) }
{
    let operands = act.request.operands.as_slice();
    match act.request.op {
        Op::Crtctx => crtctx(alloc, world, act.process, operands),
        Op::Modadr => modadr(world, operands),
        Op::Rename => rename(world, operands),
        Op::Desctx => {
            destroy(world, Kind::Context, operands);
            Ok(())
        }
        _ => Ok(()),
    }
}
