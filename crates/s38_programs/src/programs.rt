//! Programs as objects: made of the deck's templates, called, and destroyed.
ghost use Rattle.s38_rules.specs.state.State.{State};
ghost use Rattle.s38_rules.specs.families.Changes.{done};
ghost use Rattle.std.specs.Prelude.{◌≡◌, None, IfOk, OnOk, OnErr};
ghost use Rattle.std.specs.Option.{option_copied};
ghost use Rattle.s38_rules.specs.families.Programs.{crtpg_changes, crtpg_fails, new_program, program_in, programs_row, template_at};

use crate::calls::{call_gives, call_needs, callx, callx_fails, xctl, xctl_fails};
use crate::templates::{is_larger, program_in, template_in, template_rule};
use s38_base::exceptions::LIMIT_EXCEEDED;
use s38_base::{Exception, Kind, NoMemory, Op, TryClone};
use s38_changes::{
    creation_changes, creation_fails, creation_gives, creation_needs, destroy, destruction_needs,
    in_context,
};
use s38_code::{CheckedTemplate, Code, Operand, Val};
use s38_invoke::{Core, Profiles};
use s38_objects::Objects;
use s38_operands::{Act, Needs, fails, place};
use s38_rules::{Body, Creating};
use std::alloc::Global;

// ---- CRTPG

/// The template that operand 5 names.
fn template_at<'a>(
    world: &'a Core<Objects, Profiles>,
    operands: &[Operand],
) -> Option<&'a CheckedTemplate>
    ensures { option_copied result ≡ template_at world.now operands.now }
{
    template_in(world.templates.as_slice(), place(operands, 5))
}

fn new_program(objects: &Objects, operands: &[Operand]) -> Creating
    ensures { result ≡ new_program objects.now operands.now }
{
    in_context(Kind::Program, 1, objects, operands)
}

/// The name is free, the template makes a program, the owner pays for it, and its text is not too long.
#[tactic(auto, unfolding(s38_rules::specs::families::Programs::crtpg_fails))]
fn crtpg_fails(
    world: &Core<Objects, Profiles>,
    process: u32,
    operands: &[Operand],
) -> Option<Exception>
    ensures { result ≡ crtpg_fails world.now process operands.now }
{
    let objects = &world.objects;
    let template = template_at(world, operands);
    let created = new_program(objects, operands);
    let owner = world.user_of(process);
    if let Some(failure) = creation_fails(world, owner, &created, template_rule(template)) {
        return Some(failure);
    }
    fails(is_larger(template, world.limit), LIMIT_EXCEEDED, 0)
}

/// The program of the template, to be held by an object too.
fn program_copy(
    alloc: Global,
    world: &Core<Objects, Profiles>,
    operands: &[Operand],
) -> Result<Option<Code>, NoMemory>
    ensures { IfOk result (λ code. code ≡ program_in (template_at world.now operands.now)) }
{
    match program_in(template_at(world, operands)) {
        None => Ok(None),
        Some(code) => Ok(Some(code.try_clone(alloc)?)),
    }
}

/// An object of the program that a template makes.
#[tactic(auto, using(crate::proofs::CreationLaws::crtpg_created, s38_changes::proofs::CreationLaws::home_placed))]
fn crtpg(
    alloc: Global,
    world: &mut Core<Objects, Profiles>,
    process: u32,
    operands: &[Operand],
) -> Result<(), NoMemory>
    requires { crtpg_fails world.old process operands.now ≡ None }
    ensures ok { OnOk result (world.new ≡ done world.old process (crtpg_changes world.old process operands.now)) }
    ensures err { OnErr result (world.new ≡ world.old) }
{
    let owner = world.user_of(process);
    let created = new_program(&world.objects, operands);
    match program_copy(alloc, world, operands) {
        Ok(Some(code)) => creation_changes(alloc, world, owner, &created, Body::Program(code)),
        Ok(None) => Ok(()),
        Err(fault) => Err(fault),
    }
}

// ---- the family

/// What an instruction of programs needs.
#[tactic(auto, unfolding(s38_rules::specs::families::Programs::programs_row))]
pub fn needs(act: Act<'_>) -> Needs
    ensures { (s : State) → result ≡ (programs_row act.entry.request.now.op).needs s act.entry.process act.entry.depth act.entry.request.now }
{
    match act.request.op {
        Op::Crtpg => creation_needs(act.request.operands.as_slice()),
        Op::Callx | Op::Xctl => call_needs(),
        Op::Despg => destruction_needs(Kind::Program),
        _ => Needs::none(),
    }
}

/// The first of its conditions and limits that fails.
#[tactic(auto, unfolding(s38_rules::specs::families::Programs::programs_row))]
pub fn conditions(world: &Core<Objects, Profiles>, act: Act<'_>) -> Option<Exception>
    ensures { result ≡ (programs_row act.entry.request.now.op).fails world.now act.entry.process act.entry.depth act.entry.request.now }
{
    let operands = act.request.operands.as_slice();
    match act.request.op {
        Op::Crtpg => crtpg_fails(world, act.process, operands),
        Op::Callx => callx_fails(world, act.process, act.depth, operands),
        Op::Xctl => xctl_fails(&world.objects, operands),
        _ => None,
    }
}

/// The value for its receiver.
#[tactic(auto, unfolding(s38_rules::specs::families::Programs::programs_row))]
pub fn value(
    alloc: Global,
    world: &Core<Objects, Profiles>,
    act: Act<'_>,
) -> Result<Option<Val>, NoMemory>
    ensures { IfOk result (λ value. value ≡ (programs_row act.entry.request.now.op).gives world.now act.entry.process act.entry.depth act.entry.request.now) }
{
    let objects = &world.objects;
    let operands = act.request.operands.as_slice();
    match act.request.op {
        Op::Crtpg => Ok(Some(creation_gives(objects, &new_program(objects, operands)))),
        Op::Callx | Op::Xctl => call_gives(alloc, objects, operands),
        _ => Ok(None),
    }
}

/// What it changes, where it doesn't fail; where memory is refused nothing changes.
#[tactic(auto, unfolding(s38_rules::specs::families::Programs::programs_row))]
pub fn apply(
    alloc: Global,
    world: &mut Core<Objects, Profiles>,
    act: Act<'_>,
) -> Result<(), NoMemory>
    requires { (programs_row act.request.now.op).fails world.old act.process act.depth act.request.now ≡ None }
    ensures ok { OnOk result (world.new ≡ done world.old act.entry.process ((programs_row act.entry.request.now.op).changes world.old act.entry.process act.entry.depth act.entry.request.now)) }
    ensures err { OnErr result (world.new ≡ world.old) }
{
    let operands = act.request.operands.as_slice();
    match act.request.op {
        Op::Crtpg => crtpg(alloc, world, act.process, operands),
        Op::Callx => callx(world, act.process, act.depth, operands),
        Op::Xctl => {
            xctl(world, act.process, act.depth, operands);
            Ok(())
        }
        Op::Despg => {
            destroy(world, Kind::Program, operands);
            Ok(())
        }
        _ => Ok(()),
    }
}
