//! The family of journals and units: journal spaces, ports and commit blocks made and destroyed; data spaces journaled;
//! entries of a journal read; units committed and taken back; objects ensured.
ghost use Rattle.s38_rules.specs.state.State.{State};
ghost use Rattle.s38_rules.specs.families.Changes.{done};
ghost use Rattle.std.specs.Prelude.{◌≡◌, None, IfOk, OnErr, OnOk};
ghost use Rattle.s38_rules.specs.families.Journals.{ensobj_needs, journals_row, retjent_needs};

use crate::creation::{
    created_block, created_journal, created_port, crtcb, crtcb_fails, crtcb_needs, crtjp,
    crtjp_fails, crtjp_needs, crtjs, crtjs_fails,
};
use crate::objects::{
    descb_fails, desjp_fails, desjs_fails, ensobj, jrnlobj, jrnlobj_fails, jrnlobj_needs,
};
use crate::reads::{retjent_fails, retjent_gives};
use crate::units::{commit, decommit, unit_fails, unit_needs};
use s38_base::{Category, Exception, Kind, NoMemory, Op, Rights};
use s38_changes::{creation_gives, creation_needs, destroy, destruction_needs};
use s38_code::Val;
use s38_invoke::{Core, Profiles};
use s38_objects::Objects;
use s38_operands::{Act, Needs, on_object};
use s38_rules::Sought;
use std::alloc::Global;

/// RETRIEVE on the journal space.
#[tactic(auto, unfolding(s38_rules::specs::families::Journals::retjent_needs))]
fn retjent_needs() -> Needs
    ensures { result ≡ retjent_needs }
{
    let journal = Sought::Of(Kind::Journal);
    on_object(2, journal, Rights::RETRIEVE, Some(Category::Read))
}

/// RETRIEVE on an object of any kind.
#[tactic(auto, unfolding(s38_rules::specs::families::Journals::ensobj_needs))]
fn ensobj_needs() -> Needs
    ensures { result ≡ ensobj_needs }
{
    on_object(1, Sought::Any, Rights::RETRIEVE, Some(Category::Read))
}

/// What an instruction of journals and units needs.
#[tactic(auto, unfolding(s38_rules::specs::families::Journals::journals_row))]
pub fn needs(act: Act<'_>) -> Needs
    ensures { (s : State) → result ≡ (journals_row act.entry.request.now.op).needs s act.entry.process act.entry.depth act.entry.request.now }
{
    let operands = act.request.operands.as_slice();
    match act.request.op {
        Op::Crtjs => creation_needs(operands),
        Op::Crtjp => crtjp_needs(operands),
        Op::Crtcb => crtcb_needs(operands),
        Op::Desjs => destruction_needs(Kind::Journal),
        Op::Desjp => destruction_needs(Kind::Port),
        Op::Descb => destruction_needs(Kind::Block),
        Op::Jrnlobj => jrnlobj_needs(),
        Op::Retjent => retjent_needs(),
        Op::Commit | Op::Decommit => unit_needs(),
        Op::Ensobj => ensobj_needs(),
        _ => Needs::none(),
    }
}

/// The first of its conditions and limits that fails.
#[tactic(auto, unfolding(s38_rules::specs::families::Journals::journals_row))]
pub fn conditions(world: &Core<Objects, Profiles>, act: Act<'_>) -> Option<Exception>
    ensures { result ≡ (journals_row act.entry.request.now.op).fails world.now act.entry.process act.entry.depth act.entry.request.now }
{
    let objects = &world.objects;
    let operands = act.request.operands.as_slice();
    match act.request.op {
        Op::Crtjs => crtjs_fails(world, act.process, operands),
        Op::Crtjp => crtjp_fails(world, act.process, operands),
        Op::Crtcb => crtcb_fails(world, act.process, operands),
        Op::Desjs => desjs_fails(objects, operands),
        Op::Desjp => desjp_fails(objects, operands),
        Op::Descb => descb_fails(world, operands),
        Op::Jrnlobj => jrnlobj_fails(objects, operands),
        Op::Retjent => retjent_fails(objects, operands),
        Op::Commit | Op::Decommit => unit_fails(world, act.process, operands),
        _ => None,
    }
}

/// The value for its receiver.
#[tactic(auto, unfolding(s38_rules::specs::families::Journals::journals_row))]
pub fn value(
    alloc: Global,
    world: &Core<Objects, Profiles>,
    act: Act<'_>,
) -> Result<Option<Val>, NoMemory>
    ensures { IfOk result (λ value. value ≡ (journals_row act.entry.request.now.op).gives world.now act.entry.process act.entry.depth act.entry.request.now) }
{
    let objects = &world.objects;
    let operands = act.request.operands.as_slice();
    match act.request.op {
        Op::Crtjs => Ok(Some(creation_gives(objects, &created_journal(objects, operands)))),
        Op::Crtjp => Ok(Some(creation_gives(objects, &created_port(objects, operands)))),
        Op::Crtcb => Ok(Some(creation_gives(objects, &created_block(objects, operands)))),
        Op::Retjent => Ok(Some(retjent_gives(alloc, objects, operands)?)),
        _ => Ok(None),
    }
}

/// What it changes, where it doesn't fail; where memory is refused nothing changes.
#[tactic(auto, unfolding(s38_rules::specs::families::Journals::journals_row))]
pub fn apply(
    alloc: Global,
    world: &mut Core<Objects, Profiles>,
    act: Act<'_>,
) -> Result<(), NoMemory>
    requires { (journals_row act.request.now.op).fails world.old act.process act.depth act.request.now ≡ None }
    ensures ok { OnOk result (world.new ≡ done world.old act.entry.process ((journals_row act.entry.request.now.op).changes world.old act.entry.process act.entry.depth act.entry.request.now)) }
    ensures err { OnErr result (world.new ≡ world.old) }
{
    let operands = act.request.operands.as_slice();
    match act.request.op {
        Op::Crtjs => return crtjs(alloc, world, act.process, operands),
        Op::Crtjp => return crtjp(alloc, world, act.process, operands),
        Op::Crtcb => return crtcb(alloc, world, act.process, operands),
        Op::Desjs => destroy(world, Kind::Journal, operands),
        Op::Desjp => destroy(world, Kind::Port, operands),
        Op::Descb => destroy(world, Kind::Block, operands),
        Op::Jrnlobj => jrnlobj(world, operands),
        Op::Commit => commit(world, act.process, operands),
        Op::Decommit => decommit(world, act.process, operands),
        Op::Ensobj => ensobj(world, operands),
        _ => {}
    }
    Ok(())
}
