//! Independent indexes: made and destroyed. The instructions of their family.
ghost use Rattle.s38_rules.specs.state.State.{State};
ghost use Rattle.s38_rules.specs.families.Changes.{done};
ghost use Rattle.std.specs.Prelude.{◌≡◌, None, IfOk, OnOk, OnErr};
ghost use Rattle.s38_rules.specs.families.Indexes.{created_index, crtinx_changes, crtinx_fails, entry_len_at, indexes_row, new_index};

use crate::index_entries::{
    fndinxen_fails, fndinxen_gives, insinxen, insinxen_fails, rmvinxen, rmvinxen_fails,
};
use s38_base::{Category, Exception, Kind, NoMemory, Op, Rights};
use s38_changes::{
    creation_changes, creation_fails, creation_gives, creation_needs, destroy, destruction_needs,
    in_context,
};
use s38_code::{Operand, Val};
use s38_indexes::Index;
use s38_invoke::{Core, Profiles};
use s38_objects::Objects;
use s38_operands::{Act, Needs, on_object, whole_at};
use s38_rules::{Body, Creating, Sought};
use std::alloc::Global;

/// The longest entry of an index, in bytes.
const LONGEST_ENTRY: u64 = 120;

// ---- CRTINX

fn created_index(objects: &Objects, operands: &[Operand]) -> Creating
    ensures { result ≡ created_index objects.now operands.now }
{
    in_context(Kind::Index, 1, objects, operands)
}

#[tactic(auto, unfolding(s38_rules::specs::families::Indexes::crtinx_fails))]
fn crtinx_fails(
    world: &Core<Objects, Profiles>,
    process: u32,
    operands: &[Operand],
) -> Option<Exception>
    ensures { result ≡ crtinx_fails world.now process operands.now }
{
    let created = created_index(&world.objects, operands);
    creation_fails(world, world.user_of(process), &created, None)
}

/// How long the entries of a new index may be.
fn entry_len_at(operands: &[Operand]) -> u8
    ensures { result ≡ entry_len_at operands.now }
{
    whole_at(operands, 5).min(LONGEST_ENTRY).max(1) as u8
}

fn new_index(alloc: Global, operands: &[Operand]) -> Index
    ensures { result ≡ new_index operands.now }
{
    Index::new(alloc, entry_len_at(operands))
}

#[tactic(auto, using(crate::proofs::IndexLaws::crtinx_created, s38_changes::proofs::CreationLaws::home_placed))]
fn crtinx(
    alloc: Global,
    world: &mut Core<Objects, Profiles>,
    process: u32,
    operands: &[Operand],
) -> Result<(), NoMemory>
    requires { crtinx_fails world.old process operands.now ≡ None }
    ensures ok { OnOk result (world.new ≡ done world.old process (crtinx_changes world.old process operands.now)) }
    ensures err { OnErr result (world.new ≡ world.old) }
{
    let owner = world.user_of(process);
    let created = created_index(&world.objects, operands);
    let index = new_index(alloc, operands);
    creation_changes(alloc, world, owner, &created, Body::Index(index))
}

// ---- the family

/// What an instruction of indexes needs.
#[tactic(auto, unfolding(s38_rules::specs::families::Indexes::indexes_row, s38_rules::specs::families::Indexes::insinxen_needs, s38_rules::specs::families::Indexes::fndinxen_needs, s38_rules::specs::families::Indexes::rmvinxen_needs))]
pub fn needs(act: Act<'_>) -> Needs
    ensures { (s : State) → result ≡ (indexes_row act.entry.request.now.op).needs s act.entry.process act.entry.depth act.entry.request.now }
{
    let index = Sought::Of(Kind::Index);
    match act.request.op {
        Op::Crtinx => creation_needs(act.request.operands.as_slice()),
        Op::Desinx => destruction_needs(Kind::Index),
        Op::Insinxen => on_object(1, index, Rights::INSERT, Some(Category::Change)),
        Op::Fndinxen => on_object(2, index, Rights::RETRIEVE, Some(Category::Read)),
        Op::Rmvinxen => on_object(1, index, Rights::DELETE, Some(Category::Change)),
        _ => Needs::none(),
    }
}

/// The first of its conditions and limits that fails.
#[tactic(auto, unfolding(s38_rules::specs::families::Indexes::indexes_row))]
pub fn conditions(world: &Core<Objects, Profiles>, act: Act<'_>) -> Option<Exception>
    ensures { result ≡ (indexes_row act.entry.request.now.op).fails world.now act.entry.process act.entry.depth act.entry.request.now }
{
    let operands = act.request.operands.as_slice();
    match act.request.op {
        Op::Crtinx => crtinx_fails(world, act.process, operands),
        Op::Insinxen => insinxen_fails(world, operands),
        Op::Fndinxen => fndinxen_fails(&world.objects, operands),
        Op::Rmvinxen => rmvinxen_fails(&world.objects, operands),
        _ => None,
    }
}

/// The value for its receiver.
#[tactic(auto, unfolding(s38_rules::specs::families::Indexes::indexes_row))]
pub fn value(
    alloc: Global,
    world: &Core<Objects, Profiles>,
    act: Act<'_>,
) -> Result<Option<Val>, NoMemory>
    ensures { IfOk result (λ value. value ≡ (indexes_row act.entry.request.now.op).gives world.now act.entry.process act.entry.depth act.entry.request.now) }
{
    let objects = &world.objects;
    let operands = act.request.operands.as_slice();
    match act.request.op {
        Op::Crtinx => Ok(Some(creation_gives(objects, &created_index(objects, operands)))),
        Op::Fndinxen => Ok(Some(fndinxen_gives(alloc, objects, operands)?)),
        _ => Ok(None),
    }
}

/// What it changes, where it doesn't fail; where memory is refused nothing changes.
#[tactic(auto, unfolding(s38_rules::specs::families::Indexes::indexes_row))]
pub fn apply(
    alloc: Global,
    world: &mut Core<Objects, Profiles>,
    act: Act<'_>,
) -> Result<(), NoMemory>
    requires { (indexes_row act.request.now.op).fails world.old act.process act.depth act.request.now ≡ None }
    ensures ok { OnOk result (world.new ≡ done world.old act.entry.process ((indexes_row act.entry.request.now.op).changes world.old act.entry.process act.entry.depth act.entry.request.now)) }
    ensures err { OnErr result (world.new ≡ world.old) }
{
    let operands = act.request.operands.as_slice();
    match act.request.op {
        Op::Crtinx => crtinx(alloc, world, act.process, operands),
        Op::Desinx => {
            destroy(world, Kind::Index, operands);
            Ok(())
        }
        Op::Insinxen => insinxen(alloc, world, operands),
        Op::Rmvinxen => rmvinxen(alloc, world, operands),
        _ => Ok(()),
    }
}
