//! Spaces: made, lengthened or cut, and destroyed. The instructions of their family.
ghost use Rattle.s38_rules.specs.state.State.{State};
ghost use Rattle.s38_rules.specs.families.Changes.{done};
ghost use Rattle.s38_rules.specs.ask.Operands.{target};
ghost use Rattle.s38_rules.specs.state.PartsAt.{on_space};
ghost use Rattle.std.specs.Prelude.{◌≡◌, ◌≤◌, [], None, IfOk, OnOk, OnErr, true};
ghost use Rattle.s38_base.specs.Limits.{furthest};
ghost use Rattle.s38_memory.specs.Tagged.{resized};
ghost use Rattle.s38_rules.specs.families.Spaces.{crts_changes, crts_fails, is_space_length, length_at, length_rule, mods_fails, new_space, spaces_row};

use crate::space_pointers::{
    cpybwp, cpybwp_fails, cpybwp_gives, setdp_fails, setdp_gives, setsppfp_gives,
};
use s38_base::exceptions::{DECIMAL_DATA, LENGTH_INVALID};
use s38_base::{Category, Exception, Kind, NoMemory, Op, Rights};
use s38_changes::{
    creation_changes, creation_fails, creation_gives, creation_needs, destroy, destruction_needs,
    in_context, owner_pays, pages_for_length, resize,
};
use s38_code::{Operand, Val};
use s38_invoke::{Core, Profiles};
use s38_memory::Tagged;
use s38_objects::Objects;
use s38_operands::{Act, Needs, count_at, fails, need, number_at, on_object, target};
use s38_rules::{Body, Creating, Named, PointerKind, Sought};
use std::alloc::Global;

// ---- lengths

/// A multiple of 16 bytes, from 16 to the limit of a body.
fn is_space_length(limit: u32, len: u128) -> bool
    ensures { result ≡ is_space_length limit len }
{
    16 <= len && len <= u128::from(limit) && len % 16 == 0
}

/// The number at an operand has a value, and is the length of a space.
fn length_rule(world: &Core<Objects, Profiles>, operands: &[Operand], k: u8) -> Option<Exception>
    ensures { result ≡ length_rule world.now operands.now k }
{
    let objects = &world.objects;
    if number_at(objects, operands, k as usize).is_none() {
        return Some(Exception::plain(DECIMAL_DATA, k));
    }
    let len = count_at(objects, operands, k as usize);
    fails(!is_space_length(world.limit, len), LENGTH_INVALID, k)
}

/// The length that an operand says, 0 where it is none of a space.
fn length_at(world: &Core<Objects, Profiles>, operands: &[Operand], k: usize) -> u32
    ensures { result ≡ length_at world.now operands.now k }
{
    let len = count_at(&world.objects, operands, k);
    if is_space_length(world.limit, len) {
        len as u32
    } else {
        0
    }
}

// ---- CRTS

fn new_space(world: &Core<Objects, Profiles>, operands: &[Operand]) -> Creating
    ensures { result ≡ new_space world.now operands.now }
{
    let pages = pages_for_length(length_at(world, operands, 5));
    in_context(Kind::Space, pages, &world.objects, operands)
}

#[tactic(auto, unfolding(s38_rules::specs::families::Spaces::crts_fails))]
fn crts_fails(
    world: &Core<Objects, Profiles>,
    process: u32,
    operands: &[Operand],
) -> Option<Exception>
    ensures { result ≡ crts_fails world.now process operands.now }
{
    let created = new_space(world, operands);
    let own = length_rule(world, operands, 5);
    creation_fails(world, world.user_of(process), &created, own)
}

/// The greatest length of a space.
fn limit_of(world: &Core<Objects, Profiles>) -> u32
    ensures limit { result ≡ world.now.limit }
    ensures small { result ≤ furthest }
{
    world.limit
}

/// Storage of zero bytes.
fn zero_space(alloc: Global, limit: u32, len: u32) -> Result<Tagged, NoMemory>
    requires long { is_space_length limit len ≡ true }
    requires small { limit ≤ furthest }
    ensures { IfOk result (λ space. space ≡ resized len []) }
{
    match Tagged::new(alloc, len) {
        Ok(space) => Ok(space),
        Err(_) => Err(NoMemory),
    }
}

/// The storage of the new space.
fn new_cells(
    alloc: Global,
    world: &Core<Objects, Profiles>,
    operands: &[Operand],
) -> Result<Tagged, NoMemory>
    requires { is_space_length world.now.limit (length_at world.now operands.now 5) ≡ true }
    ensures { IfOk result (λ space. space ≡ resized (length_at world.now operands.now 5) []) }
{
    let len = length_at(world, operands, 5);
    zero_space(alloc, limit_of(world), len)
}

/// The space of this storage.
#[tactic(auto, using(crate::proofs::CreationLaws::crts_created, crate::proofs::CreationLaws::space_paid, s38_changes::proofs::CreationLaws::home_placed))]
fn create_space(
    alloc: Global,
    world: &mut Core<Objects, Profiles>,
    process: u32,
    operands: &[Operand],
    space: Tagged,
) -> Result<(), NoMemory>
    requires good { crts_fails world.old process operands.now ≡ None }
    requires space { space ≡ resized (length_at world.old operands.now 5) [] }
    ensures ok { OnOk result (world.new ≡ done world.old process (crts_changes world.old process operands.now)) }
    ensures err { OnErr result (world.new ≡ world.old) }
{
    let owner = world.user_of(process);
    let created = new_space(world, operands);
    creation_changes(alloc, world, owner, &created, Body::Space(space))
}

/// A space of zero bytes.
#[tactic(auto, using(crate::proofs::CreationLaws::crts_long))]
fn crts(
    alloc: Global,
    world: &mut Core<Objects, Profiles>,
    process: u32,
    operands: &[Operand],
) -> Result<(), NoMemory>
    requires { crts_fails world.old process operands.now ≡ None }
    ensures ok { OnOk result (world.new ≡ done world.old process (crts_changes world.old process operands.now)) }
    ensures err { OnErr result (world.new ≡ world.old) }
{
    match new_cells(alloc, world, operands) {
        Ok(space) => create_space(alloc, world, process, operands, space),
        Err(fault) => Err(fault),
    }
}

// ---- MODS

/// The owner of the space pays for its new length.
#[tactic(auto, unfolding(s38_rules::specs::families::Spaces::mods_fails))]
fn mods_fails(world: &Core<Objects, Profiles>, operands: &[Operand]) -> Option<Exception>
    ensures { result ≡ mods_fails world.now operands.now }
{
    if let Some(failure) = length_rule(world, operands, 2) {
        return Some(failure);
    }
    let space = target(&world.objects, operands, 1);
    let pages = pages_for_length(length_at(world, operands, 2));
    owner_pays(world, space, pages)
}

/// The space is cut, or lengthened by zero bytes.
#[tactic(auto, using(crate::proofs::CreationLaws::mods_long, crate::proofs::CreationLaws::mods_paid))]
fn mods(world: &mut Core<Objects, Profiles>, operands: &[Operand]) -> Result<(), NoMemory>
    requires { mods_fails world.old operands.now ≡ None }
    ensures ok { OnOk result (world.new ≡ record world.old { held = on_space world.old.held (target world.old.held operands.now 1) (resized (length_at world.old operands.now 2)) }) }
    ensures err { OnErr result (world.new ≡ world.old) }
{
    let len = length_at(world, operands, 2);
    let space = target(&world.objects, operands, 1);
    resize(world, space, len)
}

// ---- the family

/// What an instruction of spaces needs.
#[tactic(auto, unfolding(s38_rules::specs::families::Spaces::spaces_row, s38_rules::specs::families::Spaces::mods_needs, s38_rules::specs::families::SpacePointers::setsppfp_needs, s38_rules::specs::families::SpacePointers::setdp_needs))]
pub fn needs(act: Act<'_>) -> Needs
    ensures { (s : State) → result ≡ (spaces_row act.entry.request.now.op).needs s act.entry.process act.entry.depth act.entry.request.now }
{
    let space = Sought::Of(Kind::Space);
    match act.request.op {
        Op::Setsppfp => on_object(2, space, Rights::SPACE, None),
        Op::Setdp => need(
            2,
            Named::Written,
            PointerKind::Space,
            space,
            Rights(0),
            None,
        ),
        Op::Crts => creation_needs(act.request.operands.as_slice()),
        Op::Mods => on_object(1, space, Rights::OBJMGT, Some(Category::Change)),
        Op::Dess => destruction_needs(Kind::Space),
        _ => Needs::none(),
    }
}

/// The first of its conditions and limits that fails.
#[tactic(auto, unfolding(s38_rules::specs::families::Spaces::spaces_row))]
pub fn conditions(world: &Core<Objects, Profiles>, act: Act<'_>) -> Option<Exception>
    ensures { result ≡ (spaces_row act.entry.request.now.op).fails world.now act.entry.process act.entry.depth act.entry.request.now }
{
    let operands = act.request.operands.as_slice();
    match act.request.op {
        Op::Setdp => setdp_fails(&world.objects, operands),
        Op::Cpybwp => cpybwp_fails(operands),
        Op::Crts => crts_fails(world, act.process, operands),
        Op::Mods => mods_fails(world, operands),
        _ => None,
    }
}

/// The value for its receiver.
#[tactic(auto, unfolding(s38_rules::specs::families::Spaces::spaces_row))]
pub fn value(
    alloc: Global,
    world: &Core<Objects, Profiles>,
    act: Act<'_>,
) -> Result<Option<Val>, NoMemory>
    ensures { IfOk result (λ value. value ≡ (spaces_row act.entry.request.now.op).gives world.now act.entry.process act.entry.depth act.entry.request.now) }
{
    let objects = &world.objects;
    let operands = act.request.operands.as_slice();
    match act.request.op {
        Op::Setsppfp => Ok(Some(setsppfp_gives(objects, operands))),
        Op::Setdp => Ok(Some(setdp_gives(objects, operands))),
        Op::Cpybwp => cpybwp_gives(alloc, objects, operands),
        Op::Crts => Ok(Some(creation_gives(objects, &new_space(world, operands)))),
        _ => Ok(None),
    }
}

/// What it changes, where it doesn't fail; where memory is refused nothing changes.
#[tactic(auto, unfolding(s38_rules::specs::families::Spaces::spaces_row))]
pub fn apply(
    alloc: Global,
    world: &mut Core<Objects, Profiles>,
    act: Act<'_>,
) -> Result<(), NoMemory>
    requires { (spaces_row act.request.now.op).fails world.old act.process act.depth act.request.now ≡ None }
    ensures ok { OnOk result (world.new ≡ done world.old act.entry.process ((spaces_row act.entry.request.now.op).changes world.old act.entry.process act.entry.depth act.entry.request.now)) }
    ensures err { OnErr result (world.new ≡ world.old) }
{
    let operands = act.request.operands.as_slice();
    match act.request.op {
        Op::Cpybwp => cpybwp(alloc, world, operands),
        Op::Crts => crts(alloc, world, act.process, operands),
        Op::Mods => mods(world, operands),
        Op::Dess => {
            destroy(world, Kind::Space, operands);
            Ok(())
        }
        _ => Ok(()),
    }
}
