//! Authority over objects: granted and retracted, and an object given to another owner. The instructions of their family.
ghost use Rattle.s38_rules.specs.state.State.{State};
ghost use Rattle.s38_rules.specs.families.Changes.{done};
ghost use Rattle.std.specs.Prelude.{◌≡◌, None, IfOk, OnOk, OnErr, length};
ghost use Rattle.std.specs.Option.{option_copied};
ghost use Rattle.s38_rules.specs.families.Grants.{given_to, grant_fails, grant_needs, grants_row, with_granted, with_retracted, xfro_fails, xfro_needs};
ghost use Rattle.s38_rules.specs.families.Grantees.{row_rule, user_at, with_rights};
ghost use Rattle.s38_rules.specs.state.Headers.{rows_in};
ghost use Rattle.s38_rules.specs.ask.Operands.{is_given, target};
ghost use Rattle.s38_rules.specs.state.Access.{on_access};

use crate::authority_reads::{
    matau_gives, matau_needs, matauobj_gives, matauobj_special, rights_of, row_in, testau_gives,
    user_needs,
};
use s38_base::exceptions::LIMIT_EXCEEDED;
use s38_base::limits::MOST_ROWS;
use s38_base::{Category, Exception, Kind, NoMemory, ObjNum, Op, Rights, Special, UserNum};
use s38_changes::{give_to, set_public, set_row, taker_rule};
use s38_code::{Operand, Val};
use s38_invoke::{Core, Profiles};
use s38_objects::Objects;
use s38_operands::{Act, Needs, fails, governed, is_given, on_object, rights_at, target};
use s38_rules::{Claim, Object, Sought};
use std::alloc::Global;

// ---- rows

fn rows_of(found: Option<&Object>) -> usize
    ensures { result ≡ length (rows_in (option_copied found.entry)) }
{
    match found {
        None => 0,
        Some(object) => object.rows.len(),
    }
}

/// A new row is needed, and the object has as many as it may have.
fn row_rule(objects: &Objects, number: ObjNum, user: UserNum, rights: Rights) -> Option<Exception>
    ensures { result ≡ row_rule objects.now number.0 user.0 rights.0 }
{
    let found = objects.get(number);
    let full = rights.0 != 0 && row_in(found, user).0 == 0 && MOST_ROWS <= rows_of(found);
    fails(full, LIMIT_EXCEEDED, 1)
}

// ---- GRANT and RETRACT

/// The rule of granting on the object, and a profile or everybody.
#[tactic(auto, unfolding(s38_rules::specs::families::Grants::grant_needs))]
fn grant_needs(operands: &[Operand]) -> Needs
    ensures { result ≡ grant_needs operands.now }
{
    governed(Claim::Granting, 1, rights_at(operands, 3)).and(user_needs(operands, 2))
}

#[tactic(auto, unfolding(s38_rules::specs::families::Grants::grant_fails))]
fn grant_fails(objects: &Objects, operands: &[Operand]) -> Option<Exception>
    ensures { result ≡ grant_fails objects.now operands.now }
{
    if !is_given(operands, 2) {
        return None;
    }
    row_rule(
        objects,
        target(objects, operands, 1),
        target(objects, operands, 2),
        rights_at(operands, 3),
    )
}

/// A user's row on the object, or everybody, has these rights; where memory is refused nothing changes.
fn set_rights(
    world: &mut Core<Objects, Profiles>,
    operands: &[Operand],
    rights: Rights,
) -> Result<(), NoMemory>
    ensures ok { OnOk result (world.new ≡ record world.old { held = on_access world.old.held (target world.old.held operands.now 1) (with_rights (is_given operands.now 2) (user_at world.old.held operands.now 2) rights.0) }) }
    ensures err { OnErr result (world.new ≡ world.old) }
{
    let number = target(&world.objects, operands, 1);
    if is_given(operands, 2) {
        let user = target(&world.objects, operands, 2);
        return set_row(world, number, user, rights);
    }
    set_public(world, number, rights);
    Ok(())
}

/// The rights are added; where memory is refused nothing changes.
fn grant(world: &mut Core<Objects, Profiles>, operands: &[Operand]) -> Result<(), NoMemory>
    ensures ok { OnOk result (world.new ≡ record world.old { held = on_access world.old.held (target world.old.held operands.now 1) (with_granted world.old.held operands.now) }) }
    ensures err { OnErr result (world.new ≡ world.old) }
{
    let present = rights_of(&world.objects, operands, 1, 2);
    let more = rights_at(operands, 3);
    set_rights(world, operands, Rights(present.0 | more.0))
}

/// The rights are taken away; what pointers carry stays.
fn retract(world: &mut Core<Objects, Profiles>, operands: &[Operand]) -> Result<(), NoMemory>
    ensures ok { OnOk result (world.new ≡ record world.old { held = on_access world.old.held (target world.old.held operands.now 1) (with_retracted world.old.held operands.now) }) }
    ensures err { OnErr result (world.new ≡ world.old) }
{
    let present = rights_of(&world.objects, operands, 1, 2);
    let less = rights_at(operands, 3);
    set_rights(world, operands, Rights(present.0 & (255 - less.0)))
}

// ---- XFRO

/// Ownership of the object, and a profile.
#[tactic(auto, unfolding(s38_rules::specs::families::Grants::xfro_needs))]
fn xfro_needs() -> Needs
    ensures { result ≡ xfro_needs }
{
    let taker = on_object(2, Sought::Of(Kind::Profile), Rights(0), None);
    governed(Claim::Ownership, 1, Rights(0)).and(taker)
}

/// The new owner may own the object's pages, and a row is left for it.
#[tactic(auto, unfolding(s38_rules::specs::families::Grants::xfro_fails))]
fn xfro_fails(world: &Core<Objects, Profiles>, operands: &[Operand]) -> Option<Exception>
    ensures { result ≡ xfro_fails world.now.held operands.now }
{
    let number = target(&world.objects, operands, 1);
    let user = target(&world.objects, operands, 2);
    if let Some(failure) = taker_rule(world, number, user) {
        return Some(failure);
    }
    row_rule(&world.objects, number, user, Rights(0xff))
}

/// The new owner has all eight rights by a row; the row of the one before stays.
#[tactic(auto, using(crate::proofs::GrantLaws::xfro_taken))]
fn xfro(world: &mut Core<Objects, Profiles>, operands: &[Operand]) -> Result<(), NoMemory>
    requires { xfro_fails world.old.held operands.now ≡ None }
    ensures ok { OnOk result (world.new ≡ record world.old { held = on_access world.old.held (target world.old.held operands.now 1) (given_to (user_at world.old.held operands.now 2)) }) }
    ensures err { OnErr result (world.new ≡ world.old) }
{
    let number = target(&world.objects, operands, 1);
    let user = target(&world.objects, operands, 2);
    give_to(world, number, user)
}

// ---- the family

/// What an instruction of authority needs.
#[tactic(auto, unfolding(s38_rules::specs::families::Grants::grants_row, s38_rules::specs::families::AuthorityReads::testau_needs, s38_rules::specs::families::AuthorityReads::matauobj_needs))]
pub fn needs(act: Act<'_>) -> Needs
    ensures { (s : State) → result ≡ (grants_row act.entry.request.now.op).needs s act.entry.process act.entry.depth act.entry.request.now }
{
    let operands = act.request.operands.as_slice();
    match act.request.op {
        Op::Grant | Op::Retract => grant_needs(operands),
        Op::Xfro => xfro_needs(),
        Op::Testau => on_object(2, Sought::Any, Rights(0), None),
        Op::Matau => matau_needs(operands),
        Op::Matauobj => on_object(
            2,
            Sought::Of(Kind::Profile),
            Rights(0),
            Some(Category::Read),
        ),
        _ => Needs::none(),
    }
}

/// The special authority that an acting user must have.
#[tactic(auto, unfolding(s38_rules::specs::families::Grants::grants_row))]
pub fn special(world: &Core<Objects, Profiles>, act: Act<'_>) -> Special
    ensures { result.0 ≡ (grants_row act.entry.request.now.op).special world.now act.entry.process act.entry.depth act.entry.request.now }
{
    match act.request.op {
        Op::Matauobj => matauobj_special(
            world,
            act.process,
            act.depth,
            act.request.operands.as_slice(),
        ),
        _ => Special(0),
    }
}

/// The first of its conditions and limits that fails.
#[tactic(auto, unfolding(s38_rules::specs::families::Grants::grants_row))]
pub fn conditions(world: &Core<Objects, Profiles>, act: Act<'_>) -> Option<Exception>
    ensures { result ≡ (grants_row act.entry.request.now.op).fails world.now act.entry.process act.entry.depth act.entry.request.now }
{
    let operands = act.request.operands.as_slice();
    match act.request.op {
        Op::Grant => grant_fails(&world.objects, operands),
        Op::Xfro => xfro_fails(world, operands),
        _ => None,
    }
}

/// The value for its receiver.
#[tactic(auto, unfolding(s38_rules::specs::families::Grants::grants_row))]
pub fn value(
    alloc: Global,
    world: &Core<Objects, Profiles>,
    act: Act<'_>,
) -> Result<Option<Val>, NoMemory>
    ensures { IfOk result (λ value. value ≡ (grants_row act.entry.request.now.op).gives world.now act.entry.process act.entry.depth act.entry.request.now) }
{
    let operands = act.request.operands.as_slice();
    match act.request.op {
        Op::Testau => Ok(Some(testau_gives(alloc, world, act.process, act.depth, operands)?)),
        Op::Matau => Ok(Some(matau_gives(alloc, &world.objects, operands)?)),
        Op::Matauobj => Ok(Some(matauobj_gives(alloc, &world.objects, operands)?)),
        _ => Ok(None),
    }
}

/// What it changes, where it doesn't fail; where memory is refused nothing changes.
#[tactic(auto, unfolding(s38_rules::specs::families::Grants::grants_row))]
pub fn apply(
    alloc: Global,
    world: &mut Core<Objects, Profiles>,
    act: Act<'_>,
) -> Result<(), NoMemory>
    requires { (grants_row act.request.now.op).fails world.old act.process act.depth act.request.now ≡ None }
    ensures ok { OnOk result (world.new ≡ done world.old act.entry.process ((grants_row act.entry.request.now.op).changes world.old act.entry.process act.entry.depth act.entry.request.now)) }
    ensures err { OnErr result (world.new ≡ world.old) }
{
    let operands = act.request.operands.as_slice();
    match act.request.op {
        Op::Grant => grant(world, operands),
        Op::Retract => retract(world, operands),
        Op::Xfro => xfro(world, operands),
        _ => Ok(()),
    }
}
