//! Authority looked at: what a user may do, what a row and everybody have, and what a user has to do with.
ghost use Rattle.std.specs.Prelude.{◌≡◌, ◌==◌, IfOk, map};
ghost use Rattle.std.specs.List.{list_any};
ghost use Rattle.std.specs.Option.{option_copied};
ghost use Rattle.s38_rules.specs.families.AuthorityReads.{matau_gives, matau_needs, matauobj_gives, matauobj_special, row_or_public, testau_gives, truth};
ghost use Rattle.s38_rules.specs.families.Grantees.{user_needs};
ghost use Rattle.s38_rules.specs.state.Headers.{rights_in_row};
ghost use Rattle.s38_rules.specs.state.Held.{object};
ghost use Rattle.s38_rules.specs.ask.Operands.{is_given, target};

use crate::images::{authority_image, concerns_image, public_in};
use s38_authority::{available, has_rights};
use s38_base::{Bytes, Category, Kind, NoMemory, Pointer, Rights, Special, UserNum};
use s38_code::{Operand, Val};
use s38_invoke::{Core, Profiles};
use s38_objects::Objects;
use s38_operands::{Needs, fitted, is_given, on_object, pointer_at, rights_at, room_at, target};
use s38_rules::{Object, Sought};
use std::alloc::Global;

// ---- whose authority

/// A profile at an operand, of which no right is asked; everybody needs none.
pub fn user_needs(operands: &[Operand], k: u8) -> Needs
    ensures { result ≡ user_needs operands.now k }
{
    if !is_given(operands, k as usize) {
        return Needs::none();
    }
    on_object(k, Sought::Of(Kind::Profile), Rights(0), None)
}

/// The rights of a user by its row on an object, whether the user is there or not.
pub fn row_in(found: Option<&Object>, user: UserNum) -> Rights
    ensures { result.0 ≡ rights_in_row (option_copied found.entry) user.0 }
{
    match found {
        None => Rights(0),
        Some(object) => object.rows.rights_of(user),
    }
}

/// The rights that a user has by its row on an object, or those of everybody where no user is given.
pub fn rights_of(objects: &Objects, operands: &[Operand], at: usize, k: usize) -> Rights
    ensures { result.0 ≡ row_or_public (is_given operands.now k) (object objects.now (target objects.now operands.now at)) (target objects.now operands.now k) }
{
    let found = objects.get(target(objects, operands, at));
    if is_given(operands, k) {
        row_in(found, target(objects, operands, k))
    } else {
        public_in(found)
    }
}

// ---- TESTAU

/// A binary number of two bytes.
fn truth(alloc: Global, holds: bool) -> Result<Bytes, NoMemory>
    ensures { IfOk result (λ bytes. bytes ≡ truth holds) }
{
    Bytes::from_slice(alloc, &[0, u8::from(holds)])
}

/// 1 where all the rights are available.
#[tactic(auto, unfolding(s38_rules::specs::families::AuthorityReads::testau_bytes))]
pub fn testau_gives(
    alloc: Global,
    world: &Core<Objects, Profiles>,
    process: u32,
    depth: u16,
    operands: &[Operand],
) -> Result<Val, NoMemory>
    ensures { IfOk result (λ value. value ≡ testau_gives world.now process depth operands.now) }
{
    let users = world.acting(process, depth);
    let number = target(&world.objects, operands, 2);
    let carried = Pointer::carried(pointer_at(&world.objects, operands, 2));
    let there = available(world, users.as_slice(), number, carried);
    Ok(Val::Bytes(truth(alloc, has_rights(rights_at(operands, 3), there))?))
}

// ---- MATAU

/// Object management on the object, and a profile or everybody.
#[tactic(auto, unfolding(s38_rules::specs::families::AuthorityReads::matau_needs))]
pub fn matau_needs(operands: &[Operand]) -> Needs
    ensures { result ≡ matau_needs operands.now }
{
    on_object(2, Sought::Any, Rights::OBJMGT, Some(Category::Read)).and(user_needs(operands, 3))
}

/// The owner, the rights of everybody, and those of the user's row.
#[tactic(auto, unfolding(s38_rules::specs::families::AuthorityReads::matau_bytes))]
pub fn matau_gives(alloc: Global, objects: &Objects, operands: &[Operand]) -> Result<Val, NoMemory>
    ensures { IfOk result (λ value. value ≡ matau_gives objects.now operands.now) }
{
    let found = objects.get(target(objects, operands, 2));
    let rights = rights_of(objects, operands, 2, 3);
    let image = authority_image(alloc, found, rights)?;
    let bytes = fitted(alloc, room_at(operands, 1), 0, image.as_slice())?;
    Ok(Val::Bytes(bytes))
}

// ---- MATAUOBJ

fn acts(users: &[UserNum], user: UserNum) -> bool
    ensures { result ≡ list_any (λ acting. acting == user.0) (map (λ u. u.0) users.now) }
{
    match users {
        [] => false,
        [acting, more @ ..] => acting.0 == user.0 || acts(more, user),
    }
}

/// The special authority over profiles, but for one's own.
#[tactic(auto, unfolding(s38_rules::specs::families::AuthorityReads::matauobj_special))]
pub fn matauobj_special(
    world: &Core<Objects, Profiles>,
    process: u32,
    depth: u16,
    operands: &[Operand],
) -> Special
    ensures { result.0 ≡ matauobj_special world.now process depth operands.now }
{
    let users = world.acting(process, depth);
    if acts(users.as_slice(), target(&world.objects, operands, 2)) {
        Special(0)
    } else {
        Special::PROFILE
    }
}

/// The number of the objects that the user owns or has a row on, and each in order of number.
#[tactic(auto, unfolding(s38_rules::specs::families::AuthorityReads::matauobj_bytes))]
pub fn matauobj_gives(
    alloc: Global,
    objects: &Objects,
    operands: &[Operand],
) -> Result<Val, NoMemory>
    ensures { IfOk result (λ value. value ≡ matauobj_gives objects.now operands.now) }
{
    let image = concerns_image(alloc, objects, target(objects, operands, 2))?;
    let bytes = fitted(alloc, room_at(operands, 1), 0, image.as_slice())?;
    Ok(Val::Bytes(bytes))
}
