//! How many new pages the private rows of an object need.
ghost use Rattle.std.specs.Prelude.{◌≡◌, ◌*◌, ◌-◌, ◌≤◌, All, IfSome, length, if◌then◌else◌};
ghost use Rattle.std.specs.Int.RustNames.{bit_or};
ghost use Rattle.std.specs.Option.{option_copied};
ghost use Rattle.bitflags.specs.Sets.{without};
ghost use Rattle.s38_rules.specs.families.Grants.{given_to, with_granted, with_retracted};
ghost use Rattle.s38_rules.specs.families.Grantees.{rights_of, user_at, with_rights};
ghost use Rattle.s38_rules.specs.state.Held.{object as object_at};
ghost use Rattle.s38_rules.specs.ask.Operands.{is_given, rights_at, target};
ghost use Rattle.s38_rules.specs.state.PrivateRows.{with_row};
ghost use Rattle.s38_rules.specs.store.Room.{pages_begun, row_len, rows_pages};
ghost use Rattle.s38_rules.specs.state.Access.{access_of};
ghost use Rattle.s38_rules.specs.store.Storable.{IsStorable};
ghost use Rattle.s38_space_rules.specs.Growing.{rows_growth};

use crate::growth::storable;
use crate::words::number_at;
use s38_base::{Rights, UserNum};
use s38_invoke::{Core, Profiles};
use s38_objects::Objects;
use s38_operands::{Act, is_given, rights_at};
use s38_rules::{Object, RowList};
use s38_space_map::pages_of_rows;

/// All rights.
const ALL_RIGHTS: Rights = Rights(255);

/// How many rows there are once a user has these rights.
#[tactic(auto, using(crate::proofs::RowCounts::rows_counted))]
fn rows_with(rows: &RowList, user: UserNum, rights: Rights) -> usize
    requires { length rows.now ≤ 4096 }
    ensures rows { result ≡ length (with_row rows.now user rights) }
    ensures bound { result ≤ 4097 }
{
    // Its contract says that each row has a right.
    let _rows = rows.as_slice();
    let had = rows.rights_of(user).0 != 0;
    let has = rights.0 != 0;
    match (had, has) {
        (false, true) => rows.len() + 1,
        (true, false) => rows.len() - 1,
        _ => rows.len(),
    }
}

/// How many rows an object has once a user, where one is given, or else everybody has these rights.
fn rows_after(object: &Object, is_user: bool, user: UserNum, rights: Rights) -> usize
    requires { IsStorable object.now }
    ensures rows { result ≡ length (with_rights is_user user rights.0 (access_of object.now)).rows }
    ensures bound { result ≤ 4097 }
{
    if is_user {
        rows_with(&object.rows, user, rights)
    } else {
        object.rows.len()
    }
}

fn rights_held(object: &Object, is_user: bool, user: UserNum) -> Rights
    ensures { result.0 ≡ rights_of is_user user (access_of object.now) }
{
    if is_user {
        object.rows.rights_of(user)
    } else {
        object.public
    }
}

/// How many rows an object has once rights are added.
fn granted_rows(object: &Object, is_user: bool, user: UserNum, more: Rights) -> usize
    requires { IsStorable object.now }
    ensures rows { result ≡ length (with_rights is_user user (bit_or (rights_of is_user user (access_of object.now)) more.0) (access_of object.now)).rows }
    ensures bound { result ≤ 4097 }
{
    let held = rights_held(object, is_user, user);
    rows_after(object, is_user, user, Rights(held.0 | more.0))
}

/// How many rows an object has once rights are taken away.
fn retracted_rows(object: &Object, is_user: bool, user: UserNum, less: Rights) -> usize
    requires { IsStorable object.now }
    ensures rows { result ≡ length (with_rights is_user user (without 8 (rights_of is_user user (access_of object.now)) less.0) (access_of object.now)).rows }
    ensures bound { result ≤ 4097 }
{
    let held = rights_held(object, is_user, user);
    rows_after(object, is_user, user, Rights(held.0 & (255 - less.0)))
}

/// Further pages of the rows of an object on disk, once it has so many.
fn rows_growth(object: &Object, rows: usize) -> u32
    requires storable { IsStorable object.now }
    requires few { rows ≤ 4097 }
    ensures pages { result ≡ (if object.now.on_disk then pages_begun (row_len * rows) - rows_pages object.now else 0) }
    ensures bound { result ≤ 100 }
{
    if object.on_disk {
        pages_of_rows(rows).saturating_sub(pages_of_rows(object.rows.len()))
    } else {
        0
    }
}

/// The object that operand 1 names.
fn named<'a>(world: &'a Core<Objects, Profiles>, act: Act<'_>) -> Option<&'a Object>
    requires { All IsStorable world.now.held.objects }
    ensures object { option_copied result ≡ object_at world.now.held (target world.now.held act.entry.request.now.operands 1) }
    ensures storable { IfSome result (λ object. IsStorable object.now) }
{
    storable(world, number_at(world, act, 1))
}

/// The user that operand 2 names.
fn user_at(world: &Core<Objects, Profiles>, act: Act<'_>) -> UserNum
    ensures { result ≡ user_at world.now.held act.entry.request.now.operands 2 }
{
    number_at(world, act, 2)
}

fn gives_user(act: Act<'_>) -> bool
    ensures { result ≡ is_given act.entry.request.now.operands 2 }
{
    is_given(act.request.operands.as_slice(), 2)
}

fn said_rights(act: Act<'_>) -> Rights
    ensures { result.0 ≡ rights_at act.entry.request.now.operands 3 }
{
    rights_at(act.request.operands.as_slice(), 3)
}

/// What the rows of an object need where rights are added.
pub fn grant_growth(world: &Core<Objects, Profiles>, act: Act<'_>) -> u32
    requires { All IsStorable world.now.held.objects }
    ensures parts { result ≡ rows_growth (object_at world.now.held (target world.now.held act.entry.request.now.operands 1)) (with_granted world.now.held act.entry.request.now.operands) }
    ensures bound { result ≤ 100 }
{
    match named(world, act) {
        None => 0,
        Some(object) => {
            let rows = granted_rows(
                object,
                gives_user(act),
                user_at(world, act),
                said_rights(act),
            );
            rows_growth(object, rows)
        }
    }
}

/// What the rows of an object need where rights are taken away.
pub fn retract_growth(world: &Core<Objects, Profiles>, act: Act<'_>) -> u32
    requires { All IsStorable world.now.held.objects }
    ensures parts { result ≡ rows_growth (object_at world.now.held (target world.now.held act.entry.request.now.operands 1)) (with_retracted world.now.held act.entry.request.now.operands) }
    ensures bound { result ≤ 100 }
{
    match named(world, act) {
        None => 0,
        Some(object) => {
            let rows = retracted_rows(
                object,
                gives_user(act),
                user_at(world, act),
                said_rights(act),
            );
            rows_growth(object, rows)
        }
    }
}

/// What the rows of an object need where it is given to another owner.
pub fn transfer_growth(world: &Core<Objects, Profiles>, act: Act<'_>) -> u32
    requires { All IsStorable world.now.held.objects }
    ensures parts { result ≡ rows_growth (object_at world.now.held (target world.now.held act.entry.request.now.operands 1)) (given_to (user_at world.now.held act.entry.request.now.operands 2)) }
    ensures bound { result ≤ 100 }
{
    match named(world, act) {
        None => 0,
        Some(object) => {
            let rows = rows_with(&object.rows, user_at(world, act), ALL_RIGHTS);
            rows_growth(object, rows)
        }
    }
}
