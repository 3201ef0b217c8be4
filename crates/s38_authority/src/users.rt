//! Special authorities, and ownership.
ghost use Rattle.std.specs.Prelude.{◌≡◌, map};
ghost use Rattle.s38_rules.specs.ask.Authority.{governs, has_special, is_governed, is_special};
ghost use Rattle.s38_rules.specs.state.Held.{object, owner_in};

use crate::rights::has_rights;
use s38_base::{ObjNum, Rights, Special, UserNum};
use s38_invoke::Core;
use s38_rules::{Table, UserMaps};

/// Whether a user's profile gives it a special authority.
pub fn has_special<T: Table, P: UserMaps>(
    world: &Core<T, P>,
    special: Special,
    user: UserNum,
) -> bool
    ensures { result ≡ has_special world.now.held special.0 user.0 }
{
    let there = world.specials(user);
    has_rights(Rights(special.0), Rights(there.0))
}

// ---- special authorities

/// Whether some of the users has a special authority.
pub fn is_special<T: Table, P: UserMaps>(
    world: &Core<T, P>,
    users: &[UserNum],
    special: Special,
) -> bool
    ensures { result ≡ is_special world.now.held (map (λ u. u.0) users.now) special.0 }
{
    match users {
        [] => false,
        [user, more @ ..] => {
            has_special(world, special, *user) || is_special(world, more, special)
        }
    }
}

// ---- ownership

fn owner_in<T: Table, P: UserMaps>(world: &Core<T, P>, number: ObjNum) -> UserNum
    ensures { result.0 ≡ owner_in (object world.now.held number.0) }
{
    match world.objects.header(number) {
        None => ObjNum(0),
        Some(header) => header.owner,
    }
}

/// Whether a user owns the object that this owner has, or has all-object authority.
fn governs<T: Table, P: UserMaps>(
    world: &Core<T, P>,
    number: ObjNum,
    owner: UserNum,
    user: UserNum,
) -> bool
    requires { owner.0 ≡ owner_in (object world.now.held number.0) }
    ensures { result ≡ governs world.now.held number.0 user.0 }
{
    user.0 == owner.0 || has_special(world, Special::ALLOBJ, user)
}

#[tactic(auto, unfolding(s38_rules::specs::ask::Authority::is_governed))]
fn is_governed_by<T: Table, P: UserMaps>(
    world: &Core<T, P>,
    number: ObjNum,
    owner: UserNum,
    users: &[UserNum],
) -> bool
    requires { owner.0 ≡ owner_in (object world.now.held number.0) }
    ensures { result ≡ is_governed world.now.held number.0 (map (λ u. u.0) users.now) }
{
    match users {
        [] => false,
        [user, more @ ..] => {
            governs(world, number, owner, *user) || is_governed_by(world, number, owner, more)
        }
    }
}

/// Whether one of the users owns the object of a number, or has all-object authority.
pub fn is_governed<T: Table, P: UserMaps>(
    world: &Core<T, P>,
    users: &[UserNum],
    number: ObjNum,
) -> bool
    ensures { result ≡ is_governed world.now.held number.0 (map (λ u. u.0) users.now) }
{
    is_governed_by(world, number, owner_in(world, number), users)
}
