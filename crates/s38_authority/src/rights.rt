//! Rights: which are available on an object, and which of those that are needed are missing.
ghost use Rattle.std.specs.Prelude.{◌≡◌, map};
ghost use Rattle.std.specs.Option.{option_map};
ghost use Rattle.std.specs.Result.{result_err};
ghost use Rattle.s38_rules.specs.ask.Authority.{available, has_rights, missing_in, source_by, sources_by, sources_on};
ghost use Rattle.s38_rules.specs.state.Headers.{public_in, public_of};
ghost use Rattle.s38_rules.specs.state.Held.{object};

use crate::users::has_special;
use s38_base::{ObjNum, Rights, Special, UserNum};
use s38_invoke::Core;
use s38_rules::{Table, UserMaps};

/// Needed rights that are not available.
#[derive(Clone, Copy, PartialEq, Eq, Debug)]
pub struct Missing(pub Rights);

/// Whether all the needed rights are among those that are there.
pub fn has_rights(needed: Rights, there: Rights) -> bool
    ensures { result ≡ has_rights needed.0 there.0 }
{
    there.0 & needed.0 == needed.0
}

/// The rights that a user brings to an object with these rights of everybody.
#[tactic(auto, unfolding(s38_rules::specs::ask::Authority::source_by))]
fn source_by<T: Table, P: UserMaps>(
    world: &Core<T, P>,
    number: ObjNum,
    public: Rights,
    user: UserNum,
) -> Rights
    requires { public.0 ≡ public_in (object world.now.held number.0) }
    ensures { result.0 ≡ source_by world.now.held number.0 user.0 }
{
    if has_special(world, Special::ALLOBJ, user) {
        Rights(255)
    } else {
        Rights(public.0 | world.row_on(number, user).0)
    }
}

fn sources_by<T: Table, P: UserMaps>(
    world: &Core<T, P>,
    number: ObjNum,
    public: Rights,
    users: &[UserNum],
) -> u8
    requires { public.0 ≡ public_in (object world.now.held number.0) }
    ensures { result ≡ sources_by world.now.held number.0 (map (λ u. u.0) users.now) }
{
    match users {
        [] => 0,
        [user, more @ ..] => {
            source_by(world, number, public, *user).0 | sources_by(world, number, public, more)
        }
    }
}

/// What these users bring to an object with these rights of everybody; nothing where there is none.
fn sources_on<T: Table, P: UserMaps>(
    world: &Core<T, P>,
    number: ObjNum,
    users: &[UserNum],
    public: Option<Rights>,
) -> u8
    requires { public ≡ public_of (object world.now.held number.0) }
    ensures { result ≡ sources_on world.now.held number.0 (map (λ u. u.0) users.now) (object world.now.held number.0) }
{
    match public {
        None => 0,
        Some(public) => sources_by(world, number, public, users),
    }
}

/// The rights that are available to these users on an object, whose rights of everybody are looked up already, with
/// those that the used pointer carries: none but those without the object.
#[inline(always)]
#[tactic(auto, unfolding(s38_rules::specs::ask::Authority::available))]
pub fn available_on<T: Table, P: UserMaps>(
    world: &Core<T, P>,
    users: &[UserNum],
    number: ObjNum,
    carried: Rights,
    public: Option<Rights>,
) -> Rights
    requires { public ≡ public_of (object world.now.held number.0) }
    ensures { result.0 ≡ available world.now.held (map (λ u. u.0) users.now) number.0 carried.0 }
{
    Rights(carried.0 | sources_on(world, number, users, public))
}

/// The rights of everybody on the object of a number, where there is one.
fn public_of<T: Table, P: UserMaps>(world: &Core<T, P>, number: ObjNum) -> Option<Rights>
    ensures { result ≡ public_of (object world.now.held number.0) }
{
    match world.objects.header(number) {
        None => None,
        Some(header) => Some(header.public),
    }
}

/// The rights that are available to these users on the object of a number, with those that the used pointer
/// carries: none but those without the object.
#[inline(always)]
pub fn available<T: Table, P: UserMaps>(
    world: &Core<T, P>,
    users: &[UserNum],
    number: ObjNum,
    carried: Rights,
) -> Rights
    ensures { result.0 ≡ available world.now.held (map (λ u. u.0) users.now) number.0 carried.0 }
{
    available_on(world, users, number, carried, public_of(world, number))
}

/// Exactly the needed rights that are not there, where some are not.
pub fn missing_in(needed: Rights, there: Rights) -> Result<(), Missing>
    ensures { option_map (λ m. m.0) (result_err result) ≡ missing_in needed.0 there.0 }
{
    if has_rights(needed, there) {
        return Ok(());
    }
    Err(Missing(Rights(needed.0 & (255 - there.0))))
}
