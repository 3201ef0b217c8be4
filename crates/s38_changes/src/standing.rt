//! Whose objects are, who may use them, what they are called and where they are.
ghost use Rattle.std.specs.Prelude.{◌≡◌, ℕ, OnErr, OnOk, None, false, true};
ghost use Rattle.s38_objects.specs.Lawful.{is_place};
ghost use Rattle.s38_rules.specs.families.Contexts.{is_name_beside};
ghost use Rattle.s38_rules.specs.families.Creation.{is_taken_beside};
ghost use Rattle.s38_rules.specs.families.Grants.{taker_rule};
ghost use Rattle.s38_profiles.specs.Rows.{SetsRow, row_at, row_key, row_with};
ghost use Rattle.s38_rules.specs.state.Headers.{rights_in_row};
ghost use Rattle.s38_rules.specs.state.Held.{context_in, moved, object, renamed};
ghost use Rattle.s38_rules.specs.state.Kept.{kept_row};
ghost use Rattle.s38_rules.specs.state.PartsAt.{set_profile};
ghost use Rattle.s38_rules.specs.state.Access.{granted, on_access, open_to_all, owned_by};

use crate::users::{pay_less, take_row};
use s38_base::{Id, NoMemory, ObjNum, Rights, Special, UserNum};
use s38_invoke::Core;
use s38_objects::{Objects, pages, pay_more};
use s38_profiles::Profiles;

/// The row of a user on an object is set among the objects and beside them. Where memory is refused everything reads as
/// before.
fn set_both(
    profiles: &mut Profiles,
    objects: &mut Objects,
    number: ObjNum,
    user: UserNum,
    rights: Rights,
) -> Result<(), NoMemory>
    requires { row_at profiles.old.rows (row_key user.0 number.0) ≡ kept_row (rights_in_row (object objects.old number.0) user.0) }
    ensures ok { OnOk result (objects.new ≡ on_access objects.old number.0 (granted user rights)) }
    ensures rows { OnOk result (SetsRow profiles.old.rows (row_key user.0 number.0) (row_with rights) profiles.new.rows) }
    ensures users { profiles.new.users ≡ profiles.old.users }
    ensures err { OnErr result (objects.new ≡ objects.old) }
    ensures err_rows { OnErr result ((other n : ℕ) → row_at profiles.new.rows (row_key other n) ≡ row_at profiles.old.rows (row_key other n)) }
{
    match profiles.set_row(user, number, rights) {
        Ok(()) => {}
        Err(fault) => return Err(fault),
    }
    match objects.set_row(number, user, rights) {
        Ok(()) => Ok(()),
        Err(fault) => {
            take_row(profiles, user, number);
            Err(fault)
        }
    }
}

/// A user has these rights on an object by a row; where memory is refused nothing changes.
pub fn set_row(
    world: &mut Core<Objects, Profiles>,
    number: ObjNum,
    user: UserNum,
    rights: Rights,
) -> Result<(), NoMemory>
    ensures ok { OnOk result (world.new ≡ record world.old { held = on_access world.old.held number.0 (granted user rights) }) }
    ensures err { OnErr result (world.new ≡ world.old) }
{
    let Some(object) = world.objects.get(number) else {
        return Ok(());
    };
    // Its contract says that the users rise.
    let _rows = object.rows.as_slice();
    set_both(
        &mut world.profiles,
        &mut world.objects,
        number,
        user,
        rights,
    )
}

/// Everybody has these rights on an object.
#[tactic(auto, using(crate::proofs::KeptLaws::public_kept))]
pub fn set_public(world: &mut Core<Objects, Profiles>, number: ObjNum, rights: Rights)
    ensures { world.new ≡ record world.old { held = on_access world.old.held number.0 (open_to_all rights) } }
{
    world.objects.set_public(number, rights);
}

/// A user owns an object, pays for it, and has all eight rights on it by a row; where memory is refused nothing
/// changes.
pub fn give_to(
    world: &mut Core<Objects, Profiles>,
    number: ObjNum,
    user: UserNum,
) -> Result<(), NoMemory>
    requires { taker_rule world.old.held number.0 user.0 (object world.old.held number.0) ≡ None }
    ensures ok { OnOk result (world.new ≡ record world.old { held = on_access world.old.held number.0 (λ s. owned_by user (granted user (record { 0 = 255 }) s)) }) }
    ensures err { OnErr result (world.new ≡ world.old) }
{
    let Some(object) = world.objects.get(number) else {
        return Ok(());
    };
    let owner = object.owner;
    let moved = pages(&object.body);
    // Its contract says that the users rise.
    let _rows = object.rows.as_slice();
    // Its contract says that numbers rise and were given.
    let _count = world.objects.len();
    // A limit is a number of 32 bits, so no charge is too large.
    let _limit = world.profiles.limit(user);
    match set_both(
        &mut world.profiles,
        &mut world.objects,
        number,
        user,
        Rights(0xff),
    ) {
        Ok(()) => {}
        Err(fault) => return Err(fault),
    }
    world.objects.set_owner(number, user);
    pay_less(&mut world.profiles, owner, moved);
    pay_more(&mut world.profiles, user, moved);
    Ok(())
}

/// An object has another identification; where memory is refused nothing changes.
#[tactic(auto, using(crate::proofs::KeptLaws::renamed_kept))]
pub fn rename_to(
    world: &mut Core<Objects, Profiles>,
    number: ObjNum,
    id: &Id,
) -> Result<(), NoMemory>
    requires { is_taken_beside world.old.held number.0 (context_in (object world.old.held number.0)).0 id.now ≡ false }
    ensures ok { OnOk result (world.new ≡ record world.old { held = renamed world.old.held number.0 id.now }) }
    ensures err { OnErr result (world.new ≡ world.old) }
{
    world.objects.rename(number, *id)
}

/// An object is in another context, or in none; where memory is refused nothing changes.
#[tactic(auto, using(crate::proofs::KeptLaws::moved_kept))]
pub fn move_to(
    world: &mut Core<Objects, Profiles>,
    number: ObjNum,
    context: ObjNum,
) -> Result<(), NoMemory>
    requires placed { is_place world.old.held context.0 ≡ true }
    requires free { is_name_beside world.old.held number.0 context.0 (object world.old.held number.0) ≡ false }
    ensures ok { OnOk result (world.new ≡ record world.old { held = moved world.old.held number.0 context }) }
    ensures err { OnErr result (world.new ≡ world.old) }
{
    world.objects.move_to(number, context)
}

/// A user has these special authorities and this limit.
#[tactic(auto, using(crate::proofs::StandingLaws::profile_absent))]
pub fn set_profile(
    world: &mut Core<Objects, Profiles>,
    number: ObjNum,
    special: Special,
    limit: u32,
)
    ensures { world.new ≡ record world.old { held = set_profile world.old.held number.0 special limit } }
{
    if world.profiles.has(number) {
        let _result = world.profiles.enter(number, special, limit);
        world.objects.set_profile(number, special, limit);
    }
}
