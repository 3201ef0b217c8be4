//! What users pay for, against what their profiles allow.
ghost use Rattle.std.specs.Prelude.{◌≡◌, ◌+◌, ◌-◌, ◌≤◌, nat_lt};
ghost use Rattle.std.specs.Option.{option_copied};
ghost use Rattle.s38_rules.specs.ask.Authority.{rights_that_count};
ghost use Rattle.s38_rules.specs.families.Creation.{pages_rule};
ghost use Rattle.s38_rules.specs.families.Grants.{taker_rule};
ghost use Rattle.s38_rules.specs.state.Held.{charge_in, object as object_at, pages_of};
ghost use Rattle.s38_rules.specs.families.Profiles.{is_owner};
ghost use Rattle.s38_rules.specs.families.Spaces.{owner_pays};
ghost use Rattle.s38_rules.proofs.ChargeLaws.{AreRising};

use s38_base::exceptions::PAGES_EXCEEDED;
use s38_base::{Exception, ObjNum, UserNum};
use s38_invoke::{Core, Profiles};
use s38_objects::{Objects, pages};
use s38_operands::fails;
use s38_rules::Object;

/// Whether a limit is less than so many pages and so many more.
fn passes(limit: u32, pages: u64, more: u64) -> bool
    ensures { result ≡ nat_lt limit (pages + more) }
{
    let limit = u64::from(limit);
    limit < pages || limit - pages < more
}

/// A user would own more pages than its profile allows: those that it pays for, and so many more.
#[tactic(auto, using(crate::proofs::LimitLaws::more_allowed))]
pub fn pays_more(
    world: &Core<Objects, Profiles>,
    user: UserNum,
    pages: u64,
    operand: u8,
) -> Option<Exception>
    requires { 1 ≤ pages }
    ensures { result ≡ pages_rule world.now.held user.0 (charge_in world.now.held.objects user.0 + pages) operand }
{
    fails(
        passes(world.page_limit(user), world.charge(user), pages),
        PAGES_EXCEEDED,
        operand,
    )
}

/// What the owner of an object pays for beside it; nothing of one that is not there.
fn paid_beside(world: &Core<Objects, Profiles>, object: &Object) -> u64
    ensures { result ≡ rights_that_count (object_at world.now.held object.now.owner.0) (charge_in world.now.held.objects object.now.owner.0) - pages_of object.now.body }
{
    world
        .charge(object.owner)
        .saturating_sub(pages(&object.body))
}

/// The object of a number, among others that are told apart by their numbers.
#[tactic(auto, using(s38_rules::proofs::ChargeLaws::rising_by))]
fn found(objects: &Objects, number: ObjNum) -> Option<&Object>
    ensures found { option_copied result ≡ object_at objects.now number.0 }
    ensures rising { AreRising objects.now.objects }
{
    // Its contract says that numbers rise and were given.
    let _count = objects.len();
    objects.get(number)
}

/// The owner of an object may pay for so many pages of it.
#[tactic(auto, using(crate::proofs::LimitLaws::nobody_allowed, crate::proofs::LimitLaws::owner_allowed), unfolding(s38_rules::specs::families::Spaces::owner_pays))]
pub fn owner_pays(world: &Core<Objects, Profiles>, number: ObjNum, pages: u64) -> Option<Exception>
    requires { 1 ≤ pages }
    ensures { result ≡ owner_pays world.now.held number.0 pages }
{
    match found(&world.objects, number) {
        None => pays_more(world, ObjNum(0), pages, 0),
        Some(object) => {
            let others = paid_beside(world, object);
            let limit = world.page_limit(object.owner);
            fails(passes(limit, others, pages), PAGES_EXCEEDED, 0)
        }
    }
}

/// A user may own the pages of the object of a number beside its others.
#[tactic(auto, using(crate::proofs::LimitLaws::own_allowed, crate::proofs::LimitLaws::taker_allowed))]
pub fn taker_rule(
    world: &Core<Objects, Profiles>,
    number: ObjNum,
    user: UserNum,
) -> Option<Exception>
    ensures { result ≡ taker_rule world.now.held number.0 user.0 (object_at world.now.held number.0) }
{
    match found(&world.objects, number) {
        None => None,
        Some(object) => {
            let limit = world.page_limit(user);
            let more = pages(&object.body);
            let over = if object.owner.0 == user.0 {
                passes(limit, paid_beside(world, object), more)
            } else {
                passes(limit, world.charge(user), more)
            };
            fails(over, PAGES_EXCEEDED, 2)
        }
    }
}

/// Whether a user owns an object: then it pays for one.
#[tactic(auto, using(crate::proofs::LimitLaws::owner_charged))]
pub fn is_owner(world: &Core<Objects, Profiles>, user: UserNum) -> bool
    ensures { result ≡ is_owner world.now.held user.0 }
{
    world.charge(user) != 0
}
