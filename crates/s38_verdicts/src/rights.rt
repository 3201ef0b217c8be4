//! The rule of authority: what an instruction claims of each object is there.
ghost use Rattle.std.specs.Prelude.{◌≡◌, map, Option};
ghost use Rattle.std.specs.Option.{option_map};
ghost use Rattle.s38_verdicts.specs.Resolved.{Each, IsResolved, facts_of, needs_of};
ghost use Rattle.s38_rules.specs.declared.object.Object.{Object};
ghost use Rattle.s38_rules.specs.state.Headers.{public_of};
ghost use Rattle.s38_rules.specs.state.Held.{object};
ghost use Rattle.s38_rules.specs.ask.Needs.{first_of};
ghost use Rattle.s38_rules.specs.ask.RightsRules.{claim_rule, granting_rule, names_owners, rights_rule};

use crate::resolved::{Facts, Resolved};
use s38_authority::{available_on, is_governed, missing};
use s38_base::exceptions::OWNERSHIP_REQUIRED;
use s38_base::{Exception, ObjNum, Pointer, Rights, UserNum};
use s38_code::Operand;
use s38_invoke::{Core, Profiles};
use s38_objects::Objects;
use s38_operands::fails;
use s38_rules::{Claim, Need};

/// Whether the rights are some that an owner alone gives and takes.
fn names_owners(rights: Rights) -> bool
    ensures { result ≡ names_owners rights.0 }
{
    rights.0 & (Rights::OBJCTL.0 + Rights::OBJMGT.0) != 0
}

/// Who neither owns the object nor has all-object authority needs object management and what it gives or takes, and
/// leaves the owner's own rights alone.
pub fn granting_rule(owns: bool, operand: u8, rights: Rights, there: Rights) -> Option<Exception>
    ensures { result ≡ granting_rule owns operand rights.0 there.0 }
{
    if owns {
        return None;
    }
    let needed = Rights(Rights::OBJMGT.0 | rights.0);
    if let Some(failure) = missing(operand, needed, there) {
        return Some(failure);
    }
    fails(names_owners(rights), OWNERSHIP_REQUIRED, operand)
}

/// The rights of everybody on an object, where there is one.
#[inline(always)]
pub fn public_of(found: Option<Facts>) -> Option<Rights>
    ensures { (o : Option Object) → found ≡ option_map facts_of o → result ≡ public_of o }
{
    match found {
        None => None,
        Some(facts) => Some(facts.public),
    }
}

/// What is claimed of an object, whose rights of everybody are looked up already, is there for these users.
#[inline(always)]
fn claim_rule(
    world: &Core<Objects, Profiles>,
    users: &[UserNum],
    number: ObjNum,
    carried: Rights,
    need: &Need,
    public: Option<Rights>,
) -> Option<Exception>
    requires { public ≡ public_of (object world.now.held number.0) }
    ensures { result ≡ claim_rule need.now.claim world.now.held (map (λ u. u.0) users.now) number.0 carried.0 need.now.place need.now.rights.0 }
{
    let place = need.place;
    match need.claim {
        Claim::Available => missing(
            place,
            need.rights,
            available_on(world, users, number, carried, public),
        ),
        Claim::Granting => granting_rule(
            is_governed(world, users, number),
            place,
            need.rights,
            available_on(world, users, number, carried, public),
        ),
        Claim::Ownership => fails(
            !is_governed(world, users, number),
            OWNERSHIP_REQUIRED,
            place,
        ),
    }
}

/// What a need claims is there. A need whose object no operand names has no pointer, and so carries no rights.
#[inline(always)]
#[tactic(auto, using(crate::proofs::ResolvedLaws::carried_by_pointer), unfolding(s38_rules::specs::ask::RightsRules::rights_rule))]
fn rights_rule(
    world: &Core<Objects, Profiles>,
    users: &[UserNum],
    operands: &[Operand],
    need: &Resolved,
) -> Option<Exception>
    requires { IsResolved world.now.held operands.now need.now }
    ensures { result ≡ rights_rule world.now.held (map (λ u. u.0) users.now) operands.now need.now.need }
{
    let _ = operands;
    claim_rule(
        world,
        users,
        need.object,
        Pointer::carried(need.pointer),
        &need.need,
        public_of(need.found),
    )
}

/// The first claim of these that the users don't meet.
fn each_unmet(
    world: &Core<Objects, Profiles>,
    users: &[UserNum],
    operands: &[Operand],
    needs: &[Resolved],
) -> Option<Exception>
    requires { Each (IsResolved world.now.held operands.now) needs.now }
    ensures { result ≡ first_of (rights_rule world.now.held (map (λ u. u.0) users.now) operands.now) (needs_of needs.now) }
{
    match needs {
        [] => None,
        [need, more @ ..] => {
            if let Some(failure) = rights_rule(world, users, operands, need) {
                return Some(failure);
            }
            each_unmet(world, users, operands, more)
        }
    }
}

/// The first claim that the acting users don't meet. One need is asked alone.
#[inline(always)]
#[tactic(auto, using(crate::proofs::SoleLaws::or_none))]
pub fn first_unmet(
    world: &Core<Objects, Profiles>,
    users: &[UserNum],
    operands: &[Operand],
    needs: &[Resolved],
) -> Option<Exception>
    requires { Each (IsResolved world.now.held operands.now) needs.now }
    ensures { result ≡ first_of (rights_rule world.now.held (map (λ u. u.0) users.now) operands.now) (needs_of needs.now) }
{
    match needs {
        [need] => rights_rule(world, users, operands, need),
        _ => each_unmet(world, users, operands, needs),
    }
}
