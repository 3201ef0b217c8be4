//! User profiles: made, changed and destroyed. Each needs the special authority over profiles.
ghost use Rattle.s38_rules.specs.state.State.{State};
ghost use Rattle.s38_rules.specs.families.Changes.{done};
ghost use Rattle.s38_rules.specs.ask.Operands.{target};
ghost use Rattle.s38_rules.specs.state.PartsAt.{set_profile};
ghost use Rattle.std.specs.Prelude.{◌≡◌, None, IfOk, OnOk, OnErr};
ghost use Rattle.std.specs.List.{list_any};
ghost use Rattle.std.specs.Option.{option_copied};
ghost use Rattle.s38_rules.specs.families.Profiles.{crtup_changes, crtup_fails, desup_fails, is_live, is_needed, is_user, limit_at, modup_fails, modup_needs, new_profile, owns, profile_body, profiles_row, specials_at};

use s38_base::exceptions::OBJECT_IN_USE;
use s38_base::{Category, Exception, Kind, NoMemory, Op, Rights, Special, UserNum};
use s38_changes::{
    creation_changes, creation_fails, creation_gives, destroy, destruction_needs, is_owner,
    machine_needs, of_machine, set_profile,
};
use s38_code::{Operand, Val};
use s38_invoke::{Core, Profiles};
use s38_objects::Objects;
use s38_operands::{Act, Needs, fails, on_object, target, whole_at, word_at};
use s38_rules::{Body, Creating, ProcessEntry, Sought, Started};
use std::alloc::Global;

/// The security officer.
const OFFICER: u64 = 2;

// ---- what is said of a user

/// A word of special authorities: its two bits.
#[tactic(auto, using(std::proofs::lemmas::Nat::and_le_r))]
fn specials_at(operands: &[Operand], k: usize) -> Special
    ensures { result ≡ specials_at operands.now k }
{
    let both = u32::from(Special::ALLOBJ.0 + Special::PROFILE.0);
    Special((word_at(operands, k) & both) as u8)
}

/// How many pages a user may own.
fn limit_at(operands: &[Operand], k: usize) -> u32
    ensures { result ≡ limit_at operands.now k }
{
    whole_at(operands, k).min(4_294_967_295) as u32
}

// ---- CRTUP

fn new_profile(objects: &Objects, operands: &[Operand]) -> Creating
    ensures { result ≡ new_profile objects.now operands.now }
{
    of_machine(Kind::Profile, Rights(0), objects, operands)
}

fn profile_body(operands: &[Operand]) -> Body
    ensures { result ≡ profile_body operands.now }
{
    Body::Profile {
        special: specials_at(operands, 3),
        limit: limit_at(operands, 4),
    }
}

#[tactic(auto, unfolding(s38_rules::specs::families::Profiles::crtup_fails))]
fn crtup_fails(
    world: &Core<Objects, Profiles>,
    process: u32,
    operands: &[Operand],
) -> Option<Exception>
    ensures { result ≡ crtup_fails world.now process operands.now }
{
    let created = new_profile(&world.objects, operands);
    creation_fails(world, world.user_of(process), &created, None)
}

#[tactic(auto, using(crate::proofs::CreationLaws::crtup_created, s38_changes::proofs::CreationLaws::home_placed))]
fn crtup(
    alloc: Global,
    world: &mut Core<Objects, Profiles>,
    process: u32,
    operands: &[Operand],
) -> Result<(), NoMemory>
    requires { crtup_fails world.old process operands.now ≡ None }
    ensures ok { OnOk result (world.new ≡ done world.old process (crtup_changes world.old process operands.now)) }
    ensures err { OnErr result (world.new ≡ world.old) }
{
    let owner = world.user_of(process);
    let created = new_profile(&world.objects, operands);
    creation_changes(alloc, world, owner, &created, profile_body(operands))
}

// ---- MODUP

/// The security officer stays as it is.
#[tactic(auto, unfolding(s38_rules::specs::families::Profiles::modup_fails))]
fn modup_fails(objects: &Objects, operands: &[Operand]) -> Option<Exception>
    ensures { result ≡ modup_fails objects.now operands.now }
{
    fails(target(objects, operands, 1).0 == OFFICER, OBJECT_IN_USE, 1)
}

/// Both special authorities and limit.
fn modup(world: &mut Core<Objects, Profiles>, operands: &[Operand])
    ensures { world.new ≡ record world.old { held = set_profile world.old.held (target world.old.held operands.now 1) (specials_at operands.now 2) (limit_at operands.now 3) } }
{
    let number = target(&world.objects, operands, 1);
    set_profile(
        world,
        number,
        specials_at(operands, 2),
        limit_at(operands, 3),
    );
}

// ---- DESUP

fn is_user(user: UserNum, started: Option<&Started>) -> bool
    ensures { result ≡ is_user user.0 (option_copied started.entry) }
{
    match started {
        None => false,
        Some(started) => started.user.0 == user.0,
    }
}

/// Whether a process has started for the user, and not ended.
fn is_live(user: UserNum, entry: &ProcessEntry) -> bool
    ensures { result ≡ is_live user.0 entry.now }
{
    !entry.ended && is_user(user, entry.started.as_ref())
}

fn has_process(entries: &[ProcessEntry], user: UserNum) -> bool
    ensures { result ≡ list_any (is_live user.0) entries.now }
{
    entries.iter().any(|entry| is_live(user, entry))
}

/// The security officer stays, and so does a user that owns an object or has a live process.
fn is_needed(world: &Core<Objects, Profiles>, user: UserNum) -> bool
    ensures { result ≡ is_needed world.now user.0 }
{
    user.0 == OFFICER || is_owner(world, user) || has_process(world.processes.as_slice(), user)
}

#[tactic(auto, unfolding(s38_rules::specs::families::Profiles::desup_fails))]
fn desup_fails(world: &Core<Objects, Profiles>, operands: &[Operand]) -> Option<Exception>
    ensures { result ≡ desup_fails world.now operands.now }
{
    let user = target(&world.objects, operands, 1);
    fails(is_needed(world, user), OBJECT_IN_USE, 1)
}

// ---- the family

/// What an instruction of profiles needs.
#[tactic(auto, unfolding(s38_rules::specs::families::Profiles::profiles_row, s38_rules::specs::families::Profiles::modup_needs))]
pub fn needs(act: Act<'_>) -> Needs
    ensures { (s : State) → result ≡ (profiles_row act.entry.request.now.op).needs s act.entry.process act.entry.depth act.entry.request.now }
{
    let profile = Sought::Of(Kind::Profile);
    match act.request.op {
        Op::Crtup => machine_needs(),
        Op::Modup => on_object(1, profile, Rights(0), Some(Category::Change)),
        Op::Desup => destruction_needs(Kind::Profile),
        _ => Needs::none(),
    }
}

/// The special authority over profiles.
#[tactic(auto, unfolding(s38_rules::specs::families::Profiles::profiles_row))]
pub fn special(act: Act<'_>) -> Special
    ensures { (s : State) → result.0 ≡ (profiles_row act.entry.request.now.op).special s act.entry.process act.entry.depth act.entry.request.now }
{
    match act.request.op {
        Op::Crtup | Op::Modup | Op::Desup => Special::PROFILE,
        _ => Special(0),
    }
}

/// The first of its conditions and limits that fails.
#[tactic(auto, unfolding(s38_rules::specs::families::Profiles::profiles_row))]
pub fn conditions(world: &Core<Objects, Profiles>, act: Act<'_>) -> Option<Exception>
    ensures { result ≡ (profiles_row act.entry.request.now.op).fails world.now act.entry.process act.entry.depth act.entry.request.now }
{
    let operands = act.request.operands.as_slice();
    match act.request.op {
        Op::Crtup => crtup_fails(world, act.process, operands),
        Op::Modup => modup_fails(&world.objects, operands),
        Op::Desup => desup_fails(world, operands),
        _ => None,
    }
}

/// The value for its receiver.
#[tactic(auto, unfolding(s38_rules::specs::families::Profiles::profiles_row))]
pub fn value(
    alloc: Global,
    world: &Core<Objects, Profiles>,
    act: Act<'_>,
) -> Result<Option<Val>, NoMemory>
    ensures { IfOk result (λ value. value ≡ (profiles_row act.entry.request.now.op).gives world.now act.entry.process act.entry.depth act.entry.request.now) }
{
    let operands = act.request.operands.as_slice();
    match act.request.op {
        Op::Crtup => Ok(Some(creation_gives(
            &world.objects,
            &new_profile(&world.objects, operands),
        ))),
        _ => Ok(None),
    }
}

/// What it changes, where it doesn't fail; where memory is refused nothing changes.
#[tactic(auto, unfolding(s38_rules::specs::families::Profiles::profiles_row))]
pub fn apply(
    alloc: Global,
    world: &mut Core<Objects, Profiles>,
    act: Act<'_>,
) -> Result<(), NoMemory>
    requires { (profiles_row act.request.now.op).fails world.old act.process act.depth act.request.now ≡ None }
    ensures ok { OnOk result (world.new ≡ done world.old act.entry.process ((profiles_row act.entry.request.now.op).changes world.old act.entry.process act.entry.depth act.entry.request.now)) }
    ensures err { OnErr result (world.new ≡ world.old) }
{
    let operands = act.request.operands.as_slice();
    match act.request.op {
        Op::Crtup => crtup(alloc, world, act.process, operands),
        Op::Modup => {
            modup(world, operands);
            Ok(())
        }
        Op::Desup => {
            destroy(world, Kind::Profile, operands);
            Ok(())
        }
        _ => Ok(()),
    }
}
