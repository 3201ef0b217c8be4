//! What becomes of an event: the first rule that fails.
ghost use Rattle.std.specs.Prelude.{◌≡◌, ◌≤◌, length, map};
ghost use Rattle.std.specs.Option.{option_copied};
ghost use Rattle.s38_base.specs.Signals.{first};
ghost use Rattle.s38_verdicts.specs.Resolved.{Each, IsResolved, needs_of};
ghost use Rattle.s38_verdicts.specs.Fitting.{FitsStore};
ghost use Rattle.s38_rules.specs.ask.Authority.{lacks_special};
ghost use Rattle.s38_rules.specs.ask.Needs.{first_of};
ghost use Rattle.s38_rules.specs.families.Rows.{row};
ghost use Rattle.s38_rules.specs.ask.Users.{acting};
ghost use Rattle.s38_rules.specs.step.Verdict.{may_wait, of_failure, of_request, refused_by, refused_with, ruled_verdict, says_wait, start_verdict, unless_last};
ghost use Rattle.s38_rules.specs.ask.RightsRules.{rights_rule, rights_rules};
ghost use Rattle.s38_rules.specs.step.Step.{awake_verdict, verdict_of};

use crate::addresses::address_rules;
use crate::blocking::lock_rules;
use crate::judged::with_room;
use crate::resolved::{Resolved, resolve, resolve_all};
use crate::rights::first_unmet;
use crate::rows;
use s38_authority::lacks_special;
use s38_base::exceptions::{ALL_WAIT, LOCK_NOT_GRANTABLE, NO_MESSAGE};
use s38_base::{Exception, Op, Special, UserNum};
use s38_code::{Event, Operand, Request};
use s38_invoke::{Acting, Core, Profiles, start_failure};
use s38_objects::Objects;
use s38_operands::{Act, word_at};
use s38_rules::{Need, ProcessEntry, Verdict};

/// The special authority, and then the authority over each object, that an instruction needs of these users.
fn authority_of(
    world: &Core<Objects, Profiles>,
    users: &[UserNum],
    special: Special,
    operands: &[Operand],
    needs: &[Resolved],
) -> Option<Exception>
    requires { Each (IsResolved world.now.held operands.now) needs.now }
    ensures { result ≡ first (lacks_special world.now.held (map (λ u. u.0) users.now) special.0)
        (first_of (rights_rule world.now.held (map (λ u. u.0) users.now) operands.now) (needs_of needs.now)) }
{
    if let Some(failure) = lacks_special(world, users, special) {
        return Some(failure);
    }
    first_unmet(world, users, operands, needs)
}

/// What an instruction needs of the acting users of a process, if there may be several.
#[inline(never)]
fn authority_of_all(
    world: &Core<Objects, Profiles>,
    act: Act<'_>,
    special: Special,
    needs: &[Resolved],
) -> Option<Exception>
    requires { Each (IsResolved world.now.held act.request.now.operands) needs.now }
    ensures { result ≡ first (lacks_special world.now.held (acting world.now act.entry.process act.entry.depth) special.0)
        (first_of (rights_rule world.now.held (acting world.now act.entry.process act.entry.depth) act.entry.request.now.operands) (needs_of needs.now)) }
{
    let mut users = Acting::nobody();
    world.act(act.process, act.depth, &mut users);
    authority_of(
        world,
        users.as_slice(),
        special,
        act.request.operands.as_slice(),
        needs,
    )
}

/// The special authority, and then the authority over each object, that an instruction needs of the acting users.
#[tactic(auto, unfolding(s38_rules::specs::ask::RightsRules::rights_rules))]
fn authority_rules(
    world: &Core<Objects, Profiles>,
    act: Act<'_>,
    needs: &[Resolved],
) -> Option<Exception>
    requires { Each (IsResolved world.now.held act.request.now.operands) needs.now }
    ensures { result ≡ first (lacks_special world.now.held (acting world.now act.entry.process act.entry.depth) ((row act.entry.request.now.op).special world.now act.entry.process act.entry.depth act.entry.request.now))
        (rights_rules world.now act.entry.process act.entry.depth act.entry.request.now.operands (needs_of needs.now)) }
{
    let special = rows::special(world, act);
    match world.sole_user(act.process, act.depth) {
        Some(user) => authority_of(
            world,
            &[user],
            special,
            act.request.operands.as_slice(),
            needs,
        ),
        None => authority_of_all(world, act, special, needs),
    }
}

/// The first rule that an instruction fails with these needs: address rules, then a special authority, then authority
/// over objects, then locks, then its conditions and limits.
#[inline(always)]
fn refused_with(
    world: &Core<Objects, Profiles>,
    act: Act<'_>,
    needs: &[Resolved],
) -> Option<Exception>
    requires { Each (IsResolved world.now.held act.request.now.operands) needs.now }
    ensures { result ≡ refused_with (row act.entry.request.now.op) world.now act.entry.process act.entry.depth act.entry.request.now (needs_of needs.now) }
{
    if let Some(failure) = address_rules(&world.objects, act.request.operands.as_slice(), needs) {
        return Some(failure);
    }
    if let Some(failure) = authority_rules(world, act, needs) {
        return Some(failure);
    }
    if let Some(failure) = lock_rules(world, act.process, act.request, needs) {
        return Some(failure);
    }
    rows::conditions(world, act)
}

/// The first rule that an instruction fails with several needs, or with none.
#[inline(never)]
fn refused_with_all(
    world: &Core<Objects, Profiles>,
    act: Act<'_>,
    needs: &[Need],
) -> Option<Exception>
    requires { length needs.now ≤ 3 }
    ensures { result ≡ refused_with (row act.entry.request.now.op) world.now act.entry.process act.entry.depth act.entry.request.now needs.now }
{
    let all = resolve_all(&world.objects, act.request.operands.as_slice(), needs);
    refused_with(world, act, all.as_slice())
}

/// The first rule that an instruction fails. Each of its needs is resolved once, and all rules go over that.
#[tactic(auto, unfolding(s38_rules::specs::step::Verdict::refused_by))]
fn refused_by(world: &Core<Objects, Profiles>, act: Act<'_>) -> Option<Exception>
    ensures { result ≡ refused_by (row act.entry.request.now.op) world.now act.entry.process act.entry.depth act.entry.request.now }
{
    let needs = rows::needs(world, act);
    match needs.as_slice() {
        [need] => {
            let sole = resolve(&world.objects, act.request.operands.as_slice(), need);
            refused_with(world, act, &[sole])
        }
        more => refused_with_all(world, act, more),
    }
}

fn of_failure(failure: Option<Exception>) -> Verdict
    ensures { result ≡ of_failure failure }
{
    match failure {
        None => Verdict::Permit,
        Some(exception) => Verdict::Refuse(exception),
    }
}

/// The operand is WAIT.
fn says_wait(operands: &[Operand], k: usize) -> bool
    ensures { result ≡ says_wait operands.now k }
{
    word_at(operands, k) == 1
}

/// A lock that is not granted, and a message that is not there, may be waited for.
#[tactic(auto, unfolding(s38_rules::specs::step::Verdict::may_wait))]
fn may_wait(op: Op, operands: &[Operand], id: u16) -> bool
    ensures { result ≡ may_wait op operands.now id }
{
    match op {
        Op::Lock => id == LOCK_NOT_GRANTABLE && says_wait(operands, 3),
        Op::Deq => id == NO_MESSAGE && says_wait(operands, 5),
        _ => false,
    }
}

/// The last process that is ready doesn't wait: nobody could wake it.
fn unless_last(is_last: bool) -> Verdict
    ensures { result ≡ unless_last is_last }
{
    if is_last {
        Verdict::Refuse(Exception::plain(ALL_WAIT, 0))
    } else {
        Verdict::Wait
    }
}

/// What becomes of a request that fails so.
#[tactic(auto, unfolding(s38_rules::specs::step::Verdict::of_request))]
pub fn of_request(
    world: &Core<Objects, Profiles>,
    process: u32,
    request: &Request,
    failure: Option<Exception>,
) -> Verdict
    ensures { result ≡ of_request world.now process request.now failure }
{
    match failure {
        None => Verdict::Permit,
        Some(exception) => {
            if may_wait(request.op, request.operands.as_slice(), exception.id) {
                unless_last(world.is_last_ready(process))
            } else {
                Verdict::Refuse(exception)
            }
        }
    }
}

pub fn start_verdict(
    world: &Core<Objects, Profiles>,
    process: u32,
    entry: Option<&ProcessEntry>,
) -> Verdict
    ensures { result ≡ start_verdict world.now process (option_copied entry.entry) }
{
    match entry {
        None => Verdict::Permit,
        Some(x) => {
            if world.is_early(x.job.stage) {
                return Verdict::Wait;
            }
            of_failure(start_failure(&world.objects, &x.job))
        }
    }
}

/// What the rules make of an event of a process that doesn't wait: a start waits for the earlier stages; an instruction
/// is refused by the first rule that fails, or waits; an end never.
#[tactic(auto, unfolding(s38_rules::specs::step::Verdict::ruled_verdict))]
fn ruled_verdict(world: &Core<Objects, Profiles>, process: u32, event: &Event) -> Verdict
    ensures { result ≡ ruled_verdict world.now process event.now }
{
    match event {
        Event::Start => start_verdict(world, process, world.process_entry(process)),
        Event::Act { depth, request } => {
            let act = Act {
                process,
                depth: *depth,
                request,
            };
            of_request(world, process, request, refused_by(world, act))
        }
        Event::Finish { .. } => Verdict::Permit,
    }
}

/// What becomes of an event of a process that doesn't wait: what the rules make of it, and where they permit it, whether the
/// store has room for what it keeps.
#[tactic(auto, unfolding(s38_rules::specs::step::Step::awake_verdict))]
pub fn awake_verdict(world: &Core<Objects, Profiles>, process: u32, event: &Event) -> Verdict
    requires { FitsStore world.now }
    ensures { result ≡ awake_verdict world.now process event.now }
{
    let ruled = ruled_verdict(world, process, event);
    with_room(world, process, event, ruled).verdict
}

/// What becomes of an event; a process that waits goes on waiting.
#[tactic(auto, unfolding(s38_rules::specs::step::Step::verdict_of))]
pub fn verdict_of(world: &Core<Objects, Profiles>, process: u32, event: &Event) -> Verdict
    requires { FitsStore world.now }
    ensures { result ≡ verdict_of world.now process event.now }
{
    if world.waits(process) {
        Verdict::Wait
    } else {
        awake_verdict(world, process, event)
    }
}
