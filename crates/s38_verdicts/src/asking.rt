//! What becomes of an event that is asked in earnest: the rules as they are, where the rights that an instruction needs are
//! found by the place of its process.
ghost use Rattle.std.specs.Prelude.{◌≡◌, ◌≤◌, length};
ghost use Rattle.s38_base.specs.Pointers.{carried_in};
ghost use Rattle.s38_base.specs.Signals.{first};
ghost use Rattle.s38_verdicts.specs.Resolved.{Each, IsResolved, needs_of};
ghost use Rattle.s38_verdicts.specs.Anew.{must_persist_by};
ghost use Rattle.s38_verdicts.specs.Fitting.{FitsStore};
ghost use Rattle.s38_rules.specs.ask.Authority.{available, is_governed, lacks_special};
ghost use Rattle.s38_rules.specs.state.Headers.{public_of};
ghost use Rattle.s38_rules.specs.state.Held.{object};
ghost use Rattle.s38_rules.specs.ask.Needs.{first_of};
ghost use Rattle.s38_rules.specs.families.Rows.{row};
ghost use Rattle.s38_rules.specs.ask.Users.{acting};
ghost use Rattle.s38_rules.specs.step.Verdict.{lock_rules, refused_by, refused_with, ruled_verdict};
ghost use Rattle.s38_rules.specs.ask.RightsRules.{granting_rule, rights_rule, rights_rules};
ghost use Rattle.s38_rules.specs.step.Step.{awake_verdict};
ghost use Rattle.s38_verdicts.specs.Asked.{checked_for, checked_on, checks_of, checks_with, depth_of, is_checked, need_checks, needs_check, unless_failed};
ghost use Rattle.s38_rights_cache.specs.Places.{AreChecked, IsSteady};

use crate::addresses::address_rules;
use crate::blocking::lock_rules;
use crate::judged::{Judged, with_room};
use crate::resolved::{Resolved, resolve, resolve_all};
use crate::rights::{granting_rule, public_of};
use crate::rows;
use crate::verdicts::{of_request, start_verdict};
use s38_authority::{available_on, is_governed, lacks_special, missing};
use s38_base::exceptions::OWNERSHIP_REQUIRED;
use s38_base::{Exception, ObjNum, Pointer, Rights, Special};
use s38_code::Event;
use s38_invoke::{Acting, Core, Profiles};
use s38_objects::Objects;
use s38_operands::{Act, fails};
use s38_rights_cache::World;
use s38_rules::{Claim, Need, Verdict};

/// A world over the machine's objects.
type Seen = World<Objects, Profiles>;

/// Whether an acting user owns an object, or has all-object authority.
#[inline(never)]
fn governed(core: &Core<Objects, Profiles>, act: Act<'_>, number: ObjNum) -> bool
    ensures { result ≡ is_governed core.now.held number.0 (acting core.now act.entry.process act.entry.depth) }
{
    let mut users = Acting::nobody();
    core.act(act.process, act.depth, &mut users);
    is_governed(core, users.as_slice(), number)
}

/// The exception of a process of which no acting user has a special authority.
#[inline(never)]
fn special_failure(
    core: &Core<Objects, Profiles>,
    act: Act<'_>,
    special: Special,
) -> Option<Exception>
    ensures { result ≡ lacks_special core.now.held (acting core.now act.entry.process act.entry.depth) special.0 }
{
    let mut users = Acting::nobody();
    core.act(act.process, act.depth, &mut users);
    lacks_special(core, users.as_slice(), special)
}

/// The special authority that an instruction needs of an acting user. Where it needs none, nobody asks who acts.
#[inline(always)]
#[tactic(auto, unfolding(s38_rules::specs::ask::Authority::lacks_special))]
fn special_rule(core: &Core<Objects, Profiles>, act: Act<'_>) -> Option<Exception>
    ensures { result ≡ lacks_special core.now.held (acting core.now act.entry.process act.entry.depth) ((row act.entry.request.now.op).special core.now act.entry.process act.entry.depth act.entry.request.now) }
{
    let special = rows::special(core, act);
    if special.0 == 0 {
        return None;
    }
    special_failure(core, act, special)
}

/// The rights that the rows say, for a process that does not live, or of an object that is gone.
#[inline(never)]
fn available_anew(
    core: &Core<Objects, Profiles>,
    act: Act<'_>,
    number: ObjNum,
    carried: Rights,
    public: Option<Rights>,
) -> Rights
    requires { public ≡ public_of (object core.now.held number.0) }
    ensures { result.0 ≡ available core.now.held (acting core.now act.entry.process act.entry.depth) number.0 carried.0 }
{
    let mut users = Acting::nobody();
    core.act(act.process, act.depth, &mut users);
    available_on(core, users.as_slice(), number, carried, public)
}

/// Whether rights on an object, whose rights of everybody are looked up already, are found by the place of the process: it
/// lives, a frame of it is in use, and the object is there.
#[inline(always)]
#[tactic(auto, using(crate::proofs::AskedLaws::there_by))]
fn is_checked(world: &Seen, act: Act<'_>, number: ObjNum, public: Option<Rights>) -> bool
    requires { public ≡ public_of (object world.now.state.held number.0) }
    ensures { result ≡ is_checked world.now.state act.entry.process act.entry.depth number.0 }
{
    let _ = number;
    public.is_some() && act.depth > 0 && world.is_live(act.process)
}

/// The rights that are available to a process on an object, whose rights of everybody are looked up already, with those that
/// the used pointer carries.
#[tactic(auto, using(crate::proofs::AskedLaws::checked_there, crate::proofs::AskedLaws::checked_deep, crate::proofs::AskedLaws::checked_live, crate::proofs::AskedLaws::checked_now, crate::proofs::AskedLaws::unchecked_now, s38_rights_cache::proofs::AskLaws::checked_state))]
fn available_now(
    world: &mut Seen,
    act: Act<'_>,
    number: ObjNum,
    carried: Rights,
    public: Option<Rights>,
) -> Rights
    requires steady { IsSteady world.old }
    requires public { public ≡ public_of (object world.old.state.held number.0) }
    ensures rights { result.0 ≡ available world.old.state.held (acting world.old.state act.entry.process act.entry.depth) number.0 carried.0 }
    ensures checked { AreChecked world.old act.entry.process act.entry.depth (checked_on world.old.state act.entry.process act.entry.depth number) world.new }
    ensures state { world.new.state ≡ world.old.state }
{
    if is_checked(world, act, number, public) {
        return world.available(act.process, act.depth, number, carried);
    }
    available_anew(&world.core, act, number, carried, public)
}

/// Who does not govern an object needs object management and what it gives or takes.
#[tactic(auto, using(crate::proofs::AskedLaws::owner_checks, crate::proofs::AskedLaws::other_checks, s38_rights_cache::proofs::AskLaws::checked_state))]
fn ask_granting(world: &mut Seen, act: Act<'_>, need: &Resolved) -> Option<Exception>
    requires steady { IsSteady world.old }
    requires public { IsResolved world.old.state.held act.request.now.operands need.now }
    ensures rule { result ≡ granting_rule (is_governed world.old.state.held need.now.object.0 (acting world.old.state act.entry.process act.entry.depth)) need.now.need.place need.now.need.rights.0
        (available world.old.state.held (acting world.old.state act.entry.process act.entry.depth) need.now.object.0 (carried_in need.now.pointer)) }
    ensures checked { AreChecked world.old act.entry.process act.entry.depth (checked_for Claim.Granting (is_governed world.old.state.held need.now.object.0 (acting world.old.state act.entry.process act.entry.depth)) (checked_on world.old.state act.entry.process act.entry.depth need.now.object)) world.new }
    ensures state { world.new.state ≡ world.old.state }
{
    if governed(&world.core, act, need.object) {
        return None;
    }
    let there = available_now(
        world,
        act,
        need.object,
        Pointer::carried(need.pointer),
        public_of(need.found),
    );
    granting_rule(false, need.need.place, need.need.rights, there)
}

/// What a need claims is there.
#[tactic(auto, using(crate::proofs::ResolvedLaws::carried_by_pointer, crate::proofs::AskedLaws::need_checked, s38_rights_cache::proofs::AskLaws::checked_none, s38_rights_cache::proofs::AskLaws::checked_state), unfolding(s38_rules::specs::ask::RightsRules::rights_rule))]
fn ask_need(world: &mut Seen, act: Act<'_>, need: &Resolved) -> Option<Exception>
    requires steady { IsSteady world.old }
    requires resolved { IsResolved world.old.state.held act.request.now.operands need.now }
    ensures rule { result ≡ rights_rule world.old.state.held (acting world.old.state act.entry.process act.entry.depth) act.entry.request.now.operands need.now.need }
    ensures checked { AreChecked world.old act.entry.process act.entry.depth (need_checks world.old.state act.entry.process act.entry.depth act.entry.request.now.operands need.now.need) world.new }
    ensures state { world.new.state ≡ world.old.state }
{
    let place = need.need.place;
    match need.need.claim {
        Claim::Available => {
            let carried = Pointer::carried(need.pointer);
            let there = available_now(world, act, need.object, carried, public_of(need.found));
            missing(place, need.need.rights, there)
        }
        Claim::Granting => ask_granting(world, act, need),
        Claim::Ownership => {
            let governs = governed(&world.core, act, need.object);
            fails(!governs, OWNERSHIP_REQUIRED, place)
        }
    }
}

/// The first claim of these that the acting users don't meet.
#[tactic(auto, using(crate::proofs::AskedLaws::each_left, crate::proofs::AskedLaws::first_fails, crate::proofs::AskedLaws::first_met, s38_rights_cache::proofs::AskLaws::checked_none, s38_rights_cache::proofs::AskLaws::checked_state))]
fn ask_needs(world: &mut Seen, act: Act<'_>, needs: &[Resolved]) -> Option<Exception>
    requires steady { IsSteady world.old }
    requires resolved { Each (IsResolved world.old.state.held act.request.now.operands) needs.now }
    ensures rule { result ≡ first_of (rights_rule world.old.state.held (acting world.old.state act.entry.process act.entry.depth) act.entry.request.now.operands) (needs_of needs.now) }
    ensures checked { AreChecked world.old act.entry.process act.entry.depth (needs_check world.old.state act.entry.process act.entry.depth act.entry.request.now.operands (needs_of needs.now)) world.new }
    ensures state { world.new.state ≡ world.old.state }
{
    match needs {
        [] => None,
        [need, more @ ..] => match ask_need(world, act, need) {
            Some(failure) => Some(failure),
            None => ask_needs(world, act, more),
        },
    }
}

/// The special authority, and then the authority over each object, that an instruction needs of the acting users.
#[tactic(auto, using(crate::proofs::AskedLaws::after_failure, crate::proofs::AskedLaws::after_none), unfolding(s38_rules::specs::ask::RightsRules::rights_rules))]
fn ask_authority(world: &mut Seen, act: Act<'_>, needs: &[Resolved]) -> Option<Exception>
    requires steady { IsSteady world.old }
    requires resolved { Each (IsResolved world.old.state.held act.request.now.operands) needs.now }
    ensures rule { result ≡ first (lacks_special world.old.state.held (acting world.old.state act.entry.process act.entry.depth) ((row act.entry.request.now.op).special world.old.state act.entry.process act.entry.depth act.entry.request.now))
        (rights_rules world.old.state act.entry.process act.entry.depth act.entry.request.now.operands (needs_of needs.now)) }
    ensures checked { AreChecked world.old act.entry.process act.entry.depth (unless_failed (lacks_special world.old.state.held (acting world.old.state act.entry.process act.entry.depth) ((row act.entry.request.now.op).special world.old.state act.entry.process act.entry.depth act.entry.request.now))
        (needs_check world.old.state act.entry.process act.entry.depth act.entry.request.now.operands (needs_of needs.now))) world.new }
    ensures state { world.new.state ≡ world.old.state }
{
    match special_rule(&world.core, act) {
        Some(failure) => Some(failure),
        None => ask_needs(world, act, needs),
    }
}

/// The first rule after that of authority that an instruction fails.
fn later_rules(
    core: &Core<Objects, Profiles>,
    act: Act<'_>,
    needs: &[Resolved],
) -> Option<Exception>
    requires { Each (IsResolved core.now.held act.request.now.operands) needs.now }
    ensures { result ≡ first (lock_rules core.now act.entry.process act.entry.request.now (needs_of needs.now)) ((row act.entry.request.now.op).fails core.now act.entry.process act.entry.depth act.entry.request.now) }
{
    if let Some(failure) = lock_rules(core, act.process, act.request, needs) {
        return Some(failure);
    }
    rows::conditions(core, act)
}

/// The first rule that an instruction fails with these needs.
#[tactic(auto, using(crate::proofs::AskedLaws::each_left, crate::proofs::AskedLaws::after_failure, crate::proofs::AskedLaws::after_none))]
fn ask_refused_with(world: &mut Seen, act: Act<'_>, needs: &[Resolved]) -> Option<Exception>
    requires steady { IsSteady world.old }
    requires resolved { Each (IsResolved world.old.state.held act.request.now.operands) needs.now }
    ensures rule { result ≡ refused_with (row act.entry.request.now.op) world.old.state act.entry.process act.entry.depth act.entry.request.now (needs_of needs.now) }
    ensures checked { AreChecked world.old act.entry.process act.entry.depth (checks_with (row act.entry.request.now.op) world.old.state act.entry.process act.entry.depth act.entry.request.now (needs_of needs.now)) world.new }
    ensures state { world.new.state ≡ world.old.state }
{
    let operands = act.request.operands.as_slice();
    if let Some(failure) = address_rules(&world.core.objects, operands, needs) {
        return Some(failure);
    }
    match ask_authority(world, act, needs) {
        Some(failure) => Some(failure),
        None => later_rules(&world.core, act, needs),
    }
}

/// The first rule that an instruction fails with several needs, or with none.
#[inline(never)]
fn ask_refused_with_all(world: &mut Seen, act: Act<'_>, needs: &[Need]) -> Option<Exception>
    requires steady { IsSteady world.old }
    requires few { length needs.now ≤ 3 }
    ensures rule { result ≡ refused_with (row act.entry.request.now.op) world.old.state act.entry.process act.entry.depth act.entry.request.now needs.now }
    ensures checked { AreChecked world.old act.entry.process act.entry.depth (checks_with (row act.entry.request.now.op) world.old.state act.entry.process act.entry.depth act.entry.request.now needs.now) world.new }
    ensures state { world.new.state ≡ world.old.state }
{
    let all = resolve_all(&world.core.objects, act.request.operands.as_slice(), needs);
    ask_refused_with(world, act, all.as_slice())
}

/// The first rule that an instruction fails.
#[tactic(auto, unfolding(s38_rules::specs::step::Verdict::refused_by))]
fn ask_refused_by(world: &mut Seen, act: Act<'_>) -> Option<Exception>
    requires steady { IsSteady world.old }
    ensures rule { result ≡ refused_by (row act.entry.request.now.op) world.old.state act.entry.process act.entry.depth act.entry.request.now }
    ensures checked { AreChecked world.old act.entry.process act.entry.depth (checks_with (row act.entry.request.now.op) world.old.state act.entry.process act.entry.depth act.entry.request.now ((row act.entry.request.now.op).needs world.old.state act.entry.process act.entry.depth act.entry.request.now)) world.new }
    ensures state { world.new.state ≡ world.old.state }
{
    let needs = rows::needs(&world.core, act);
    match needs.as_slice() {
        [need] => {
            let sole = resolve(&world.core.objects, act.request.operands.as_slice(), need);
            ask_refused_with(world, act, &[sole])
        }
        more => ask_refused_with_all(world, act, more),
    }
}

/// What the rules make of an event of a process that doesn't wait.
#[tactic(auto, using(s38_rights_cache::proofs::AskLaws::checked_none), unfolding(s38_rules::specs::step::Verdict::ruled_verdict, crate::specs::Asked::checks_of))]
fn ask_ruled(world: &mut Seen, process: u32, event: &Event) -> Verdict
    requires steady { IsSteady world.old }
    ensures verdict { result ≡ ruled_verdict world.old.state process event.now }
    ensures checked { AreChecked world.old process (depth_of event.now) (checks_of world.old.state process event.now) world.new }
    ensures state { world.new.state ≡ world.old.state }
{
    match event {
        Event::Start => start_verdict(&world.core, process, world.core.process_entry(process)),
        Event::Act { depth, request } => {
            let act = Act {
                process,
                depth: *depth,
                request,
            };
            let failure = ask_refused_by(world, act);
            of_request(&world.core, process, request, failure)
        }
        Event::Finish { .. } => Verdict::Permit,
    }
}

/// What becomes of an event of a process that doesn't wait: what the rules make of it, and where they permit it, whether the
/// store has room for what it keeps; and what of it must persist. What is found of its rights goes into the process's
/// place.
#[tactic(auto, unfolding(s38_rules::specs::step::Step::awake_verdict))]
pub fn ask_verdict(world: &mut Seen, process: u32, event: &Event) -> Judged
    requires steady { IsSteady world.old }
    requires fits { FitsStore world.old.state }
    ensures verdict { result.verdict ≡ awake_verdict world.old.state process event.now }
    ensures anew { result.anew ≡ must_persist_by world.old.state process event.now result.verdict }
    ensures checked { AreChecked world.old process (depth_of event.now) (checks_of world.old.state process event.now) world.new }
    ensures state { world.new.state ≡ world.old.state }
{
    let ruled = ask_ruled(world, process, event);
    with_room(&world.core, process, event, ruled)
}
