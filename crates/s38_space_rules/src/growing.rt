//! How many new parts an event needs, by the families of instructions.
ghost use Rattle.std.specs.Prelude.{◌≡◌, ◌≤◌, All, Some, is_some, if◌then◌else◌};
ghost use Rattle.s38_base.specs.declared.id.Kind.{Kind as KindSaid};
ghost use Rattle.s38_rules.specs.families.Creation.{of_kind};
ghost use Rattle.s38_rules.specs.families.DataSpaces.{data_spaces_row};
ghost use Rattle.s38_rules.specs.step.Effect.{effect_of};
ghost use Rattle.s38_rules.specs.store.Forcing.{must_persist, new_parts, room_rule, store_rule};
ghost use Rattle.s38_rules.specs.families.Grants.{grants_row};
ghost use Rattle.s38_rules.specs.families.Journals.{journals_row};
ghost use Rattle.s38_rules.specs.ask.Operands.{id_at};
ghost use Rattle.s38_rules.specs.families.Profiles.{profiles_row};
ghost use Rattle.s38_rules.specs.families.Rows.{row};
ghost use Rattle.s38_rules.specs.store.Storable.{IsStorable};
ghost use Rattle.s38_objects.specs.Lawful.{IsObjectMap};
ghost use Rattle.s38_space_rules.specs.Following.{Fits};
ghost use Rattle.s38_space_rules.specs.Growing.{growth};

use crate::growth::{commit_growth, ensured, entered_growth, journaled};
use crate::logging::{deletion, insertion, update};
use crate::row_growth::{grant_growth, retract_growth, transfer_growth};
use crate::words::{is_named, number_at};
use s38_base::exceptions::STORE_FULL;
use s38_base::{Exception, Op, Rule};
use s38_code::{Event, Family, family_of};
use s38_invoke::{Core, Profiles};
use s38_objects::Objects;
use s38_operands::Act;
use s38_space_map::{Forcings, Room};

/// The parts of a new user: a header, a page of rows and a page of its body.
const USER_PARTS: u32 = 3;

/// What a new user needs, where its identification is operand 2.
fn user_growth(act: Act<'_>) -> u32
    ensures parts { (kind : KindSaid) → result ≡ (if is_some (of_kind kind (id_at act.entry.request.now.operands 2)) then 3 else 0) }
    ensures bound { result ≤ 3 }
{
    if is_named(act, 2) { USER_PARTS } else { 0 }
}

/// What an instruction of profiles needs.
#[tactic(auto, unfolding(s38_rules::specs::families::Profiles::profiles_row))]
fn profiles(room: &Room, world: &Core<Objects, Profiles>, act: Act<'_>) -> u32
    ensures parts { result ≡ growth room.now.room world.now act.entry.process ((profiles_row act.entry.request.now.op).changes world.now act.entry.process act.entry.depth act.entry.request.now) }
    ensures bound { result ≤ 80000 }
{
    match act.request.op {
        Op::Crtup => user_growth(act),
        _ => 0,
    }
}

/// What an instruction of authority needs.
#[tactic(auto, unfolding(s38_rules::specs::families::Grants::grants_row))]
fn grants(room: &Room, world: &Core<Objects, Profiles>, act: Act<'_>) -> u32
    requires { All IsStorable world.now.held.objects }
    ensures parts { result ≡ growth room.now.room world.now act.entry.process ((grants_row act.entry.request.now.op).changes world.now act.entry.process act.entry.depth act.entry.request.now) }
    ensures bound { result ≤ 80000 }
{
    match act.request.op {
        Op::Grant => grant_growth(world, act),
        Op::Retract => retract_growth(world, act),
        Op::Xfro => transfer_growth(world, act),
        _ => 0,
    }
}

/// What an instruction of data spaces needs.
#[tactic(auto, unfolding(s38_rules::specs::families::DataSpaces::data_spaces_row))]
fn data_spaces(room: &Room, world: &Core<Objects, Profiles>, act: Act<'_>) -> u32
    requires { All IsStorable world.now.held.objects }
    ensures parts { result ≡ growth room.now.room world.now act.entry.process ((data_spaces_row act.entry.request.now.op).changes world.now act.entry.process act.entry.depth act.entry.request.now) }
    ensures bound { result ≤ 80000 }
{
    match act.request.op {
        Op::Insdsen => entered_growth(room, world, insertion(world, act)),
        Op::Updsen => entered_growth(room, world, update(world, act)),
        Op::Deldsen => entered_growth(room, world, deletion(world, act)),
        _ => 0,
    }
}

/// What an instruction of journals and units needs.
#[tactic(auto, unfolding(s38_rules::specs::families::Journals::journals_row))]
fn journals(room: &Room, world: &Core<Objects, Profiles>, act: Act<'_>) -> u32
    requires { All IsStorable world.now.held.objects }
    ensures parts { result ≡ growth room.now.room world.now act.entry.process ((journals_row act.entry.request.now.op).changes world.now act.entry.process act.entry.depth act.entry.request.now) }
    ensures bound { result ≤ 80000 }
{
    let number = number_at(world, act, 1);
    match act.request.op {
        Op::Jrnlobj => journaled(room, world, number, number_at(world, act, 2)),
        Op::Commit => commit_growth(room, world, number),
        Op::Ensobj => ensured(room, world, number),
        _ => 0,
    }
}

/// What an instruction needs.
#[tactic(auto, unfolding(s38_rules::specs::families::Rows::row_in))]
fn act_growth(room: &Room, world: &Core<Objects, Profiles>, act: Act<'_>) -> u32
    requires { All IsStorable world.now.held.objects }
    ensures parts { result ≡ growth room.now.room world.now act.entry.process ((row act.entry.request.now.op).changes world.now act.entry.process act.entry.depth act.entry.request.now) }
    ensures bound { result ≤ 80000 }
{
    match family_of(act.request.op) {
        Family::Profiles => profiles(room, world, act),
        Family::Grants => grants(room, world, act),
        Family::DataSpaces => data_spaces(room, world, act),
        Family::Journals => journals(room, world, act),
        Family::Computing => 0,
        Family::Branching => 0,
        Family::Resolving => 0,
        Family::Contexts => 0,
        Family::Programs => 0,
        Family::Locks => 0,
        Family::Spaces => 0,
        Family::Queues => 0,
        Family::Indexes => 0,
    }
}

/// The numbers of objects rise and were given.
fn lawful(world: &Core<Objects, Profiles>)
    ensures { IsObjectMap world.now.held }
{
    let _count = world.objects.len();
}

/// How many new parts a permitted event needs, said before it takes effect, where the room fits the objects. It takes time
/// that grows with the number of objects that the store keeps.
pub fn new_parts(room: &Room, world: &Core<Objects, Profiles>, process: u32, event: &Event) -> u32
    requires fits { Fits room.now.room.extents world.now.held }
    requires storable { All IsStorable world.now.held.objects }
    ensures parts { result ≡ new_parts room.now.room (must_persist world.now process event.now) (effect_of world.now process event.now).state.held.objects }
    ensures bound { result ≤ 80000 }
{
    lawful(world);
    match event {
        Event::Start => 0,
        Event::Act { depth, request } => {
            let act = Act {
                process,
                depth: *depth,
                request,
            };
            act_growth(room, world, act)
        }
        Event::Finish { .. } => 0,
    }
}

/// A step needs no more new parts than are free.
fn room_rule(room: &Room, needed: u32) -> Option<Exception>
    ensures { result ≡ room_rule room.now.room needed }
{
    let free = room.free();
    if free < needed {
        let rule = Rule::StoreFull { needed, free };
        return Some(Exception {
            id: STORE_FULL,
            operand: 0,
            rule,
        });
    }
    None
}

/// The exception of a step of which this must persist, where that needs more new parts than are free, and the room
/// fits the objects. A step of which nothing must persist needs no room.
pub fn room_failure(
    room: &Room,
    world: &Core<Objects, Profiles>,
    process: u32,
    event: &Event,
    all: &Forcings,
) -> Option<Exception>
    requires fits { Fits room.now.room.extents world.now.held }
    requires storable { All IsStorable world.now.held.objects }
    requires anew { all.now ≡ must_persist world.now process event.now }
    ensures { result ≡ store_rule (Some room.now.room) (must_persist world.now process event.now) (effect_of world.now process event.now).state.held.objects }
{
    if all.is_empty() {
        return None;
    }
    room_rule(room, new_parts(room, world, process, event))
}
