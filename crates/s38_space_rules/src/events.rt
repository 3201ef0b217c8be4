//! What must persist of a permitted event, by the families of instructions.
ghost use Rattle.std.specs.Prelude.{◌≡◌};
ghost use Rattle.s38_rules.specs.families.Contexts.{contexts_row};
ghost use Rattle.s38_rules.specs.families.DataSpaces.{data_spaces_row};
ghost use Rattle.s38_rules.specs.store.Forcing.{forced_by, must_persist};
ghost use Rattle.s38_rules.specs.families.Grants.{grants_row};
ghost use Rattle.s38_rules.specs.families.Indexes.{indexes_row};
ghost use Rattle.s38_rules.specs.families.Journals.{journals_row};
ghost use Rattle.s38_rules.specs.families.Profiles.{profiles_row};
ghost use Rattle.s38_rules.specs.families.Programs.{programs_row};
ghost use Rattle.s38_rules.specs.families.Queues.{queues_row};
ghost use Rattle.s38_rules.specs.families.Rows.{row};
ghost use Rattle.s38_rules.specs.families.Spaces.{spaces_row};

use crate::logging::{changed, deletion, insertion, update};
use crate::words::{
    committed, ensured, followed, journaled, made, made_program, number_at, removed,
};
use s38_base::{Kind, Op};
use s38_code::{Event, Family, family_of};
use s38_invoke::{Core, Profiles};
use s38_objects::Objects;
use s38_operands::Act;
use s38_space_map::Forcings;

/// What an instruction of contexts forces.
#[tactic(auto, unfolding(s38_rules::specs::families::Contexts::contexts_row))]
fn contexts(world: &Core<Objects, Profiles>, act: Act<'_>) -> Forcings
    ensures { result ≡ forced_by world.now act.entry.process ((contexts_row act.entry.request.now.op).changes world.now act.entry.process act.entry.depth act.entry.request.now) }
{
    let objects = &world.objects;
    match act.request.op {
        Op::Crtctx => made(world, act, 2, false),
        Op::Desctx => removed(objects, Kind::Context, number_at(world, act, 1)),
        Op::Modadr | Op::Rename => followed(objects, number_at(world, act, 1)),
        _ => Forcings::none(),
    }
}

/// What an instruction of profiles forces.
#[tactic(auto, unfolding(s38_rules::specs::families::Profiles::profiles_row))]
fn profiles(world: &Core<Objects, Profiles>, act: Act<'_>) -> Forcings
    ensures { result ≡ forced_by world.now act.entry.process ((profiles_row act.entry.request.now.op).changes world.now act.entry.process act.entry.depth act.entry.request.now) }
{
    let objects = &world.objects;
    match act.request.op {
        Op::Crtup => made(world, act, 2, true),
        Op::Desup => removed(objects, Kind::Profile, number_at(world, act, 1)),
        Op::Modup => followed(objects, number_at(world, act, 1)),
        _ => Forcings::none(),
    }
}

/// What an instruction of authority forces.
#[tactic(auto, unfolding(s38_rules::specs::families::Grants::grants_row))]
fn grants(world: &Core<Objects, Profiles>, act: Act<'_>) -> Forcings
    ensures { result ≡ forced_by world.now act.entry.process ((grants_row act.entry.request.now.op).changes world.now act.entry.process act.entry.depth act.entry.request.now) }
{
    let objects = &world.objects;
    match act.request.op {
        Op::Grant | Op::Retract | Op::Xfro => followed(objects, number_at(world, act, 1)),
        _ => Forcings::none(),
    }
}

/// What an instruction of programs forces.
#[tactic(auto, unfolding(s38_rules::specs::families::Programs::programs_row))]
fn programs(world: &Core<Objects, Profiles>, act: Act<'_>) -> Forcings
    ensures { result ≡ forced_by world.now act.entry.process ((programs_row act.entry.request.now.op).changes world.now act.entry.process act.entry.depth act.entry.request.now) }
{
    let objects = &world.objects;
    match act.request.op {
        Op::Crtpg => made_program(world, act),
        Op::Despg => removed(objects, Kind::Program, number_at(world, act, 1)),
        _ => Forcings::none(),
    }
}

/// What an instruction of spaces forces.
#[tactic(auto, unfolding(s38_rules::specs::families::Spaces::spaces_row))]
fn spaces(world: &Core<Objects, Profiles>, act: Act<'_>) -> Forcings
    ensures { result ≡ forced_by world.now act.entry.process ((spaces_row act.entry.request.now.op).changes world.now act.entry.process act.entry.depth act.entry.request.now) }
{
    let objects = &world.objects;
    match act.request.op {
        Op::Crts => made(world, act, 3, false),
        Op::Dess => removed(objects, Kind::Space, number_at(world, act, 1)),
        _ => Forcings::none(),
    }
}

/// What an instruction of queues forces.
#[tactic(auto, unfolding(s38_rules::specs::families::Queues::queues_row))]
fn queues(world: &Core<Objects, Profiles>, act: Act<'_>) -> Forcings
    ensures { result ≡ forced_by world.now act.entry.process ((queues_row act.entry.request.now.op).changes world.now act.entry.process act.entry.depth act.entry.request.now) }
{
    let objects = &world.objects;
    match act.request.op {
        Op::Crtq => made(world, act, 3, false),
        Op::Desq => removed(objects, Kind::Queue, number_at(world, act, 1)),
        _ => Forcings::none(),
    }
}

/// What an instruction of indexes forces.
#[tactic(auto, unfolding(s38_rules::specs::families::Indexes::indexes_row))]
fn indexes(world: &Core<Objects, Profiles>, act: Act<'_>) -> Forcings
    ensures { result ≡ forced_by world.now act.entry.process ((indexes_row act.entry.request.now.op).changes world.now act.entry.process act.entry.depth act.entry.request.now) }
{
    let objects = &world.objects;
    match act.request.op {
        Op::Crtinx => made(world, act, 3, false),
        Op::Desinx => removed(objects, Kind::Index, number_at(world, act, 1)),
        _ => Forcings::none(),
    }
}

/// What an instruction of data spaces and cursors forces.
#[tactic(auto, unfolding(s38_rules::specs::families::DataSpaces::data_spaces_row))]
fn data_spaces(world: &Core<Objects, Profiles>, act: Act<'_>) -> Forcings
    ensures { result ≡ forced_by world.now act.entry.process ((data_spaces_row act.entry.request.now.op).changes world.now act.entry.process act.entry.depth act.entry.request.now) }
{
    let objects = &world.objects;
    match act.request.op {
        Op::Crtds => made(world, act, 3, false),
        Op::Crtcr => made(world, act, 3, false),
        Op::Desds => removed(objects, Kind::DataSpace, number_at(world, act, 1)),
        Op::Descr => removed(objects, Kind::Cursor, number_at(world, act, 1)),
        Op::Insdsen => changed(world, insertion(world, act)),
        Op::Updsen => changed(world, update(world, act)),
        Op::Deldsen => changed(world, deletion(world, act)),
        _ => Forcings::none(),
    }
}

/// What an instruction of journals and units forces.
#[tactic(auto, unfolding(s38_rules::specs::families::Journals::journals_row))]
fn journals(world: &Core<Objects, Profiles>, act: Act<'_>) -> Forcings
    ensures { result ≡ forced_by world.now act.entry.process ((journals_row act.entry.request.now.op).changes world.now act.entry.process act.entry.depth act.entry.request.now) }
{
    let objects = &world.objects;
    match act.request.op {
        Op::Crtjs => made(world, act, 3, false),
        Op::Crtjp => made(world, act, 3, false),
        Op::Crtcb => made(world, act, 3, false),
        Op::Desjs => removed(objects, Kind::Journal, number_at(world, act, 1)),
        Op::Desjp => removed(objects, Kind::Port, number_at(world, act, 1)),
        Op::Descb => removed(objects, Kind::Block, number_at(world, act, 1)),
        Op::Jrnlobj => journaled(world, number_at(world, act, 1), number_at(world, act, 2)),
        Op::Commit => committed(world, number_at(world, act, 1)),
        Op::Ensobj => ensured(world, number_at(world, act, 1)),
        _ => Forcings::none(),
    }
}

/// What an instruction forces.
#[tactic(auto, unfolding(s38_rules::specs::families::Rows::row_in))]
fn act_forces(world: &Core<Objects, Profiles>, act: Act<'_>) -> Forcings
    ensures { result ≡ forced_by world.now act.entry.process ((row act.entry.request.now.op).changes world.now act.entry.process act.entry.depth act.entry.request.now) }
{
    match family_of(act.request.op) {
        Family::Contexts => contexts(world, act),
        Family::Profiles => profiles(world, act),
        Family::Grants => grants(world, act),
        Family::Programs => programs(world, act),
        Family::Spaces => spaces(world, act),
        Family::Queues => queues(world, act),
        Family::Indexes => indexes(world, act),
        Family::DataSpaces => data_spaces(world, act),
        Family::Journals => journals(world, act),
        Family::Computing => Forcings::none(),
        Family::Branching => Forcings::none(),
        Family::Resolving => Forcings::none(),
        Family::Locks => Forcings::none(),
    }
}

/// What must persist of a permitted event. A start and an end force nothing.
#[tactic(auto, unfolding(s38_rules::specs::store::Forcing::must_persist))]
pub fn forced(world: &Core<Objects, Profiles>, process: u32, event: &Event) -> Forcings
    ensures { result ≡ must_persist world.now process event.now }
{
    match event {
        Event::Act { depth, request } => {
            let act = Act {
                process,
                depth: *depth,
                request,
            };
            act_forces(world, act)
        }
        _ => Forcings::none(),
    }
}
