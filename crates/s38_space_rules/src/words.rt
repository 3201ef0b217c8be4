//! What must persist of each kind of change.
ghost use Rattle.std.specs.Prelude.{◌≡◌, ◌&&◌, ◌∷◌, ℕ, Option, Some, find, is_some};
ghost use Rattle.std.specs.Option.{option_copied, option_map};
ghost use Rattle.s38_base.specs.declared.id.Kind.{Kind as KindSaid};
ghost use Rattle.s38_commits.specs.Units.{unit_of};
ghost use Rattle.s38_rules.specs.declared.creating.Creating.{Creating};
ghost use Rattle.s38_rules.specs.declared.object.Body.{Body};
ghost use Rattle.s38_rules.specs.ask.Authority.{is_profile};
ghost use Rattle.s38_rules.specs.families.Changes.{made_by, through_port};
ghost use Rattle.s38_rules.specs.state.Parts.{data_part, part_at};
ghost use Rattle.s38_rules.specs.state.PartsAt.{on_data};
ghost use Rattle.s38_rules.specs.families.Programs.{program_in, template_at, template_in, template_is_named as is_template};
ghost use Rattle.s38_rules.specs.ask.Operands.{id_at, target};
ghost use Rattle.s38_rules.specs.families.Creation.{is_of_kind, of_kind};
ghost use Rattle.s38_rules.specs.store.Forcing.{Whole, commit_forces, creation_forces, followed, forced_removal, whole_if};
ghost use Rattle.s38_rules.specs.state.Held.{disk_in, is_on_disk, object as object_at};
ghost use Rattle.s38_rules.specs.state.Journaling.{journal_for};
ghost use Rattle.s38_space_rules.specs.Creating.{is_user_in, made_forces};

use s38_base::{Kind, Name, ObjNum};
use s38_code::{CheckedTemplate, CreateResult, Operand};
use s38_invoke::{Core, Profiles};
use s38_objects::{Objects, kind_of};
use s38_operands::{Act, id_at, place, target};
use s38_rules::Object;
use s38_space_map::{Forcing, Forcings};
use s38_units::{journal_for, journal_for_block, journal_of_port};

/// The number that an operand names.
pub fn number_at(world: &Core<Objects, Profiles>, act: Act<'_>, k: usize) -> ObjNum
    ensures { result.0 ≡ target world.now.held act.entry.request.now.operands k }
{
    target(&world.objects, act.request.operands.as_slice(), k)
}

fn is_kept(object: Option<&Object>) -> bool
    ensures { result ≡ disk_in (option_copied object.entry) }
{
    match object {
        None => false,
        Some(object) => object.on_disk,
    }
}

/// The number is one of those on disk.
pub fn is_on_disk(objects: &Objects, number: ObjNum) -> bool
    ensures { result ≡ is_on_disk objects.now number.0 }
{
    is_kept(objects.get(number))
}

/// What is said of an object on disk follows.
pub fn followed(objects: &Objects, number: ObjNum) -> Forcings
    ensures { result ≡ followed objects.now number.0 }
{
    if is_on_disk(objects, number) {
        Forcings::one(Forcing::Header(number))
    } else {
        Forcings::none()
    }
}

fn is_of_kind(object: Option<&Object>, kind: Kind) -> bool
    ensures { result ≡ is_of_kind kind (option_copied object.entry) }
{
    match object {
        None => false,
        Some(object) => kind.code() == kind_of(&object.body).code(),
    }
}

/// An object on disk is there no more, where it is of a kind.
pub fn removed(objects: &Objects, kind: Kind, number: ObjNum) -> Forcings
    ensures { result ≡ forced_removal objects.now kind number.0 }
{
    if is_of_kind(objects.get(number), kind) && is_on_disk(objects, number) {
        Forcings::one(Forcing::Removed(number))
    } else {
        Forcings::none()
    }
}

fn whole_if(number: ObjNum, journal: Option<ObjNum>) -> Forcings
    ensures { result ≡ Whole number.0 ∷ whole_if (option_map (λ journal. journal.0) journal) }
{
    match journal {
        None => Forcings::one(Forcing::Whole(number)),
        Some(journal) => Forcings::two(Forcing::Whole(number), Forcing::Whole(journal)),
    }
}

/// All of an object, and with a data space its journal space.
pub fn ensured(world: &Core<Objects, Profiles>, number: ObjNum) -> Forcings
    ensures { result ≡ Whole number.0 ∷ whole_if (journal_for world.now.held number.0) }
{
    whole_if(number, journal_for(&world.objects, number))
}

/// The ceiling where the number of a new object is above it, and a user whole.
fn made_forces(objects: &Objects, is_made: bool, is_user: bool) -> Forcings
    ensures { result ≡ made_forces objects.now is_made is_user }
{
    let number = ObjNum(objects.next_number());
    let is_above = objects.ceiling() < number.0;
    match (is_made, is_above, is_user) {
        (false, _, _) | (true, false, false) => Forcings::none(),
        (true, true, false) => Forcings::one(Forcing::Ceiling),
        (true, false, true) => Forcings::one(Forcing::Whole(number)),
        (true, true, true) => Forcings::two(Forcing::Ceiling, Forcing::Whole(number)),
    }
}

/// What a new object forces, where there is one.
#[tactic(auto, using(crate::proofs::CreationLaws::made_forced, crate::proofs::CreationLaws::next_free))]
pub fn new_object(world: &Core<Objects, Profiles>, is_made: bool, is_user: bool) -> Forcings
    ensures { (owner : ℕ) (made : Creating) (body : Option Body) → (is_some made.id && is_some body) ≡ is_made → is_user_in body ≡ is_user
        → result ≡ creation_forces world.now.held (made_by world.now.held owner made body) }
{
    let objects = &world.objects;
    // Its contract says that numbers rise and were given.
    let _count = objects.len();
    made_forces(objects, is_made, is_user)
}

/// The operand is an identification.
pub fn is_named(act: Act<'_>, k: usize) -> bool
    ensures { result ≡ is_some (id_at act.entry.request.now.operands k) }
{
    id_at(act.request.operands.as_slice(), k).is_some()
}

/// What a new object forces, a user or another one. It is made where an operand is its identification.
pub fn made(world: &Core<Objects, Profiles>, act: Act<'_>, k: usize, is_user: bool) -> Forcings
    ensures { (owner : ℕ) (kind : KindSaid) (made : Creating) (body : Body) → made.id ≡ of_kind kind (id_at act.entry.request.now.operands k) → is_profile body ≡ is_user
        → result ≡ creation_forces world.now.held (made_by world.now.held owner made (Some body)) }
{
    new_object(world, is_named(act, k), is_user)
}

// ---- a program of a template

fn is_template(template: &CheckedTemplate, name: &Name) -> bool
    ensures { result ≡ is_template name.now template.now }
{
    template.name.as_bytes() == name.as_bytes()
}

fn find_named<'a>(templates: &'a [CheckedTemplate], name: &Name) -> Option<&'a CheckedTemplate>
    ensures { option_copied result ≡ find (is_template name.now) templates.now }
{
    templates
        .iter()
        .find(|template| is_template(template, name))
}

fn template_in<'a>(
    templates: &'a [CheckedTemplate],
    operand: Option<&Operand>,
) -> Option<&'a CheckedTemplate>
    ensures { option_copied result ≡ template_in templates.now (option_copied operand.entry) }
{
    match operand {
        Some(Operand::Text(name)) => find_named(templates, name),
        _ => None,
    }
}

fn makes_program(template: Option<&CheckedTemplate>) -> bool
    ensures { result ≡ is_some (program_in (option_copied template.entry)) }
{
    match template {
        Some(template) => matches!(&template.made, CreateResult::Created(_)),
        None => false,
    }
}

/// The template that operand 5 names makes a program.
fn has_program(world: &Core<Objects, Profiles>, act: Act<'_>) -> bool
    ensures { result ≡ is_some (program_in (template_at world.now act.entry.request.now.operands)) }
{
    let operands = act.request.operands.as_slice();
    makes_program(template_in(world.templates.as_slice(), place(operands, 5)))
}

fn is_program_made(world: &Core<Objects, Profiles>, act: Act<'_>) -> bool
    ensures { result ≡ (is_some (id_at act.entry.request.now.operands 3) && is_some (program_in (template_at world.now act.entry.request.now.operands))) }
{
    is_named(act, 3) && has_program(world, act)
}

/// What a new program forces. It is made where its identification is operand 3, and operand 5 names a template that makes a
/// program.
pub fn made_program(world: &Core<Objects, Profiles>, act: Act<'_>) -> Forcings
    ensures { (owner : ℕ) (kind : KindSaid) (made : Creating) → made.id ≡ of_kind kind (id_at act.entry.request.now.operands 3)
        → result ≡ creation_forces world.now.held (made_by world.now.held owner made (option_map Body.Program (program_in (template_at world.now act.entry.request.now.operands)))) }
{
    new_object(world, is_program_made(world, act), false)
}

// ---- the journal space of a commit block

fn is_data_space(objects: &Objects, number: ObjNum) -> bool
    ensures { result ≡ is_some (part_at data_part objects.now number.0) }
{
    objects.data_space(number).is_some()
}

/// The journal space of a data space once its changes go through a port.
pub fn journal_through(objects: &Objects, space: ObjNum, port: ObjNum) -> Option<ObjNum>
    ensures { option_map (λ journal. journal.0) result ≡ journal_for (on_data objects.now space.0 (through_port port.0)) space.0 }
{
    if is_data_space(objects, space) {
        journal_of_port(objects, port)
    } else {
        journal_for(objects, space)
    }
}

/// A data space once its changes go through a port, and with it its journal space.
pub fn journaled(world: &Core<Objects, Profiles>, space: ObjNum, port: ObjNum) -> Forcings
    ensures { result ≡ Whole space.0 ∷ whole_if (journal_for (on_data world.now.held space.0 (through_port port.0)) space.0) }
{
    whole_if(space, journal_through(&world.objects, space, port))
}

/// The journal space of a unit that is committed.
pub fn committed(world: &Core<Objects, Profiles>, block: ObjNum) -> Forcings
    ensures { result ≡ commit_forces world.now.held block.0 (unit_of world.now.units block.0) }
{
    match (
        world.units.get(block),
        journal_for_block(&world.objects, block),
    ) {
        (Some(_), Some(journal)) => Forcings::one(Forcing::Whole(journal)),
        _ => Forcings::none(),
    }
}
