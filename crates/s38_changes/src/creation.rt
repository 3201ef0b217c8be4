//! How objects are made, whatever their kind: the identification is new in its context, the owner may pay for the
//! object, and a number is left.
ghost use Rattle.std.specs.Prelude.{◌≡◌, ◌+◌, ◌≤◌, ◌^◌, ℕ, true, IfOk, None, OnOk, OnErr, Option};
ghost use Rattle.s38_base.specs.declared.exception.Exception.{Exception};
ghost use Rattle.s38_objects.specs.Lawful.{is_place, is_place_of};
ghost use Rattle.s38_rules.specs.ask.Authority.{is_profile};
ghost use Rattle.s38_rules.specs.families.Creation.{creation_changes, creation_fails, creation_gives, creation_limits, creation_needs, in_context, machine_needs, maker_rows, new_object, new_pointer, number_rule, of_machine, pages_rule};
ghost use Rattle.s38_rules.specs.state.Held.{ceiling_for, charge_in, found, object as object_at, pages_of, with_object};

use crate::charges::pays_more;
use crate::naming::{home, name_rule, of_kind};
use crate::users::{pay_within, prepare, take_back};
use s38_base::exceptions::LIMIT_EXCEEDED;
use s38_base::limits::{CEILING_STEP, LAST_NUMBER, MACHINE_CONTEXT, MOST_OBJECTS};
use s38_base::{
    Category, Exception, HeldPointer, Id, Kind, NoMemory, ObjNum, Pointer, Rights, UserNum,
};
use s38_code::{Operand, Val};
use s38_invoke::{Core, Profiles};
use s38_objects::{Objects, pages};
use s38_operands::{Needs, fails, id_at, is_given, on_implied, on_object, rights_at, target};
use s38_rules::{Body, Creating, Object, RowList, Sought};
use std::alloc::Global;

/// An object of the machine context, with the identification of operand 2.
pub fn of_machine(kind: Kind, public: Rights, objects: &Objects, operands: &[Operand]) -> Creating
    ensures { result ≡ of_machine kind public.0 objects.now operands.now }
{
    Creating {
        context: home(objects, MACHINE_CONTEXT),
        id: of_kind(kind, id_at(operands, 2)),
        place: 2,
        public,
        pages: 1,
    }
}

/// INSERT on the machine context.
#[tactic(auto, unfolding(s38_rules::specs::families::Creation::machine_needs))]
pub fn machine_needs() -> Needs
    ensures { result ≡ machine_needs }
{
    on_implied(
        MACHINE_CONTEXT,
        Sought::Of(Kind::Context),
        Rights::INSERT,
        Some(Category::Change),
    )
}

/// An object in the context of operand 2, with the identification of operand 3 and the public rights of operand 4.
pub fn in_context(kind: Kind, pages: u64, objects: &Objects, operands: &[Operand]) -> Creating
    ensures { result ≡ in_context kind pages objects.now operands.now }
{
    Creating {
        context: home(objects, target(objects, operands, 2)),
        id: of_kind(kind, id_at(operands, 3)),
        place: 3,
        public: rights_at(operands, 4),
        pages,
    }
}

/// INSERT on the context that the new object is put into, where one is given.
#[tactic(auto, unfolding(s38_rules::specs::families::Creation::creation_needs))]
pub fn creation_needs(operands: &[Operand]) -> Needs
    ensures { result ≡ creation_needs operands.now }
{
    if is_given(operands, 2) {
        on_object(2, Sought::Container, Rights::INSERT, Some(Category::Change))
    } else {
        Needs::none()
    }
}

fn number_rule(objects: &Objects) -> Option<Exception>
    ensures { result ≡ number_rule objects.now }
{
    fails(
        MOST_OBJECTS <= objects.len() || LAST_NUMBER < objects.next_number(),
        LIMIT_EXCEEDED,
        0,
    )
}

/// The owner pays for it, and a number is left.
#[tactic(auto, unfolding(s38_rules::specs::families::Creation::creation_limits))]
fn creation_limits(world: &Core<Objects, Profiles>, owner: UserNum, pages: u64) -> Option<Exception>
    requires { 1 ≤ pages }
    ensures { result ≡ creation_limits world.now.held owner.0 pages }
{
    if let Some(failure) = pays_more(world, owner, pages, 0) {
        return Some(failure);
    }
    number_rule(&world.objects)
}

/// The identification is new, then the row's own conditions hold, then the limits.
#[tactic(auto, unfolding(s38_rules::specs::families::Creation::creation_fails))]
pub fn creation_fails(
    world: &Core<Objects, Profiles>,
    owner: UserNum,
    made: &Creating,
    own: Option<Exception>,
) -> Option<Exception>
    requires { 1 ≤ made.now.pages }
    ensures { result ≡ creation_fails world.now.held owner.0 made.now own }
{
    if let Some(failure) = name_rule(&world.objects, made) {
        return Some(failure);
    }
    match own {
        None => creation_limits(world, owner, made.pages),
        Some(failure) => Some(failure),
    }
}

fn new_pointer(objects: &Objects, id: Option<Id>) -> Option<Pointer>
    ensures { result ≡ new_pointer objects.now id }
{
    match id {
        None => None,
        Some(_) => Some(Pointer::System {
            object: ObjNum(objects.next_number()),
            rights: Rights(0),
        }),
    }
}

/// A system pointer to the new object, without rights.
#[tactic(auto, unfolding(s38_rules::specs::families::Creation::creation_gives))]
pub fn creation_gives(objects: &Objects, made: &Creating) -> Val
    ensures { result ≡ creation_gives objects.now made.now }
{
    Val::Ptr(HeldPointer::of(new_pointer(objects, made.id)))
}

/// A profile is on disk from its creation on.
fn is_profile(body: &Body) -> bool
    ensures { result ≡ is_profile body.now }
{
    matches!(body, Body::Profile { .. })
}

/// All eight rights of the user who made an object.
fn maker_rows(alloc: Global, owner: UserNum) -> Result<RowList, NoMemory>
    ensures { IfOk result (λ rows. rows ≡ maker_rows owner.0) }
{
    RowList::of(alloc, owner, Rights(0xff))
}

fn new_object(
    alloc: Global,
    objects: &Objects,
    owner: UserNum,
    made: &Creating,
    id: Id,
    body: Body,
) -> Result<Object, NoMemory>
    ensures { IfOk result (λ object. object ≡ new_object objects.now owner.0 made.now id body) }
{
    Ok(Object {
        number: ObjNum(objects.next_number()),
        id,
        context: made.context,
        owner,
        public: made.public,
        rows: maker_rows(alloc, owner)?,
        on_disk: is_profile(&body),
        body,
    })
}

/// The ceiling after an object of this number is made.
fn ceiling_for(ceiling: u64, number: u64) -> u64
    requires { number ≤ 2 ^ 62 }
    ensures { result ≡ ceiling_for ceiling number }
{
    if ceiling < number {
        ceiling + CEILING_STEP
    } else {
        ceiling
    }
}

/// A new object follows the others; where memory is refused nothing changes.
fn enter(objects: &mut Objects, object: Object) -> Result<(), NoMemory>
    requires number { object.number.0 ≡ objects.old.next }
    requires small { objects.old.next ≤ 2 ^ 62 }
    requires placed { is_place_of objects.old object ≡ true }
    requires unnamed { found objects.old object.context.0 object.id ≡ None }
    ensures ok { OnOk result (objects.new ≡ with_object objects.old object) }
    ensures err { OnErr result (objects.new ≡ objects.old) }
{
    let number = objects.next_number();
    let ceiling = ceiling_for(objects.ceiling(), number);
    match objects.add(object) {
        Ok(_) => {
            objects.raise(number + 1, ceiling);
            Ok(())
        }
        Err(_) => Err(NoMemory),
    }
}

/// The number of the next object: none has it, or a greater one.
#[tactic(auto, using(crate::proofs::KeptLaws::given_by))]
fn fresh(objects: &Objects) -> ObjNum
    ensures next { result.0 ≡ objects.now.next }
    ensures given { (n : ℕ) → objects.now.next ≤ n → object_at objects.now n ≡ None }
{
    // Its contract says that numbers rise and were given.
    let _count = objects.len();
    ObjNum(objects.next_number())
}

/// A new object follows the others, and its owner pays for it and has all rights by a row. Where memory is
/// refused nothing changes.
#[tactic(auto, using(crate::proofs::CreationLaws::addition_kept, crate::proofs::KeptLaws::none_yet, crate::proofs::KeptLaws::no_row_yet))]
fn add(world: &mut Core<Objects, Profiles>, object: Object) -> Result<(), NoMemory>
    requires number { object.number.0 ≡ world.old.held.next }
    requires small { world.old.held.next ≤ 2 ^ 62 }
    requires placed { is_place_of world.old.held object ≡ true }
    requires unnamed { found world.old.held object.context.0 object.id ≡ None }
    requires rows { object.rows ≡ maker_rows object.owner.0 }
    requires paid { pages_rule world.old.held object.owner.0 (charge_in world.old.held.objects object.owner.0 + pages_of object.body) 0 ≡ None }
    ensures ok { OnOk result (world.new ≡ record world.old { held = with_object world.old.held object }) }
    ensures err { OnErr result (world.new ≡ world.old) }
{
    let number = fresh(&world.objects);
    let owner = object.owner;
    let limit = world.page_limit(owner);
    let more = pages(&object.body);
    match prepare(&mut world.profiles, number, owner, &object.body) {
        Ok(()) => {}
        Err(fault) => return Err(fault),
    }
    match enter(&mut world.objects, object) {
        Ok(()) => {
            pay_within(&mut world.profiles, owner, more, limit);
            Ok(())
        }
        Err(fault) => {
            take_back(&mut world.profiles, number, owner);
            Err(fault)
        }
    }
}

/// The owner has the new object, which no rule refuses; where memory is refused nothing changes.
#[tactic(auto, using(crate::proofs::CreationLaws::number_left, crate::proofs::CreationLaws::name_free, crate::proofs::CreationLaws::paid_for), unfolding(s38_rules::specs::families::Creation::creation_changes))]
pub fn creation_changes(
    alloc: Global,
    world: &mut Core<Objects, Profiles>,
    owner: UserNum,
    made: &Creating,
    body: Body,
) -> Result<(), NoMemory>
    requires fits { (own : Option Exception) × (creation_fails world.old.held owner.0 made.now own ≡ None) }
    requires placed { is_place world.old.held made.now.context.0 ≡ true }
    requires pages { made.now.pages ≡ pages_of body }
    ensures ok { OnOk result (world.new ≡ record world.old { held = creation_changes world.old.held owner.0 made.now body }) }
    ensures err { OnErr result (world.new ≡ world.old) }
{
    match made.id {
        None => Ok(()),
        Some(id) => match new_object(alloc, &world.objects, owner, made, id, body) {
            Ok(object) => add(world, object),
            Err(fault) => Err(fault),
        },
    }
}
