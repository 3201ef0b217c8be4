//! The addressability of objects: the context of an object changed, and its name.
ghost use Rattle.s38_rules.specs.families.Changes.{renamed_by};
ghost use Rattle.std.specs.Prelude.{◌≡◌, None, Some, OnOk, OnErr};
ghost use Rattle.std.specs.Option.{option_copied};
ghost use Rattle.s38_rules.specs.families.Contexts.{is_at_home, is_name_beside, is_other_kind, modadr_fails, modadr_needs, new_address, own_context, rename_fails, rename_needs, rename_rule};
ghost use Rattle.s38_base.specs.RightNames as rights;
ghost use Rattle.s38_base.specs.declared.words.Category.TheVariants.{Change};
ghost use Rattle.s38_rules.specs.declared.need.Sought.TheVariants.{Any};
ghost use Rattle.s38_rules.specs.state.Held.{context_in, home, moved, object};
ghost use Rattle.s38_rules.specs.ask.Needs.{on_object};
ghost use Rattle.s38_rules.specs.ask.Operands.{id_at, target};

use s38_base::exceptions::{DUPLICATE_IDENTIFICATION, OBJECT_TYPE_INVALID};
use s38_base::limits::MACHINE_CONTEXT;
use s38_base::{Category, Exception, Id, Kind, NoMemory, ObjNum, Rights};
use s38_changes::{home, is_taken_beside, move_to, rename_to};
use s38_code::Operand;
use s38_invoke::{Core, Profiles};
use s38_objects::{Objects, kind_of};
use s38_operands::{Needs, fails, id_at, is_given, on_implied, on_object, target};
use s38_rules::{Object, Sought};

// ---- the context that an object is in

/// A right on it; an object that says a context which is gone is in none.
fn own_context(objects: &Objects, context: ObjNum, rights: Rights) -> Needs
    ensures { result ≡ own_context objects.now context.0 rights.0 }
{
    if objects.get(context).is_none() {
        return Needs::none();
    }
    on_implied(
        context,
        Sought::Of(Kind::Context),
        rights,
        Some(Category::Change),
    )
}

/// The context that an object says.
fn context_in(found: Option<&Object>) -> ObjNum
    ensures { result ≡ context_in (option_copied found.entry) }
{
    match found {
        None => ObjNum(0),
        Some(object) => object.context,
    }
}

fn present_context(objects: &Objects, operands: &[Operand]) -> ObjNum
    ensures { result ≡ context_in (object objects.now (target objects.now operands.now 1)) }
{
    context_in(objects.get(target(objects, operands, 1)))
}

// ---- MODADR

/// INSERT on the new context, where one is given.
fn new_address(operands: &[Operand]) -> Needs
    ensures { result ≡ new_address operands.now }
{
    if !is_given(operands, 2) {
        return Needs::none();
    }
    on_object(
        2,
        Sought::Of(Kind::Context),
        Rights::INSERT,
        Some(Category::Change),
    )
}

/// Object management on an object, which is changed.
fn management() -> Needs
    ensures { result ≡ on_object 1 Any rights.objmgt (Some Change) }
{
    on_object(1, Sought::Any, Rights::OBJMGT, Some(Category::Change))
}

/// Object management on the object, INSERT on the new context, DELETE on the present one.
#[tactic(auto, unfolding(s38_rules::specs::families::Contexts::modadr_needs))]
pub fn modadr_needs(objects: &Objects, operands: &[Operand]) -> Needs
    ensures { result ≡ modadr_needs objects.now operands.now }
{
    let present = present_context(objects, operands);
    let leaving = own_context(objects, present, Rights::DELETE);
    management().and(new_address(operands).and(leaving))
}

/// Contexts and profiles stay in the machine context.
fn is_at_home(found: Option<&Object>) -> bool
    ensures { result ≡ is_at_home (option_copied found.entry) }
{
    match found {
        None => false,
        Some(object) => {
            let kind = kind_of(&object.body).code();
            Kind::Context.code() == kind || Kind::Profile.code() == kind
        }
    }
}

fn is_name_beside(
    objects: &Objects,
    number: ObjNum,
    context: ObjNum,
    found: Option<&Object>,
) -> bool
    ensures { result ≡ is_name_beside objects.now number.0 context.0 (option_copied found.entry) }
{
    match found {
        None => false,
        Some(object) => is_taken_beside(objects, number, context, &object.id),
    }
}

/// The object may leave the machine context, nothing else enters it, and the identification is new there.
#[tactic(auto, unfolding(s38_rules::specs::families::Contexts::modadr_fails))]
pub fn modadr_fails(objects: &Objects, operands: &[Operand]) -> Option<Exception>
    ensures { result ≡ modadr_fails objects.now operands.now }
{
    let number = target(objects, operands, 1);
    let context = target(objects, operands, 2);
    let found = objects.get(number);
    if is_at_home(found) {
        return Some(Exception::plain(OBJECT_TYPE_INVALID, 1));
    }
    if context.0 == MACHINE_CONTEXT.0 {
        return Some(Exception::plain(OBJECT_TYPE_INVALID, 2));
    }
    fails(
        is_name_beside(objects, number, context, found),
        DUPLICATE_IDENTIFICATION,
        1,
    )
}

/// The object is in the new context, or in none; where memory is refused nothing changes.
#[tactic(auto, using(crate::proofs::ContextLaws::modadr_free, crate::proofs::ContextLaws::home_free, s38_changes::proofs::CreationLaws::home_placed))]
pub fn modadr(world: &mut Core<Objects, Profiles>, operands: &[Operand]) -> Result<(), NoMemory>
    requires { modadr_fails world.old.held operands.now ≡ None }
    ensures ok { OnOk result (world.new ≡ record world.old { held = moved world.old.held (target world.old.held operands.now 1) (home world.old.held (target world.old.held operands.now 2)) }) }
    ensures err { OnErr result (world.new ≡ world.old) }
{
    let number = target(&world.objects, operands, 1);
    let context = home(&world.objects, target(&world.objects, operands, 2));
    move_to(world, number, context)
}

// ---- RENAME

/// Object management on the object, UPDATE on its context.
#[tactic(auto, unfolding(s38_rules::specs::families::Contexts::rename_needs))]
pub fn rename_needs(objects: &Objects, operands: &[Operand]) -> Needs
    ensures { result ≡ rename_needs objects.now operands.now }
{
    let present = present_context(objects, operands);
    management().and(own_context(objects, present, Rights::UPDATE))
}

fn is_other_kind(found: Option<&Object>, id: &Id) -> bool
    ensures { result ≡ is_other_kind (option_copied found.entry) id.now }
{
    match found {
        None => false,
        Some(object) => id.kind.code() != kind_of(&object.body).code(),
    }
}

fn rename_rule(objects: &Objects, number: ObjNum, id: Option<&Id>) -> Option<Exception>
    ensures { result ≡ rename_rule objects.now number.0 (option_copied id.entry) }
{
    match id {
        None => None,
        Some(id) => {
            let found = objects.get(number);
            if is_other_kind(found, id) {
                return Some(Exception::plain(OBJECT_TYPE_INVALID, 2));
            }
            fails(
                is_taken_beside(objects, number, context_in(found), id),
                DUPLICATE_IDENTIFICATION,
                2,
            )
        }
    }
}

/// The kind stays, and the identification is new in the object's context.
#[tactic(auto, unfolding(s38_rules::specs::families::Contexts::rename_fails))]
pub fn rename_fails(objects: &Objects, operands: &[Operand]) -> Option<Exception>
    ensures { result ≡ rename_fails objects.now operands.now }
{
    rename_rule(objects, target(objects, operands, 1), id_at(operands, 2))
}

/// The object has the identification; where memory is refused nothing changes.
pub fn rename(world: &mut Core<Objects, Profiles>, operands: &[Operand]) -> Result<(), NoMemory>
    requires { rename_fails world.old.held operands.now ≡ None }
    ensures ok { OnOk result (world.new ≡ record world.old { held = renamed_by world.old.held (target world.old.held operands.now 1) (id_at operands.now 2) }) }
    ensures err { OnErr result (world.new ≡ world.old) }
{
    let number = target(&world.objects, operands, 1);
    match id_at(operands, 2) {
        None => Ok(()),
        Some(id) => rename_to(world, number, id),
    }
}
