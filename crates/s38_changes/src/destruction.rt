//! How objects are destroyed, whatever their kind.
ghost use Rattle.std.specs.Prelude.{◌≡◌};
ghost use Rattle.s38_rules.specs.families.Creation.{destroyed, destruction_needs, is_of_kind};
ghost use Rattle.s38_rules.specs.state.Held.{object, without};
ghost use Rattle.s38_rules.specs.ask.Operands.{target};

use crate::users::forget;
use s38_base::{Category, Kind, ObjNum, Rights};
use s38_code::Operand;
use s38_invoke::{Core, Profiles};
use s38_objects::{Objects, kind_of};
use s38_operands::{Needs, on_object, target};
use s38_rules::Sought;

/// Object control on the object that is destroyed.
#[tactic(auto, unfolding(s38_rules::specs::families::Creation::destruction_needs))]
pub fn destruction_needs(kind: Kind) -> Needs
    ensures { result ≡ destruction_needs kind }
{
    on_object(1, Sought::Of(kind), Rights::OBJCTL, Some(Category::Control))
}

/// The object of a number is there no more, and what is kept of it goes with it.
fn remove(world: &mut Core<Objects, Profiles>, number: ObjNum)
    ensures { world.new ≡ record world.old { held = without world.old.held number.0 } }
{
    // Its contract says that numbers rise and were given.
    let _count = world.objects.len();
    let Some(object) = world.objects.remove(number) else {
        return;
    };
    forget(&mut world.profiles, &object);
}

/// Whether the object of a number is there, and of a kind.
fn is_of_kind(objects: &Objects, number: ObjNum, kind: Kind) -> bool
    ensures { result ≡ is_of_kind kind (object objects.now number.0) }
{
    match objects.get(number) {
        None => false,
        Some(object) => kind.code() == kind_of(&object.body).code(),
    }
}

/// The object that operand 1 names, if it is of the kind, is there no more.
pub fn destroy(world: &mut Core<Objects, Profiles>, kind: Kind, operands: &[Operand])
    ensures { world.new ≡ record world.old { held = destroyed world.old.held kind (target world.old.held operands.now 1) } }
{
    let number = target(&world.objects, operands, 1);
    if is_of_kind(&world.objects, number, kind) {
        remove(world, number);
    }
}
