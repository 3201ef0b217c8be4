//! What an object is called, and the context that it is in.
ghost use Rattle.std.specs.Prelude.{◌≡◌};
ghost use Rattle.std.specs.Option.{option_copied};
ghost use Rattle.s38_rules.specs.families.Creation.{is_another, is_taken, is_taken_beside, name_rule, of_kind};
ghost use Rattle.s38_rules.specs.state.Held.{found, home};

use s38_base::exceptions::DUPLICATE_IDENTIFICATION;
use s38_base::{Exception, Id, Kind, ObjNum};
use s38_objects::Objects;
use s38_operands::fails;
use s38_rules::{Creating, Object};

/// A context that is there, or none: what is put into one that is not there is in no context.
pub fn home(objects: &Objects, context: ObjNum) -> ObjNum
    ensures { result ≡ home objects.now context.0 }
{
    match objects.get(context) {
        None => ObjNum(0),
        Some(_) => context,
    }
}

/// The same name, of this kind of object.
pub fn of_kind(kind: Kind, id: Option<&Id>) -> Option<Id>
    ensures { result ≡ of_kind kind (option_copied id.entry) }
{
    match id {
        None => None,
        Some(id) => Some(Id { kind, ..*id }),
    }
}

fn is_another(number: ObjNum, found: Option<&Object>) -> bool
    ensures { result ≡ is_another number.0 (option_copied found.entry) }
{
    match found {
        None => false,
        Some(object) => object.number.0 != number.0,
    }
}

/// Another object of the context than that of the number has the identification.
pub fn is_taken_beside(objects: &Objects, number: ObjNum, context: ObjNum, id: &Id) -> bool
    ensures { result ≡ is_taken_beside objects.now number.0 context.0 id.now }
{
    is_another(number, objects.find_object(context, id))
}

fn is_taken(objects: &Objects, context: ObjNum, id: Option<Id>) -> bool
    ensures { result ≡ is_taken objects.now context.0 id }
{
    match id {
        None => false,
        Some(id) => objects.find_object(context, &id).is_some(),
    }
}

/// Another object of the context has the identification.
pub fn name_rule(objects: &Objects, made: &Creating) -> Option<Exception>
    ensures { result ≡ name_rule objects.now made.now }
{
    fails(
        is_taken(objects, made.context, made.id),
        DUPLICATE_IDENTIFICATION,
        made.place,
    )
}
