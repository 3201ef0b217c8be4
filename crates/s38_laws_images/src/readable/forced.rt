//! What a step forces is read again, and so are all objects.
ghost use Rattle.std.specs.Prelude.{◌≡◌, ℕ, All, Some, true};
ghost use Rattle.s38_space_map.specs.Forcings.{all_forced, forced_as};
ghost use Rattle.s38_laws_objects.specs.Outline.{is_forced, speaks_of};
ghost use Rattle.s38_laws_images.specs.readable.Readable.{IsAgain, IsFit};
ghost use Rattle.s38_rules.specs.state.Held.{object};
ghost use Rattle.s38_rules.specs.declared.object.Object.{Object};

use crate::readable::objects::object_is_readable;
use s38_base::ObjNum;
use s38_objects::Objects;
use s38_space_map::Forcing;

/// The object of a number is read again, if there is one.
pub fn number_is_readable(objects: &Objects, number: ObjNum)
    requires { All IsFit objects.now.objects }
    ensures { (o : Object) → object objects.now number.0 ≡ Some o → IsAgain o }
{
    if let Some(object) = objects.get(number) {
        object_is_readable(object);
    }
}

/// The object of which one thing that is forced speaks is read again.
fn one_is_readable(objects: &Objects, one: Forcing)
    requires { All IsFit objects.now.objects }
    ensures { (n : ℕ) (o : Object) → speaks_of n (forced_as one) ≡ true → object objects.now n ≡ Some o → IsAgain o }
{
    match one {
        Forcing::Ceiling => {}
        Forcing::Header(number) => number_is_readable(objects, number),
        Forcing::Whole(number) => number_is_readable(objects, number),
        Forcing::Removed(number) => number_is_readable(objects, number),
    }
}

/// Each object of which something that is forced speaks is read again.
pub fn forced_are_readable(objects: &Objects, all: &[Forcing])
    requires { All IsFit objects.now.objects }
    ensures { (n : ℕ) (o : Object) → is_forced n (all_forced all.now) ≡ true → object objects.now n ≡ Some o → IsAgain o }
{
    match all {
        [] => {}
        [one, more @ ..] => {
            one_is_readable(objects, *one);
            forced_are_readable(objects, more);
        }
    }
}

/// All objects are read again.
pub fn all_are_readable(objects: &Objects)
    requires { All IsFit objects.now.objects }
    ensures { All IsAgain objects.now.objects }
{
    for object in objects.all() {
        object_is_readable(object);
    }
}
