//! The headers that a close keeps can be read again.
ghost use Rattle.std.specs.Prelude.{ℕ, All};
ghost use Rattle.s38_checkpoint.specs.Closing.{closing};
ghost use Rattle.s38_commits.specs.Units.{UnitMap};
ghost use Rattle.s38_durable_state.specs.Durable.{whole_stored};
ghost use Rattle.s38_image_writer.specs.Parts.{CanSettle};
ghost use Rattle.s38_rules.specs.state.Held.{Held};
ghost use Rattle.s38_rules.specs.store.Storable.{IsStorable};
ghost use Rattle.s38_flush.specs.Stepping.{HasHeader, HaveHeaders};

use s38_commits::Units;
use s38_image_writer::{image_len, part_count};
use s38_objects::Objects;
use s38_rules::Object;

/// The header of a current object can be read again, whatever is kept of its journal space. The types of its fields
/// bound what they can be.
fn header_can_be_read(object: &Object)
    requires { IsStorable object.now }
    ensures { (units : UnitMap) (h : Held) → CanSettle units object.now.number.0 object.now.body → HasHeader (whole_stored units h object.now) }
{
    let _name = object.id.name.as_bytes();
    let _sub = object.id.sub;
    let _context = object.context.0;
    let _owner = object.owner.0;
    let _public = object.public.0;
    // Their contracts say how long the body is.
    let _len = image_len(&object.body);
    let _count = part_count(object);
}

/// All headers that a close keeps can be read again. This is so by the types of the objects; it changes nothing.
pub fn headers_can_be_read(objects: &Objects, units: &Units)
    requires storable { All IsStorable objects.now.objects }
    requires settles { All (λ o. CanSettle units.now o.number.0 o.body) objects.now.objects }
    ensures { HaveHeaders (closing units.now objects.now) }
{
    for object in objects.all() {
        header_can_be_read(object);
    }
}
