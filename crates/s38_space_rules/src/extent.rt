//! The extent of an object as it is in memory.
ghost use Rattle.std.specs.Prelude.{◌≡◌};
ghost use Rattle.s38_rules.specs.store.Forcing.{extent_with_rows};
ghost use Rattle.s38_rules.specs.store.Room.{extent_of};
ghost use Rattle.s38_rules.specs.store.Storable.{IsStorable};

use s38_image_writer::image_len;
use s38_rules::Object;
use s38_space_map::{Extent, pages_begun, pages_of_rows};

/// The extent of an object as it is in memory.
pub fn extent_of(object: &Object) -> Extent
    requires { IsStorable object.now }
    ensures { result ≡ extent_of object.now }
{
    let rows = pages_of_rows(object.rows.len());
    let body = pages_begun(image_len(&object.body));
    Extent::new(object.number, rows, body)
}

/// That of an object of which the rows follow, and the body stays as it is kept; of one that is not kept yet that of the
/// object as it is in memory.
pub fn extent_with_rows(object: &Object, old: Option<Extent>) -> Extent
    requires { IsStorable object.now }
    ensures { result ≡ extent_with_rows object.now old }
{
    match old {
        None => extent_of(object),
        Some(old) => {
            let rows = pages_of_rows(object.rows.len());
            Extent::new(object.number, rows, old.body())
        }
    }
}
