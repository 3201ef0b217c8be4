//! How many pages a store has of each object that it keeps.
ghost use Rattle.std.specs.Prelude.{◌≡◌, All, IfOk, map};
ghost use Rattle.s38_durable_state.specs.Following.{extent_in};
ghost use Rattle.s38_rules.specs.store.Room.{extent_of};
ghost use Rattle.s38_rules.specs.store.Storable.{IsStorable};

use s38_base::NoMemory;
use s38_image::Stored;
use s38_image_writer::image_len;
use s38_rules::Object;
use s38_space_map::{Extent, pages_begun, pages_of_rows};
use std::alloc::Global;

/// The extent of an object as it is now.
fn extent_of(object: &Object) -> Extent
    requires { IsStorable object.now }
    ensures { result ≡ extent_of object.now }
{
    let rows = pages_of_rows(object.rows.len());
    let body = pages_begun(image_len(&object.body));
    Extent::new(object.number, rows, body)
}

/// The extent of each object of a store. `NoMemory` where memory was refused.
pub fn extents_of(alloc: Global, stored: &[Stored]) -> Result<Vec<Extent>, NoMemory>
    requires { All (λ s. IsStorable s.object) stored.now }
    ensures { IfOk result (λ extents. extents.items ≡ map extent_in stored.now) }
{
    let mut extents = Vec::new(alloc);
    for one in stored {
        extents.push(extent_of(&one.object))?;
    }
    Ok(extents)
}
