ghost use Rattle.std.specs.Prelude.{◌≡◌, ◌<◌, ◌^◌, IfSome};
ghost use Rattle.s38_laws_images.specs.openings.Charges.{total_charge};

use s38_objects::{Objects, pages};

/// What all users pay for together, in pages; None where it is too much to count.
pub fn total_charge(objects: &Objects) -> Option<u64>
    ensures { IfSome result (λ total. (total ≡ total_charge objects.now) × (total < 2 ^ 64)) }
{
    let mut total: u64 = 0;
    for object in objects.all() {
        total = total.checked_add(pages(&object.body))?;
    }
    Some(total)
}
