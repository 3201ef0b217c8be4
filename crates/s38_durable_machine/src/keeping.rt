//! What a step must persist in a vault.
ghost use Rattle.std.specs.Prelude.{◌≡◌, All, Ok};
ghost use Rattle.s38_image_writer.specs.Parts.{CanSettle};
ghost use Rattle.s38_laws_images.specs.readable.Readable.{IsFit};
ghost use Rattle.s38_flush.specs.Numbers.{numbered};
ghost use Rattle.s38_flush.specs.Stepping.{AreNumbers};
ghost use Rattle.s38_durable_machine.specs.Keeping.{KeepsStep, ending_of};

use crate::ending::Ending;
use s38_commits::Units;
use s38_flush::{force, numbered};
use s38_laws_images::forced_are_readable;
use s38_objects::Objects;
use s38_page_diff::FlushFault;
use s38_space_map::Forcings;
use s38_vault::Vault;
use std::alloc::Global;

/// How a machine goes on after a step that was kept or not.
fn ending_of(kept: Result<(), FlushFault>) -> Ending
    ensures { result ≡ ending_of kept }
{
    match kept {
        Ok(()) => Ending::Going,
        Err(FlushFault::Failed) => Ending::Stopped,
        Err(FlushFault::Full { .. } | FlushFault::BadHeader { .. } | FlushFault::NoMemory) => {
            Ending::Wanting
        }
    }
}

/// Keeps what a step forces that led to these objects and units, and says how the machine goes on.
pub fn flush_step<V: Vault>(
    alloc: Global,
    vault: &mut V,
    objects: &Objects,
    units: &Units,
    all: &Forcings,
) -> Ending
    requires fit { All IsFit objects.now.objects }
    requires settles { All (λ o. CanSettle units.now o.number.0 o.body) objects.now.objects }
    requires numbers { AreNumbers (numbered all.now) }
    ensures { KeepsStep V.view V.holds V.leaves vault.old vault.new objects.now units.now (numbered all.now) result }
{
    let numbered = numbered(all);
    let forced = numbered.as_slice();
    // Its contract says that what is forced is read again.
    forced_are_readable(objects, forced);
    // Its contract says that the vault holds one content.
    let _before = vault.moment();
    let kept = force(alloc, vault, objects, units, forced);
    // Its contract says that a crash now leaves what is held.
    let _moment = vault.moment();
    ending_of(kept)
}
