//! What makes a new store hold all objects.
ghost use Rattle.std.specs.Prelude.{◌≡◌, ◌≤◌, All, IfOk};
ghost use Rattle.std.specs.FinMap.{empty};
ghost use Rattle.s38_checkpoint.specs.Closing.{closing, content_of};
ghost use Rattle.s38_image_writer.specs.Parts.{CanSettle};
ghost use Rattle.s38_rules.specs.store.Storable.{IsStorable};
ghost use Rattle.s38_vault.specs.Content.{AreRising, HaveObjects, changed};

use crate::differences::add_all;
use s38_base::{Change, NoMemory};
use s38_commits::Units;
use s38_objects::Objects;
use s38_vault::MapVault;
use std::alloc::Global;

/// The changes that make a store hold all objects where it held nothing: each object as it is, with every uncommitted
/// change taken back, and the ceiling, in the order of their keys.
pub fn first_changes(
    alloc: Global,
    objects: &Objects,
    units: &Units,
) -> Result<Vec<Change>, NoMemory>
    requires storable { All IsStorable objects.now.objects }
    requires settles { All (λ o. CanSettle units.now o.number.0 o.body) objects.now.objects }
    requires numbers { All (λ o. 1 ≤ o.number.0) objects.now.objects }
    ensures content { IfOk result (λ changes. changed empty changes.items ≡ content_of (closing units.now objects.now)) }
    ensures rising { IfOk result (λ changes. AreRising changes.items) }
    ensures objects { IfOk result (λ changes. HaveObjects changes.items) }
{
    let mut nothing = MapVault::new(alloc, 0);
    let mut changes = Vec::new(alloc);
    match add_all(alloc, &mut nothing, objects, units, &mut changes) {
        Ok(()) => Ok(changes),
        Err(_) => Err(NoMemory),
    }
}
