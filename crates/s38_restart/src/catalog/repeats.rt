//! Identifications that a lower object has in the same context.
ghost use Rattle.std.specs.Prelude.{◌≡◌, ◌||◌, IfOk, OnOk, map};
ghost use Rattle.std.specs.BTreeSet.{contains};
ghost use Rattle.s38_image.specs.Faults.{has_same};
ghost use Rattle.s38_image.specs.declared.header.Header.{Header as Head};
ghost use Rattle.s38_objects.specs.NameOrder.{key as key_in, name_cmp};
ghost use Rattle.s38_restart.specs.catalog.Readings.{is_entered, is_repeated};

use crate::catalog::groups::Groups;
use s38_base::NoMemory;
use s38_image::Header;
use s38_objects::{NameKey, key};
use std::alloc::Global;
use std::collections::BTreeSet;

/// Enters the identification of a header in its context. Whether it was there.
fn enter(names: &mut BTreeSet<NameKey>, header: Option<Header>) -> Result<bool, NoMemory>
    ensures there { IfOk result (λ there. there ≡ is_entered names.old header) }
    ensures names { OnOk result ((h : Head) → contains name_cmp names.new (key_in h.context.0 h.id)
        ≡ (has_same h header || contains name_cmp names.old (key_in h.context.0 h.id))) }
{
    match header {
        None => Ok(false),
        Some(header) => match names.insert(key(header.context.0, &header.id)) {
            Ok(is_new) => Ok(!is_new),
            Err(_) => Err(NoMemory),
        },
    }
}

/// Of each group whether a lower one has its identification in its context. `NoMemory` where memory was refused.
pub fn repeats(alloc: Global, groups: &Groups<'_>) -> Result<Vec<bool>, NoMemory>
    ensures { IfOk result (λ repeats. repeats.items ≡ map (is_repeated groups.now) groups.now) }
{
    let mut names = BTreeSet::new(alloc);
    let mut repeats = Vec::new(alloc);
    for group in groups.as_slice() {
        let is_there = enter(&mut names, group.header())?;
        repeats.push(is_there)?;
    }
    Ok(repeats)
}
