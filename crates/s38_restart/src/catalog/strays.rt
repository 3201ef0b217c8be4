ghost use Rattle.std.specs.Prelude.{◌≡◌, IfOk, filter, map};
ghost use Rattle.s38_restart.specs.catalog.Groups.{is_stray, part_taken};

use crate::catalog::groups::Groups;
use s38_base::{Change, NoMemory};
use s38_image::CEILING_KEY;
use std::alloc::Global;

/// Whether a part is an orphan page: its number has no header page, or it is one of the ceiling's number after the first.
fn is_stray(groups: &Groups<'_>, part: &Change) -> bool
    ensures { result ≡ is_stray groups.now part.now }
{
    if part.key.object == CEILING_KEY {
        part.key.part != 0
    } else {
        !groups.is_on_disk(part.key.object)
    }
}

/// The changes that take away each orphan page. `NoMemory` where memory was refused.
pub fn removals(
    alloc: Global,
    groups: &Groups<'_>,
    parts: &[Change],
) -> Result<Vec<Change>, NoMemory>
    ensures { IfOk result (λ changes. changes.items ≡ map part_taken (filter (is_stray groups.now) parts.now)) }
{
    let mut changes = Vec::new(alloc);
    for part in parts {
        if is_stray(groups, part) {
            changes.push(Change {
                key: part.key,
                page: None,
            })?;
        }
    }
    Ok(changes)
}
