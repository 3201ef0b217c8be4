//! All parts of a store: the first fault, or the objects that they hold.
ghost use Rattle.std.specs.Prelude.{◌≡◌, ◌≤◌, None, IfErr, IfOk, OnOk};
ghost use Rattle.s38_image.specs.Faults.{first_under, has_first_user};
ghost use Rattle.s38_vault.specs.Content.{AreRising};
ghost use Rattle.s38_restart.specs.catalog.Groups.{groups, removals};
ghost use Rattle.s38_restart.specs.catalog.Readings.{all_sound};
ghost use Rattle.s38_restart.specs.catalog.Stores.{FormObjectMap, IsFirst, ceiling_of, first_fault, missing_object, objects_stored_in};

use crate::catalog::ceiling::ceiling;
use crate::catalog::groups::Groups;
use crate::catalog::headers::is_other_kind;
use crate::catalog::reading::Reading;
use crate::catalog::strays::removals;
use s38_base::{Change, Kind, limits};
use s38_image::{CEILING_KEY, HEADER_PART, ImageFault, Stored};
use std::alloc::Global;

/// The number of the first user.
const FIRST_USER: u64 = 2;

/// What all parts of a store hold.
#[derive(Drop)]
pub struct Store {
    /// The objects, in rising order of number. A data space is as its image has it.
    pub stored: Vec<Stored>,
    /// The ceiling of numbers.
    pub ceiling: u64,
    /// The changes that take away each orphan page.
    pub removals: Vec<Change>,
}

/// Whether the first user is there, and no object of another kind in its place.
fn has_first_user(groups: &Groups<'_>) -> bool
    ensures { result ≡ has_first_user groups.now }
{
    groups.is_on_disk(FIRST_USER) && !is_other_kind(Kind::Profile, groups.header(FIRST_USER))
}

/// The machine context, if it has no header page, or the first user, if it is not there.
fn missing(groups: &Groups<'_>) -> Option<u64>
    ensures { result ≡ missing_object groups.now }
{
    if !groups.is_on_disk(limits::MACHINE_CONTEXT.0) {
        return Some(limits::MACHINE_CONTEXT.0);
    }
    if !has_first_user(groups) {
        return Some(FIRST_USER);
    }
    None
}

/// The objects of some groups, or their first fault.
fn objects_of(
    alloc: Global,
    limit: u32,
    ceiling: u64,
    groups: Groups<'_>,
) -> Result<Vec<Stored>, ImageFault>
    requires { limit ≤ 16777216 }
    ensures sound { OnOk result (first_under groups.entry limit ceiling ≡ None) }
    ensures stored { IfOk result (λ stored. stored.items ≡ all_sound groups.entry limit ceiling) }
    ensures lawful { IfOk result (λ stored. FormObjectMap ceiling stored.items) }
    ensures fault { IfErr result (IsFirst (first_under groups.entry limit ceiling)) }
{
    if let Some(object) = missing(&groups) {
        return Err(ImageFault::BadImage {
            object,
            part: HEADER_PART,
        });
    }
    let reading = Reading::of(alloc, limit, ceiling, groups)?;
    if let Some((object, part)) = reading.first_fault() {
        return Err(ImageFault::BadImage { object, part });
    }
    Ok(reading.into_stored())
}

/// What all parts of a store hold, where bodies have so many bytes at most, and those of journal spaces 16,777,216. The
/// parts rise in their keys. `BadImage` exactly where a part is at fault; it names the first one.
pub fn store_of(alloc: Global, limit: u32, parts: &[Change]) -> Result<Store, ImageFault>
    requires limit { limit ≤ 16777216 }
    requires order { AreRising parts.now }
    ensures sound { OnOk result (first_fault limit parts.now ≡ None) }
    ensures stored { IfOk result (λ store. store.stored.items ≡ objects_stored_in limit parts.now) }
    ensures ceiling { IfOk result (λ store. store.ceiling ≡ ceiling_of parts.now) }
    ensures removals { IfOk result (λ store. store.removals.items ≡ removals parts.now) }
    ensures lawful { IfOk result (λ store. FormObjectMap store.ceiling store.stored.items) }
    ensures fault { IfErr result (IsFirst (first_fault limit parts.now)) }
{
    let Some(ceiling) = ceiling(alloc, parts)? else {
        return Err(ImageFault::BadImage {
            object: CEILING_KEY,
            part: HEADER_PART,
        });
    };
    let groups = Groups::of(alloc, parts)?;
    let removals = removals(alloc, &groups, parts)?;
    let stored = match objects_of(alloc, limit, ceiling, groups) {
        Ok(stored) => stored,
        Err(fault) => return Err(fault),
    };
    Ok(Store {
        stored,
        ceiling,
        removals,
    })
}
