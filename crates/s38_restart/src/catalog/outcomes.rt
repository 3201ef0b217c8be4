//! What each group holds by itself.
ghost use Rattle.std.specs.Prelude.{◌≡◌, ◌≤◌, IfOk, OnOk, map};
ghost use Rattle.std.specs.List.Sorted.{IsStrictlyIncreasing};
ghost use Rattle.s38_restart.specs.catalog.Readings.{all_faults, all_sound, is_repeated, outcome};
ghost use Rattle.s38_restart.specs.catalog.Runs.{number_of};

use crate::catalog::group::Group;
use crate::catalog::groups::Groups;
use crate::catalog::headers::is_bad_header;
use crate::catalog::repeats::repeats;
use s38_base::NoMemory;
use s38_image::{HEADER_PART, ImageFault, Stored, from_parts};
use std::alloc::Global;

/// The object of a group, or its first part at fault, where its body is not looked at beside the others.
fn outcome(
    alloc: Global,
    limit: u32,
    ceiling: u64,
    groups: &Groups<'_>,
    group: &Group<'_>,
    repeated: bool,
) -> Result<Result<Stored, u32>, NoMemory>
    requires limit { limit ≤ 16777216 }
    requires repeated { repeated ≡ is_repeated groups.now group.now }
    ensures { IfOk result (λ found. found ≡ outcome groups.now limit ceiling group.now) }
{
    let Some(header) = group.header() else {
        return Ok(Err(HEADER_PART));
    };
    if is_bad_header(groups, ceiling, group.number(), &header, repeated) {
        return Ok(Err(HEADER_PART));
    }
    match from_parts(alloc, limit, group.number(), group.parts()) {
        Ok(stored) => Ok(Ok(stored)),
        Err(ImageFault::BadImage { part, .. }) => Ok(Err(part)),
        Err(ImageFault::NoMemory) => Err(NoMemory),
    }
}

/// What groups hold by themselves.
#[derive(Drop)]
pub struct Found {
    /// The objects, in rising order of number.
    pub stored: Vec<Stored>,
    /// The numbers of the other groups, in rising order, each with its first part at fault.
    pub faults: Vec<(u64, u32)>,
}

/// What each group holds by itself. `NoMemory` where memory was refused.
pub fn outcomes(
    alloc: Global,
    limit: u32,
    ceiling: u64,
    groups: &Groups<'_>,
) -> Result<Found, NoMemory>
    requires { limit ≤ 16777216 }
    ensures stored { IfOk result (λ found. found.stored.items ≡ all_sound groups.now limit ceiling) }
    ensures faults { IfOk result (λ found. found.faults.items ≡ all_faults groups.now limit ceiling) }
    ensures rising { OnOk result (IsStrictlyIncreasing (map number_of groups.now)) }
{
    let repeats = repeats(alloc, groups)?;
    let groups_read = groups.as_slice();
    let mut stored = Vec::new(alloc);
    let mut faults = Vec::new(alloc);
    for at in 0..repeats.len() {
        let group = &groups_read[at];
        match outcome(alloc, limit, ceiling, groups, group, repeats[at])? {
            Ok(object) => stored.push(object)?,
            Err(part) => faults.push((group.number(), part))?,
        }
    }
    Ok(Found { stored, faults })
}
