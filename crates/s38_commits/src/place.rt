ghost use Rattle.std.specs.Prelude.{◌≡◌, ℕ, None, if◌then◌else◌};
ghost use Rattle.std.specs.BTreeMap.{get};
ghost use Rattle.s38_commits.specs.Changes.{has_change};
ghost use Rattle.s38_commits.specs.Places.{place, place_cmp};

use crate::change::UnitChange;
use s38_base::ObjNum;
use std::collections::BTreeMap;

/// The place of an entry: its data space, and its ordinal.
#[derive(Clone, Copy, PartialEq, Eq, PartialOrd, Ord, Debug)]
pub struct Place {
    pub space: u64,
    pub at: u32,
}

/// The place of an ordinal of a data space.
pub fn place_of(space: ObjNum, at: u32) -> Place
    ensures { result ≡ place space.0 at }
{
    Place { space: space.0, at }
}

/// Takes the places of changed entries out, in logarithmic time each.
pub fn leave(places: &mut BTreeMap<Place, u64>, changes: &[UnitChange])
    ensures { (space at : ℕ) → get place_cmp places.new (place space at)
        ≡ (if has_change space at changes.now then None else get place_cmp places.old (place space at)) }
{
    for change in changes {
        places.remove(&place_of(change.space, change.at));
    }
}
