ghost use Rattle.std.specs.Prelude.{◌≡◌, true};
ghost use Rattle.s38_queues.specs.Places.{AreBefore, IsFirstOf, is_from, is_short, place_fits};

use crate::key::Key;
use s38_base::Relation;
use std::collections::BTreeSet;

/// The place of a message in the order of keys: its key, and the number of its arrival.
#[derive(Clone, Copy, PartialEq, Eq, PartialOrd, Ord, Debug)]
pub struct Place {
    pub key: Key,
    pub arrival: u64,
}

fn place_fits(place: &Place, relation: Relation, key: &[u8]) -> bool
    ensures { result ≡ place_fits relation key.now place.now }
{
    relation.holds(place.key.as_bytes().cmp(key))
}

/// The first of all places.
fn first_of_all(places: &BTreeSet<Place>) -> Option<Place>
    ensures { IsFirstOf (λ _. true) places.now result }
{
    places.first().copied()
}

/// The first of the places that do not come before a place.
fn first_from(places: &BTreeSet<Place>, start: Place) -> Option<Place>
    ensures { IsFirstOf (is_from start) places.now result }
{
    places.range(start..).next().copied()
}

/// The first of the places whose key is in a relation to a key. The keys below it, those that are it and those
/// above it are neighbours each, so one of the three that are first there is first of all.
pub fn first_place(
    places: &BTreeSet<Place>,
    next: u64,
    relation: Relation,
    key: &[u8],
) -> Option<Place>
    requires before { AreBefore next places.now }
    requires short { is_short relation key.now ≡ true }
    ensures { IsFirstOf (place_fits relation key.now) places.now result }
{
    let below = first_of_all(places)?;
    if place_fits(&below, relation, key) {
        return Some(below);
    }
    let start = Key::new(key);
    let same = first_from(
        places,
        Place {
            key: start,
            arrival: 0,
        },
    )?;
    if place_fits(&same, relation, key) {
        return Some(same);
    }
    let above = first_from(
        places,
        Place {
            key: start,
            arrival: next,
        },
    )?;
    if place_fits(&above, relation, key) {
        Some(above)
    } else {
        None
    }
}
