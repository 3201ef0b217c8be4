//! Extents in rising order of number.
ghost use Rattle.std.specs.Prelude.{◌≡◌, ◌+◌, ◌≤◌, ◌<◌, ◌^◌, length, vec_capacity, vec_len};
ghost use Rattle.s38_space_map.specs.Extents.{AreRising, count_before, extent_there, is_there, parts_at, with_extent, without};
ghost use Rattle.s38_rules.specs.store.Room.{extent_at};

use crate::extent::Extent;
use s38_base::ObjNum;

/// How many extents have a lesser number.
fn place_of(extents: &[Extent], number: ObjNum) -> usize
    requires rising { AreRising extents.now }
    ensures place { result ≡ count_before number.0 extents.now }
    ensures within { result ≤ length extents.now }
{
    extents.partition_point(|extent| extent.number().0 < number.0)
}

/// The extent at a place is that of a number.
fn is_there(extents: &[Extent], at: usize, number: ObjNum) -> bool
    ensures { result ≡ is_there number.0 at extents.now }
{
    match extents.get(at) {
        None => false,
        Some(extent) => extent.number().0 == number.0,
    }
}

/// The extent at a place, if it is that of a number.
fn extent_there(extents: &[Extent], at: usize, number: ObjNum) -> Option<Extent>
    ensures { result ≡ extent_there number.0 at extents.now }
{
    match extents.get(at) {
        None => None,
        Some(extent) => {
            if extent.number().0 == number.0 {
                Some(*extent)
            } else {
                None
            }
        }
    }
}

/// The extent of a number.
#[tactic(auto, using(crate::proofs::SearchLaws::found_there))]
pub fn extent_at(extents: &[Extent], number: ObjNum) -> Option<Extent>
    requires { AreRising extents.now }
    ensures { result ≡ extent_at extents.now number.0 }
{
    extent_there(extents, place_of(extents, number), number)
}

/// How many parts the extent of a number has; 0 where there is none.
pub fn parts_at(extents: &[Extent], number: ObjNum) -> u64
    requires { AreRising extents.now }
    ensures parts { result ≡ parts_at number.0 extents.now }
    ensures bound { result < 2 ^ 63 }
{
    match extent_at(extents, number) {
        None => 0,
        Some(extent) => extent.parts(),
    }
}

/// Puts an extent among the others, in place of that of its number.
#[tactic(auto, using(crate::proofs::ExtentLaws::place_within, crate::proofs::ExtentLaws::place_there, crate::proofs::ExtentLaws::replaced, crate::proofs::ExtentLaws::inserted))]
pub fn put(extents: &mut Vec<Extent>, extent: Extent)
    requires rising { AreRising extents.old.items }
    requires room { vec_len extents.old < vec_capacity extents.old }
    ensures extents { extents.new.items ≡ with_extent extent extents.old.items }
    ensures one_more { vec_len extents.new ≤ vec_len extents.old + 1 }
    ensures capacity { vec_capacity extents.new ≡ vec_capacity extents.old }
{
    let at = place_of(extents.as_slice(), extent.number());
    if is_there(extents.as_slice(), at, extent.number()) {
        extents[at] = extent;
    } else {
        extents.insert(at, extent).unwrap();
    }
}

/// Takes the extent of a number out, if there is one.
#[tactic(auto, using(crate::proofs::ExtentLaws::place_there, crate::proofs::SearchLaws::removed_there, crate::proofs::SearchLaws::removed_none))]
pub fn take_out(extents: &mut Vec<Extent>, number: ObjNum)
    requires { AreRising extents.old.items }
    ensures extents { extents.new.items ≡ without number.0 extents.old.items }
    ensures no_more { vec_len extents.new ≤ vec_len extents.old }
    ensures capacity { vec_capacity extents.new ≡ vec_capacity extents.old }
{
    let at = place_of(extents.as_slice(), number);
    if is_there(extents.as_slice(), at, number) {
        extents.remove(at);
    }
}
