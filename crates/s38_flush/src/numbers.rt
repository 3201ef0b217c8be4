//! The numbers of the objects that a step must persist.
ghost use Rattle.std.specs.Prelude.{◌≡◌, [], ◌∷◌, IfOk, OnOk};
ghost use Rattle.s38_space_map.specs.Forcings.{all_forced, forced_as};
ghost use Rattle.s38_flush.specs.Numbers.{is_numbered, numbered, numbers, with_forced, with_number};

use s38_base::NoMemory;
use s38_space_map::{Forcing, Forcings};
use std::alloc::Global;

/// Adds a number in its place among rising ones, where it is not there yet.
fn add_number(into: &mut Vec<u64>, number: u64) -> Result<(), NoMemory>
    ensures { OnOk result (into.new.items ≡ with_number number into.old.items) }
{
    for at in 0..into.len() {
        let other = into[at];
        if number <= other {
            if number < other {
                into.insert(at, number)?;
            }
            return Ok(());
        }
    }
    into.push(number)?;
    Ok(())
}

/// Adds the number of the object that is spoken of, if one is.
fn add_forced(into: &mut Vec<u64>, one: Forcing) -> Result<(), NoMemory>
    ensures { OnOk result (into.new.items ≡ with_forced into.old.items (forced_as one)) }
{
    match one {
        Forcing::Ceiling => Ok(()),
        Forcing::Header(object) | Forcing::Whole(object) | Forcing::Removed(object) => {
            add_number(into, object.0)
        }
    }
}

/// The numbers of the objects that must persist, in rising order, each once.
pub(crate) fn numbers_of(alloc: Global, all: &[Forcing]) -> Result<Vec<u64>, NoMemory>
    ensures { IfOk result (λ found. found.items ≡ numbers (all_forced all.now)) }
{
    let mut found = Vec::new(alloc);
    for one in all {
        add_forced(&mut found, *one)?;
    }
    Ok(found)
}

/// Whether this speaks of no object, or of one whose number is not 0.
fn is_numbered(one: Forcing) -> bool
    ensures { result ≡ is_numbered (forced_as one) }
{
    match one {
        Forcing::Ceiling => true,
        Forcing::Header(object) | Forcing::Whole(object) | Forcing::Removed(object) => {
            object.0 != 0
        }
    }
}

/// One thing that must persist, but for what speaks of number 0.
fn numbered_one(one: Forcing) -> Forcings
    ensures { result ≡ numbered (forced_as one ∷ []) }
{
    if is_numbered(one) {
        Forcings::one(one)
    } else {
        Forcings::none()
    }
}

/// Two of them.
fn numbered_two(first: Forcing, second: Forcing) -> Forcings
    ensures { result ≡ numbered (forced_as first ∷ forced_as second ∷ []) }
{
    if !is_numbered(first) {
        return numbered_one(second);
    }
    if !is_numbered(second) {
        return Forcings::one(first);
    }
    Forcings::two(first, second)
}

/// What must persist, but for what speaks of number 0, which is the number of no object.
pub fn numbered(all: &Forcings) -> Forcings
    ensures { result ≡ numbered all.now }
{
    match all.as_slice() {
        [one] => numbered_one(*one),
        [first, second] => numbered_two(*first, *second),
        _ => Forcings::none(),
    }
}
