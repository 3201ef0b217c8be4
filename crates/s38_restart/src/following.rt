//! Each data space of a store, followed by its journal space.
ghost use Rattle.std.specs.Prelude.{◌≡◌, ◌<◌, IfOk, OnOk, Some, length, map, slice_get, slice_set};
ghost use Rattle.std.specs.List.Sorted.{IsStrictlyIncreasing};
ghost use Rattle.std.specs.Option.{option_copied, option_map};
ghost use Rattle.s38_restart.specs.catalog.Readings.{object_in_stored};
ghost use Rattle.s38_image.specs.declared.stored.Stored.{Stored as Kept};
ghost use Rattle.s38_rules.specs.state.Held.{object as object_at};
ghost use Rattle.s38_rules.specs.state.Journaling.{journal_of_port};
ghost use Rattle.s38_rules.specs.state.Parts.{data_part, over_body, part_at};
ghost use Rattle.s38_rules.specs.state.PartsAt.{journal_at, over_table};
ghost use Rattle.s38_restart.specs.Restarted.{all_followed, data_followed, imaged, number_in_stored, table_followed, with_followed};

use crate::journaled::redo;
use crate::place_of;
use s38_base::{NoMemory, ObjNum};
use s38_image::Stored;
use s38_journals::Journal;
use s38_rules::{Body, BodyPart, DataBody, Object, Port};
use std::alloc::Global;
use std::mem;

/// The number of each object.
fn numbers_of(alloc: Global, stored: &[Stored]) -> Result<Vec<u64>, NoMemory>
    ensures { IfOk result (λ numbers. numbers.items ≡ map number_in_stored stored.now) }
{
    let mut numbers = Vec::new(alloc);
    for one in stored {
        numbers.push(one.object.number.0)?;
    }
    Ok(numbers)
}

/// The object of a number, among objects of these numbers, which rise. In logarithmic time.
fn object_at<'a>(numbers: &[u64], stored: &'a [Stored], number: u64) -> Option<&'a Object>
    requires numbers { numbers.now ≡ map number_in_stored stored.now }
    requires rising { IsStrictlyIncreasing numbers.now }
    ensures { option_copied result ≡ object_at (imaged stored.now) number }
{
    match stored.get(place_of(numbers, number)) {
        Some(one) => Some(&one.object),
        None => None,
    }
}

/// What the object of a number holds, if it is of the kind. In logarithmic time.
fn part_at<'a, P: BodyPart>(numbers: &[u64], stored: &'a [Stored], number: u64) -> Option<&'a P>
    requires numbers { numbers.now ≡ map number_in_stored stored.now }
    requires rising { IsStrictlyIncreasing numbers.now }
    ensures { option_copied result ≡ part_at P.part (imaged stored.now) number }
{
    match object_at(numbers, stored, number) {
        Some(object) => P::of(&object.body),
        None => None,
    }
}

/// The journal space that a port names, if both are there.
fn journal_of_port<'a>(numbers: &[u64], stored: &'a [Stored], port: ObjNum) -> Option<&'a Journal>
    requires numbers { numbers.now ≡ map number_in_stored stored.now }
    requires rising { IsStrictlyIncreasing numbers.now }
    ensures { option_copied result ≡ option_map (journal_at (imaged stored.now)) (journal_of_port (imaged stored.now) port.0) }
{
    match part_at::<Port>(numbers, stored, port.0) {
        Some(port) => part_at::<Journal>(numbers, stored, port.journal.0),
        None => None,
    }
}

/// Follows a data space by its journal space, if it has one.
fn follow_data(
    alloc: Global,
    held: &mut DataBody,
    number: ObjNum,
    image: u64,
    journal: Option<&Journal>,
) -> Result<(), NoMemory>
    ensures { OnOk result (held.new ≡ over_table (table_followed number.0 image (option_copied journal.entry)) held.old) }
{
    match journal {
        Some(journal) => redo(alloc, &mut held.space, number, image, journal),
        None => Ok(()),
    }
}

/// Follows the body of an object by its journal space, if it is a data space that has one.
fn follow_body(
    alloc: Global,
    numbers: &[u64],
    stored: &[Stored],
    number: ObjNum,
    image: u64,
    body: &mut Body,
) -> Result<(), NoMemory>
    requires numbers { numbers.now ≡ map number_in_stored stored.now }
    requires rising { IsStrictlyIncreasing numbers.now }
    ensures { OnOk result (body.new ≡ over_body data_part (data_followed (imaged stored.now) number.0 image) body.old) }
{
    match body {
        Body::DataSpace(held) => {
            let journal = journal_of_port(numbers, stored, held.port);
            follow_data(alloc, held, number, image, journal)
        }
        _ => Ok(()),
    }
}

/// Follows the object at a place by its journal space, if it is a data space that has one.
fn follow_at(
    alloc: Global,
    numbers: &[u64],
    stored: &mut [Stored],
    at: usize,
) -> Result<(), NoMemory>
    requires there { at < length stored.old }
    requires numbers { numbers.now ≡ map number_in_stored stored.old }
    requires rising { IsStrictlyIncreasing numbers.now }
    ensures { OnOk result ((s : Kept) → slice_get stored.old at ≡ Some s → stored.new ≡ slice_set stored.old at (with_followed (imaged stored.old) s)) }
{
    let number = stored[at].object.number;
    let image = stored[at].sequence;
    let mut body = mem::replace(&mut stored[at].object.body, Body::Context);
    follow_body(alloc, numbers, stored, number, image, &mut body)?;
    stored[at].object.body = body;
    Ok(())
}

/// Follows each data space by its journal space.
fn follow_all(alloc: Global, numbers: &[u64], stored: &mut [Stored]) -> Result<(), NoMemory>
    requires numbers { numbers.now ≡ map number_in_stored stored.old }
    requires rising { IsStrictlyIncreasing numbers.now }
    ensures { OnOk result (stored.new ≡ map (with_followed (imaged stored.old)) stored.old) }
{
    for at in 0..stored.len() {
        follow_at(alloc, numbers, stored, at)?;
    }
    Ok(())
}

/// The objects alone.
fn objects_of(alloc: Global, stored: Vec<Stored>) -> Result<Vec<Object>, NoMemory>
    ensures { IfOk result (λ objects. objects.items ≡ map object_in_stored stored.items) }
{
    let mut objects = Vec::new(alloc);
    for one in stored {
        objects.push(one.object)?;
    }
    Ok(objects)
}

/// The objects of a store, whose numbers rise, each data space followed by its journal space. `NoMemory` where memory was
/// refused.
pub fn followed(alloc: Global, mut stored: Vec<Stored>) -> Result<Vec<Object>, NoMemory>
    requires { IsStrictlyIncreasing (map number_in_stored stored.items) }
    ensures { IfOk result (λ objects. objects.items ≡ all_followed stored.items) }
{
    let numbers = numbers_of(alloc, &stored)?;
    follow_all(alloc, &numbers, &mut stored)?;
    objects_of(alloc, stored)
}
